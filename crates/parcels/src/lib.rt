// What clerks enter at an office and what it answers, as types. What each call does stands in specs/.
#![tactic(auto)]

ghost use Rattle.std.specs.Prelude.{◌≡◌};
ghost use Rattle.parcels.specs.Numbers.{call_number, kind_number, reason_number, answer_number, ByNumber};
ghost use Rattle.parcels.specs.Book.{leaves_it_here, was_handed_out};

// What a step did with its parcel, with its number in answers and in memory.
#[derive(Clone, Copy, Debug, PartialEq, Eq)]
pub enum Kind {
    Accepted = 0,
    SentOn = 1,
    ComeIn = 2,
    HandedOut = 3,
}

// A step that a parcel took: its number, from 0; its kind; the office that made it.
#[derive(Clone, Copy, PartialEq, Eq)]
pub struct Step {
    pub number: u64,
    pub kind: Kind,
    pub office: u32,
}

// What goes with a parcel from office to office. A step takes eight bytes: a parcel that came in with the
// largest step that a call can carry may still be sent on.
#[derive(Clone, Copy, PartialEq, Eq)]
pub struct Slip {
    pub key: u32,
    pub step: u64,
    pub from: u32,
    pub to: u32,
    pub dest: u32,
    pub amount: u32,
}

// What an office has of a parcel by its own calls: the last step made here, to where the parcel was sent
// by it (or this office), for which office it is, its amount, and whether that was paid out here. `paid` makes no Option
// of the amount, which is known from the start.
#[derive(Clone, Copy, Debug, PartialEq, Eq)]
pub struct Entry {
    pub key: u32,
    pub step: u64,
    pub kind: Kind,
    pub to: u32,
    pub dest: u32,
    pub amount: u32,
    pub paid: bool,
}

// What a clerk enters or asks.
#[derive(Clone, Copy, PartialEq, Eq)]
pub enum Call {
    Accept { dest: u32, amount: u32 },
    Send { key: u32, to: u32 },
    SlipAgain { key: u32 },
    TakeIn { slip: Slip },
    HandOut { key: u32 },
    Pay { key: u32 },
    WhereIs { key: u32 },
    Here { from: u32 },
    Sums,
}

// Why a call is turned away. The checks are made in the order of these numbers; only pay asks for an amount to be paid
// first, then whether it was paid already, and then for the news that makes it payable.
#[derive(Clone, Copy, Debug, PartialEq, Eq)]
pub enum Reason {
    Unreadable = 1,
    OutOfRange = 2,
    BadOpening = 3,
    NotHere = 4,
    WrongSlip = 5,
    OtherOffice = 6,
    NothingToPay = 7,
    PaidAlready = 8,
    OverLimit = 9,
}

// A number that no kind, or no reason, has.
#[derive(Clone, Copy, Debug, PartialEq, Eq)]
pub struct UnknownNumber(pub u64);

// A reason, and the place in the call that it is about.
#[derive(Clone, Copy, Debug, PartialEq, Eq)]
pub struct Refusal {
    pub reason: Reason,
    pub place: u64,
}

// What an office answers.
#[derive(Clone, Copy, PartialEq, Eq)]
pub enum Answer {
    Refused(Refusal),
    Number(u64),
    Given(Slip),
    At(Step),
    NothingHeard,
    Two(u64, u64),
}

impl Kind {
    // Whether a parcel is at the office that made this its last step.
    pub fn leaves_it_here(self) -> bool
        ensures { result ≡ leaves_it_here self }
    {
        matches!(self, Kind::Accepted | Kind::ComeIn)
    }

    // Whether it was handed out there.
    pub fn was_handed_out(self) -> bool
        ensures { result ≡ was_handed_out self }
    {
        self == Kind::HandedOut
    }
}

impl From<Kind> for u8 {
    ghost from_gives = { λ kind n. n ≡ kind_number kind };

    fn from(kind: Kind) -> u8 {
        kind as u8
    }
}

// The numbers of kinds stand here once more: there is no derive that reads an enum back from them.
impl TryFrom<u64> for Kind {
    type Error = UnknownNumber;

    ghost try_from_gives = { ByNumber kind_number };

    fn try_from(n: u64) -> Result<Kind, UnknownNumber> {
        match n {
            0 => Ok(Kind::Accepted),
            1 => Ok(Kind::SentOn),
            2 => Ok(Kind::ComeIn),
            3 => Ok(Kind::HandedOut),
            _ => Err(UnknownNumber(n)),
        }
    }
}

impl Call {
    // The first of its bytes: no conversion, since a call is more than that.
    pub fn number(self) -> u8
        ensures { result ≡ call_number self }
    {
        match self {
            Call::Accept { .. } => 0,
            Call::Send { .. } => 1,
            Call::SlipAgain { .. } => 2,
            Call::TakeIn { .. } => 3,
            Call::HandOut { .. } => 4,
            Call::Pay { .. } => 5,
            Call::WhereIs { .. } => 6,
            Call::Here { .. } => 7,
            Call::Sums => 8,
        }
    }
}

impl From<Reason> for u8 {
    ghost from_gives = { λ reason n. n ≡ reason_number reason };

    fn from(reason: Reason) -> u8 {
        reason as u8
    }
}

// The numbers of reasons once more, as those of kinds.
impl TryFrom<u64> for Reason {
    type Error = UnknownNumber;

    ghost try_from_gives = { ByNumber reason_number };

    fn try_from(n: u64) -> Result<Reason, UnknownNumber> {
        match n {
            1 => Ok(Reason::Unreadable),
            2 => Ok(Reason::OutOfRange),
            3 => Ok(Reason::BadOpening),
            4 => Ok(Reason::NotHere),
            5 => Ok(Reason::WrongSlip),
            6 => Ok(Reason::OtherOffice),
            7 => Ok(Reason::NothingToPay),
            8 => Ok(Reason::PaidAlready),
            9 => Ok(Reason::OverLimit),
            _ => Err(UnknownNumber(n)),
        }
    }
}

// Most reasons are about a call as a whole, which is place 0.
impl From<Reason> for Refusal {
    ghost from_gives = { λ reason refusal. (refusal.reason ≡ reason) × (refusal.place ≡ 0) };

    fn from(reason: Reason) -> Refusal {
        Refusal { reason, place: 0 }
    }
}

impl Answer {
    // The first of its bytes: no conversion either.
    pub fn number(self) -> u8
        ensures { result ≡ answer_number self }
    {
        match self {
            Answer::Refused(_) => 0,
            Answer::Number(_) => 1,
            Answer::Given(_) => 2,
            Answer::At(_) => 3,
            Answer::NothingHeard => 4,
            Answer::Two(_, _) => 5,
        }
    }
}
