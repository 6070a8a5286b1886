// Lines of a world file, which says what happens at a post's offices.
#![tactic(auto)]

ghost use Rattle.std.specs.Prelude.{◌≡◌, ◌≢◌, ◌↔◌, ◌⊎◌, ℕ, IsTrue, IfOk, IfErr, IfSome, IfNone, Ok, List, [], drop, codes};
ghost use Rattle.lines.specs.Tokens.{is_blank_line, Stand};
ghost use Rattle.lines.specs.Forms.{beginning_word, name_word, deed_word, way_tokens, slip_tokens, call_tokens, line_tokens, GoOn, GoOnAt, Says, IsNoLine, OnlyLine, IsRead, Reads};
ghost use Rattle.lines.specs.Texts.{ReadsWritten};
ghost use Rattle.lines.specs.Faults.{name_example};
ghost use Rattle.lines.specs.declared.Beginning.{Beginning};
ghost use Rattle.lines.specs.declared.CallName.{CallName};
ghost use Rattle.lines.specs.declared.Deed.{Deed};
ghost use Rattle.lines.specs.declared.Line.{Line};
ghost use Rattle.lines.specs.declared.Line.TheVariants.{Blank, Opening, Letter};
ghost use Rattle.lines.specs.declared.fault.Fault.TheVariants.{NoMemory};
ghost use Rattle.parcels.specs.declared.Call.{Call};
ghost use Rattle.parcels.specs.declared.Call.TheVariants.{Accept, Send, TakeIn};
ghost use Rattle.parcels.specs.declared.Slip.{Slip};

mod fault;
mod reader;
mod text;

pub use fault::Fault;
use parcels::{Call, Slip};
use reader::Reader;
use std::alloc::Global;

// A line. `at` is the office at which something is done.
#[derive(Drop)]
pub enum Line {
    // Nothing but blanks, or a comment, which begins with '#'. No None: it is a line, and whoever reads lines passes it
    // over in a match that has to be made anyway.
    Blank,
    Opening { offices: u32, parcels: u32 },
    Call { at: u32, call: Call },
    // A call as bytes, which need not be a good one.
    Bytes { at: u32, bytes: Vec<u8> },
    Tick { at: u32 },
    AllTick,
    Letter { number: u32 },
    AllLetters,
    AllLettersLastFirst,
}

// Reads one line, which is given without its newline and may hold any bytes.
#[tactic(auto, using(crate::proofs::Unique::only_line, crate::proofs::Only::only_where, crate::proofs::Back::reads_written))]
pub fn read_line(heap: Global, line: &[u8]) -> Result<Line, Fault>
    ensures blank { (result ≡ Ok Blank) ↔ IsTrue (is_blank_line line.now) }
    ensures value { IfOk result (Says line.now) }
    ensures reads { Reads line.now result }
    ensures only { IfErr result (λ fault. fault ≡ NoMemory ⊎ IsNoLine line.now) }
    ensures unique { OnlyLine line.now }
    ensures written { ReadsWritten line.now result }
{
    let mut reader = Reader::new(heap, line);
    if reader.at_end() || reader.at_comment() {
        return Ok(Line::Blank);
    }
    read_whole(&mut reader)
}

// The line that begins here and ends where nothing is left.
fn read_whole(reader: &mut Reader) -> Result<Line, Fault>
    requires { reader.old ≢ [] }
    ensures value { IfOk result (λ line. Stand (line_tokens line) reader.old []) }
    ensures reads { (line : Line) → Stand (line_tokens line) reader.old [] → IsRead line result }
{
    let line = read_form(reader)?;
    reader.end()?;
    Ok(line)
}

// The line that begins here, where something is left to read.
#[tactic(auto, using(crate::proofs::Said::line_from))]
fn read_form(reader: &mut Reader) -> Result<Line, Fault>
    requires { reader.old ≢ [] }
    ensures value { IfOk result (λ line. Stand (line_tokens line) reader.old reader.new) }
    ensures reads { (line : Line) → Stand (line_tokens line) reader.old [] → IsRead line result }
{
    if reader.at_number() {
        return read_opening(reader);
    }
    match Beginning::read(reader.word()) {
        Some(Beginning::At) => read_at(reader),
        Some(Beginning::All) => read_all(reader),
        Some(Beginning::Letter) => read_letter(reader),
        None => Err(reader.no_line()),
    }
}

// The first word of a line that begins with a word.
#[derive(Clone, Copy)]
enum Beginning {
    At,
    All,
    Letter,
}

impl Beginning {
    fn read(word: &[u8]) -> Option<Beginning>
        ensures value { IfSome result (λ beginning. word.now ≡ beginning_word beginning) }
        ensures only { IfNone result ((beginning : Beginning) → word.now ≢ beginning_word beginning) }
    {
        Some(match word {
            b"at" => Beginning::At,
            b"all" => Beginning::All,
            b"letter" => Beginning::Letter,
            _ => return None,
        })
    }
}

// 3 offices, 8 parcels
fn read_opening(reader: &mut Reader) -> Result<Line, Fault>
    ensures value { IfOk result (λ line. Stand (line_tokens line) reader.old reader.new) }
    ensures reads { (offices parcels : ℕ) → Stand (line_tokens (Opening offices parcels)) reader.old [] → result ≡ Ok (Opening offices parcels) }
{
    reader.set_example("3 offices, 8 parcels");
    let offices = reader.number()?;
    reader.expect("offices")?;
    reader.expect_mark(",")?;
    let parcels = reader.number()?;
    reader.expect("parcels")?;
    Ok(Line::Opening { offices, parcels })
}

// What stands after 'letter': 0 comes
fn read_letter(reader: &mut Reader) -> Result<Line, Fault>
    ensures value { IfOk result (λ line. GoOn (codes "letter") (line_tokens line) reader.old reader.new) }
    ensures reads { (number : ℕ) → GoOn (codes "letter") (line_tokens (Letter number)) reader.old [] → result ≡ Ok (Letter number) }
{
    reader.set_example("letter 0 comes");
    let number = reader.number()?;
    reader.expect("comes")?;
    Ok(Line::Letter { number })
}

// What stands after 'all': clocks tick, letters come, or letters come, the last first
fn read_all(reader: &mut Reader) -> Result<Line, Fault>
    ensures value { IfOk result (λ line. GoOn (codes "all") (line_tokens line) reader.old reader.new) }
    ensures reads { (line : Line) → GoOn (codes "all") (line_tokens line) reader.old [] → result ≡ Ok line }
{
    reader.set_example("all clocks tick");
    match reader.word() {
        b"clocks" => {
            reader.expect("tick")?;
            Ok(Line::AllTick)
        }
        b"letters" => read_letters(reader),
        _ => Err(reader.expected("'clocks' or 'letters'")),
    }
}

// What stands after 'all letters'.
fn read_letters(reader: &mut Reader) -> Result<Line, Fault>
    ensures value { IfOk result (λ line. GoOn (codes "letters") (drop 1 (line_tokens line)) reader.old reader.new) }
    ensures reads { (line : Line) → GoOn (codes "letters") (drop 1 (line_tokens line)) reader.old [] → result ≡ Ok line }
{
    reader.set_example("all letters come");
    reader.expect("come")?;
    reader.set_example("all letters come, the last first");
    if !reader.take(",") {
        return Ok(Line::AllLetters);
    }
    reader.expect("the")?;
    reader.expect("last")?;
    reader.expect("first")?;
    Ok(Line::AllLettersLastFirst)
}

// What stands after 'at'.
fn read_at(reader: &mut Reader) -> Result<Line, Fault>
    ensures value { IfOk result (λ line. GoOn (codes "at") (line_tokens line) reader.old reader.new) }
    ensures reads { (line : Line) → GoOn (codes "at") (line_tokens line) reader.old [] → IsRead line result }
{
    let at = reader.number()?;
    reader.expect_mark(":")?;
    read_at_office(at, reader)
}

// What stands after 'at', an office's number and ':'.
fn read_at_office(at: u32, reader: &mut Reader) -> Result<Line, Fault>
    ensures value { IfOk result (λ line. GoOnAt at line reader.old reader.new) }
    ensures reads { (line : Line) → GoOnAt at line reader.old [] → IsRead line result }
{
    match Deed::read(reader.word()) {
        Some(Deed::Call(name)) => {
            let call = read_call(name, reader)?;
            Ok(Line::Call { at, call })
        }
        Some(Deed::Bytes) => {
            reader.set_example("at 0: bytes 9 0 0 0 0");
            let bytes = reader.bytes()?;
            Ok(Line::Bytes { at, bytes })
        }
        Some(Deed::Tick) => {
            reader.set_example("at 0: tick");
            Ok(Line::Tick { at })
        }
        None => Err(reader.expected(
            "accept, send, slip, take in, hand out, pay, where is, here, sums, bytes or tick",
        )),
    }
}

// The first word of what is done at an office.
#[derive(Clone, Copy)]
enum Deed {
    Call(CallName),
    Bytes,
    Tick,
}

impl Deed {
    fn read(word: &[u8]) -> Option<Deed>
        ensures value { IfSome result (λ deed. word.now ≡ deed_word deed) }
        ensures only { IfNone result ((deed : Deed) → word.now ≢ deed_word deed) }
    {
        match word {
            b"bytes" => Some(Deed::Bytes),
            b"tick" => Some(Deed::Tick),
            _ => Some(Deed::Call(CallName::read(word)?)),
        }
    }
}

// The first word of a call.
#[derive(Clone, Copy)]
enum CallName {
    Accept,
    Send,
    Slip,
    Take,
    Hand,
    Pay,
    Where,
    Here,
    Sums,
}

impl CallName {
    fn read(word: &[u8]) -> Option<CallName>
        ensures value { IfSome result (λ name. word.now ≡ name_word name) }
        ensures only { IfNone result ((name : CallName) → word.now ≢ name_word name) }
    {
        Some(match word {
            b"accept" => CallName::Accept,
            b"send" => CallName::Send,
            b"slip" => CallName::Slip,
            b"take" => CallName::Take,
            b"hand" => CallName::Hand,
            b"pay" => CallName::Pay,
            b"where" => CallName::Where,
            b"here" => CallName::Here,
            b"sums" => CallName::Sums,
            _ => return None,
        })
    }

    // A line with this call, to be shown where a line doesn't fit.
    fn example(self) -> &'static str
        ensures { result.now ≡ name_example self }
    {
        match self {
            CallName::Accept => "at 0: accept for 2, 50",
            CallName::Send => "at 0: send 0 to 1",
            CallName::Slip => "at 0: slip 0",
            CallName::Take => "at 1: take in 0: 1 0 1 2 50",
            CallName::Hand => "at 1: hand out 0",
            CallName::Pay => "at 0: pay 0",
            CallName::Where => "at 0: where is 0",
            CallName::Here => "at 1: here from 0",
            CallName::Sums => "at 2: sums",
        }
    }
}

// The call with this first word, from what stands behind it.
fn read_call(name: CallName, reader: &mut Reader) -> Result<Call, Fault>
    ensures value { IfOk result (λ call. GoOn (name_word name) (call_tokens call) reader.old reader.new) }
    ensures reads { (call : Call) → GoOn (name_word name) (call_tokens call) reader.old [] → result ≡ Ok call }
{
    reader.set_example(name.example());
    match name {
        CallName::Accept => read_accept(reader),
        CallName::Send => read_send(reader),
        CallName::Slip => Ok(Call::SlipAgain {
            key: reader.number()?,
        }),
        CallName::Take => read_take_in(reader),
        CallName::Hand => {
            reader.expect("out")?;
            Ok(Call::HandOut {
                key: reader.number()?,
            })
        }
        CallName::Pay => Ok(Call::Pay {
            key: reader.number()?,
        }),
        CallName::Where => {
            reader.expect("is")?;
            Ok(Call::WhereIs {
                key: reader.number()?,
            })
        }
        CallName::Here => {
            reader.expect("from")?;
            Ok(Call::Here {
                from: reader.number()?,
            })
        }
        CallName::Sums => Ok(Call::Sums),
    }
}

// accept for 2, 50
fn read_accept(reader: &mut Reader) -> Result<Call, Fault>
    ensures value { IfOk result (λ call. GoOn (codes "accept") (call_tokens call) reader.old reader.new) }
    ensures reads { (dest amount : ℕ) → GoOn (codes "accept") (call_tokens (Accept dest amount)) reader.old [] → result ≡ Ok (Accept dest amount) }
{
    reader.expect("for")?;
    let dest = reader.number()?;
    reader.expect_mark(",")?;
    let amount = reader.number()?;
    Ok(Call::Accept { dest, amount })
}

// send 0 to 1
fn read_send(reader: &mut Reader) -> Result<Call, Fault>
    ensures value { IfOk result (λ call. GoOn (codes "send") (call_tokens call) reader.old reader.new) }
    ensures reads { (key to : ℕ) → GoOn (codes "send") (call_tokens (Send key to)) reader.old [] → result ≡ Ok (Send key to) }
{
    let key = reader.number()?;
    reader.expect("to")?;
    let to = reader.number()?;
    Ok(Call::Send { key, to })
}

// take in 0: 1 0 1 2 50
fn read_take_in(reader: &mut Reader) -> Result<Call, Fault>
    ensures value { IfOk result (λ call. GoOn (codes "take") (call_tokens call) reader.old reader.new) }
    ensures reads { (slip : Slip) → GoOn (codes "take") (call_tokens (TakeIn slip)) reader.old [] → result ≡ Ok (TakeIn slip) }
{
    reader.expect("in")?;
    let slip = read_slip(reader)?;
    Ok(Call::TakeIn { slip })
}

// 0: 1 0 1 2 50, a slip from its key on
fn read_slip(reader: &mut Reader) -> Result<Slip, Fault>
    ensures value { IfOk result (λ slip. Stand (slip_tokens slip) reader.old reader.new) }
    ensures reads { (slip : Slip) → Stand (slip_tokens slip) reader.old [] → result ≡ Ok slip }
{
    let key = reader.number()?;
    reader.expect_mark(":")?;
    read_way(key, reader)
}

// The slip with this key, from what stands behind ':': step, from, to, dest and amount.
fn read_way(key: u32, reader: &mut Reader) -> Result<Slip, Fault>
    ensures value { IfOk result (λ slip. (slip.key ≡ key) × Stand (way_tokens slip) reader.old reader.new) }
    ensures reads { (slip : Slip) → slip.key ≡ key → Stand (way_tokens slip) reader.old [] → result ≡ Ok slip }
{
    Ok(Slip {
        key,
        step: u64::from(reader.number()?),
        from: reader.number()?,
        to: reader.number()?,
        dest: reader.number()?,
        amount: reader.number()?,
    })
}
