// Answers and steps as text. Each is a type of its own, since what it shows is a type of another crate, and its Display
// is written by hand, since its text is stated, and a derive states none.
#![tactic(auto)]

ghost use Rattle.std.specs.Prelude.{Some};
ghost use Rattle.answers.specs.Texts.{kind_text, located_text, slip_text, answer_text};
ghost use Rattle.answers.specs.Order.{MadeFromValues};

use parcels::{Answer, Kind, Slip, Step};
use std::fmt;

// An answer, to be written.
#[derive(Clone, Copy)]
pub struct AnswerText(pub Answer);

impl fmt::Display for AnswerText {
    ghost output = { λ x. Some (answer_text x.0) };

    fn fmt<W: fmt::Write>(&self, f: &mut fmt::Formatter<W>) -> fmt::Result {
        match self.0 {
            Answer::Refused(refusal) => {
                write!(
                    f,
                    "refused {} at {}",
                    u8::from(refusal.reason),
                    refusal.place
                )
            }
            Answer::Number(n) => write!(f, "{n}"),
            Answer::Given(slip) => write!(f, "slip {}", SlipText(slip)),
            Answer::At(step) => {
                write!(
                    f,
                    "step {}, kind {}, office {}",
                    step.number,
                    u8::from(step.kind),
                    step.office
                )
            }
            Answer::NothingHeard => write!(f, "nothing heard"),
            Answer::Two(a, b) => write!(f, "{a} {b}"),
        }
    }
}

// An answer's text is made from the values that its bytes carry, in the same order: a theorem, with no code of its own.
pub fn answers_are_made_from_values()
    ensures { MadeFromValues }
{}

// A slip, to be written from its key on, as a line that takes it in says it.
#[derive(Clone, Copy)]
pub struct SlipText(pub Slip);

impl fmt::Display for SlipText {
    ghost output = { λ x. Some (slip_text x.0) };

    fn fmt<W: fmt::Write>(&self, f: &mut fmt::Formatter<W>) -> fmt::Result {
        let slip = self.0;
        write!(
            f,
            "{}: {} {} {} {} {}",
            slip.key, slip.step, slip.from, slip.to, slip.dest, slip.amount
        )
    }
}

// What a step did, to be written.
#[derive(Clone, Copy)]
pub struct KindText(pub Kind);

impl fmt::Display for KindText {
    ghost output = { λ x. Some (kind_text x.0) };

    fn fmt<W: fmt::Write>(&self, f: &mut fmt::Formatter<W>) -> fmt::Result {
        f.write_str(match self.0 {
            Kind::Accepted => "accepted",
            Kind::SentOn => "sent on",
            Kind::ComeIn => "come in",
            Kind::HandedOut => "handed out",
        })
    }
}

// The last step that is known of a parcel.
#[derive(Clone, Copy)]
pub struct Located {
    pub key: u32,
    pub step: Step,
}

impl fmt::Display for Located {
    ghost output = { λ x. Some (located_text x.key x.step) };

    fn fmt<W: fmt::Write>(&self, f: &mut fmt::Formatter<W>) -> fmt::Result {
        let step = self.step;
        write!(
            f,
            "{}: step {}, {} at {}",
            self.key,
            step.number,
            KindText(step.kind),
            step.office
        )
    }
}
