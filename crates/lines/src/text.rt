// Lines as text, each in one form, of which `read_line` gives the same line back. Each Display is written by hand, since
// its text is stated, and a derive states none.
ghost use Rattle.std.specs.Prelude.{Some};
ghost use Rattle.lines.specs.Forms.{call_tokens};
ghost use Rattle.lines.specs.Texts.{rest_text, tokens_text, line_text};
ghost use Rattle.lines.specs.Tokens.{byte_tokens};

use crate::Line;
use answers::SlipText;
use parcels::Call;
use std::fmt;

impl fmt::Display for Line {
    ghost output = { λ x. Some (line_text x) };

    fn fmt<W: fmt::Write>(&self, f: &mut fmt::Formatter<W>) -> fmt::Result {
        match self {
            Line::Blank => Ok(()),
            Line::Opening { offices, parcels } => write!(f, "{offices} offices, {parcels} parcels"),
            Line::Call { at, call } => write!(f, "at {at}: {}", CallText(*call)),
            Line::Bytes { at, bytes } => write!(f, "at {at}: bytes{}", BytesText(bytes.as_slice())),
            Line::Tick { at } => write!(f, "at {at}: tick"),
            Line::AllTick => write!(f, "all clocks tick"),
            Line::Letter { number } => write!(f, "letter {number} comes"),
            Line::AllLetters => write!(f, "all letters come"),
            Line::AllLettersLastFirst => write!(f, "all letters come, the last first"),
        }
    }
}

// A call, as what stands behind its office.
#[derive(Clone, Copy)]
struct CallText(Call);

impl fmt::Display for CallText {
    ghost output = { λ x. Some (tokens_text (call_tokens x.0)) };

    fn fmt<W: fmt::Write>(&self, f: &mut fmt::Formatter<W>) -> fmt::Result {
        match self.0 {
            Call::Accept { dest, amount } => write!(f, "accept for {dest}, {amount}"),
            Call::Send { key, to } => write!(f, "send {key} to {to}"),
            Call::SlipAgain { key } => write!(f, "slip {key}"),
            Call::TakeIn { slip } => write!(f, "take in {}", SlipText(slip)),
            Call::HandOut { key } => write!(f, "hand out {key}"),
            Call::Pay { key } => write!(f, "pay {key}"),
            Call::WhereIs { key } => write!(f, "where is {key}"),
            Call::Here { from } => write!(f, "here from {from}"),
            Call::Sums => write!(f, "sums"),
        }
    }
}

// Bytes, each behind a blank.
#[derive(Clone, Copy)]
struct BytesText<'a>(&'a [u8]);

impl fmt::Display for BytesText<'_> {
    ghost output = { λ x. Some (rest_text (byte_tokens x.0.now)) };

    fn fmt<W: fmt::Write>(&self, f: &mut fmt::Formatter<W>) -> fmt::Result {
        for byte in self.0 {
            write!(f, " {byte}")?;
        }
        Ok(())
    }
}
