// What a line was read as, as a text for the tables: each field by its name, or the fault.
use lines::{Fault, Line, read_line};
use parcels::Call;
use std::alloc::{AllocError, Global};
use std::fmt;
use std::process::Abort;
use std::test::Fail;

// Checks that each line is read as the text beside it says.
pub(crate) fn check_lines(
    rt: &(impl Abort + AllocGlobal),
    table: &[(&[u8], &str)],
) -> Result<(), Fail> {
    for (line, expected) in table {
        assert_eq!(rt; show(rt.alloc(), line)?.as_str(), *expected);
    }
    Ok(())
}

// Checks that the example that is shown with a bad line is itself a line.
pub(crate) fn check_example(rt: &(impl Abort + AllocGlobal), bad_line: &[u8]) -> Result<(), Fail> {
    match read_line(rt.alloc(), bad_line) {
        Err(
            Fault::Expected { example, .. }
            | Fault::ExpectedToken { example, .. }
            | Fault::NotAscii { example },
        ) => {
            assert!(rt; read_line(rt.alloc(), example.as_bytes()).is_ok());
            Ok(())
        }
        _ => Err(Fail::new("no example")),
    }
}

pub(crate) fn show(heap: Global, line: &[u8]) -> Result<String, AllocError> {
    match read_line(heap, line) {
        Ok(read) => ShownLine(read).to_string(heap),
        Err(fault) => fault.to_string(heap),
    }
}

// The tables have other words than a derived `Debug` would write.
#[derive(Drop)]
struct ShownLine(Line);

impl fmt::Display for ShownLine {
    fn fmt<W: fmt::Write>(&self, f: &mut fmt::Formatter<W>) -> fmt::Result {
        match &self.0 {
            Line::Blank => write!(f, "blank"),
            Line::Opening { offices, parcels } => write!(f, "offices={offices} parcels={parcels}"),
            Line::Call { at, call } => write!(f, "at={at} {}", ShownCall(*call)),
            Line::Bytes { at, bytes } => write!(f, "at={at} bytes={bytes:?}"),
            Line::Tick { at } => write!(f, "at={at} tick"),
            Line::AllTick => write!(f, "all tick"),
            Line::Letter { number } => write!(f, "letter={number}"),
            Line::AllLetters => write!(f, "all letters"),
            Line::AllLettersLastFirst => write!(f, "all letters, last first"),
        }
    }
}

#[derive(Clone, Copy)]
struct ShownCall(Call);

impl fmt::Display for ShownCall {
    fn fmt<W: fmt::Write>(&self, f: &mut fmt::Formatter<W>) -> fmt::Result {
        match self.0 {
            Call::Accept { dest, amount } => write!(f, "accept dest={dest} amount={amount}"),
            Call::Send { key, to } => write!(f, "send key={key} to={to}"),
            Call::SlipAgain { key } => write!(f, "slip key={key}"),
            Call::TakeIn { slip } => write!(
                f,
                "take in key={} step={} from={} to={} dest={} amount={}",
                slip.key, slip.step, slip.from, slip.to, slip.dest, slip.amount
            ),
            Call::HandOut { key } => write!(f, "hand out key={key}"),
            Call::Pay { key } => write!(f, "pay key={key}"),
            Call::WhereIs { key } => write!(f, "where is key={key}"),
            Call::Here { from } => write!(f, "here from={from}"),
            Call::Sums => write!(f, "sums"),
        }
    }
}
