// A report as one text: what is shown, and behind it that it stopped, or the bad line.
use player::{End, Report};
use std::alloc::{AllocError, Global};
use std::process::Abort;
use std::test::Fail;

fn whole(heap: Global, report: Report) -> Result<String, AllocError> {
    let shown = report.shown;
    match report.end {
        Ok(End::Done) => Ok(shown),
        Ok(End::Stopped) => format!(in heap; "{shown}(stopped)"),
        Err(bad) => format!(in heap; "{shown}line {bad}"),
    }
}

// Checks that the report of each file is the text beside it. (What is given is taken as a report by `into`: where the
// call gives a report itself, which may hold a `&'static str`, the check makes no proof.)
pub(crate) fn check<R: Into<Report>, F: Fn(Global, &[u8]) -> R>(
    rt: &(impl Abort + AllocGlobal),
    report: F,
    files: &[(&[u8], &str)],
) -> Result<(), Fail>
    requires { F.IsAlwaysCallable report }
{
    for (file, expected) in files {
        let text = whole(rt.alloc(), report(rt.alloc(), file).into())?;
        assert_eq!(rt; text.as_str(), *expected);
    }
    Ok(())
}
