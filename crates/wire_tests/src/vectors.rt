// All vectors in one test, since each test is proved by itself.
use crate::answers::check_answers;
use crate::calls::check_calls;
use crate::lent::check_too_few;
use crate::no_answers::check_no_answers;
use crate::no_calls::check_no_calls;
use std::test::Fail;

#[test]
fn vectors(rt: HostRuntime) -> Result<(), Fail> {
    check_calls(&rt);
    check_no_calls(&rt)?;
    check_answers(&rt);
    check_no_answers(&rt);
    check_too_few(&rt);
    Ok(())
}
