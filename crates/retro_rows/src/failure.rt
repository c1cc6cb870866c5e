//! Failures of tests.
use std::test::Fail;

/// Returns a failure with a reason.
pub fn fail<T>(why: &'static str) -> Result<T, Fail> {
    Err(why)?
}
