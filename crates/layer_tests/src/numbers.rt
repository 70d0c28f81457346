//! Answers as the numbers that the tests expect, and not as `Result`s: the rules know a refusal by its number, and a row of
//! them fits a line.

use units::RefusalCode;

/// What a call answered, or the refusal's number.
pub(crate) fn or_number<T: From<u8>, F: Into<RefusalCode>>(answer: Result<T, F>) -> T {
    match answer {
        Ok(x) => x,
        Err(fault) => T::from(fault.into().number),
    }
}

/// The refusal's number, or 0 where the call was accepted.
pub(crate) fn number<F: Into<RefusalCode>>(answer: Result<(), F>) -> u8 {
    or_number(answer.map(|()| 0))
}
