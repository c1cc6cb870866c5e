//! Times as text.
ghost use Rattle.std.specs.Prelude.{◌≡◌, ◌++◌, IfOk, string_bytes};
ghost use Rattle.casebook_about.specs.Time.{IsInstantText, IsTimeText, instant_in, last_second_in};
ghost use Rattle.casebook_about.specs.Time.{second_in};

use jiff::{Error, Timestamp};
use std::alloc::{AllocError, Global};

/// How a time is shown: the month's short name, the day, the hour and the minute.
pub const TIME_FORMAT: &str = "%b %d %H:%M";

/// Returns a time, in seconds since the start of 1970 (UTC), as `jiff` shows it in the form of
/// [`TIME_FORMAT`]. Fails with `Range` if the time isn't in one of the years -9999 to 9999.
pub fn time_text(alloc: Global, second: i64) -> Result<String, Error>
    ensures { IfOk result (λ text. IsTimeText second (string_bytes text)) }
{
    Timestamp::from_second(second)?.strftime(alloc, TIME_FORMAT)
}

/// How an instant is written in documents: its date and its time of day in UTC (RFC 3339).
const INSTANT_FORMAT: &str = "%Y-%m-%dT%H:%M:%SZ";

/// Returns the instant of a time, in seconds since the start of 1970 (UTC), as documents write it:
/// `2025-05-07T17:00:00Z`. Fails with `Range` if the time isn't in one of the years -9999 to 9999.
pub fn instant_text(alloc: Global, second: i64) -> Result<String, Error>
    ensures { IfOk result (λ text. IsInstantText second (string_bytes text)) }
{
    Timestamp::from_second(second)?.strftime(alloc, INSTANT_FORMAT)
}

/// Returns the second of the instant that a text names, or `None` if the text names none.
fn second_of_instant(text: &str) -> Option<i64>
    ensures { result ≡ instant_in text.now }
{
    match text.parse::<Timestamp>() {
        Ok(instant) => Some(instant.as_second()),
        Err(_) => None,
    }
}

/// Returns the second of the instant that a text with an end appended names, or `None` if it names
/// none.
fn second_with(alloc: Global, text: &str, end: &str) -> Result<Option<i64>, AllocError>
    ensures { IfOk result (λ second. second ≡ instant_in (text.now ++ end.now)) }
{
    let mut whole = String::from_str(alloc, text)?;
    whole.push_str(end)?;
    Ok(second_of_instant(whole.as_str()))
}

/// Returns the time that a text names, in seconds since the start of 1970 (UTC), or `None` if it
/// names none. A text is a date and a time of day, such as `2025-05-06 10:30`, or a date alone,
/// which stands for its first second. Both are in UTC, unless the text ends with another offset
/// (RFC 3339). A part of a second doesn't count.
#[tactic(auto, unfolding(crate::specs::Time::second_in))]
pub fn second_of(alloc: Global, text: &str) -> Result<Option<i64>, AllocError>
    ensures { IfOk result (λ second. second ≡ second_in text.now) }
{
    if let Some(second) = second_of_instant(text) {
        return Ok(Some(second));
    }
    match second_with(alloc, text, "Z")? {
        Some(second) => Ok(Some(second)),
        None => second_with(alloc, text, " 00:00Z"),
    }
}

/// Returns the last second of the time that a text names, as [`second_of`] reads it, or `None` if
/// it names none. In UTC a date lasts a day, a time of day without minutes an hour, and one without
/// seconds a minute. Another time lasts a second.
#[tactic(auto, unfolding(crate::specs::Time::last_second_in))]
pub fn last_second_of(alloc: Global, text: &str) -> Result<Option<i64>, AllocError>
    ensures { IfOk result (λ second. second ≡ last_second_in text.now) }
{
    if let Some(second) = second_with(alloc, text, " 23:59:59Z")? {
        return Ok(Some(second));
    }
    if let Some(second) = second_with(alloc, text, ":59:59Z")? {
        return Ok(Some(second));
    }
    match second_with(alloc, text, ":59Z")? {
        Some(second) => Ok(Some(second)),
        None => second_of(alloc, text),
    }
}
