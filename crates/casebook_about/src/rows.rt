//! Rows of about documents.
ghost use Rattle.std.specs.Prelude.{◌≡◌, map, option_map, string_bytes};
ghost use Rattle.serde_json.specs.View.{view};
ghost use Rattle.casebook_about.specs.Rows.{number_at, rows_read, time_row, user_row};
ghost use Rattle.casebook_about.specs.Rows.{time_view, user_view};
ghost use Rattle.casebook_about.specs.Reads.{Reads};
ghost use Rattle.casebook_about.specs.declared.fault.Part.TheVariants as parts;

use crate::fault::{AboutFault, Part};
use serde_json::Value;
use std::alloc::Global;

/// The user of a session.
#[derive(Drop)]
pub struct SessionUser {
    /// The session's number.
    pub session: u32,
    /// The user's name.
    pub user: String,
}

/// The time of a line.
#[derive(Clone, Copy, Drop)]
pub struct LineTime {
    /// The line's number.
    pub number: u32,
    /// When it was typed, in seconds since the start of 1970 (UTC).
    pub second: i64,
}

/// Returns the number of 32 bits in a cell of a row.
fn number_at(row: &Value, cell: usize) -> Option<u32>
    ensures { result ≡ number_at cell (view row.now) }
{
    match row.get(cell).and_then(Value::as_u64) {
        Some(number) if number <= u64::from(u32::MAX) => Some(number as u32),
        _ => None,
    }
}

/// Returns the session and the name that a row begins with.
fn user_of(row: &Value) -> Option<(u32, &str)>
    ensures { option_map (λ p. (p.0, p.1.now)) result ≡ user_row (view row.now) }
{
    let session = number_at(row, 0)?;
    let user = row.get(1usize).and_then(Value::as_str)?;
    Some((session, user))
}

/// Returns the number and the time that a row begins with.
fn time_of(row: &Value) -> Option<LineTime>
    ensures { option_map time_view result ≡ time_row (view row.now) }
{
    let number = number_at(row, 0)?;
    let second = row.get(1usize).and_then(Value::as_i64)?;
    Some(LineTime { number, second })
}

/// Reads the rows of sessions.
pub(crate) fn read_users(alloc: Global, rows: &[Value]) -> Result<Vec<SessionUser>, AboutFault>
    ensures { Reads (λ users. map user_view users.items) result
        (rows_read parts.Sessions user_row (map view rows.now)) }
{
    let mut users = Vec::new(alloc);
    for row in rows {
        match user_of(row) {
            Some((session, user)) => {
                let user = String::from_str(alloc, user)?;
                users.push(SessionUser { session, user })?;
            }
            None => {
                return Err(AboutFault::BadRow {
                    part: Part::Sessions,
                    place: users.len() + 1,
                });
            }
        }
    }
    Ok(users)
}

/// Reads the rows of lines.
pub(crate) fn read_times(alloc: Global, rows: &[Value]) -> Result<Vec<LineTime>, AboutFault>
    ensures { Reads (λ times. map time_view times.items) result
        (rows_read parts.Lines time_row (map view rows.now)) }
{
    let mut times = Vec::new(alloc);
    for row in rows {
        match time_of(row) {
            Some(time) => times.push(time)?,
            None => {
                return Err(AboutFault::BadRow {
                    part: Part::Lines,
                    place: times.len() + 1,
                });
            }
        }
    }
    Ok(times)
}
