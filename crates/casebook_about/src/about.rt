//! About documents.
ghost use Rattle.std.specs.Prelude.{◌≡◌, map};
ghost use Rattle.serde_json.specs.View.{view};
ghost use Rattle.casebook_about.specs.About.{about_in, about_of, about_view, is_about, list_under};
ghost use Rattle.casebook_about.specs.About.{parsed};
ghost use Rattle.casebook_about.specs.Reads.{Reads};

use crate::fault::{AboutFault, Part};
use crate::rows::{LineTime, SessionUser, read_times, read_users};
use serde_json::Value;
use std::alloc::Global;

/// What is known of a log beside its documents.
#[derive(Drop)]
pub struct About {
    /// The users of sessions, in the document's order.
    pub users: Vec<SessionUser>,
    /// The times of lines, in the document's order.
    pub times: Vec<LineTime>,
}

/// Returns whether a value says that it is an about document.
fn is_about(value: &Value) -> bool
    ensures { result ≡ is_about (view value.now) }
{
    match value.get("about").and_then(Value::as_u64) {
        Some(version) => version == 1,
        None => false,
    }
}

/// Returns the list under a key, or no items if there is no such key.
#[tactic(auto, using(crate::proofs::RowLemmas::items_listed))]
fn list_under<'v>(part: Part, key: &str, value: &'v Value) -> Result<&'v [Value], AboutFault>
    ensures { Reads (λ items. map view items.now) result
        (list_under part key.now (view value.now)) }
{
    match value.get(key) {
        None => Ok(&[]),
        Some(list) => match list.as_array() {
            Some(items) => Ok(items.as_slice()),
            None => Err(AboutFault::NotAList(part)),
        },
    }
}

/// Reads an about document from its value.
fn about_of(alloc: Global, value: &Value) -> Result<About, AboutFault>
    ensures { Reads about_view result (about_of (view value.now)) }
{
    if !is_about(value) {
        return Err(AboutFault::NotAbout);
    }
    let sessions = list_under(Part::Sessions, "sessions", value)?;
    let lines = list_under(Part::Lines, "lines", value)?;
    Ok(About {
        users: read_users(alloc, sessions)?,
        times: read_times(alloc, lines)?,
    })
}

/// Parses a text as a JSON value.
fn parse(alloc: Global, text: &str) -> Result<Value, AboutFault>
    ensures { Reads view result (parsed text.now) }
{
    match Value::from_str(alloc, text) {
        Ok(value) => Ok(value),
        Err(error) if error.is_memory() => Err(AboutFault::NoMem),
        Err(_) => Err(AboutFault::NotJson),
    }
}

/// Reads an about document. What it says twice it says twice: `About` has all rows.
#[tactic(auto, unfolding(crate::specs::About::about_in))]
pub fn read_about(alloc: Global, text: &str) -> Result<About, AboutFault>
    ensures { Reads about_view result (about_in text.now) }
{
    let value = parse(alloc, text)?;
    about_of(alloc, &value)
}
