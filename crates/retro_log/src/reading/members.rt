//! Reads the members of a document's object, one after another.
ghost use Rattle.std.specs.Prelude.{◌≡◌, Err, IfOk, MatchOption, None, Some};
ghost use Rattle.serde_json.specs.Data.{Data, Members, no_members, object, put};
ghost use Rattle.serde_json.specs.Find.{as_object};
ghost use Rattle.serde_json.specs.Read.{read as read_text};
ghost use Rattle.retro_value.specs.Left.{members_left, value_left};
ghost use Rattle.retro_value.specs.declared.error.ReadError.TheVariants.{NotJson};
ghost use Rattle.retro_log.specs.Document.{line_number_in};
ghost use Rattle.retro_log.specs.inner.Parts.{parts_of};
ghost use Rattle.retro_log.specs.inner.PartsView.{parts_view};

use crate::reading::document::{MEMBER_DEPTH, line_number, read_version};
use crate::reading::line::Line;
use crate::reading::lines::read_lines;
use crate::reading::parts::Parts;
use json::{Reader, Scratch};
use retro_json::{OrRefusal, read_session_rows, read_tree_rows};
use retro_value::{DEPTH, ReadError, begins_object, pass_value, read_value};
use std::alloc::Global;

/// Reads the number of a line from the next value.
fn read_number(alloc: Global, reader: &mut Reader<'_>) -> Result<OrRefusal<u32>, ReadError>
    ensures value { IfOk result (λ number. (d : Data)
        × (value_left 126 reader.old ≡ Some (d, reader.new)) × (number ≡ line_number_in d)) }
    ensures not_json { result ≡ Err NotJson → value_left 126 reader.old ≡ None }
{
    Ok(line_number(&read_value(alloc, reader, MEMBER_DEPTH)?))
}

/// Returns the parts of a document with one more member, whose value is next.
fn with_member<L: Line>(
    alloc: Global,
    parts: Parts<L>,
    key: &str,
    reader: &mut Reader<'_>,
) -> Result<Parts<L>, ReadError>
    ensures value { IfOk result (λ more. (d : Data)
        × (value_left 126 reader.old ≡ Some (d, reader.new))
        × ((ms : Members) → parts_view parts ≡ parts_of L.kind L.line_of ms
        → parts_view more ≡ parts_of L.kind L.line_of (put key.now d ms))) }
    ensures not_json { result ≡ Err NotJson → value_left 126 reader.old ≡ None }
{
    let mut parts = parts;
    match key {
        "from" => parts.from = Some(read_number(alloc, reader)?),
        "tree" => parts.tree = Some(read_tree_rows(alloc, reader, MEMBER_DEPTH)?),
        "sessions" => parts.sessions = Some(read_session_rows(alloc, reader, MEMBER_DEPTH)?),
        "lines" => parts.lines = Some(read_lines(alloc, reader, MEMBER_DEPTH)?),
        _ if key == L::version_key() => parts.version = Some(read_version(alloc, reader)?),
        _ => {
            pass_value(alloc, reader, MEMBER_DEPTH)?;
            parts.is_known = false;
        }
    }
    Ok(parts)
}

/// Reads the members that are left of a document's object.
fn read_members<L: Line>(alloc: Global, reader: &mut Reader<'_>) -> Result<Parts<L>, ReadError>
    ensures value { IfOk result (λ parts. (ms : Members)
        × (members_left 126 no_members reader.old ≡ Some (ms, reader.new))
        × (parts_view parts ≡ parts_of L.kind L.line_of ms)) }
    ensures not_json { result ≡ Err NotJson → members_left 126 no_members reader.old ≡ None }
{
    let mut parts = Parts::new();
    'members: while let Some(key) = reader.next_key()? {
        parts = with_member(alloc, parts, key, reader)?;
    }
    Ok(parts)
}

/// Reads the parts of a document from the next value, or returns `None` if it isn't an object.
fn read_object<L: Line>(
    alloc: Global,
    reader: &mut Reader<'_>,
) -> Result<Option<Parts<L>>, ReadError>
    ensures value { IfOk result (λ found. MatchOption found
        ((d : Data) × (value_left 127 reader.old ≡ Some (d, reader.new)) × (as_object d ≡ None))
        (λ parts. (ms : Members) × (value_left 127 reader.old ≡ Some (object ms, reader.new))
        × (parts_view parts ≡ parts_of L.kind L.line_of ms))) }
    ensures not_json { result ≡ Err NotJson → value_left 127 reader.old ≡ None }
{
    if begins_object(alloc, reader, DEPTH)? {
        Ok(Some(read_members(alloc, reader)?))
    } else {
        Ok(None)
    }
}

/// Reads the parts of a document from its text, or returns `None` if the text is a value other than
/// an object.
pub fn read_parts<L: Line>(alloc: Global, text: &str) -> Result<Option<Parts<L>>, ReadError>
    ensures value { IfOk result (λ found. MatchOption found
        ((d : Data) × (read_text text.now ≡ Some d) × (as_object d ≡ None))
        (λ parts. (ms : Members) × (read_text text.now ≡ Some (object ms))
        × (parts_view parts ≡ parts_of L.kind L.line_of ms))) }
    ensures not_json { result ≡ Err NotJson → read_text text.now ≡ None }
{
    let mut scratch = Scratch::new(alloc);
    let mut reader = Reader::new(text, &mut scratch)?;
    let found = read_object(alloc, &mut reader)?;
    if reader.next().is_some() {
        return Err(ReadError::NotJson);
    }
    Ok(found)
}
