//! The calls of rows.
use crate::streams::{changed, stream, summed, text_or_hex};
use casebook_tar::{Member, MemberKind, read_members};
use retro_rows::utf8;
use std::alloc::Global;
use std::test::Fail;

/// Returns a member as text: its mode, owner and group, size, kind, name, what it leads to, and its
/// bytes if there are at most 8.
fn member_text(alloc: Global, member: &Member, bytes: &[u8]) -> Result<String, Fail> {
    let name = text_or_hex(alloc, member.name.as_slice())?;
    let data = member.contents.of(bytes);
    let mut out = format!(in alloc;
        "{:o} {}/{} {} {:?} {}",
        member.mode,
        member.uid,
        member.gid,
        member.contents.length,
        member.kind,
        name.as_str()
    )?;
    if !member.target.is_empty() {
        out.push_str(" -> ")?;
        out.push_str(utf8(member.target.as_slice())?)?;
    }
    if data.len() <= 8 && !data.is_empty() {
        out.push_str(" = ")?;
        out.push_str(hex::encode(alloc, data)?.as_str())?;
    }
    Ok(out)
}

/// Returns the members of a stream as text, or its fault.
fn members_text(alloc: Global, bytes: &[u8]) -> Result<String, Fail> {
    let members = match read_members(alloc, bytes) {
        Ok(members) => members,
        Err(error) => return Ok(format!(in alloc; "{error:?}")?),
    };
    let mut out = String::new(alloc);
    for member in &members {
        if !out.is_empty() {
            out.push_str("; ")?;
        }
        out.push_str(member_text(alloc, member, bytes)?.as_str())?;
    }
    Ok(out)
}

/// Returns the members of a stream.
pub fn members(alloc: Global, parts: &str) -> Result<String, Fail> {
    members_text(alloc, stream(alloc, parts)?.as_slice())
}

/// Returns the members of so many bytes of a stream.
pub fn first(alloc: Global, parts: &str, count: &str) -> Result<String, Fail> {
    let mut bytes = stream(alloc, parts)?;
    bytes.truncate(count.parse()?);
    members_text(alloc, bytes.as_slice())
}

/// Returns the members of a stream that has other bytes from an offset on.
pub fn with(alloc: Global, parts: &str, at: &str, new: &str) -> Result<String, Fail> {
    let new = stream(alloc, new)?;
    let bytes = changed(
        alloc,
        stream(alloc, parts)?.as_slice(),
        at.parse()?,
        new.as_slice(),
    )?;
    members_text(alloc, bytes.as_slice())
}

/// Returns the members of a stream in whose header at an offset a field has other bytes, and which
/// has the checksum of that.
pub fn field(
    alloc: Global,
    parts: &str,
    header: &str,
    at: &str,
    new: &str,
) -> Result<String, Fail> {
    let new = stream(alloc, new)?;
    let header: usize = header.parse()?;
    let at: usize = at.parse()?;
    let offset = header.wrapping_add(at);
    let bytes = changed(
        alloc,
        stream(alloc, parts)?.as_slice(),
        offset,
        new.as_slice(),
    )?;
    members_text(alloc, summed(alloc, bytes.as_slice(), header)?.as_slice())
}
