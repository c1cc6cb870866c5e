//! The calls of rows.
use crate::nodes::nodes;
use crate::streams::stream;
use casebook_tar::{Member, read_members};
use casebook_tar_write::{append_node, end_stream, write_stream};
use retro_rows::{fail, text};
use std::alloc::Global;
use std::test::Fail;

/// Returns the stream of nodes.
fn written(alloc: Global, given: &str) -> Result<Vec<u8>, Fail> {
    let owned = nodes(alloc, given)?;
    let mut all = Vec::new(alloc);
    for node in &owned {
        all.push(node.node())?;
    }
    match write_stream(alloc, all.as_slice()) {
        Ok(bytes) => Ok(bytes),
        Err(error) => Err(format!(in alloc; "{error}")?)?,
    }
}

/// Returns the stream of nodes, appended to a stream one after another.
fn appended(alloc: Global, given: &str) -> Result<Vec<u8>, Fail> {
    let mut bytes = Vec::new(alloc);
    for node in &nodes(alloc, given)? {
        match append_node(alloc, &mut bytes, &node.node()) {
            Ok(()) => {}
            Err(error) => Err(format!(in alloc; "{error}")?)?,
        }
    }
    end_stream(&mut bytes)?;
    Ok(bytes)
}

/// Returns that bytes are those that are wanted, or where they begin to differ.
fn compared(alloc: Global, bytes: &[u8], wanted: &[u8]) -> Result<String, Fail> {
    for (index, (byte, other)) in bytes.iter().zip(wanted.iter()).enumerate() {
        if byte != other {
            return Ok(format!(in alloc; "offset {index}: {byte} in place of {other}")?);
        }
    }
    if bytes.len() != wanted.len() {
        return Ok(format!(in alloc; "{} bytes in place of {}", bytes.len(), wanted.len())?);
    }
    Ok(text(alloc, "same")?)
}

/// Compares the stream of nodes with another one, and with what is appended for them.
pub fn same(alloc: Global, given: &str, parts: &str) -> Result<String, Fail> {
    let bytes = written(alloc, given)?;
    if appended(alloc, given)?.as_slice() != bytes.as_slice() {
        return fail("other bytes are appended");
    }
    compared(alloc, bytes.as_slice(), stream(alloc, parts)?.as_slice())
}

/// Compares what follows the first header of the stream of nodes.
pub fn after_header(alloc: Global, given: &str, parts: &str) -> Result<String, Fail> {
    let bytes = written(alloc, given)?;
    match bytes.as_slice().get(512..) {
        Some(rest) => compared(alloc, rest, stream(alloc, parts)?.as_slice()),
        None => fail("no header"),
    }
}

/// Returns a member as text: its mode, owner and group, kind, the length of its name, its name,
/// what it leads to, and its bytes.
fn member_text(alloc: Global, member: &Member, bytes: &[u8]) -> Result<String, Fail> {
    let mut out = format!(in alloc;
        "{:o} {}/{} {:?} {} {}",
        member.mode,
        member.uid,
        member.gid,
        member.kind,
        member.name.len(),
        hex::encode(alloc, member.name.as_slice())?.as_str()
    )?;
    if !member.target.is_empty() {
        out.push_str(" -> ")?;
        out.push_str(hex::encode(alloc, member.target.as_slice())?.as_str())?;
    }
    let data = member.contents.of(bytes);
    if !data.is_empty() {
        out.push_str(" = ")?;
        out.push_str(hex::encode(alloc, data)?.as_str())?;
    }
    Ok(out)
}

/// Returns the members of the stream of nodes.
pub fn unpacked(alloc: Global, given: &str) -> Result<String, Fail> {
    let bytes = written(alloc, given)?;
    let members = match read_members(alloc, bytes.as_slice()) {
        Ok(members) => members,
        Err(error) => return Ok(format!(in alloc; "{error:?}")?),
    };
    let mut out = String::new(alloc);
    for member in &members {
        if !out.is_empty() {
            out.push_str("; ")?;
        }
        out.push_str(member_text(alloc, member, bytes.as_slice())?.as_str())?;
    }
    Ok(out)
}
