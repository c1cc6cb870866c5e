//! Nodes, as texts.
use crate::streams::push_part;
use casebook_tar_write::{Content, Node};
use retro_rows::fail;
use std::alloc::Global;
use std::test::Fail;

/// What a node is.
#[derive(Drop)]
enum Kind {
    File,
    Directory,
    Link,
}

/// A node with its texts.
#[derive(Drop)]
pub struct Owned {
    kind: Kind,
    mode: u32,
    uid: u32,
    gid: u32,
    name: Vec<u8>,
    rest: Vec<u8>,
}

impl Owned {
    /// Returns the node.
    pub fn node(&self) -> Node<'_> {
        let content = match self.kind {
            Kind::File => Content::File(self.rest.as_slice()),
            Kind::Directory => Content::Directory,
            Kind::Link => Content::SymbolicLink(self.rest.as_slice()),
        };
        Node {
            name: self.name.as_slice(),
            mode: self.mode,
            uid: self.uid,
            gid: self.gid,
            content,
        }
    }
}

/// Returns the bytes of a name: a text, or hexadecimal digits after `hex:`.
fn name_bytes(alloc: Global, name: &str) -> Result<Vec<u8>, Fail> {
    match name.strip_prefix("hex:") {
        Some(digits) => Ok(hex::decode(alloc, digits)?),
        None => Ok(Vec::from_slice(alloc, name.as_bytes())?),
    }
}

/// Returns the bytes of a file: none, or a part of a stream.
fn file_bytes(alloc: Global, part: Option<&str>) -> Result<Vec<u8>, Fail> {
    let mut bytes = Vec::new(alloc);
    if let Some(part) = part {
        push_part(alloc, &mut bytes, part)?;
    }
    Ok(bytes)
}

/// Returns the node of a text: `file MODE UID/GID NAME BYTES`, `dir MODE UID/GID NAME`, or
/// `link MODE UID/GID NAME TARGET`. The mode is octal.
fn read_node(alloc: Global, text: &str) -> Result<Owned, Fail> {
    let mut words = text.split(' ');
    let kind = words.next().unwrap_or("");
    let mode = u32::from_str_radix(words.next().unwrap_or(""), 8)?;
    let Some((uid, gid)) = words.next().unwrap_or("").split_once('/') else {
        return fail("no owner");
    };
    let name = name_bytes(alloc, words.next().unwrap_or(""))?;
    let (kind, rest) = match kind {
        "file" => (Kind::File, file_bytes(alloc, words.next())?),
        "dir" => (Kind::Directory, Vec::new(alloc)),
        "link" => (Kind::Link, name_bytes(alloc, words.next().unwrap_or(""))?),
        _ => return fail("no kind"),
    };
    Ok(Owned {
        kind,
        mode,
        uid: uid.parse()?,
        gid: gid.parse()?,
        name,
        rest,
    })
}

/// Returns the nodes of a text, which `; ` separates.
pub fn nodes(alloc: Global, text: &str) -> Result<Vec<Owned>, Fail> {
    let mut all = Vec::new(alloc);
    for part in text.split("; ") {
        all.push(read_node(alloc, part)?)?;
    }
    Ok(all)
}
