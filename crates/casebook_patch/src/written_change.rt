//! The change of a file as it is written.
ghost use Rattle.std.specs.Prelude.{◌≡◌, ◌++◌, IfOk, OnOk};
ghost use Rattle.std.specs.Option.{option_copied};
ghost use Rattle.casebook_patch.specs.Quoted.{quoted};
ghost use Rattle.casebook_patch.specs.Written.{blob_digest, blob_id, fate, kept_mode};
ghost use Rattle.casebook_patch.specs.Written.{index_line, label, labels, name_at, names_line};
ghost use Rattle.casebook_patch.specs.Written.{head, written_body, written_change, written_text};
ghost use Rattle.casebook_patch.specs.Binary.{literal, written_binary};
ghost use Rattle.casebook_patch.specs.Changes.{bytes_in};

use crate::NoMem;
use crate::base85::push_lines;
use crate::file_change::{FileChange, bytes_in};
use crate::part::Part;
use crate::quoted::push_quoted;
use crate::written_part::{push_number, push_parts};
use crate::zlib::zlib;
use itoa::Buffer;
use retro_path::Path;
use sha1::Sha1;
use std::alloc::Global;

/// Returns the name of a path in one of the two trees.
fn name_at(alloc: Global, side: &str, path: &Path) -> Result<Vec<u8>, NoMem>
    ensures { IfOk result (λ name. name.items ≡ name_at side.now path.now) }
{
    let mut name = Vec::from_slice(alloc, side.as_bytes())?;
    name.extend_from_slice(path.as_str().as_bytes())?;
    Ok(name)
}

/// Appends the name of a file, or that of no file.
fn push_label(
    alloc: Global,
    text: &mut Vec<u8>,
    side: &str,
    path: &Path,
    file: Option<&[u8]>,
) -> Result<(), NoMem>
    ensures { OnOk result (text.new.items ≡ text.old.items
        ++ label side.now path.now (option_copied file.entry)) }
{
    match file {
        Some(_) => push_quoted(text, name_at(alloc, side, path)?.as_slice()),
        None => text.extend_from_slice(b"/dev/null"),
    }
}

/// Returns what git calls a file with these bytes.
fn digest_of(bytes: &[u8]) -> [u8; 20]
    ensures { result ≡ blob_digest bytes.now }
{
    let mut hasher = Sha1::new();
    hasher.update(b"blob ");
    hasher.update(Buffer::new().format(bytes.len()).as_bytes());
    hasher.update(b"\0");
    hasher.update(bytes);
    hasher.finalize()
}

/// Appends what git calls a file, or no file.
fn push_blob_id(alloc: Global, text: &mut Vec<u8>, file: Option<&[u8]>) -> Result<(), NoMem>
    ensures { OnOk result (text.new.items ≡ text.old.items
        ++ blob_id (option_copied file.entry)) }
{
    match file {
        Some(bytes) => { text.extend_from_slice(hex::encode(alloc, digest_of(bytes))?.as_bytes()) }
        None => text.extend_from_slice(b"0000000000000000000000000000000000000000"),
    }
}

/// Returns whether a file is made or removed, and the mode that it has.
fn fate(old: Option<&[u8]>, new: Option<&[u8]>) -> &'static [u8]
    ensures { result.now ≡ fate (option_copied old.entry) (option_copied new.entry) }
{
    match (old, new) {
        (None, _) => b"new file mode 100644\n",
        (Some(_), None) => b"deleted file mode 100644\n",
        (Some(_), Some(_)) => b"",
    }
}

/// Returns the mode of a file that stays.
fn kept_mode(old: Option<&[u8]>, new: Option<&[u8]>) -> &'static [u8]
    ensures { result.now ≡ kept_mode (option_copied old.entry) (option_copied new.entry) }
{
    if old.is_some() && new.is_some() {
        b" 100644"
    } else {
        b""
    }
}

/// Appends the names of a file in both trees.
#[tactic(auto, unfolding(crate::specs::Written::names_line))]
fn push_names_line(alloc: Global, text: &mut Vec<u8>, path: &Path) -> Result<(), NoMem>
    ensures { OnOk result (text.new.items ≡ text.old.items ++ names_line path.now) }
{
    text.extend_from_slice(b"diff --git ")?;
    push_quoted(text, name_at(alloc, "a", path)?.as_slice())?;
    text.push(b' ')?;
    push_quoted(text, name_at(alloc, "b", path)?.as_slice())?;
    text.push(b'\n')?;
    Ok(())
}

/// Appends what git calls both files.
#[tactic(auto, unfolding(crate::specs::Written::index_line))]
fn push_index_line(
    alloc: Global,
    text: &mut Vec<u8>,
    old: Option<&[u8]>,
    new: Option<&[u8]>,
) -> Result<(), NoMem>
    ensures { OnOk result (text.new.items ≡ text.old.items
        ++ index_line (option_copied old.entry) (option_copied new.entry)) }
{
    text.extend_from_slice(b"index ")?;
    push_blob_id(alloc, text, old)?;
    text.extend_from_slice(b"..")?;
    push_blob_id(alloc, text, new)?;
    text.extend_from_slice(kept_mode(old, new))?;
    text.push(b'\n')?;
    Ok(())
}

/// Appends what a file is called in both trees.
#[tactic(auto, unfolding(crate::specs::Written::labels))]
fn push_labels(alloc: Global, text: &mut Vec<u8>, change: &FileChange<'_>) -> Result<(), NoMem>
    ensures { OnOk result (text.new.items ≡ text.old.items ++ labels change.now) }
{
    text.extend_from_slice(b"--- ")?;
    push_label(alloc, text, "a", &change.path, change.old)?;
    text.extend_from_slice(b"\n+++ ")?;
    push_label(alloc, text, "b", &change.path, change.new)?;
    text.push(b'\n')?;
    Ok(())
}

/// Appends all bytes of a file.
fn push_literal(alloc: Global, text: &mut Vec<u8>, bytes: &[u8]) -> Result<(), NoMem>
    ensures { OnOk result (text.new.items ≡ text.old.items ++ literal bytes.now) }
{
    text.extend_from_slice(b"literal ")?;
    push_number(text, bytes.len())?;
    text.push(b'\n')?;
    push_lines(text, zlib(alloc, bytes)?.as_slice())?;
    text.push(b'\n')?;
    Ok(())
}

/// Appends the binary form of a change.
fn push_binary(alloc: Global, text: &mut Vec<u8>, change: &FileChange<'_>) -> Result<(), NoMem>
    ensures { OnOk result (text.new.items ≡ text.old.items
        ++ written_binary (bytes_in change.now.old) (bytes_in change.now.new)) }
{
    text.extend_from_slice(b"GIT binary patch\n")?;
    push_literal(alloc, text, bytes_in(change.new))?;
    push_literal(alloc, text, bytes_in(change.old))
}

/// Appends the parts of a change of a text.
fn push_text(
    alloc: Global,
    text: &mut Vec<u8>,
    change: &FileChange<'_>,
    parts: &[Part<'_>],
) -> Result<(), NoMem>
    ensures { OnOk result (text.new.items
        ≡ text.old.items ++ written_text change.now parts.now) }
{
    if parts.is_empty() {
        return Ok(());
    }
    push_labels(alloc, text, change)?;
    push_parts(text, parts)
}

/// Appends what a change says before the bytes that differ.
fn push_head(alloc: Global, text: &mut Vec<u8>, change: &FileChange<'_>) -> Result<(), NoMem>
    ensures { OnOk result (text.new.items ≡ text.old.items ++ head change.now) }
{
    push_names_line(alloc, text, &change.path)?;
    text.extend_from_slice(fate(change.old, change.new))?;
    push_index_line(alloc, text, change.old, change.new)
}

/// Appends the bytes that differ.
fn push_body(alloc: Global, text: &mut Vec<u8>, change: &FileChange<'_>) -> Result<(), NoMem>
    ensures { OnOk result (text.new.items
        ≡ text.old.items ++ written_body change.now change.now.parts) }
{
    match &change.parts {
        Some(parts) => push_text(alloc, text, change, parts.as_slice()),
        None => push_binary(alloc, text, change),
    }
}

/// Appends a change.
pub(crate) fn push_change(
    alloc: Global,
    text: &mut Vec<u8>,
    change: &FileChange<'_>,
) -> Result<(), NoMem>
    ensures { OnOk result (text.new.items ≡ text.old.items ++ written_change change.now) }
{
    push_head(alloc, text, change)?;
    push_body(alloc, text, change)
}
