//! The JSON values of rows, of attributes and of what is skipped.
ghost use Rattle.std.specs.Prelude.{◌≡◌, ◌∷◌, ◌++◌, IfOk, string_bytes};
ghost use Rattle.serde_json.specs.View.{view};
ghost use Rattle.retro_path.specs.Ascii.{slash};
ghost use Rattle.retro_path.specs.Slashed.{slashed};
ghost use Rattle.retro_json.specs.Values.{path_text, row_data};
ghost use Rattle.casebook_snapshot_json.specs.Documents.{attributes_data, odd_data};
ghost use Rattle.casebook_snapshot_json.specs.Documents.{plain_data, skipped_data};
ghost use Rattle.casebook_snapshot_json.specs.Reasons.{reason_text};

use crate::NoMem;
use casebook_folder::Attributes;
use casebook_snapshot::{Reason, SkippedPath};
use retro_json::{hex_value, number_value};
use retro_path::Path;
use retro_tree::Entry;
use serde_json::{Value, json};
use std::alloc::Global;
use std::str::from_utf8;

/// Returns the name that a document has for a reason to skip a path.
pub fn reason_text(reason: Reason) -> &'static str
    ensures { result.now ≡ reason_text reason }
{
    match reason {
        Reason::Link => "link",
        Reason::Device => "device",
        Reason::Pipe => "pipe",
        Reason::Socket => "socket",
        Reason::OtherFileSystem => "other file system",
        Reason::TooLarge => "too large",
        Reason::OddName => "odd name",
        Reason::NameTooLong => "name too long",
        Reason::Unreadable => "unreadable",
        Reason::Changing => "changing",
        Reason::NullDevice => "null device",
        Reason::Asked => "asked",
    }
}

/// Returns the text of a path: `/a/b`, and `/` for the root.
#[tactic(auto, using(retro_json::proofs::Names::written_text))]
fn path_text(alloc: Global, path: &Path) -> Result<String, NoMem>
    ensures { IfOk result (λ text. string_bytes text ≡ path_text path.now) }
{
    let text = path.as_str();
    if path.is_root() {
        return String::from_str(alloc, "/");
    }
    String::from_str(alloc, text)
}

/// Returns the value of a directory, `["/d"]`, or of a file, `["/f","hex"]`.
#[tactic(auto, unfolding(retro_json::specs::Values::row_data))]
pub(crate) fn row_value(alloc: Global, path: &Path, entry: &Entry) -> Result<Value, NoMem>
    ensures { IfOk result (λ v. view v ≡ row_data (path.now, entry.now)) }
{
    let path = path_text(alloc, path)?;
    match entry {
        Entry::Dir => json!(in alloc; [path]),
        Entry::File(bytes) => {
            let bytes = hex_value(alloc, bytes.as_slice())?;
            json!(in alloc; [path, bytes])
        }
    }
}

/// Returns the value of a mode and an owner: `[path,mode,uid,gid]`.
pub(crate) fn attributes_value(
    alloc: Global,
    path: &Path,
    attributes: &Attributes,
) -> Result<Value, NoMem>
    ensures { IfOk result (λ v. view v ≡ attributes_data path.now attributes.now) }
{
    let path = path_text(alloc, path)?;
    let mode = number_value(attributes.mode);
    let uid = number_value(attributes.uid);
    let gid = number_value(attributes.gid);
    json!(in alloc; [path, mode, uid, gid])
}

/// Returns the text of the path of a name in a directory.
fn child_text(alloc: Global, parent: &Path, name: &str) -> Result<String, NoMem>
    ensures { IfOk result (λ text. string_bytes text ≡ slashed parent.now ++ slash ∷ name.now) }
{
    let mut text = String::from_str(alloc, parent.as_str())?;
    text.push('/')?;
    text.push_str(name)?;
    Ok(text)
}

/// Returns the value of what is skipped if its name is UTF-8: `[path,reason]`.
fn plain_value(alloc: Global, parent: &Path, name: &str, reason: &str) -> Result<Value, NoMem>
    ensures { IfOk result (λ v. view v ≡ plain_data parent.now name.now reason.now) }
{
    let path = child_text(alloc, parent, name)?;
    json!(in alloc; [path, reason])
}

/// Returns the value of what is skipped if its name isn't UTF-8: `[directory,reason,hex]`.
fn odd_value(alloc: Global, parent: &Path, name: &[u8], reason: &str) -> Result<Value, NoMem>
    ensures { IfOk result (λ v. view v ≡ odd_data parent.now name.now reason.now) }
{
    let directory = path_text(alloc, parent)?;
    let name = hex_value(alloc, name)?;
    json!(in alloc; [directory, reason, name])
}

/// Returns the value of what is skipped.
#[tactic(auto, using(crate::proofs::Shapes::skips))]
pub(crate) fn skipped_value(alloc: Global, skipped: &SkippedPath) -> Result<Value, NoMem>
    ensures { IfOk result (λ v. view v ≡ skipped_data skipped.now) }
{
    let parent = &skipped.child.parent;
    let name = skipped.child.name.as_slice();
    let reason = reason_text(skipped.reason);
    match from_utf8(name) {
        Ok(text) => plain_value(alloc, parent, text, reason),
        Err(_) => odd_value(alloc, parent, name, reason),
    }
}
