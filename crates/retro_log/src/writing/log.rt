//! Writes the document of a log.
ghost use Rattle.std.specs.Prelude.{◌≡◌, ◌⊎◌, ◌++◌, IfOk, OnOk, Ok, true};
ghost use Rattle.serde_json.specs.Written.{compact_text};
ghost use Rattle.retro_keep.specs.Recording.{IsRecordingOf, IsWellFormed, script_in};
ghost use Rattle.retro_log.specs.Document.{log_in};
ghost use Rattle.retro_log.specs.LogText.{log_data, log_text};
ghost use Rattle.retro_json.specs.NoNul.{recording_without_nul};
ghost use Rattle.retro_json.specs.NoteLimits.{notes_fit};
ghost use Rattle.retro_json.specs.ReadBack.{IsReadBack};
ghost use Rattle.retro_log.specs.RoundTrip.{WasRead};
ghost use Rattle.retro_json.specs.Typed.{recording_typed};

use crate::writing::line::push_lines;
use retro_json::{number_value, push_value, sessions_value, tree_value};
use retro_keep::Recording;
use retro_tree::NoMem;
use std::alloc::Global;

/// Appends the log of a recording, without its final newline. Only one line at a time is a JSON
/// value.
#[tactic(auto, unfolding(crate::specs::LogText::log_data, retro_json::specs::Typed::recording_typed))]
fn push_log(alloc: Global, recording: &Recording, text: &mut Vec<u8>) -> Result<(), NoMem>
    ensures text { OnOk result (text.new.items
        ≡ text.old.items ++ compact_text (log_data recording.now)) }
    ensures read_back { OnOk result (IsReadBack (log_data recording.now)) }
    ensures typed { OnOk result (recording_typed recording.now ≡ true) }
    ensures well_formed { OnOk result (IsWellFormed recording.now) }
{
    text.extend_from_slice(b"{\"from\":")?;
    push_value(alloc, &number_value(recording.from()), text)?;
    text.extend_from_slice(b",\"lines\":")?;
    push_lines(alloc, recording.lines(), text)?;
    text.extend_from_slice(b",\"log\":2,\"sessions\":")?;
    push_value(alloc, &sessions_value(alloc, recording.first())?, text)?;
    text.extend_from_slice(b",\"tree\":")?;
    push_value(alloc, &tree_value(alloc, recording.first())?, text)?;
    text.push(b'}')?;
    Ok(())
}

/// Returns the log of a recording, of version 2: compact JSON (RFC 8259) with keys in byte order,
/// and a newline.
///
/// [`read_log`](crate::read_log) reads the log back as the same recording if the notes keep the
/// limits that a log is read with, and if no name of a path or of a listing has a NUL. The notes of
/// a recording of a script keep the limits, and so do those of a recording that was itself read.
pub fn write_log(alloc: Global, recording: &Recording) -> Result<Vec<u8>, NoMem>
    ensures text { IfOk result (λ text. text.items ≡ log_text recording.now) }
    ensures again { IfOk result (λ text. notes_fit recording.now ≡ true →
        recording_without_nul recording.now ≡ true → log_in text.items ≡ Ok recording.now) }
    ensures fits { OnOk result
        (IsRecordingOf (script_in recording.now) recording.now ⊎ WasRead recording.now
        → notes_fit recording.now ≡ true) }
{
    let mut text = Vec::new(alloc);
    push_log(alloc, recording, &mut text)?;
    text.push(b'\n')?;
    Ok(text)
}
