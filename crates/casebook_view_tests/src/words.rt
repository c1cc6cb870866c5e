//! The words of values in rows.
use casebook_changes::PathChange;
use casebook_summary::Subject;
use casebook_view::{Fate, Obstacle, WriteKind};
use retro_tree::NoMem;

/// Appends a text after a separator, or alone as the first one.
pub fn push_item(out: &mut String, separator: &str, text: &str) -> Result<(), NoMem> {
    if !out.is_empty() {
        out.push_str(separator)?;
    }
    out.push_str(text)
}

/// Returns the word of an obstacle.
pub fn obstacle_word(obstacle: Obstacle) -> &'static str {
    match obstacle {
        Obstacle::Command => "command",
        Obstacle::Form => "form",
        Obstacle::Expansion => "expansion",
        Obstacle::Terminal => "terminal",
        Obstacle::Observed => "observed",
        Obstacle::Need => "need",
    }
}

/// Returns the sign of a write.
pub fn write_sign(kind: WriteKind) -> char {
    match kind {
        WriteKind::Put => '+',
        WriteKind::Append => '>',
        WriteKind::Remove => '-',
    }
}

/// Returns the sign of a fate: cancelled (x), run again with another result (c) or with the same
/// one (a), kept (k) or untouched (u).
pub fn fate_sign(fate: Fate) -> &'static str {
    match fate {
        Fate::Cancelled => "x",
        Fate::Changed => "c",
        Fate::Alike => "a",
        Fate::Kept => "k",
        Fate::Untouched => "u",
    }
}

/// Returns the sign of a path that changes (M), comes back (A) or goes (D).
pub fn change_sign(change: PathChange) -> &'static str {
    match change {
        PathChange::Modified => "M",
        PathChange::Added => "A",
        PathChange::Removed => "D",
    }
}

/// Returns the path of a subject, or its word if it is about none.
pub fn subject_text(subject: &Subject) -> &str {
    match subject {
        Subject::At(path) => path.as_str(),
        Subject::Text => "text",
        Subject::Again => "again",
        _ => "other",
    }
}
