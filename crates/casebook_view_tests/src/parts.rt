//! The parts of a summary as texts.
use crate::words::{change_sign, fate_sign, obstacle_word, push_item, subject_text};
use casebook_summary::{Effect, Notice, Summary};
use casebook_view::{Fate, Reason, Why};
use retro_rows::text;
use retro_tree::{NoMem, Path};
use std::alloc::Global;

/// Returns what becomes of each line.
fn fates(alloc: Global, summary: &Summary) -> Result<String, NoMem> {
    let mut out = String::new(alloc);
    for line in summary.lines.as_slice() {
        let item = format!(in alloc; "{}{}", line.number, fate_sign(line.fate))?;
        push_item(&mut out, " ", item.as_str())?;
    }
    Ok(out)
}

/// Returns the paths to restore.
fn restorations(alloc: Global, summary: &Summary) -> Result<String, NoMem> {
    let mut out = String::new(alloc);
    for changed in &summary.restorations {
        let sign = change_sign(changed.change);
        let item = format!(in alloc; "{sign} {}", changed.path.as_str())?;
        push_item(&mut out, ", ", item.as_str())?;
    }
    Ok(out)
}

/// Returns paths.
fn paths(alloc: Global, paths: &[Path]) -> Result<String, NoMem> {
    let mut out = String::new(alloc);
    for path in paths {
        push_item(&mut out, ", ", path.as_str())?;
    }
    Ok(out)
}

/// Returns the doubtful paths to restore.
fn doubtful(alloc: Global, summary: &Summary) -> Result<String, NoMem> {
    let mut out = String::new(alloc);
    for restoration in &summary.restorations {
        if restoration.is_doubtful {
            push_item(&mut out, ", ", restoration.path.as_str())?;
        }
    }
    Ok(out)
}

/// Returns the lines that aren't understood.
fn unknown(alloc: Global, summary: &Summary) -> Result<String, NoMem> {
    let mut out = String::new(alloc);
    for line in &summary.unknown {
        let item = format!(in alloc; "{} {}", line.number, obstacle_word(line.obstacle))?;
        push_item(&mut out, ", ", item.as_str())?;
    }
    Ok(out)
}

/// Returns whom to tell, or who looked: line, session, and what it is about.
fn notices(alloc: Global, notices: &[Notice]) -> Result<String, NoMem> {
    let mut out = String::new(alloc);
    for notice in notices {
        let about = subject_text(&notice.subject);
        let item = format!(in alloc; "{} {} {about}", notice.number, notice.session)?;
        push_item(&mut out, ", ", item.as_str())?;
    }
    Ok(out)
}

/// Returns what leaked: line, session, and how many bytes were shown.
fn leaks(alloc: Global, summary: &Summary) -> Result<String, NoMem> {
    let mut out = String::new(alloc);
    for leak in &summary.leaks {
        let item = format!(in alloc; "{} {} {}", leak.number, leak.session, leak.bytes)?;
        push_item(&mut out, ", ", item.as_str())?;
    }
    Ok(out)
}

/// Returns an effect as text: the line, to how many lines with another result and with the same one
/// it led, and the paths that it wrote.
fn effect_text(alloc: Global, effect: &Effect) -> Result<String, NoMem> {
    let (changed, alike) = (effect.count(Fate::Changed), effect.count(Fate::Alike));
    let mut out = format!(in alloc; "{} {changed} {alike}", effect.number)?;
    for path in &effect.wrote {
        push_item(&mut out, " ", path.as_str())?;
    }
    Ok(out)
}

/// Returns what each edited line led to.
fn effects(alloc: Global, summary: &Summary) -> Result<String, NoMem> {
    let mut out = String::new(alloc);
    for effect in &summary.effects {
        push_item(&mut out, ", ", effect_text(alloc, effect)?.as_str())?;
    }
    Ok(out)
}

/// Returns why a line is run again as text.
fn why_text(alloc: Global, why: Why) -> Result<String, NoMem> {
    match why {
        Why::Replaced => text(alloc, "replaced"),
        Why::Query(index) => format!(in alloc; "query {index}"),
        Why::RunAgain => text(alloc, "again"),
    }
}

/// Returns a reason as text: the line, why it is run again, its cause if it has one, and its
/// origin.
fn reason_text(alloc: Global, number: u32, reason: &Reason) -> Result<String, NoMem> {
    let why = why_text(alloc, reason.why)?;
    match reason.cause {
        Some(cause) => format!(in alloc; "{number} {why} of {cause} {}", reason.origin),
        None => format!(in alloc; "{number} {why} {}", reason.origin),
    }
}

/// Returns why lines are run again.
fn reasons(alloc: Global, summary: &Summary) -> Result<String, NoMem> {
    let mut out = String::new(alloc);
    for line in summary.lines.as_slice() {
        if let Some(reason) = &line.reason {
            let item = reason_text(alloc, line.number, reason)?;
            push_item(&mut out, ", ", item.as_str())?;
        }
    }
    Ok(out)
}

/// Returns a chain of causes as text.
fn chain_text(alloc: Global, first: u32, causes: &[u32]) -> Result<String, NoMem> {
    let mut out = format!(in alloc; "{first}")?;
    for number in causes {
        push_item(&mut out, " < ", format!(in alloc; "{number}")?.as_str())?;
    }
    Ok(out)
}

/// Returns the chains of causes of the lines that are run again.
fn chains(alloc: Global, summary: &Summary) -> Result<String, NoMem> {
    let mut out = String::new(alloc);
    for line in summary.lines.as_slice() {
        if line.reason.is_some() {
            let causes = summary.lines.chain(alloc, line.number)?;
            let item = chain_text(alloc, line.number, causes.as_slice())?;
            push_item(&mut out, ", ", item.as_str())?;
        }
    }
    Ok(out)
}

/// Returns the part of a summary with a name.
pub fn part(alloc: Global, summary: &Summary, name: &str) -> Result<String, NoMem> {
    match name {
        "fates" => fates(alloc, summary),
        "restore" => restorations(alloc, summary),
        "doubtful" => doubtful(alloc, summary),
        "undecided" => paths(alloc, summary.undecided.as_slice()),
        "unknown" => unknown(alloc, summary),
        "tell" => notices(alloc, summary.notices.as_slice()),
        "looked" => notices(alloc, summary.looks.as_slice()),
        "leaked" => leaks(alloc, summary),
        "causes" => effects(alloc, summary),
        "reasons" => reasons(alloc, summary),
        "chains" => chains(alloc, summary),
        _ => text(alloc, "no such part"),
    }
}
