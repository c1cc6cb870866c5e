//! Which lines are understood.
use casebook_profile::{Obstacle, unknown_lines};
use retro_keep::{Recording, keep_alone};
use retro_log::read_script;
use retro_rows::{fail, text};
use std::alloc::Global;
use std::test::Fail;

/// Returns a text as a text of JSON.
fn json_text(alloc: Global, text: &str) -> Result<String, Fail> {
    let mut json = String::new(alloc);
    for c in text.chars() {
        if c == '"' || c == '\\' {
            json.push('\\')?;
        }
        json.push(c)?;
    }
    Ok(json)
}

/// Returns the recording of a script whose second line is a text.
fn recording_of(alloc: Global, text: &str) -> Result<Recording, Fail> {
    let text = json_text(alloc, text)?;
    let script = format!(in alloc;
        "{{\"script\":1,\"tree\":[[\"/f\",\"610a\"]],\"sessions\":[[1,\"/\",0,[[\"RANDOM\",\"1\"]]]],\"lines\":[[1,1,\"v=a\"],[2,1,\"{text}\"]]}}"
    )?;
    match read_script(alloc, script.as_bytes()) {
        Ok(script) => Ok(keep_alone(alloc, &script)?),
        Err(_) => fail("the script is refused"),
    }
}

/// Returns the name of an obstacle.
fn name_of(obstacle: Obstacle) -> &'static str {
    match obstacle {
        Obstacle::Command => "command",
        Obstacle::Form => "form",
        Obstacle::Expansion => "expansion",
        Obstacle::Terminal => "terminal",
        Obstacle::Observed => "observed",
        Obstacle::Need => "need",
    }
}

/// Returns why a line isn't understood, or a dash if it is.
pub fn understood(alloc: Global, line: &str) -> Result<String, Fail> {
    let recording = recording_of(alloc, line)?;
    let unknown = unknown_lines(alloc, &recording)?;
    match unknown.as_slice() {
        [] => Ok(text(alloc, "-")?),
        [line] => Ok(text(alloc, name_of(line.obstacle))?),
        _ => fail("the first line isn't understood"),
    }
}
