//! Scripts of lines that two sessions type.
use retro_path::NoMem;
use serde_json::Value;
use std::alloc::Global;

/// What every script has before and after its own entries of the tree.
const BEFORE_ENTRIES: &str = concat!(
    r#"{"script":1,"tree":[["/etc"],["/etc/passwd","726f6f743a783a303a303a723a2f3a2f62696e2f"#,
    "73680a616c6963653a783a3130303a3130303a613a2f683a2f62696e2f73680a6d616c",
    r#"6c6f72793a783a3230303a3230303a6d3a2f746d703a2f62696e2f73680a"],["/h"],["/tmp"]"#,
);

const AFTER_ENTRIES: &str = concat!(
    r#"],"sessions":[[1,"/h",0,[["HOME","/h"]]],[2,"/tmp",0,[["HOME","/tmp"]]]],"lines":["#,
);

/// Returns the script of lines over a tree with more entries. Each line ends in `;;` and begins
/// with its session. They are numbered from 1.
pub fn script_of(alloc: Global, entries: &str, lines: &str) -> Result<String, NoMem> {
    let mut script = format!(in alloc; "{BEFORE_ENTRIES}{entries}{AFTER_ENTRIES}")?;
    let mut number: u32 = 0;
    for line in lines.split(";;") {
        if let Some((sid, text)) = line.split_once(' ') {
            if number > 0 {
                script.push_str(",")?;
            }
            number = number.saturating_add(1);
            let text = Value::String(String::from_str(alloc, text)?).to_string(alloc)?;
            script.push_str(format!(in alloc; "[{number},{sid},{text}]")?.as_str())?;
        }
    }
    script.push_str("]}")?;
    Ok(script)
}
