//! The logs of scripts' recordings.
use crate::documents::script_of;
use crate::programs::push_lines;
use retro_keep::{Recording, keep_alone};
use retro_log::{read_log, write_log};
use retro_rows::{fail, rows, text};
use retro_tree::NoMem;
use std::alloc::Global;
use std::test::Fail;

/// Scripts and their logs; lines of session 1, which is at the root of a tree, with what their log
/// has at `lines`; and logs with how they are written again. A note of each kind occurs, with each
/// answer.
const LOGS: &str = r##"
log: {"script":1,"tree":[],"sessions":[[1,"/",0,[]]],"lines":[[1,1,"echo a > f"],[2,1,"cat f"]]}
  => {"from":1,"lines":[[1,1,"echo a > f",[["cwd","/"],["canwrite","/f",0,"yes"],\
  ["put","/f",["f",""]],["canwrite","/f",2,"yes"],["grow","/f","610a"],["setstatus",0]],""],\
  [2,1,"cat f",[["cwd","/"],["bytes","/f",["f","610a"]],["setstatus",0]],"610a"]],"log":2,\
  "sessions":[[1,"/",0,[]]],"tree":[]}%(NL)
log: {"sessions":[[1,"/",0,[]]],"lines":[],"script":1,"tree":[["/a/b","4A"],["/a"]]}
  => {"from":1,"lines":[],"log":2,"sessions":[[1,"/",0,[]]],"tree":[["/a"],["/a/b","4a"]]}%(NL)
log: {"script":1,"tree":[],"sessions":[[2,"/x",7,[["y","\""],["x","é"]]],[1,"/",0,[]]],"lines":[]}
  => {"from":1,"lines":[],"log":2,"sessions":[[1,"/",0,[]],[2,"/x",7,[["x","é"],["y","\""]]]],"tree":[]}%(NL)
noted: %(EMPTY) :: mkdir /d => [[1,1,"mkdir /d",[["kind","/d","missing"],["kind","/","dir"],\
  ["put","/d",["d"]],["setstatus",0]],""]]
noted: ["/d"],["/d/f",""] :: rm -r /d => [[1,1,"rm -r /d",[["kind","/d","dir"],["names","/d",\
  ["f"]],["kind","/d/f","file"],["put","/d/f",[]],["put","/d",[]],["setstatus",0]],""]]
noted: ["/etc"],["/etc/passwd","616c6963653a783a373a373a3a2f683a2f730a"] :: id -u alice :: id -u bob
  => [[1,1,"id -u alice",[["user","alice",[7,"/h"]],["setstatus",0]],"370a"],[2,1,"id -u bob",\
  [["user","bob",null],["setstatus",1]],"69643a20626f623a206e6f207375636820757365720a"]]
noted: %(EMPTY) :: x=1 :: echo $x$y => [[1,1,"x=1",[["setvar","x","1"],["setstatus",0]],""],\
  [2,1,"echo $x$y",[["var","x","1"],["var","y",null],["setstatus",0]],"310a"]]
noted: ["/d"] :: cd /d => [[1,1,"cd /d",[["kind","/d","dir"],["setcwd","/d"],["setstatus",0]],""]]
noted: %(EMPTY) :: echo $? => [[1,1,"echo $?",[["status",0],["setstatus",0]],"300a"]]
noted: ["/d"] :: > /d => [[1,1,"> /d",[["canwrite","/d",0,"isdir"],["setstatus",1]],\
  "73683a202f643a2049732061206469726563746f72790a"]]
noted: %(EMPTY) :: > /n/f => [[1,1,"> /n/f",[["canwrite","/n/f",0,"noparent"],["setstatus",1]],\
  "73683a202f6e2f663a204e6f20737563682066696c65206f72206469726563746f72790a"]]
noted: ["/f",""] :: > /f/g => [[1,1,"> /f/g",[["canwrite","/f/g",0,"notdir"],["setstatus",1]],\
  "73683a202f662f673a204e6f742061206469726563746f72790a"]]
noted: ["/f","%(61*1048576)"] :: echo a >> /f
  => [[1,1,"echo a >> /f",[["canwrite","/f",0,"yes"],["grow","/f",""],\
  ["canwrite","/f",2,"toolarge"],["setstatus",1]],"73683a202f663a2046696c6520746f6f206c617267650a"]]
noted: ["/d"] :: cat /n /d => [[1,1,"cat /n /d",[["bytes","/n",[]],["bytes","/d",["d"]],\
  ["setstatus",1]],"6361743a202f6e3a204e6f20737563682066696c65206f72206469726563746f72790a6361743a\
  202f643a2049732061206469726563746f72790a"]]
noted: %(EMPTY) :: # a => [[1,1,"# a",[],""]]
again: {"tree":[["/f","0A"]],"log":1,"sessions":[[1,"/",0,[]]],\
  "lines":[[4294967295,1,"\u0000",[["names","/f",null],["names","/",["b","a","a"]],\
  ["user","\u0000",null],["user","",[4294967295,"\u0000"]],["var","x",null],\
  ["var","x","\u0000"],["status",255],["setvar","x",""],["setcwd","/g"],["cwd","/a/b"],\
  ["bytes","/f",["f","0A"]],["canwrite","/f",4294967295,"toolarge"],["put","/f",[]],\
  ["put","/f",["f","Ff"]],["grow","/f","fF"],["setstatus",255]],"00fF"]]}
  => {"from":1,"lines":[[4294967295,1,"\u0000",[["names","/f",null],["names","/",["b","a","a"]],\
  ["user","\u0000",null],["user","",[4294967295,"\u0000"]],["var","x",null],["var","x","\u0000"],\
  ["status",255],["setvar","x",""],["setcwd","/g"],["cwd","/a/b"],["bytes","/f",["f","0a"]],\
  ["canwrite","/f",4294967295,"toolarge"],["put","/f",[]],["put","/f",["f","ff"]],["grow","/f",\
  "ff"],["setstatus",255]],"00ff"]],"log":2,"sessions":[[1,"/",0,[]]],"tree":[["/f","0a"]]}%(NL)
again: {"tree":[],"sessions":[[1,"/",0,[]]],"log":2,"from":7,"lines":[[7,1,"",[],""]]}
  => {"from":7,"lines":[[7,1,"",[],""]],"log":2,"sessions":[[1,"/",0,[]]],"tree":[]}%(NL)
again: {"tree":[],"sessions":[],"log":2,"lines":[],"from":4294967295}
  => {"from":4294967295,"lines":[],"log":2,"sessions":[],"tree":[]}%(NL)
"##;

/// Returns the script of session 1's lines, over a tree.
fn script_over(alloc: Global, entries: &str, lines: &[String]) -> Result<String, NoMem> {
    let mut script = format!(in alloc; "{{\"script\":1,\"tree\":[{entries}]")?;
    script.push_str(r#","sessions":[[1,"/",0,[]]],"lines":["#)?;
    push_lines(alloc, &mut script, lines)?;
    script.push_str("]}")?;
    Ok(script)
}

/// Returns the text of a recording's log.
fn log_text(alloc: Global, recording: &Recording) -> Result<String, Fail> {
    match String::from_utf8(write_log(alloc, recording)?) {
        Ok(log) => Ok(log),
        Err(_) => fail("not UTF-8"),
    }
}

/// Returns the recording of a script.
fn recorded(alloc: Global, document: &str) -> Result<Recording, Fail> {
    let script = script_of(alloc, document)?;
    Ok(keep_alone(alloc, &script)?)
}

/// Returns the log of a script's recording.
fn log(alloc: Global, document: &str) -> Result<String, Fail> {
    let recording = recorded(alloc, document)?;
    log_text(alloc, &recording)
}

/// Returns the log of the recording that is read from a log.
fn log_again(alloc: Global, document: &str) -> Result<String, Fail> {
    match read_log(alloc, document.as_bytes()) {
        Ok(recording) => log_text(alloc, &recording),
        Err(_) => fail("refused"),
    }
}

/// Returns the text of a log after its lines, over a tree.
fn log_end(alloc: Global, entries: &str) -> Result<String, NoMem> {
    let mut end = text(alloc, r#","log":2,"sessions":[[1,"/",0,[]]],"tree":["#)?;
    end.push_str(entries)?;
    end.push_str("]}\n")?;
    Ok(end)
}

/// Returns the value of a log at `lines`, if the log ends as it should.
fn lines_of(alloc: Global, log: &str, end: &str) -> Result<String, NoMem> {
    let Some(log) = log.strip_prefix("{\"from\":1,\"lines\":") else {
        return text(alloc, "another beginning");
    };
    match log.strip_suffix(end) {
        Some(lines) => text(alloc, lines),
        None => text(alloc, "another end"),
    }
}

/// Returns the value at `lines` of the log of session 1's lines, if the log ends as it should.
fn noted(alloc: Global, entries: &str, lines: &[String]) -> Result<String, Fail> {
    let script = script_over(alloc, entries, lines)?;
    let log = log(alloc, &script)?;
    let end = log_end(alloc, entries)?;
    Ok(lines_of(alloc, &log, &end)?)
}

/// Returns the result of a call for these fields, as text.
fn called(alloc: Global, call: &str, given: &[String]) -> Result<String, Fail> {
    match (call, given) {
        ("log", [document]) => log(alloc, document),
        ("again", [document]) => log_again(alloc, document),
        ("noted", [entries, lines @ ..]) => noted(alloc, entries, lines),
        _ => fail("no such call"),
    }
}

#[test]
fn logs_have_their_texts(rt: HostRuntime) -> Result<(), Fail> {
    let alloc = rt.alloc();
    for row in &rows(alloc, LOGS)? {
        let returned = called(alloc, &row.call, &row.given)?;
        row.compare(alloc, &returned)?;
    }
    Ok(())
}
