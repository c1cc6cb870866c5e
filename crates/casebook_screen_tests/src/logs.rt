//! Scripts that rows name.
use retro_rows::document;

/// A case with what the market lacks: a file without a last newline, one that becomes a directory,
/// one with two places that differ, and lines whose text is replaced. Its file `f` has twelve
/// numbered lines.
const EDGES: &str = r#"{
  "script": 1,
  "tree": [
    ["/d"],
    ["/d/f","310a320a330a340a350a360a370a380a390a31300a31310a31320a"],
    ["/d/last","61"],
    ["/d/turned","740a"]
  ],
  "sessions": [[1,"/d",0,[]]],
  "lines": [
    [1,1,"echo x > /x; cat /x f /x > g; cp g f; rm /x g"],
    [2,1,"echo b >> last; rm turned; mkdir turned made"],
    [3,1,"cat last"],
    [4,1,"echo four"]
  ]
}"#;

/// A case with the kinds that the market and `edges` lack: lines that are told about the status, a
/// variable and the directory of their session, directories and empty files that come or go, a file
/// that becomes a directory, and lines that are run again alike.
const KINDS: &str = r#"{
  "script": 1,
  "tree": [["/d"],["/d/t"],["/f","610a"],["/g"],["/n",""]],
  "sessions": [[1,"/",0,[]],[2,"/",0,[]]],
  "lines": [
    [1,1,"cd /d"],
    [2,1,"X=a; false"],
    [3,1,"echo $?"],
    [4,1,"echo \"is $X\""],
    [5,1,"pwd"],
    [6,2,"rm /n /f; rm -r /g /d/t; > /d/t; > /e; mkdir /m"],
    [7,2,"echo twice"],
    [8,2,"test -f /f; echo tested"]
  ]
}"#;

/// A script with a path that has the end tag of a script, a quote, a backslash, a control code and
/// a right-to-left override. It would do harm in a document if it were written as it is.
const QUOTED: &str = r#"{
  "script": 1,
  "tree": [["/<"]],
  "sessions": [[1,"/",0,[]],[2,"/",0,[]]],
  "lines": [
    [1,2,"echo x > '/</script>\"\\\u0001\u202e'; echo shown"],
    [2,1,"cat '/</script>\"\\\u0001\u202e'"]
  ]
}"#;

/// A script with escapes, tabs, a right-to-left override and spaces in names, texts and files. They
/// would do harm if they were shown as they are. The name of a file looks like a write to another
/// one.
const HOSTILE: &str = r#"{
  "script": 1,
  "tree": [["/d"],["/d/x +"],["/d/x +/f","1b5b324a0a61ff"]],
  "sessions": [[1,"/d",0,[]],[2,"/d",0,[]]],
  "lines": [
    [1,1,"echo '\u001b[2J\u202e\t' > 'x +/f'"],
    [2,2,"cat 'x +/f' > '\u001bg'; cat 'x +/f'"]
  ]
}"#;

/// Returns the script or log that a field of a row names or is.
pub fn named(field: &str) -> &str {
    match field {
        "edges" => EDGES,
        "kinds" => KINDS,
        "quoted" => QUOTED,
        "hostile" => HOSTILE,
        _ => document(field),
    }
}
