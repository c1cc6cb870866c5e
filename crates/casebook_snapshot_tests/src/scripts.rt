//! Tables of scripts that are made from a tree and two tables, and the call that they name.
//!
//! Documents are spelled by hand, as Python's `json.dumps` writes them with sorted keys and without
//! spaces. Faults are those of the first row that isn't one, as `casebook_script` documents them.
use casebook_script::script_of_tables;
use retro_log::read_script;
use retro_rows::{fail, utf8};
use std::alloc::Global;
use std::test::Fail;

/// Scripts that are made, and read again.
pub const SCRIPTS: &str = r#"
tables: [["/d"],["/d/f","6869"]] :: 1%(TAB)/d%(NL) :: 1%(TAB)cat f%(NL)
  => {"lines":[[1,1,"cat f"]],"script":1,"sessions":[[1,"/d",0,[]]],\
  "tree":[["/d"],["/d/f","6869"]]}%(NL)
tables: [] :: %(EMPTY) :: %(EMPTY)
  => {"lines":[],"script":1,"sessions":[],"tree":[]}%(NL)
tables: [] :: # number%(NL)%(NL)7%(TAB)/%(TAB)HOME=/d%(TAB)A=x=y%(TAB)B=%(NL)2%(TAB)/d
  :: 7%(TAB)echo a%(NL)#2%(TAB)echo b%(NL)%(NL)2%(TAB)x#c
  => {"lines":[[1,7,"echo a"],[2,2,"x#c"]],"script":1,\
  "sessions":[[2,"/d",0,[]],[7,"/",0,[["A","x=y"],["B",""],["HOME","/d"]]]],"tree":[]}%(NL)
tables: [] :: 0%(TAB)/a\tb%(TAB)V=\\\n\r\tz :: 0%(TAB)echo\t'a\nb'\\c%(CR)%(NL)
  => {"lines":[[1,0,"echo\t'a\nb'\\c\r"]],"script":1,\
  "sessions":[[0,"/a\tb",0,[["V","\\\n\r\tz"]]]],"tree":[]}%(NL)
tables: [] :: 4294967295%(TAB)/ü/%(n*255)%(NL) :: 4294967295%(TAB)%(NL)4294967295%(TAB)é
  => {"lines":[[1,4294967295,""],[2,4294967295,"é"]],"script":1,\
  "sessions":[[4294967295,"/ü/%(n*255)",0,[]]],"tree":[]}%(NL)
tables: [] :: 1%(TAB)/%(TAB)A=%(n*65536) :: %(EMPTY)
  => {"lines":[],"script":1,"sessions":[[1,"/",0,[["A","%(n*65536)"]]]],"tree":[]}%(NL)
"#;

/// Tables that are refused.
pub const REFUSED_TABLES: &str = r#"
tables: [] :: ! :: ! => NotUtf8(Sessions)
tables: [] :: 1%(TAB)/ :: 1%(TAB)! => NotUtf8(Lines)
tables: [] :: 1%(TAB)/%(NL)2%(TAB)/a\x :: 9%(TAB)a
  => BadRow { table: Sessions, row: 2, why: Escape }
tables: [] :: \ :: %(EMPTY) => BadRow { table: Sessions, row: 1, why: Escape }
tables: [] :: 1%(TAB)/ :: 1%(TAB)a\T => BadRow { table: Lines, row: 1, why: Escape }
tables: [] :: 1 :: %(EMPTY) => BadRow { table: Sessions, row: 1, why: Cells }
tables: [] :: 1%(TAB)/ :: 1 => BadRow { table: Lines, row: 1, why: Cells }
tables: [] :: 1%(TAB)/ :: 1%(TAB)a%(TAB)b => BadRow { table: Lines, row: 1, why: Cells }
tables: [] :: 01%(TAB)/ :: %(EMPTY) => BadRow { table: Sessions, row: 1, why: Number }
tables: [] :: 4294967296%(TAB)/ :: %(EMPTY) => BadRow { table: Sessions, row: 1, why: Number }
tables: [] :: %(TAB)/ :: %(EMPTY) => BadRow { table: Sessions, row: 1, why: Number }
tables: [] :: 1%(TAB)/ :: +1%(TAB)a => BadRow { table: Lines, row: 1, why: Number }
tables: [] :: 1%(TAB)a :: %(EMPTY) => BadRow { table: Sessions, row: 1, why: Directory }
tables: [] :: 1%(TAB)/a/ :: %(EMPTY) => BadRow { table: Sessions, row: 1, why: Directory }
tables: [] :: 1%(TAB)/.. :: %(EMPTY) => BadRow { table: Sessions, row: 1, why: Directory }
tables: [] :: 1%(TAB)/%(NUL) :: %(EMPTY) => BadRow { table: Sessions, row: 1, why: Directory }
tables: [] :: 1%(TAB)/%(n*256) :: %(EMPTY) => BadRow { table: Sessions, row: 1, why: Directory }
tables: [] :: 1%(TAB)/%(TAB)A :: %(EMPTY) => BadRow { table: Sessions, row: 1, why: Variable }
tables: [] :: 1%(TAB)/%(TAB)A=1%(TAB)PWD=/ :: %(EMPTY)
  => BadRow { table: Sessions, row: 1, why: Variable }
tables: [] :: 1%(TAB)/%(TAB)A=%(n*65537) :: %(EMPTY)
  => BadRow { table: Sessions, row: 1, why: TooLong }
tables: [] :: 1%(TAB)/%(TAB)A=1%(TAB)B=1%(TAB)A=2 :: %(EMPTY)
  => BadRow { table: Sessions, row: 1, why: VariableTwice }
tables: [] :: # a%(NL)%(NL)1%(TAB)/%(NL)2%(TAB)/%(NL)1%(TAB)/a :: %(EMPTY)
  => BadRow { table: Sessions, row: 5, why: SessionTwice }
tables: [] :: 1%(TAB)/ :: #%(NL)1%(TAB)a%(NL)2%(TAB)b%(NL)x
  => BadRow { table: Lines, row: 3, why: UnknownSession }
"#;

/// Returns the bytes of a field. A `!` in it is the byte 255, which isn't UTF-8.
fn bytes_of(alloc: Global, field: &str) -> Result<Vec<u8>, Fail> {
    let mut bytes = Vec::new(alloc);
    for byte in field.as_bytes() {
        bytes.push(if *byte == b'!' { 255 } else { *byte })?;
    }
    Ok(bytes)
}

/// Returns the script of a tree and two tables. The tree is that of a script with a session of its
/// own, which doesn't count.
pub fn tables(alloc: Global, tree: &str, sessions: &str, lines: &str) -> Result<String, Fail> {
    let given = format!(in alloc;
        "{{\"lines\":[],\"script\":1,\"sessions\":[[5,\"/\",0,[]]],\"tree\":{tree}}}"
    )?;
    let Ok(given) = read_script(alloc, given.as_bytes()) else {
        return fail("the tree isn't read");
    };
    let sessions = bytes_of(alloc, sessions)?;
    let lines = bytes_of(alloc, lines)?;
    match script_of_tables(alloc, given.first(), sessions.as_slice(), lines.as_slice()) {
        Ok(text) => {
            if read_script(alloc, text.as_slice()).is_err() {
                return fail("the script isn't read");
            }
            Ok(String::from_str(alloc, utf8(text.as_slice())?)?)
        }
        Err(fault) => Ok(format!(in alloc; "{fault:?}")?),
    }
}
