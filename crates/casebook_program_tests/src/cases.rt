//! Spools that are only read, by their names, and rows of what is written of them.
//!
//! The digests are those that `sha256sum` prints: of `plum` and of `fig`, each with a newline. A
//! name says what is wrong with a spool, if something is. The others are in order: `spool` saw
//! nothing, `kept` saw three files, and what `cut` saw last was cut off.
ghost use Rattle.std.specs.Prelude.{None};

use crate::accounts::account_document;
use crate::recorder::fault_of;
use crate::status::{LIVED, SRV};
use casebook_case::SpoolSource;
use casebook_observe::SpoolError;
use casebook_recorder_cli::OpenError;
use casebook_spool::{Contents, Digest};
use retro_path::{Bytes, NoMem};
use std::alloc::Global;

/// A first look that found nothing.
const NOTHING: &str = "listing\t0\t0\n";

/// A first look that found a file.
const FILE: &str = "listing\t0\t1\n\
bytes\t/f\t9436d49a899840d99d0a27a769a414257fcb12736f5e6dd277f9ba410bc676cf\n";

/// An observation of two files.
const FILES: &[u8] =
    b"bytes\t/g\t32dca98fb253c52a0da48080dcc522e2377ff4ba7c424fbe3024298683763c0e\n\
bytes\t/h\t9436d49a899840d99d0a27a769a414257fcb12736f5e6dd277f9ba410bc676cf\n\
record\texit\ts\t5\t0\t/\t1\t0\n";

/// An observation of nothing, and a front of one of a file.
const CUT: &[u8] = b"record\texit\ts\t5\t0\t/\t1\t0\n\
bytes\t/g\t32dca98fb253c52a0da48080dcc522e2377ff4ba7c424fbe3024298683763c0e\n";

/// A case of a session that makes a directory.
const CASE: &str = r#"{"case":1,"contents":[],
"first":"listing\t0\t1\ndir\t/srv\t755\t0\t0\t1\t2\t0\t0\t0\t0\t0\t0\n",
"lines":"record\tbegin\tA\t5\t0\t/\t1\tshown\tx\ndir\t/srv/d\t755\t0\t0\t1\t8\t5\t0\t5\t0\t5\t0\nrecord\tend\tA\t5\t0\t/\t1\t0\t0\tshown\tx\tsame\t\tsame\t\n","unseen":""}"#;

/// A case in which the directory is made where there is none.
const ORPHAN: &str = r#"{"case":1,"contents":[],"first":"listing\t0\t0\n",
"lines":"record\tbegin\tA\t5\t0\t/\t1\tshown\tx\ndir\t/srv/d\t755\t0\t0\t1\t8\t5\t0\t5\t0\t5\t0\nrecord\tend\tA\t5\t0\t/\t1\t0\t0\tshown\tx\tsame\t\tsame\t\n","unseen":""}"#;

/// A case in which a line ends twice.
const ENDED: &str = r#"{"case":1,"contents":[],"first":"listing\t0\t0\n",
"lines":"record\tend\tA\t5\t0\t/\t1\t0\t0\tshown\tx\tsame\t\tsame\t\nrecord\tend\tA\t5\t0\t/\t1\t0\t0\tshown\tx\tsame\t\tsame\t\n","unseen":""}"#;

/// A case whose first look has a file in a file.
const LAWLESS: &str = r#"{"case":1,"contents":[],
"first":"listing\t0\t2\nfile\t/f\t644\t0\t0\t1\t7\t1\t0\t1\t0\t1\t0\nfile\t/f/g\t644\t0\t0\t1\t7\t1\t0\t1\t0\t1\t0\n",
"lines":"","unseen":""}"#;

/// Returns the bytes of a document about a case.
pub(crate) fn case_document(name: &str) -> Option<&'static [u8]> {
    match name {
        "case" => Some(CASE.as_bytes()),
        "orphan" => Some(ORPHAN.as_bytes()),
        "ended" => Some(ENDED.as_bytes()),
        "lawless" => Some(LAWLESS.as_bytes()),
        "damaged" => Some(
            br#"{"case":1,"contents":[],"first":"listing\t0\t0\n","lines":"x\ny\n","unseen":""}"#,
        ),
        "digits" => Some(
            br#"{"case":1,"contents":["0"],"first":"listing\t0\t0\n","lines":"","unseen":""}"#,
        ),
        _ => account_document(name),
    }
}

/// What a spool returns as the bytes with a digest.
#[derive(Clone, Copy, Debug, Drop, PartialEq, Eq)]
enum Kept {
    /// The bytes.
    Whole,
    /// Other bytes.
    Altered,
    /// No bytes.
    Lost,
    /// An error.
    Unread,
}

/// A spool that is only read.
#[derive(Drop)]
pub(crate) struct NamedSource {
    /// What the file `first` has.
    first: &'static str,
    /// What the file `lines` has.
    lines: &'static [u8],
    /// What the contents are.
    kept: Kept,
}

/// Returns a copy of bytes.
fn copy_of(alloc: Global, bytes: &[u8]) -> Result<Vec<u8>, SpoolError> {
    match Vec::from_slice(alloc, bytes) {
        Ok(copy) => Ok(copy),
        Err(NoMem) => Err(SpoolError::NoMem),
    }
}

/// Returns the bytes of all files.
fn contents(alloc: Global) -> Result<Contents, NoMem> {
    let mut contents = Contents::new(alloc);
    contents.add(Bytes::of(Vec::from_slice(alloc, b"fig\n")?))?;
    contents.add(Bytes::of(Vec::from_slice(alloc, b"plum\n")?))?;
    Ok(contents)
}

/// Returns the bytes with a digest.
fn whole(alloc: Global, digest: &Digest) -> Result<Option<Bytes>, NoMem> {
    match contents(alloc)?.get(digest) {
        Some(bytes) => Ok(Some(Bytes::of(Vec::from_slice(alloc, bytes.as_slice())?))),
        None => Ok(None),
    }
}

impl SpoolSource for NamedSource {
    // Nothing is said of what it holds.
    ghost holds = { λ _. None };

    fn first(&self, alloc: Global) -> Result<Vec<u8>, SpoolError> {
        copy_of(alloc, self.first.as_bytes())
    }

    fn lines(&self, alloc: Global) -> Result<Vec<u8>, SpoolError> {
        copy_of(alloc, self.lines)
    }

    fn content(&self, alloc: Global, digest: &Digest) -> Result<Option<Bytes>, SpoolError> {
        match self.kept {
            Kept::Whole => match whole(alloc, digest) {
                Ok(found) => Ok(found),
                Err(NoMem) => Err(SpoolError::NoMem),
            },
            Kept::Altered => Ok(Some(Bytes::of(copy_of(alloc, b"fog\n")?))),
            Kept::Lost => Ok(None),
            Kept::Unread => Err(SpoolError::Failed),
        }
    }
}

/// Returns the spool with a name, to be read.
pub(crate) fn source_of(name: &str) -> Result<NamedSource, OpenError> {
    if let Some(fault) = fault_of(name) {
        return Err(fault);
    }
    let first = match name {
        "kept" | "lost" => FILE,
        "lived" => SRV,
        "unread" => "",
        _ => NOTHING,
    };
    let lines: &[u8] = match name {
        "kept" | "altered" | "shut" => FILES,
        "cut" => CUT,
        "lived" => LIVED,
        "torn" => b"gone\n",
        "binary" => b"record\texit\ts\t5\t0\t/\t1\t0\n\xFF",
        _ => b"",
    };
    let kept = match name {
        "altered" => Kept::Altered,
        "cut" | "lost" => Kept::Lost,
        "shut" => Kept::Unread,
        _ => Kept::Whole,
    };
    Ok(NamedSource { first, lines, kept })
}

/// Cases of spools and logs of cases: what is written.
pub(crate) const CASES: &str = r##"
writes: import spool => {"case":1,"contents":[],"first":"listing\t0\t0\n","lines":"","unseen":""}%(NL)
writes: import kept => {"case":1,"contents":["706c756d0a","6669670a"],\
  "first":"listing\t0\t1\nbytes\t/f\t\
  9436d49a899840d99d0a27a769a414257fcb12736f5e6dd277f9ba410bc676cf\n",\
  "lines":"bytes\t/g\t32dca98fb253c52a0da48080dcc522e2377ff4ba7c424fbe3024298683763c0e\n\
  bytes\t/h\t9436d49a899840d99d0a27a769a414257fcb12736f5e6dd277f9ba410bc676cf\n\
  record\texit\ts\t5\t0\t/\t1\t0\n","unseen":""}%(NL)
writes: import cut => {"case":1,"contents":[],"first":"listing\t0\t0\n",\
  "lines":"record\texit\ts\t5\t0\t/\t1\t0\n\
  bytes\t/g\t32dca98fb253c52a0da48080dcc522e2377ff4ba7c424fbe3024298683763c0e\n","unseen":""}%(NL)
begins: import --help :: casebook import SPOOL > CASE%(NL) => yes
same: import --help :: help import => yes
writes: log case => {"from":1,"lines":[[1,1,"mkdir /srv/d",[["kind","/srv/d","missing"],\
  ["kind","/srv","dir"],["put","/srv/d",["d"]],["setstatus",0]],""]],"log":2,\
  "sessions":[[0,"/",0,[]],[1,"/",0,[]]],\
  "tree":[["/.casebook"],["/.casebook/elsewhere"],["/.casebook/shell"],["/srv"]]}%(NL)
begins: log --help :: casebook log CASE > LOG%(NL) => yes
same: log --help :: help log => yes
"##;

/// What is refused of cases: the exit status and the message.
pub(crate) const REFUSED_CASES: &str = r##"
refused: import => 1 casebook: no SPOOL is given; see casebook help
refused: import spool kept => 1 casebook: these words are no command with its options; see casebook
  help
refused: import --start spool => 1 casebook: these words are no command with its options; see
  casebook help
refused: import none => 3 casebook: none: there is no such spool
refused: import busy => 3 casebook: busy: somebody else has this spool
refused: import locked => 3 casebook: locked: the system refuses to open it
refused: import shut => 3 casebook: shut: it can't be read
refused: import unread => 1 casebook: unread: its first look can't be read
refused: import torn => 1 casebook: torn: row 1 of its lines: neither a note nor a record
refused: import lost => 1 casebook: lost: row 2 of its first look: the bytes are missing or were
  altered
refused: import altered => 1 casebook: altered: row 1 of its lines: the bytes are missing or were
  altered
refused: import binary => 1 casebook: binary: a file of it isn't text
refused: log => 1 casebook: no CASE is given; see casebook help log
refused: log case later => 1 casebook: these words are no command with its options; see casebook help
refused: log none => 3 casebook: none: no such file
refused: log list => 1 casebook: list: not a JSON value
refused: log log => 1 casebook: log: not a case
refused: log digits => 1 casebook: digits: content 1 isn't hexadecimal digits
refused: log damaged => 1 casebook: damaged: row 1 of its lines is damaged
refused: log lawless => 1 casebook: lawless: its first look isn't a lawful tree
refused: log ended => 1 casebook: ended: after 1 records one begins or ends a line that is there
  already
refused: log orphan => 1 casebook: orphan: what line 1 left can't be there
"##;
