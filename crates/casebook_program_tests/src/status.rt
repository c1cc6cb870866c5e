//! What a machine says of itself, and rows of what is said of spools.
//!
//! Times are as `date -u -d @1764363069` prints them.
use casebook_recorder_cli::OpenError;
use retro_path::{NoMem, Path};
use std::alloc::Global;

/// A first look that found a directory.
pub(crate) const SRV: &str = "listing\t0\t1\ndir\t/srv\t755\t0\t0\t1\t2\t0\t0\t0\t0\t0\t0\n";

/// Two sessions of ann and one of bob. ann runs a line and leaves the other session, and of bob's
/// lines there is the end of the third one.
pub(crate) const LIVED: &[u8] = b"\
record\tstart\tA\t1764363069000000\t0\t/srv\t\t/dev/pts/0\t0022\tann\t\tsame\t\tnew\tset +o posix\n\
record\tstart\tB\t1764363069000000\t0\t/srv\t\t/dev/pts/1\t0022\tbob\t\tsame\t\tnew\tset +o posix\n\
record\tstart\tC\t1764363069000000\t0\t/srv\t\t/dev/pts/2\t0022\tann\t\tsame\t\tnew\tset +o posix\n\
record\tbegin\tA\t1764363069000000\t0\t/srv\t1\tshown\tcd /srv\n\
record\tend\tA\t1764363129000000\t0\t/srv\t1\t0\t0\tshown\tcd /srv\tsame\t\tsame\t\n\
record\tend\tB\t1764363189000000\t0\t/srv\t3\t0\t0\tshown\tdate\tsame\t\tsame\t\n\
record\texit\tC\t1764363249000000\t0\t/srv\t0\t0\n";

/// Returns the bytes of what a machine says of itself: what is mounted where, or who is logged in.
pub(crate) fn machine_document(name: &str) -> Option<&'static [u8]> {
    match name {
        "/proc/self/mounts" => Some(
            b"/dev/vda1 / ext4 rw,relatime 0 0\n/dev/vdb1 /srv ext4 rw 0 0\n",
        ),
        "ann" => Some(b"ann      pts/0        2025-11-28 20:51\n"),
        "carol" => Some(
            b"ann      pts/2        2025-11-28 20:51\ncarol    pts/3        2025-11-28 20:51 (10.0.0.7)\n",
        ),
        "nobody" => Some(b""),
        _ => None,
    }
}

/// Returns the folders that the spool with a name watches.
pub(crate) fn folders_of(alloc: Global, name: &str) -> Result<Vec<Path>, OpenError> {
    let names: &[&str] = match name {
        "lived" => &["home", "srv"],
        _ => &["srv"],
    };
    let mut folders = Vec::new(alloc);
    for name in names {
        match Path::of_names(alloc, &[*name]) {
            Ok(Some(folder)) => push(&mut folders, folder)?,
            Ok(None) => return Err(OpenError::Damaged),
            Err(NoMem) => return Err(OpenError::NoMem),
        }
    }
    Ok(folders)
}

/// Returns the rows of the folders that the spool with a name watches, and in which it wasn't always
/// seen what lines only read.
pub(crate) fn unseen_of(name: &str) -> &'static [u8] {
    match name {
        "lived" => b"/home\n",
        _ => b"",
    }
}

/// Appends a folder.
fn push(folders: &mut Vec<Path>, folder: Path) -> Result<(), OpenError> {
    match folders.push(folder) {
        Ok(()) => Ok(()),
        Err(_) => Err(OpenError::NoMem),
    }
}

/// What is said of spools: the exit status and the text.
pub(crate) const STATUS: &str = r##"
ends: status spool =>
| 0   recorded  no line yet
|   folders   /srv
|   sessions  0
|   lines     0: 0 as typed, 0 as observed
|   overlaps  0: lines that aren't told apart
|   outside   0: changes that no recorded line made
|   missing   no line lacks a record
|   reads     seen in all folders
|   case      74 bytes

ends: status spool --who nobody =>
| 4   recorded  no line yet
|   folders   /srv
|   sessions  0
|   lines     0: 0 as typed, 0 as observed
|   overlaps  0: lines that aren't told apart
|   outside   0: changes that no recorded line made
|   missing   no line lacks a record
|   reads     seen in all folders
| ? logins    the list names nobody
|   case      74 bytes

ends: status lived --who carol =>
| 4   recorded  2025-11-28T20:52:09Z to 2025-11-28T20:53:09Z
|   folders   /home, /srv
|   sessions  3: ann 2, bob 1
|   lines     2: 1 as typed, 1 as observed
|   overlaps  0: lines that aren't told apart
|   outside   0: changes that no recorded line made
| ? missing   lines without a record: 2 of session 2
| ? reads     not seen in /home: mount them with strictatime
| ? logins    not recorded: carol pts/3
|   case      703 bytes

ends: status lived --who ann =>
| 4   recorded  2025-11-28T20:52:09Z to 2025-11-28T20:53:09Z
|   folders   /home, /srv
|   sessions  3: ann 2, bob 1
|   lines     2: 1 as typed, 1 as observed
|   overlaps  0: lines that aren't told apart
|   outside   0: changes that no recorded line made
| ? missing   lines without a record: 2 of session 2
| ? reads     not seen in /home: mount them with strictatime
|   logins    all are recorded
|   case      703 bytes

begins: status --help :: casebook status SPOOL [--who FILE]%(NL) => yes
same: status --help :: help status => yes
"##;

/// What is refused of a status: the exit status and the message.
pub(crate) const REFUSED_STATUS: &str = r##"
refused: status => 1 casebook: no SPOOL is given; see casebook help
refused: status spool --who => 1 casebook: these words are no command with its options; see casebook
  help
refused: status spool kept => 1 casebook: these words are no command with its options; see casebook
  help
refused: status none => 3 casebook: none: there is no such spool
refused: status busy => 3 casebook: busy: somebody else has this spool
refused: status lost => 1 casebook: lost: row 2 of its first look: the bytes are missing or were
  altered
refused: status spool --who none => 3 casebook: none: no such file
"##;
