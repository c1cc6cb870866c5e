//! Cases in place of logs, and rows of what is said of them.
//!
//! The digests are those that `sha256sum` prints, of `one`, `two` and `Fri` with a newline each. Times
//! are as `date -u -d @1764363069` prints them.

use crate::status::machine_document;

/// A case of two people: mallory changes the file `/srv/p`, alice prints it, sorts it into `/srv/q`,
/// and writes the date to `/srv/r`.
const ACCOUNT: &str = "\
{\"case\":1,\"contents\":[\"74776f0a\",\"6f6e650a\",\"4672690a\"],\n\
\"first\":\"\
listing\\t0\\t3\\n\
dir\\t/srv\\t755\\t0\\t0\\t1\\t8\\t0\\t0\\t0\\t0\\t0\\t0\\n\
file\\t/srv/p\\t644\\t0\\t0\\t1\\t7\\t1\\t0\\t1\\t0\\t1\\t0\\n\
bytes\\t/srv/p\\t2c8b08da5ce60398e1f19af0e5dccc744df274b826abe585eaba68c525434806\\n\
\",\n\
\"lines\":\"\
record\\tstart\\tA\\t1764363069000000\\t0\\t/srv\\t\\tpts\\t0022\\tmallory\\t\\tsame\\t\\tnew\\tset +o posix\\n\
record\\tstart\\tB\\t1764363069000000\\t0\\t/srv\\t\\tpts\\t0022\\talice\\t\\tsame\\t\\tnew\\tset +o posix\\n\
record\\tbegin\\tA\\t1764363069000000\\t0\\t/srv\\t1\\tshown\\tsed -i s/one/two/ /srv/p\\n\
file\\t/srv/p\\t644\\t0\\t0\\t1\\t7\\t5\\t0\\t5\\t0\\t5\\t0\\n\
bytes\\t/srv/p\\t27dd8ed44a83ff94d557f9fd0412ed5a8cbca69ea04922d88c01184a07300a5a\\n\
record\\tend\\tA\\t1764363069000000\\t0\\t/srv\\t1\\t0\\t0\\tshown\\tsed -i s/one/two/ /srv/p\\tsame\\t\\tsame\\t\\n\
record\\tbegin\\tB\\t1764363129000000\\t0\\t/srv\\t1\\tshown\\tcat /srv/p\\n\
file\\t/srv/p\\t644\\t0\\t0\\t1\\t7\\t6\\t0\\t5\\t0\\t5\\t0\\n\
bytes\\t/srv/p\\t27dd8ed44a83ff94d557f9fd0412ed5a8cbca69ea04922d88c01184a07300a5a\\n\
record\\tend\\tB\\t1764363129000000\\t0\\t/srv\\t1\\t0\\t0\\tshown\\tcat /srv/p\\tsame\\t\\tsame\\t\\n\
record\\tbegin\\tB\\t1764363189000000\\t0\\t/srv\\t2\\tshown\\tsort /srv/p > /srv/q\\n\
file\\t/srv/p\\t644\\t0\\t0\\t1\\t7\\t7\\t0\\t5\\t0\\t5\\t0\\n\
bytes\\t/srv/p\\t27dd8ed44a83ff94d557f9fd0412ed5a8cbca69ea04922d88c01184a07300a5a\\n\
file\\t/srv/q\\t644\\t0\\t0\\t1\\t7\\t7\\t0\\t7\\t0\\t7\\t0\\n\
bytes\\t/srv/q\\t27dd8ed44a83ff94d557f9fd0412ed5a8cbca69ea04922d88c01184a07300a5a\\n\
record\\tend\\tB\\t1764363189000000\\t0\\t/srv\\t2\\t0\\t0\\tshown\\tsort /srv/p > /srv/q\\tsame\\t\\tsame\\t\\n\
record\\tbegin\\tB\\t1764363249000000\\t0\\t/srv\\t3\\tshown\\tdate > /srv/r\\n\
file\\t/srv/r\\t644\\t0\\t0\\t1\\t7\\t8\\t0\\t8\\t0\\t8\\t0\\n\
bytes\\t/srv/r\\tf1e77843d0a0a29a8af7ccea9d7a4a1f10e95043097a31c3932fc7f8371410c7\\n\
record\\tend\\tB\\t1764363249000000\\t0\\t/srv\\t3\\t0\\t0\\tshown\\tdate > /srv/r\\tsame\\t\\tsame\\t\\n\
\",\"unseen\":\"/srv\\n\"}";

/// A case in which mallory removes the link `/srv/l` and makes the link `/srv/m`.
const LINKED: &str = "\
{\"case\":1,\"contents\":[\"6669670a\"],\n\
\"first\":\"\
listing\\t0\\t6\\n\
dir\\t/srv\\t755\\t0\\t0\\t1\\t8\\t0\\t0\\t0\\t0\\t0\\t0\\n\
dir\\t/srv/d\\t755\\t0\\t0\\t1\\t9\\t0\\t0\\t0\\t0\\t0\\t0\\n\
file\\t/srv/f\\t644\\t0\\t0\\t1\\t7\\t1\\t0\\t1\\t0\\t1\\t0\\n\
link\\t/srv/l\\t777\\t0\\t0\\t1\\t5\\t1\\t0\\t1\\t0\\t1\\t0\\n\
bytes\\t/srv/f\\t9436d49a899840d99d0a27a769a414257fcb12736f5e6dd277f9ba410bc676cf\\n\
target\\t/srv/l\\td\\n\
\",\n\
\"lines\":\"\
record\\tstart\\tA\\t1764363069000000\\t0\\t/srv\\t\\tpts\\t0022\\tmallory\\t\\tsame\\t\\tnew\\tset +o posix\\n\
record\\tbegin\\tA\\t1764363069000000\\t0\\t/srv\\t1\\tshown\\trm /srv/l\\n\
gone\\t/srv/l\\n\
record\\tend\\tA\\t1764363069000000\\t0\\t/srv\\t1\\t0\\t0\\tshown\\trm /srv/l\\tsame\\t\\tsame\\t\\n\
record\\tbegin\\tA\\t1764363129000000\\t0\\t/srv\\t2\\tshown\\tln -s d /srv/m\\n\
link\\t/srv/m\\t777\\t0\\t0\\t1\\t6\\t5\\t0\\t5\\t0\\t5\\t0\\n\
target\\t/srv/m\\td\\n\
record\\tend\\tA\\t1764363129000000\\t0\\t/srv\\t2\\t0\\t0\\tshown\\tln -s d /srv/m\\tsame\\t\\tsame\\t\\n\
\",\"unseen\":\"\"}";

/// A case in which alice makes her file `/srv/f` readable for all, and mallory removes it and the
/// directory `/srv/d`, which are alice's and of another group.
const REMOVED: &str = "\
{\"case\":1,\"contents\":[\"6669670a\"],\n\
\"first\":\"\
listing\\t0\\t4\\n\
dir\\t/srv\\t755\\t0\\t0\\t1\\t8\\t0\\t0\\t0\\t0\\t0\\t0\\n\
dir\\t/srv/d\\t2750\\t1001\\t1002\\t1\\t9\\t0\\t0\\t0\\t0\\t0\\t0\\n\
file\\t/srv/f\\t640\\t1001\\t1002\\t1\\t7\\t1\\t0\\t1\\t0\\t1\\t0\\n\
bytes\\t/srv/f\\t9436d49a899840d99d0a27a769a414257fcb12736f5e6dd277f9ba410bc676cf\\n\
\",\n\
\"lines\":\"\
record\\tstart\\tA\\t1764363069000000\\t0\\t/srv\\t\\tpts\\t0022\\talice\\t\\tsame\\t\\tnew\\tset +o posix\\n\
record\\tstart\\tB\\t1764363069000000\\t0\\t/srv\\t\\tpts\\t0022\\tmallory\\t\\tsame\\t\\tnew\\tset +o posix\\n\
record\\tbegin\\tA\\t1764363069000000\\t0\\t/srv\\t1\\tshown\\tchmod 644 /srv/f\\n\
file\\t/srv/f\\t644\\t1001\\t1002\\t1\\t7\\t1\\t0\\t1\\t0\\t5\\t0\\n\
bytes\\t/srv/f\\t9436d49a899840d99d0a27a769a414257fcb12736f5e6dd277f9ba410bc676cf\\n\
record\\tend\\tA\\t1764363069000000\\t0\\t/srv\\t1\\t0\\t0\\tshown\\tchmod 644 /srv/f\\tsame\\t\\tsame\\t\\n\
record\\tbegin\\tB\\t1764363129000000\\t0\\t/srv\\t1\\tshown\\trm -r /srv/f /srv/d\\n\
gone\\t/srv/d\\n\
gone\\t/srv/f\\n\
record\\tend\\tB\\t1764363129000000\\t0\\t/srv\\t1\\t0\\t0\\tshown\\trm -r /srv/f /srv/d\\tsame\\t\\tsame\\t\\n\
\",\"unseen\":\"\"}";

/// Returns the bytes of a case by its name.
pub(crate) fn account_document(name: &str) -> Option<&'static [u8]> {
    match name {
        "account" => Some(ACCOUNT.as_bytes()),
        "linked" => Some(LINKED.as_bytes()),
        "removed" => Some(REMOVED.as_bytes()),
        _ => machine_document(name),
    }
}

/// Cases in place of logs: what is written.
pub(crate) const ACCOUNTS: &str = r##"
writes: lines account --format numbers => 1,2,3,4%(NL)
writes: lines account --unknown --format numbers => 1,3,4%(NL)
writes: lines account --user mallory --format numbers => 1%(NL)
writes: lines account --writes /srv/q --format numbers => 3%(NL)
writes: lines account --text sort --format numbers => 3%(NL)
writes: lines account --from 2 --to 3 --format numbers => 2,3%(NL)
writes: lines account --from 2025-11-28_20:53 --format numbers => 3,4%(NL)
writes: lines account --from 2025-11-28_20:52 --to 2025-11-28_20:53 --format numbers => 2,3%(NL)
writes: lines account --session 2 --text cat =>
|     2 Nov 28 20:52 alice   cat /srv/p
|         read  /srv/p
|         shown 4 bytes: two
has: lines account :: 1 o Nov 28 20:51 mallory sed -i s/one/two/ /srv/p%(NL) => yes
writes: lines account --about spaced --text date --format numbers => 4%(NL)
writes: check account => account: a case of 4 lines, 3 of them as they were observed%(NL)
writes: check case => case: a case of 1 lines, 1 of them as they were observed%(NL)
ends: check orphan => 4 orphan: not a case: what line 1 left can't be there: /srv/d%(NL)
ends: check damaged => 4 damaged: not a case: row 1 of its lines is damaged%(NL)
writes: show account --cancel 1 =>
| 4 lines of 2 sessions, Nov 28 20:51 to Nov 28 20:54. 1 cancelled.
| Recorded on the machine. 3 lines stand as they were observed.
| What lines only read wasn't always seen in /srv
|
| ? 1 line has to be run for real before this answer is whole.
|       1  what it depends on would be another     3
|   Until then it stands as it was observed.
|
|       1 cancelled
|       1 run again, another result
|       1 run again, the same result
|       0 met, kept as recorded
|       1 untouched
|
| RESTORE  1 change, 0 come back, 0 go
|   M /srv/p  +1 -1
| ?   /srv/q
|   ? written by a line that wasn't understood or has to be run for real
|
| TELL  1 session about 1 screen
|   alice   /srv/p                               1x  lines 2
|
| LOOKED  1 session by 1 observed line, at what would be another
|   alice   /srv/p                               1x  lines 3
|
| LEAKED  0 cancelled lines showed something
|   ? what other cancelled lines showed isn't recorded: lines 1
|
| READ  1 edited line read what is in files or directories
|       1  /srv/p
|
| CAUSES  what each edited line led to: lines with another result, run again alike, paths it wrote
|       1    1    1  sed -i s/one/two/ /srv/p                                      /srv/p
has: show account --cancel 4 :: %(NL)No line has to be run for real.%(NL) => yes
has: show account --cancel 1 --format json :: "observed":[1,3,4],"outside":[],"overlapping":[],"recording":false, => yes
has: show account --cancel 1 --format json :: "unknown":[[3,"need"]],"unseen":["/srv"]} => yes
has: show account --cancel 1 --format json :: "looked":[{"about":"path","lines":[3], => yes
has: show account --cancel 3 :: D /srv/q => yes
has: show account --replace [[1,"rm_/srv/p"]] :: D /srv/p => yes
page: page account --cancel 1 :: Recorded on the machine. 3 lines stand as they were observed. => yes
page: page account --cancel 1 :: always seen in /srv. => yes
ends: restore account --cancel 1 --root empty --at /srv =>
| 4 ready 0, done 0, differs 1, blocked 0, outside the folder 0, not chosen 0
| differs /srv/p: 1 line, 4 bytes / no such file
| Paths are shown as recorded / as repaired, and where the folder differs as recorded / as in the folder.

ends: compare account folder --skip /d --skip /f =>
| 4 as recorded 1, not as recorded 4, skipped 0
| /srv: a directory / no such file; no line wrote to it
| /srv/p: 1 line, 4 bytes / no such file; last written by 1
| /srv/q: 1 line, 4 bytes / no such file; last written by 3
| /srv/r: 1 line, 4 bytes / no such file; last written by 4
| Paths are shown as recorded / as in the folder. What was overwritten before the end isn't compared.

writes: lines linked --to 1 =>
|     1 o Nov 28 20:51 mallory rm /srv/l
|         read  /srv/l
|         wrote -/srv/l
has: show linked --cancel 1 :: A /srv/l  not kept, restore by hand%(NL) => yes
has: show linked --cancel 2 :: D /srv/m  not kept, restore by hand%(NL) => yes
has: show linked --cancel 2 --format json :: "change":"removed","extent":"not_kept","path":"/srv/m" => yes
page: page linked --cancel 1 :: not kept, restore by hand => yes
ends: restore linked --cancel 1 --root folder --at /srv =>
| 4 ready 0, done 0, differs 0, blocked 1, outside the folder 0, not chosen 0
| blocked /srv/l: not kept: a link
| Paths are shown as recorded / as repaired, and where the folder differs as recorded / as in the folder.

ends: restore linked --cancel 2 --root folder --at /srv =>
| 4 ready 0, done 0, differs 0, blocked 1, outside the folder 0, not chosen 0
| blocked /srv/m: a link is there
| Paths are shown as recorded / as repaired, and where the folder differs as recorded / as in the folder.

ends: restore linked --cancel 1,2 --root folder --at /srv --only /srv/m =>
| 4 ready 0, done 0, differs 0, blocked 1, outside the folder 0, not chosen 1
| blocked /srv/m: a link is there
| Paths are shown as recorded / as repaired, and where the folder differs as recorded / as in the folder.

keeps: restore linked --cancel 1 --root folder --at /srv --apply --undo new => nothing
ends: restore removed --cancel 2 --root empty --at /srv =>
| 0 ready 2, done 0, differs 0, blocked 0, outside the folder 0, not chosen 0
| ready /srv/d: no such file / a directory; gets 2750 1001:1002
| ready /srv/f: no such file / 1 line, 4 bytes; gets 0644 1001:1002
| Paths are shown as recorded / as repaired, and where the folder differs as recorded / as in the folder.

ends: restore removed --cancel 1,2 --root empty --at /srv --only /srv/f =>
| 0 ready 1, done 0, differs 0, blocked 0, outside the folder 0, not chosen 1
| ready /srv/f: no such file / 1 line, 4 bytes; gets 0640 1001:1002
| Paths are shown as recorded / as repaired, and where the folder differs as recorded / as in the folder.

ends: compare linked folder --at /srv =>
| 0 as recorded 3, not as recorded 0, skipped 0
| Paths are shown as recorded / as in the folder. What was overwritten before the end isn't compared.
"##;

/// What is refused of cases in place of logs: the exit status and the message.
pub(crate) const REFUSED_ACCOUNTS: &str = r##"
refused: lines orphan => 1 casebook: orphan: what line 1 left can't be there
refused: lines damaged => 1 casebook: damaged: row 1 of its lines is damaged
refused: show lawless --cancel 1 => 1 casebook: lawless: its first look isn't a lawful tree
refused: show account --cancel 5 => 1 casebook: --cancel: item 1: no line has the number 5
refused: show account --replace [[5,"x"]] => 1 casebook: no line has the number of a line to replace
  (refusal 21)
refused: show account --cancel 1 --line 5 => 1 casebook: --line: no line has the number 5
refused: lines account --user carol => 1 casebook: --user: no line is of a session with this name
refused: compare ended folder => 1 casebook: ended: after 1 records one begins or ends a line that is
  there already
"##;
