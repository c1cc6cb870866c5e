//! Rows of snapshots and of comparisons with them. In the folder `folder` is the file `/f`, a line
//! with `fig`, the directory `/d`, links at `/l` and `/m`, and a directory whose name isn't UTF-8.
//! The stream `stream` has `/f` and `/d`, and `torn stream` begins within a header. The document
//! `taken` is one of `folder` without the odd name.

/// Snapshots of `folder`: parts of the document, and what is said beside it.
pub(crate) const SNAPSHOTS: &str = r##"
begins: snapshot folder :: {"attributes":[["/",420,7,8],["/d",420,7,8],["/f",420,7,8]], => yes
has: snapshot folder :: "root":"folder","skipped":[["/l","link"],["/m","link"], => yes
has: snapshot folder :: ["/","odd name","ff"]],"snapshot":1,"taken":"2025-05-07T17:00:00Z", => yes
has: snapshot folder :: Z","tree":[["/d"],["/f","6669670a"]]}%(NL) => yes
remarks: snapshot folder => paths 3, skipped 3, link 2, odd name 1

begins: snapshot folder --at /srv/x/ :: {"attributes":[["/srv/x",420,7,8],["/srv/x/d", => yes
has: snapshot folder --at /srv/x :: "tree":[["/srv"],["/srv/x"],["/srv/x/d"],["/srv/x/f", => yes
remarks: snapshot folder --at /srv/x => paths 5, skipped 3, link 2, odd name 1

has: snapshot folder --skip /d --skip /l :: "skipped":[["/d","asked"],["/l","asked"], => yes
has: snapshot folder --skip /d --skip /l :: "tree":[["/f","6669670a"]]} => yes
remarks: snapshot folder --skip /d --skip /l => paths 2, skipped 4, link 1, odd name 1, asked 2

has: snapshot folder --mounts :: ["/f",420,7,8],["/n",420,7,8]],"root":"folder", => yes
has: snapshot folder --mounts :: ,"tree":[["/d"],["/f","6669670a"],["/n",""]]} => yes

begins: snapshot --tar stream :: {"attributes":[["/",493,7,8],["/d",493,7,8],["/f",420,7,8]], => yes
has: snapshot --tar stream :: "root":"stream","skipped":[],"snapshot":1,"taken":"2025-05-07T17 => yes
has: snapshot --tar stream :: Z","tree":[["/d"],["/f","6669670a"]]}%(NL) => yes
has: snapshot --tar stream --at /srv --skip /srv/d :: "tree":[["/srv"],["/srv/f","6669670a"]]} => yes
remarks: snapshot --tar stream => paths 3, skipped 0
"##;

/// Comparisons of logs with `folder`: the exit status, what is written, and what is said beside it.
pub(crate) const COMPARISONS: &str = r##"
ends: compare log folder =>
| 4 as recorded 2, not as recorded 1, skipped 0
| /d: no such file / a directory; no line wrote to it
| Paths are shown as recorded / as in the folder. What was overwritten before the end isn't compared.

ends: compare log folder --skip /d =>
| 0 as recorded 2, not as recorded 0, skipped 0
| Paths are shown as recorded / as in the folder. What was overwritten before the end isn't compared.

ends: compare later folder --skip /d =>
| 4 as recorded 1, not as recorded 1, skipped 0
| /f line 2: plum / ends before it; no line wrote to it
| Paths are shown as recorded / as in the folder. What was overwritten before the end isn't compared.

ends: compare log folder --at /f --skip /f/f =>
| 4 as recorded 0, not as recorded 2, skipped 0
| /f: 1 line, 4 bytes / a directory; last written by 1
| /f/d: no such file / a directory; no line wrote to it
| Paths are shown as recorded / as in the folder. What was overwritten before the end isn't compared.

ends: compare log folder --at /l --skip /l/d --skip /l/f =>
| 4 as recorded 0, not as recorded 1, skipped 0
| /l: no such file / a directory; no line wrote to it
| Paths are shown as recorded / as in the folder. What was overwritten before the end isn't compared.

ends: compare log folder --skip / =>
| 4 as recorded 2, not as recorded 1, skipped 0
| /d: no such file / a directory; no line wrote to it
| Paths are shown as recorded / as in the folder. What was overwritten before the end isn't compared.

ends: compare named folder --skip /d =>
| 4 as recorded 2, not as recorded 0, skipped 2
| /l: 1 line, 2 bytes / skipped, link; last written by 2
| /m: a directory / skipped, link; last written by 1
| Paths are shown as recorded / as in the folder. What was overwritten before the end isn't compared.

ends: compare named folder --skip /d --skip /l --skip /m =>
| 0 as recorded 2, not as recorded 0, skipped 0
| Paths are shown as recorded / as in the folder. What was overwritten before the end isn't compared.

ends: compare named --tar stream --skip /d =>
| 4 as recorded 2, not as recorded 2, skipped 0
| /l: 1 line, 2 bytes / no such file; last written by 2
| /m: a directory / no such file; last written by 1
| Paths are shown as recorded / as in the folder. What was overwritten before the end isn't compared.

ends: compare named --snapshot taken =>
| 4 as recorded 2, not as recorded 1, skipped 2
| /d: no such file / a directory; no line wrote to it
| /l: 1 line, 2 bytes / skipped, link; last written by 2
| /m: a directory / skipped, link; last written by 1
| Paths are shown as recorded / as in the folder. What was overwritten before the end isn't compared.

same: compare - folder --skip /d :: compare log folder --skip /d => yes
remarks: compare log folder --skip /d => paths 2, skipped 4, link 2, odd name 1, asked 1
"##;

/// Snapshots and comparisons that are refused: the exit status and the message.
pub(crate) const REFUSED_SNAPSHOTS: &str = r##"
refused: snapshot => 1 casebook: no FOLDER and no --tar FILE is given; see casebook help
refused: snapshot folder more => 1 casebook: these words are no command with its options; see
  casebook help
refused: snapshot file => 1 casebook: file: not a directory
refused: snapshot locked => 3 casebook: locked: can't be read
refused: snapshot folder --at srv => 1 casebook: --at: not a path from the root
refused: snapshot folder --skip /d --skip d => 1 casebook: --skip: not a path from the root
refused: compare => 1 casebook: no LOG is given; see casebook help
refused: compare log => 1 casebook: no FOLDER and no --tar FILE is given; see casebook help
refused: compare log folder --at srv => 1 casebook: --at: not a path from the root
refused: compare none folder => 3 casebook: none: no such file
refused: compare no%(ESC)json folder => 1 casebook: no⟨U+001B⟩json: not a log: no JSON text
  (refusal 12)
refused: compare log file => 1 casebook: file: not a directory
refused: compare log locked => 3 casebook: locked: can't be read
refused: snapshot folder --tar stream => 1 casebook: FOLDER and --tar are two sources; give one
refused: snapshot --tar stream --mounts => 1 casebook: --mounts needs a FOLDER
refused: snapshot --tar stream --at srv => 1 casebook: --at: not a path from the root
refused: snapshot --tar none => 3 casebook: none: can't be read
refused: snapshot --tar log => 1 casebook: log: not a tar stream: it ends in what begins at offset
  0
refused: snapshot --tar torn_stream => 1 casebook: torn stream: not a tar stream: no header at
  offset 0
refused: compare log folder --snapshot taken => 1 casebook: --snapshot needs no FOLDER, --tar,
  --mounts, --at and --skip
refused: compare log --snapshot taken --tar stream => 1 casebook: --snapshot needs no FOLDER, --tar,
  --mounts, --at and --skip
refused: compare log --snapshot taken --mounts => 1 casebook: --snapshot needs no FOLDER, --tar,
  --mounts, --at and --skip
refused: compare log --snapshot taken --at / => 1 casebook: --snapshot needs no FOLDER, --tar,
  --mounts, --at and --skip
refused: compare log --snapshot taken --skip /d => 1 casebook: --snapshot needs no FOLDER, --tar,
  --mounts, --at and --skip
refused: compare log --snapshot none => 3 casebook: none: can't be read
refused: compare log --snapshot list => 1 casebook: list: not a JSON text
refused: compare log --snapshot log => 1 casebook: log: not a snapshot: "snapshot" isn't 1, or keys
  are wrong
refused: compare log --snapshot ours => 1 casebook: ours: attributes: not a mode and an owner: row 2
refused: compare - --tar - => 1 casebook: - is standard input, which can be named once
refused: compare - --snapshot - => 1 casebook: - is standard input, which can be named once
"##;
