//! Rows of restores. In the folder `folder` is the file `/f`, a line with `fig`, the directory
//! `/d`, and links at `/l` and `/m`; `empty` is empty, and in `stuck`, which has the same file, no
//! step succeeds. The undo files `fig` and `made` say that `/f` had a line with `plum` or wasn't
//! there before it got `fig`, and `gone` says that it had `fig` and was removed.

/// Restores: the exit status, what is written, what is said beside it, and what is in the new undo
/// file.
pub(crate) const RESTORES: &str = r##"
ends: restore log --cancel 1 --root folder =>
| 0 ready 1, done 0, differs 0, blocked 0, outside the folder 0, not chosen 0
| ready /f: 1 line, 4 bytes / no such file
| Paths are shown as recorded / as repaired, and where the folder differs as recorded / as in the folder.

ends: restore log --replace [[1,"echo_plum_>_/f"]] --root folder =>
| 0 ready 1, done 0, differs 0, blocked 0, outside the folder 0, not chosen 0
| ready /f line 1: fig / plum; keeps 0644 7:8
| Paths are shown as recorded / as repaired, and where the folder differs as recorded / as in the folder.

ends: restore log --cancel 1 --root empty =>
| 0 ready 0, done 1, differs 0, blocked 0, outside the folder 0, not chosen 0
| done /f: 1 line, 4 bytes / no such file
| Paths are shown as recorded / as repaired, and where the folder differs as recorded / as in the folder.

ends: restore later --replace [[8,"rm_/f"]] --root folder =>
| 4 ready 0, done 0, differs 1, blocked 0, outside the folder 0, not chosen 0
| differs /f line 2: plum / ends before it
| Paths are shown as recorded / as repaired, and where the folder differs as recorded / as in the folder.

ends: restore named --cancel 1,2 --root folder =>
| 4 ready 0, done 0, differs 0, blocked 2, outside the folder 0, not chosen 0
| blocked /l: a link is there
| blocked /m: a link is there
| Paths are shown as recorded / as repaired, and where the folder differs as recorded / as in the folder.

ends: restore named --cancel 1,2 --root folder --only /m =>
| 4 ready 0, done 0, differs 0, blocked 1, outside the folder 0, not chosen 1
| blocked /m: a link is there
| Paths are shown as recorded / as repaired, and where the folder differs as recorded / as in the folder.

ends: restore named --replace [[1,"mkdir_/n_/n/o"]] --root folder --only /n/o =>
| 0 ready 2, done 0, differs 0, blocked 0, outside the folder 0, not chosen 1
| ready /n: no such file / a directory; gets 0700 5:6
| ready /n/o: no such file / a directory; gets 0700 5:6
| Paths are shown as recorded / as repaired, and where the folder differs as recorded / as in the folder.

ends: restore log --replace [[1,"echo_a_>_/n"]] --root folder --only /n =>
| 0 ready 1, done 0, differs 0, blocked 0, outside the folder 0, not chosen 1
| ready /n: no such file / 1 line, 2 bytes; gets 0600 5:6
| Paths are shown as recorded / as repaired, and where the folder differs as recorded / as in the folder.

ends: restore log --cancel 1 --root folder --at /srv =>
| 0 ready 0, done 0, differs 0, blocked 0, outside the folder 1, not chosen 0
| Paths are shown as recorded / as repaired, and where the folder differs as recorded / as in the folder.

ends: restore named --replace [[1,"mkdir_/n_/n/o"]] --root empty --at /n =>
| 0 ready 1, done 0, differs 0, blocked 0, outside the folder 2, not chosen 0
| ready /n/o: no such file / a directory; gets 0700 5:6
| Paths are shown as recorded / as repaired, and where the folder differs as recorded / as in the folder.

remarks: restore log --cancel 1 --root folder => nothing was changed
remarks: restore log --cancel 1 --root folder --apply --undo new => restored
remarks: restore log --cancel 1 --root folder --apply --undo gone => restored

same: restore log --cancel 1 --root folder --apply --undo new ::
  restore log --cancel 1 --root folder => yes
keeps: restore log --cancel 1 --root folder => nothing
keeps: restore log --cancel 1 --root folder --apply --undo new =>
  {"at":"/","rows":[["/f",["file","6669670a",420,7,8],null]],"undo":1}%(NL)
keeps: restore log --replace [[1,"echo_a_>_/n"]] --root folder --only /n --apply --undo new =>
  {"at":"/","rows":[["/n",null,["file","610a",384,5,6]]],"undo":1}%(NL)
keeps: restore log --cancel 1 --root folder --apply --undo gone => nothing
keeps: restore named --cancel 1,2 --root folder --apply --undo new => nothing

ends: restore --undo fig --root folder =>
| 0 ready 1, done 0, differs 0, blocked 0, outside the folder 0, not chosen 0
| ready /f line 1: fig / plum; keeps 0644 7:8
| Paths are shown as recorded / as repaired, and where the folder differs as recorded / as in the folder.

ends: restore --undo made --root folder --apply =>
| 0 ready 1, done 0, differs 0, blocked 0, outside the folder 0, not chosen 0
| ready /f: 1 line, 4 bytes / no such file
| Paths are shown as recorded / as repaired, and where the folder differs as recorded / as in the folder.

ends: restore --undo fig --root empty =>
| 0 ready 1, done 0, differs 0, blocked 0, outside the folder 0, not chosen 0
| ready /f line 1: fig / plum; gets 0644 7:8
| Paths are shown as recorded / as repaired, and where the folder differs as recorded / as in the folder.

ends: restore --undo gone --root folder =>
| 0 ready 0, done 1, differs 0, blocked 0, outside the folder 0, not chosen 0
| done /f: no such file / 1 line, 4 bytes
| Paths are shown as recorded / as repaired, and where the folder differs as recorded / as in the folder.

ends: restore --undo plum --root folder --apply =>
| 4 ready 0, done 0, differs 1, blocked 0, outside the folder 0, not chosen 0
| differs /f line 1: plum / fig
| Paths are shown as recorded / as repaired, and where the folder differs as recorded / as in the folder.

remarks: restore --undo fig --root folder => nothing was changed
remarks: restore --undo fig --root folder --apply => restored
"##;

/// Restores that are refused, or fail, with the exit status and the line on standard error.
pub(crate) const REFUSED_RESTORES: &str = r##"
refused: restore log --cancel 1 => 1 casebook: no --root FOLDER is given; see casebook help restore
refused: restore log --root folder => 1 casebook: no --cancel LIST is given; see casebook help show
refused: restore --root folder => 1 casebook: no LOG is given; see casebook help
refused: restore log --cancel 1 --root folder --at srv => 1 casebook: --at: not a path from the root
refused: restore log --cancel 1 --root folder --only f => 1 casebook: --only: not a path from the
  root
refused: restore log --cancel 1 --root folder --apply => 1 casebook: --apply needs --undo FILE, a
  file that isn't there yet
refused: restore log --cancel 1 --root folder --undo new => 1 casebook: --undo needs --apply where a
  LOG is given
refused: restore --undo fig --root folder --only /f => 1 casebook: --undo without a LOG has --root
  and --apply alone
refused: restore --undo fig --root folder --cancel 1 => 1 casebook: --undo without a LOG has --root
  and --apply alone
refused: restore log --cancel 9 --root folder => 1 casebook: --cancel: item 1: no line has the
  number 9
refused: restore none --cancel 1 --root folder => 3 casebook: none: no such file
refused: restore log --cancel 1 --root locked => 3 casebook: locked: can't be read
refused: restore log --cancel 1 --root file => 1 casebook: file: not a directory
refused: restore log --cancel 1 --root folder --apply --undo locked => 3 casebook: locked: this undo
  file can't be read or written
refused: restore log --cancel 1 --root folder --apply --undo fig => 1 casebook: fig: the undo file
  of another restore
refused: restore log --cancel 1 --root folder --apply --undo placed => 1 casebook: placed: the undo
  file of another restore
refused: restore log --cancel 1 --root folder --apply --undo script => 1 casebook: script: not an
  undo file
refused: restore log --cancel 1 --root stuck --apply --undo new => 3 casebook: stuck: restored in
  part; run this again, or take it back by the undo file
refused: restore --undo new --root folder => 3 casebook: new: this undo file can't be read or
  written
refused: restore --undo script --root folder => 1 casebook: script: not an undo file
refused: restore --undo fig --root file => 1 casebook: file: not a directory
"##;
