//! Rows of scripts of a snapshot and two tables. The document `taken` is a snapshot with a directory
//! `/d` and a file `/f`. The table `users` has sessions 1 and 2, and `first` session 1 alone; `typed`
//! has a line of each session.

/// Scripts: what is written.
pub(crate) const SCRIPTS: &str = r##"
begins: script taken --sessions users --lines typed :: {"lines":[[1,2,"echo fig > g"],[2,1, => yes
has: script taken --sessions users --lines typed :: ,[2,1,"grep a\\b f"]],"script":1, => yes
has: script taken --sessions users --lines typed :: ,"script":1,"sessions":[[1,"/",0,[["A","b => yes
has: script taken --sessions users --lines typed :: ,"sessions":[[1,"/",0,[["A","b c"]]], => yes
has: script taken --sessions users --lines typed :: ,[2,"/d",0,[]]],"tree":[["/d"], => yes
has: script taken --sessions users --lines typed :: ,"tree":[["/d"],["/f","6669670a"]]}%(NL) => yes
begins: script --help :: casebook script DOCUMENT --sessions FILE --lines FILE%(NL) => yes
same: script --help :: help script => yes
"##;

/// Scripts that are refused: the exit status and the message.
pub(crate) const REFUSED_SCRIPTS: &str = r##"
refused: script => 1 casebook: no DOCUMENT is given; see casebook help script
refused: script taken => 1 casebook: no --sessions FILE is given; see casebook help script
refused: script taken --sessions users => 1 casebook: no --lines FILE is given; see casebook help
  script
refused: script - --sessions - --lines typed => 1 casebook: - is standard input, which can be named
  once
refused: script - --sessions users --lines - => 1 casebook: - is standard input, which can be named
  once
refused: script taken --sessions - --lines - => 1 casebook: - is standard input, which can be named
  once
refused: script none --sessions users --lines typed => 3 casebook: none: no such file
refused: script taken --sessions none --lines typed => 3 casebook: none: no such file
refused: script taken --sessions users --lines none => 3 casebook: none: no such file
refused: script log --sessions users --lines typed => 1 casebook: log: not a snapshot: "snapshot"
  isn't 1, or keys are wrong
refused: script taken --sessions typed --lines typed => 1 casebook: typed: no path from the root:
  row 1
refused: script taken --sessions users --lines users => 1 casebook: users: too few or too many
  cells: row 2
refused: script taken --sessions first --lines typed => 1 casebook: typed: a session that isn't in
  the table of sessions: row 1
refused: script taken --sessions users --lines list%(ESC) => 1 casebook: list⟨U+001B⟩: not UTF-8
"##;
