//! Tables of the words that the program is given, and of what it answers. `rows.rt` has the calls.

/// Requests for lines, and what is written.
pub(crate) const LINES: &str = r##"
writes: lines log =>
|     1 2 echo fig > /f
|         wrote +/f >/f
|     2 1 cat /f
|         read  /f
|         shown 4 bytes: fig

same: lines - :: lines log => yes
same: lines %(ESC)[2J --format text :: lines log => yes
writes: lines log --session 1 =>
|     2 1 cat /f
|         read  /f
|         shown 4 bytes: fig

same: lines log --user 1 :: lines log --session 1 => yes
same: lines log --reads /f :: lines log --session 1 => yes
same: lines log --from 2 --to 2 :: lines log --session 1 => yes
same: lines log --text ^c.t --shown ^fig$ :: lines log --session 1 => yes
writes: lines log --text ^c.t$ --shown ^fig$ => %(EMPTY)
writes: lines log --text ^c.t --shown ^ig => %(EMPTY)
writes: lines later --shown ^plum$ --format numbers => 8%(NL)
writes: lines later --shown g$ --format numbers => 8%(NL)
writes: lines later --shown ^lum --format numbers => %(NL)
writes: lines log --writes / --format tsv => 1%(TAB)%(TAB)2%(TAB)2%(TAB)echo fig >
  /f%(TAB)%(TAB)+/f%(TAB)>/f%(NL)
writes: lines log --touches /f --format numbers => 1,2%(NL)
writes: lines log --touches /g/ --format numbers => %(NL)
writes: lines log --unknown --format numbers => %(NL)
writes: lines odd --unknown --format numbers => 1%(NL)
remarks: lines log --unknown --format numbers => 0 of 2 lines
writes: lines log --about about --user ann --format numbers => 2%(NL)
writes: lines log --user 1 --format numbers => 2%(NL)
writes: lines log --about spaced --user Ann_B --format numbers => 2%(NL)

writes: lines log --about about =>
|     1 May 06 10:50 guest echo fig > /f
|         wrote +/f >/f
|     2 May 06 10:52 ann   cat /f
|         read  /f
|         shown 4 bytes: fig
"##;

/// Options that name times, and the numbers of the lines that were typed then. By `about` line 1
/// was typed at 10:50 and line 2 at 10:52; by `seconds` at 10:50:30 and at 10:52:59. `twice` has
/// two times of line 1, 10:50 and then 10:52.
pub(crate) const TIMES: &str = r##"
numbers: --about about --from 2025-05-06_10:50 => 1,2
numbers: --about about --from 2025-05-06_10:50:01 => 2
numbers: --about about --to 2025-05-06T10:50 => 1
numbers: --about about --to 2025-05-06T10:49:59 => %(EMPTY)
numbers: --about about --from 2025-05-06 --to 2025-05-07 => 1,2
numbers: --about about --from 2025-05-07 => %(EMPTY)
numbers: --about about --from 2025-05-06T12:52+02:00 => 2
numbers: --about about --from 1 --to 2025-05-06_10:51 => 1
numbers: --about about --from 2 --to 2025-05-06_10:51 => %(EMPTY)
numbers: --about half --from 2025-01-01 => 2
numbers: --about seconds --to 2025-05-06_10:50 => 1
numbers: --about seconds --to 2025-05-06T10:50 => 1
numbers: --about seconds --to 2025-05-06_10:50:29 => %(EMPTY)
numbers: --about seconds --to 2025-05-06_10:50:30 => 1
numbers: --about seconds --to 2025-05-06_10:51 => 1
numbers: --about seconds --from 2025-05-06_10:50 --to 2025-05-06_10:52 => 1,2
numbers: --about seconds --from 2025-05-06_10:51 --to 2025-05-06_10:52:59 => 2
numbers: --about seconds --to 2025-05-06_10:52:58 => 1
numbers: --about seconds --from 2025-05-06 --to 2025-05-06 => 1,2
numbers: --about seconds --to 2025-05-05 => %(EMPTY)
numbers: --about twice --from 2025-05-06_10:52 => 1
numbers: --about twice --to 2025-05-06_10:51 => %(EMPTY)
"##;

/// Requests for repairs, and what is written or a part of it.
pub(crate) const REPAIRS: &str = r##"
writes: show log --cancel 1 =>
| 2 lines of 2 sessions. 1 cancelled.
| Played in Retro's shell. Whether the machine did the same isn't known.
|
| Every line was understood.
|
|       1 cancelled
|       1 run again, another result
|       0 run again, the same result
|       0 met, kept as recorded
|       0 untouched
|
| RESTORE  0 change, 0 come back, 1 go
|   D /f  +0 -1
|
| TELL  1 session about 1 screen
|   1 /f                                   1x  lines 2
|
| LEAKED  0 cancelled lines showed something
|
| READ  0 edited lines read what is in files or directories
|
| CAUSES  what each edited line led to: lines with another result, run again alike, paths it wrote
|       1    1    0  echo fig > /f                                                 /f

same: show - --cancel @list :: show log --cancel 1 => yes
same: show log --cancel 1-2,-2 :: show log --cancel 1 => yes
adds: show log --cancel 1 :: --why --diff =>
|
| WHY  lines run again with another result
|       2 1 cat /f
|         read /f: 1 line, 4 bytes / no such file   because of 1
|
| --- /f
| +++ /dev/null
| @@ -1 +0,0 @@
| -fig
| --- output of line 2
| +++ output of line 2
| @@ -1 +1 @@
| -fig
| +cat: /f: No such file or directory

writes: show log --cancel 1 --line 2 --about about =>
|       2 May 06 10:52 ann   cat /f
|         run again, another result
|         read /f: 1 line, 4 bytes / no such file   because of 1
|         as recorded
|           read /f: 1 line, 4 bytes
|           set status: 0
|         | fig
|         as repaired
|           read /f: no such file
|           set status: 1
|         | cat: /f: No such file or directory

writes: show log --cancel 1 --format json =>
  {"causes":[{"alike":0,"changed":1,"line":1,"paths":["/f"],"read":[]}],"counts":{"alike":0,\
  "cancelled":1,"changed":1,"kept":0,"untouched":0},"doubtful":[],"incomplete":[],"leaked":[],\
  "lines":[{"because_of":null,"fate":"cancelled","line":1,"note":null,"origin":null,\
  "session":2,"why":null},{"because_of":1,"fate":"changed","line":2,"note":0,"origin":1,\
  "session":1,"why":"query"}],"looked":[],"observed":[],"outside":[],"overlapping":[],"recording":true,"restore":[{"added":0,\
  "change":"removed","extent":"lines","path":"/f","removed":1}],"show":1,"source":"played",\
  "tell":[{"about":"path","lines":[2],"path":"/f","session":1,"user":null,"variable":null}],\
  "unknown":[],"unseen":[]}%(NL)

has: show log --replace [[1,"echo_plum_>_/f"]] ::       2 run again, another result => yes
has: show log --replace [[1,"echo_plum_>_/f"]] ::   M /f  +1 -1 => yes
has: show log --replace [[1,"echo_plum_>_/f"]] --why ::         its text is replaced => yes
has: show log --cancel 1 --replace [[2,"cat_/g"]] ::   D /f  +0 -1 => yes
has: show log --cancel 1 --replace [] ::       1 cancelled => yes
has: page log --replace [[1,":"]] --workers 1 :: <h1>log</h1> => yes
same: show log --cancel 1 --workers 2 :: show log --cancel 1 => yes
same: show log --cancel 1 --cuts 1,1 :: show log --cancel 1 => yes
same: show log --cancel 1 --workers 0 --cuts 64 :: show log --cancel 1 => yes
same: show log --cancel 1 --workers 16 --cuts 2 :: show log --cancel 1 => yes
coloured: show log --cancel 1 --diff :: %(ESC)[1mRESTORE  0 change, 0 come back, 1
  go%(ESC)[0m%(NL) => yes
coloured: show log --cancel 1 --diff :: %(NL)%(ESC)[31m-fig%(ESC)[0m%(NL) => yes
coloured: show log --cancel 1 --diff :: %(NL)%(ESC)[32m+cat: /f: No such file or
  directory%(ESC)[0m%(NL) => yes
coloured: show log --cancel 1 --diff :: %(NL)%(ESC)[36m@@ -1 +1 @@%(ESC)[0m%(NL) => yes
plain: lines log => yes
"##;

/// Requests for bytes of repairs, and what is written.
pub(crate) const BYTES: &str = r##"
writes: cat log /f --cancel 2 => fig%(NL)
writes: cat log /f/ --replace [[1,"echo_plum_>_/f"]] => plum%(NL)
writes: cat log --line 2 --replace [[1,"echo_plum_>_/f"]] => plum%(NL)
writes: cat log --line 2 --cancel @list => cat: /f: No such file or directory%(NL)
writes: cat log --line 2 --replace [] => fig%(NL)
writes: cat log --line 1 --replace [] => %(EMPTY)
writes: cat account --line 2 --cancel 4 => two%(NL)
writes: cat account --line 2 --cancel 1 --workers 2 => one%(NL)
writes: cat account /srv/p --cancel 1 => one%(NL)
writes: patch log --cancel 1 =>
| diff --git a/f b/f
| deleted file mode 100644
| index e771810631f9af5acf9fcb7cbd9776eff99e3432..0000000000000000000000000000000000000000
| --- a/f
| +++ /dev/null
| @@ -1 +0,0 @@
| -fig

writes: patch log --cancel 2 => %(EMPTY)
writes: patch account --cancel 1 =>
| diff --git a/srv/p b/srv/p
| index f719efd430d52bcfc8566a43b2eb655688d38871..5626abf0f72e58d7a153368ba57db4c673c0e171 100644
| --- a/srv/p
| +++ b/srv/p
| @@ -1 +1 @@
| -two
| +one

writes: patch linked --cancel 1 => %(EMPTY)
remarks: patch linked --cancel 1 => 1 file that isn't kept is left out; casebook show says which
"##;

/// Requests for pages, and a part of the page.
pub(crate) const PAGES: &str = r##"
page: page log --cancel 1 :: <h1>log</h1> => yes
page: page log --cancel 1 --title A<b> --all :: <h1>A&lt;b&gt;</h1> => yes
page: page log --cancel 1 :: <div
  class=pair><figure><figcaption>saw</figcaption><pre>%(NL)<del>fig</del>%(NL)</pre>\
  </figure>\
  <figure><figcaption>would have seen</figcaption><pre>\
  %(NL)<ins>cat: /f: No such file or directory</ins>%(NL)</pre></figure></div> => yes
page: page log --cancel @list --about about :: </b> <time>May 06 10:52</time> <b class=who>ann</b>
  => yes
page: page log --cancel 1 :: Played in Retro&#39;s shell.  => yes
page: page forged --cancel 1 :: The log isn&#39;t as its lines run: what was recorded is only what
  its notes say. => yes
"##;

/// What is said of documents, with the exit status, and how helps begin.
pub(crate) const OTHERS: &str = r##"
ends: check log => 0 log: a recording of its 2 lines%(NL)
ends: check forged =>
| 4 forged: not as its lines run. The first that isn't as noted:
| line 2 of 1 isn't as noted: cat /f
|     noted / run again: read /f line 1: plum / fig
ends: check script => 0 script: a script of 0 lines%(NL)
ends: check torn => 4 torn: not a script: a line has a session that isn't listed (refusal 9):
  lines, item 1 (line 1)%(NL)
ends: check about => 4 about: not a log: a key isn't one of such a document (refusal 14): the key
  "about"%(NL)
ends: check no%(ESC)json => 4 no⟨U+001B⟩json: not a log: no JSON text (refusal 12): byte 2%(NL)
begins: %(EMPTY) :: casebook -  => yes
begins: --help :: casebook -  => yes
begins: help :: casebook -  => yes
begins: help lines :: casebook lines LOG => yes
begins: lines -h :: casebook lines LOG => yes
begins: show --help :: casebook show LOG => yes
begins: help cat :: casebook cat LOG PATH => yes
begins: help patch :: casebook patch LOG --cancel LIST => yes
begins: help lists :: Lists of lines => yes
begins: help snapshot :: casebook snapshot FOLDER => yes
begins: snapshot folder --help :: casebook snapshot FOLDER => yes
begins: help compare :: casebook compare LOG FOLDER => yes
begins: compare -h :: casebook compare LOG FOLDER => yes
"##;

/// Words and documents that are refused, with the exit status and the line on standard error.
pub(crate) const REFUSED: &str = r##"
refused: lines => 1 casebook: no LOG is given; see casebook help
refused: lines log more => 1 casebook: these words are no command with its options; see casebook
  help
refused: lines log --sesion 2 => 1 casebook: these words are no command with its options; see
  casebook help
refused: lines log --from 1 --from 1 => 1 casebook: these words are no command with its options;
  see casebook help
refused: line log => 1 casebook: these words are no command with its options; see casebook help
refused: help me => 1 casebook: no help on this, but on lines show page cat patch check snapshot compare
  restore script observe import status log lists documents refusals profile
refused: show log => 1 casebook: no --cancel LIST is given; see casebook help show
refused: show - --cancel @- => 1 casebook: - is standard input, which can be named once
refused: page - --replace [] --about - => 1 casebook: - is standard input, which can be named once
refused: show log --cancel @- --about - => 1 casebook: - is standard input, which can be named once
refused: lines - --about - => 1 casebook: - is standard input, which can be named once
refused: lines log --session guest => 1 casebook: --session: not a number
refused: lines log --from 5x => 1 casebook: --from: not a number of a line, nor a time such as
  2025-05-06 10:30
refused: lines log --to 4294967296 => 1 casebook: --to: not a number of a line, nor a time such as
  2025-05-06 10:30
refused: lines log --to 2025-13-06 => 1 casebook: --to: not a number of a line, nor a time such as
  2025-05-06 10:30
refused: lines log --from 2025-05-06 => 1 casebook: --from and --to: no line has a time; give
  --about FILE
refused: lines log --reads f => 1 casebook: --reads: not a path from the root
refused: lines log --writes ./f => 1 casebook: --writes: not a path from the root
refused: lines log --touches= => 1 casebook: --touches: not a path from the root
refused: show log --cancel 1 --line two => 1 casebook: --line: not a number of a line
refused: page log => 1 casebook: no --cancel LIST is given; see casebook help show
refused: page log --cancel 1 --why => 1 casebook: these words are no command with its options; see
  casebook help
refused: cat log /f --cancel 1 => 1 casebook: PATH: there would be nothing at this path
refused: cat log / --cancel 1 => 1 casebook: PATH: a directory would be at this path
refused: cat linked /srv/l --cancel 1 => 1 casebook: PATH: what would be there isn't kept in the
  case
refused: cat log --line 1 --cancel 1 => 1 casebook: --line: cancelled is line 1
refused: cat log --line 3 --cancel 1 => 1 casebook: --line: no line has the number 3
refused: cat account --line 1 --cancel 4 => 1 casebook: --line: it isn't known what is printed by
  line 1
refused: cat log f --cancel 1 => 1 casebook: PATH: not a path from the root
refused: cat log --cancel 1 => 1 casebook: no PATH and no --line N is given; see casebook help cat
refused: cat log /f --line 2 --cancel 1 => 1 casebook: PATH and --line N are two answers; give one
refused: cat log /f => 1 casebook: no --cancel LIST is given; see casebook help show
refused: show log --replace 1 => 1 casebook: --replace: not a list like [[4,"cat f"]]
refused: show log --replace [[1,2]] => 1 casebook: --replace: not a list like [[4,"cat f"]]
refused: show log --cancel 1 --workers two => 1 casebook: --workers: not a number
refused: page log --cancel 1 --cuts 1, => 1 casebook: --cuts: not numbers with commas between them
refused: show log --cancel 1 --format tsv => 1 casebook: --format: not text or json
refused: show log --cancel 1 --format json --line 2 => 1 casebook: --format json has no --why,
  --diff or --line
refused: check => 1 casebook: no LOG is given; see casebook help
refused: lines log --format json => 1 casebook: --format: not text, tsv or numbers
refused: lines log --text ( => 1 casebook: --text: not a regular expression, or too large a one
refused: lines log --shown [ => 1 casebook: --shown: not a regular expression, or too large a one
refused: lines none => 3 casebook: none: no such file
refused: lines %(ESC)[31m => 3 casebook: ⟨U+001B⟩[31m: no such file
refused: lines no%(ESC)json => 1 casebook: no⟨U+001B⟩json: not a log: no JSON text (refusal 12)
refused: lines script => 1 casebook: script: not a log: a key isn't one of such a document
  (refusal 14)
refused: show shape --cancel 1 => 1 casebook: shape: not a log: a line has a wrong form (refusal
  13)
refused: check none => 3 casebook: none: no such file
refused: lines log --about none => 3 casebook: none: no such file
refused: lines log --about list%(ESC) => 1 casebook: list⟨U+001B⟩: not UTF-8
refused: lines log --about no%(ESC)json => 1 casebook: no⟨U+001B⟩json: no JSON text
refused: page log --cancel 1 --about log => 1 casebook: log: no about document: "about" isn't 1
refused: lines log --user ann => 1 casebook: --user: no line is of a session with this name
refused: lines log --about about --user 1 => 1 casebook: --user: no line is of a session with this
  name
refused: lines log --about spaced --user Ann => 1 casebook: --user: no line is of a session with
  this name
refused: show log --cancel 1 --about rows => 1 casebook: rows: sessions: not the number of a
  session and a name: row 2
refused: show log --cancel 1 --about late => 1 casebook: --about: no such time: line 2
refused: show log --cancel 1 --line 3 => 1 casebook: --line: no line has the number 3
refused: show log --cancel @none => 3 casebook: none: no such file
refused: show log --cancel @list%(ESC) => 1 casebook: list⟨U+001B⟩: not UTF-8
refused: show log --cancel 1,%(ESC) => 1 casebook: --cancel: item 2: not N, N-M, S:all, -N or -N-M
refused: show log --cancel 1,3 => 1 casebook: --cancel: item 2: no line has the number 3
refused: show log --cancel 7-9 => 1 casebook: --cancel: item 1: no line has a number from 7 to 9
refused: show log --cancel 3:all => 1 casebook: --cancel: item 1: no line is of session 3
refused: show later --replace [[1,":"]] => 1 casebook: the log begins after a line to replace
  (refusal 25)
refused: page later --replace [[1,":"],[8,":"]] --workers 2 => 1 casebook: the log begins after a
  line to replace (refusal 25)
refused: show log --replace [[1,"a"],[1,"b"]] => 1 casebook: a line is to be cancelled or replaced
  twice (refusal 26)
refused: page log --replace [[1,"a"],[1,"b"]] --cuts 1 => 1 casebook: a line is to be cancelled or
  replaced twice (refusal 26)
refused: show log --replace [[3,":"]] => 1 casebook: no line has the number of a line to replace
  (refusal 21)
refused: page log --cancel 1 --cuts 1,0 => 1 casebook: --cuts: no number, or a 0 (refusal 22)
refused: show log --cancel 1 --workers 17 => 1 casebook: --workers: too many (refusal 23)
refused: show log --cancel 1 --replace [[1,":"]] => 1 casebook: a line is to be cancelled or
  replaced twice (refusal 26)
"##;
