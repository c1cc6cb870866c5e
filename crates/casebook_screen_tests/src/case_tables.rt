//! The tables of rows about other cases; `retro_rows` says how they are written.

/// What is shown of the repair of the case `edges` and its document, if the log isn't a recording.
/// Its first two lines wrote more paths than are shown. The directory that goes has no diff. A
/// session that is named by its number has no user.
pub const EDGES: &str = r##"
given: edges :: 1 2, 4=echo for :: %(EMPTY) :: 1=May 05 09:30, 4=May 06 10:52 :: log
- show: summary =>
| 4 lines of 1 session, May 05 09:30 to May 06 10:52. 2 cancelled.
| The log isn't as its lines run: what was recorded is only what its notes say.
|
| Every line was understood.
|
|       2 cancelled
|       2 run again, another result
|       0 run again, the same result
|       0 met, kept as recorded
|       0 untouched
|
| RESTORE  3 change, 0 come back, 1 go
|   M /d/f       +0 -2
|   M /d/last    +1 -1
|   D /d/made    directory
|   M /d/turned  becomes a file
|
| TELL  1 session about 2 screens
|   1        /d/last                              1x  lines 3
|   1        a replaced line                      1x  lines 4
|
| LEAKED  0 cancelled lines showed something
|
| READ  1 edited line read what is in files or directories
|       1  /d/f /d/g …
|
| CAUSES  what each edited line led to: lines with another result, run again alike, paths it wrote
|       1    0    0  echo x > /x; cat /x f /x > g; cp g f; rm /x g                 /x /d/g …
|       2    1    0  echo b >> last; rm turned; mkdir turned made                  /d/last /d/turned …
|       4    0    0  echo four

- show: why =>
|
| WHY  lines run again with another result
|       3 1        cat last
|         read /d/last line 1: ab / a   because of 2
|       4 1        echo four
|         its text is replaced

- show: diff =>
|
| --- /d/f
| +++ /d/f
| @@ -1,4 +1,3 @@
| -x
|  1
|  2
|  3
| @@ -11,4 +10,3 @@
|  10
|  11
|  12
| -x
| --- /d/last
| +++ /d/last
| @@ -1 +1 @@
| -ab
| +a⟨no newline⟩
| --- /dev/null
| +++ /d/turned
| @@ -0,0 +1 @@
| +t
| --- output of line 3
| +++ output of line 3
| @@ -1 +1 @@
| -ab
| +a⟨no newline⟩
| --- output of line 4
| +++ output of line 4
| @@ -1 +1 @@
| -four
| +for

given: edges :: 1 2, 4=echo for :: 1=1 :: %(EMPTY) :: log
- document: /recording => false
- document: /restore
  => [{"added":0,"change":"modified","extent":"lines","path":"/d/f","removed":2},\
  {"added":1,"change":"modified","extent":"lines","path":"/d/last","removed":1},\
  {"added":null,"change":"removed","extent":"directory","path":"/d/made","removed":null},\
  {"added":null,"change":"modified","extent":"to_file","path":"/d/turned","removed":null}]
- document: /tell
  => [{"about":"path","lines":[3],"path":"/d/last","session":1,"user":"1","variable":null},\
  {"about":"text","lines":[4],"path":null,"session":1,"user":"1","variable":null}]
- document: /causes
  => [{"alike":0,"changed":0,"line":1,"paths":["/x","/d/g","/d/f"],"read":["/d/f","/d/g","/x"]},\
  {"alike":0,"changed":1,"line":2,"paths":["/d/last","/d/turned","/d/made"],\
  "read":[]},\
  {"alike":0,"changed":0,"line":4,"paths":[],"read":[]}]
- document: /lines/3
  => {"because_of":null,"fate":"changed","line":4,"note":null,"origin":4,"session":1,\
  "why":"replaced"}
"##;

/// The document of the repair of the case `kinds`.
pub const KINDS: &str = r##"
given: kinds :: 1 2 6, 7=echo 'twice' :: %(EMPTY) :: %(EMPTY) :: recording
- document: /counts => {"alike":2,"cancelled":3,"changed":3,"kept":0,"untouched":0}
- document: /restore
  => [{"added":null,"change":"modified","extent":"to_directory","path":"/d/t","removed":null},\
  {"added":null,"change":"removed","extent":"empty_file","path":"/e","removed":null},\
  {"added":1,"change":"added","extent":"lines","path":"/f","removed":0},\
  {"added":null,"change":"added","extent":"directory","path":"/g","removed":null},\
  {"added":null,"change":"removed","extent":"directory","path":"/m","removed":null},\
  {"added":null,"change":"added","extent":"empty_file","path":"/n","removed":null}]
- document: /tell
  => [{"about":"status","lines":[3],"path":null,"session":1,"user":null,"variable":null},\
  {"about":"variable","lines":[4],"path":null,"session":1,"user":null,"variable":"X"},\
  {"about":"directory","lines":[5],"path":null,"session":1,"user":null,"variable":null}]
- document: /causes
  => [{"alike":0,"changed":1,"line":1,"paths":[],"read":[]},\
  {"alike":0,"changed":2,"line":2,"paths":[],"read":[]},\
  {"alike":1,"changed":0,"line":6,"paths":["/n","/f","/g","/d/t","/e","/m"],"read":["/d/t","/g"]},\
  {"alike":0,"changed":0,"line":7,"paths":[],"read":[]}]
- document: /lines/6
  => {"because_of":null,"fate":"alike","line":7,"note":null,"origin":7,"session":2,"why":"replaced"}
- document: /lines/7
  => {"because_of":6,"fate":"alike","line":8,"note":0,"origin":6,"session":2,"why":"query"}
"##;

/// What is shown of a log that isn't as its lines run, and its document: each of the three reasons.
pub const AGAIN: &str = r##"
given: again :: 1, 3=echo b :: %(EMPTY) :: 5=May 06 10:52 :: log
- show: summary =>
| 5 lines of 1 session, until May 06 10:52. 1 cancelled.
| The log isn't as its lines run: what was recorded is only what its notes say.
|
| Every line was understood.
|
|       1 cancelled
|       3 run again, another result
|       1 run again, the same result
|       0 met, kept as recorded
|       0 untouched
|
| RESTORE  0 change, 0 come back, 2 go
|   D /d    directory
|   D /d/f  +0 -1
|
| TELL  1 session about 3 screens
|   1        run again with all others            1x  lines 2
|   1        a replaced line                      1x  lines 3
|   1        /d/f                                 1x  lines 4
|
| LEAKED  0 cancelled lines showed something
|
| READ  0 edited lines read what is in files or directories
|
| CAUSES  what each edited line led to: lines with another result, run again alike, paths it wrote
|       1    0    0  mkdir d                                                       /d
|       3    0    0  true

- show: why =>
|
| WHY  lines run again with another result
|       2 1        echo x > d/f
|         run again with all others
|       3 1        true
|         its text is replaced
|       4 1        cat d/f
|         read /d/f: 1 line, 2 bytes / no such file   because of 2

given: again :: 1, 3=echo b :: %(EMPTY) :: %(EMPTY) :: log
- document: /recording => false
- document: /counts => {"alike":1,"cancelled":1,"changed":3,"kept":0,"untouched":0}
- document: /tell
  => [{"about":"again","lines":[2],"path":null,"session":1,"user":null,"variable":null},\
  {"about":"text","lines":[3],"path":null,"session":1,"user":null,"variable":null},\
  {"about":"path","lines":[4],"path":"/d/f","session":1,"user":null,"variable":null}]
- document: /causes
  => [{"alike":0,"changed":0,"line":1,"paths":["/d"],"read":[]},\
  {"alike":0,"changed":0,"line":3,"paths":[],"read":[]}]
- document: /lines
  => [{"because_of":null,"fate":"cancelled","line":1,"note":null,"origin":null,"session":1,\
  "why":null},{"because_of":null,"fate":"changed","line":2,"note":null,"origin":2,"session":1,\
  "why":"again"},{"because_of":null,"fate":"changed","line":3,"note":null,"origin":3,"session":1,\
  "why":"replaced"},{"because_of":2,"fate":"changed","line":4,"note":1,"origin":2,"session":1,\
  "why":"query"},{"because_of":null,"fate":"alike","line":5,"note":null,"origin":5,"session":1,\
  "why":"again"}]
- document: /show => 1
"##;

/// The document of the repair of a hostile log.
pub const QUOTED: &str = r##"
given: quoted :: 1 :: 1=%(ESC)[31m eve%(RLO)" :: %(EMPTY) :: recording
- document: /restore/0/path => "/</script>\"\\\u0001%(RLO)"
- document: /tell
  => [{"about":"path","lines":[2],"path":"/</script>\"\\\u0001%(RLO)","session":1,\
  "user":"\u001b[31m eve%(RLO)\"","variable":null}]
- document: /leaked => [{"bytes":6,"line":1,"session":2,"user":null}]
- document: /causes/0/paths => ["/</script>\"\\\u0001%(RLO)"]
"##;

/// The documents of a script without lines, and of one without edits, whose last line has the
/// greatest number.
pub const FEW: &str = r##"
given: {"script":1,"tree":[],"sessions":[],"lines":[]} :: %(EMPTY) :: %(EMPTY) :: %(EMPTY) ::
  recording
- document: %(EMPTY)
  => {"causes":[],"counts":{"alike":0,"cancelled":0,"changed":0,"kept":0,"untouched":0},\
  "doubtful":[],"incomplete":[],"leaked":[],"lines":[],"looked":[],"observed":[],"outside":[],"overlapping":[],\
  "recording":true,"restore":[],"show":1,"source":"played","tell":[],\
  "unknown":[],"unseen":[]}

given: {"script":1,"tree":[],"sessions":[[1,"/",0,[]],[2,"/",0,[]]],\
  "lines":[[1,2,"echo a > f"],[4294967295,1,"cat f"]]} :: %(EMPTY) :: %(EMPTY) :: %(EMPTY) ::
  recording
- document: %(EMPTY)
  => {"causes":[],"counts":{"alike":0,"cancelled":0,"changed":0,"kept":0,"untouched":2},\
  "doubtful":[],"incomplete":[],"leaked":[],"lines":[{"because_of":null,"fate":"untouched","line":1,"note":null,\
  "origin":null,"session":2,"why":null},{"because_of":null,"fate":"untouched","line":4294967295,\
  "note":null,"origin":null,"session":1,"why":null}],"looked":[],"observed":[],"outside":[],\
  "overlapping":[],"recording":true,"restore":[],"show":1,"source":"played","tell":[],\
  "unknown":[],"unseen":[]}
"##;
