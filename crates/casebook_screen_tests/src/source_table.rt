//! The table of rows about where lines come from, in documents; `retro_rows` says how they are
//! written.

/// What a document says of where lines come from: of a log that was played; of one of which a
/// recorder observed four lines, of which two are run again and a third runs another text; of one
/// whose lines did what Retro's shell does; and a document as a whole.
pub const SOURCES: &str = r##"
given: market :: 3 6 9 13 18 :: 1=alice :: %(EMPTY) :: recording
- document: /source => "played"
- document: /observed => []

given: market :: 3 6 9 13 18 :: 1=alice :: %(EMPTY) :: log
- document: /source => "played"
- document: /observed => []

given: {"script":1,"tree":[["/f","610a"]],"sessions":[[1,"/",0,[]],[2,"/",0,[]]],"lines":\
  [[1,2,"echo b > f"],[2,1,"cat f > g; cat g"],[3,1,"cat f"],[4,1,"cat f"],[5,1,"echo done"],\
  [6,1,"ls"]]} :: 1, 4=ls :: 1=ann, 2=eve :: %(EMPTY) :: observed 2 3 5 6
- document: /source => "machine"
- document: /observed => [2,3,5,6]
- document: /outside => []
- document: /overlapping => []
- document: /incomplete => []
- document: /unseen => []
- document: /unknown => [[2,"need"],[3,"need"],[4,"command"]]
- document: /doubtful => ["/g"]
- document: /tell => []
- document: /looked
  => [{"about":"path","lines":[2,3],"path":"/f","session":1,"user":"ann","variable":null}]

given: {"script":1,"tree":[["/f","610a"]],"sessions":[[1,"/",0,[]]],"lines":\
  [[1,1,"echo b > f"],[2,1,"ls"]]} :: 1 :: %(EMPTY) :: %(EMPTY) :: observed none
- document: /source => "machine"
- document: /observed => []
- document: /unknown => []

given: {"script":1,"tree":[["/f","610a"]],"sessions":[[1,"/",0,[]]],"lines":\
  [[1,1,"echo b > f"],[2,1,"cat f"]]} :: 1 :: %(EMPTY) :: %(EMPTY) ::
  observed none / 1 2 / 2 / 1 3 / /srv /home/a%(NL)b
- document: /observed => []
- document: /overlapping => [1,2]
- document: /outside => [2]
- document: /incomplete => [1,3]
- document: /unseen => ["/srv","/home/a\nb"]
- show: summary =>
| 2 lines of 1 session. 1 cancelled.
| Recorded on the machine. Each line did what Retro's shell does.
| Not told apart, since they overlap: lines 1 2
| Changes outside of the recorded sessions: lines 2
| Lines without a record: sessions 1 3
| What lines only read wasn't always seen in /srv /home/a⟨U+000A⟩b
|
| No line has to be run for real.
|
|       1 cancelled
|       1 run again, another result
|       0 run again, the same result
|       0 met, kept as recorded
|       0 untouched
|
| RESTORE  1 change, 0 come back, 0 go
|   M /f  +1 -1
|
| TELL  1 session about 1 screen
|   1        /f                                   1x  lines 2
|
| LEAKED  0 cancelled lines showed something
|
| READ  0 edited lines read what is in files or directories
|
| CAUSES  what each edited line led to: lines with another result, run again alike, paths it wrote
|       1    1    0  echo b > f                                                    /f

given: {"script":1,"tree":[["/f","610a"]],"sessions":[[1,"/",0,[]]],"lines":\
  [[1,1,"echo b > f"],[2,1,"cat f"]]} :: 1 :: %(EMPTY) :: %(EMPTY) :: observed 2
- document: %(EMPTY)
  => {"causes":[{"alike":0,"changed":1,"line":1,"paths":["/f"],"read":[]}],\
  "counts":{"alike":0,"cancelled":1,"changed":1,"kept":0,"untouched":0},"doubtful":[],\
  "incomplete":[],"leaked":[],\
  "lines":[{"because_of":null,"fate":"cancelled","line":1,"note":null,"origin":null,"session":1,\
  "why":null},{"because_of":1,"fate":"changed","line":2,"note":1,"origin":1,"session":1,\
  "why":"query"}],"looked":[{"about":"path","lines":[2],"path":"/f","session":1,"user":null,\
  "variable":null}],"observed":[2],"outside":[],"overlapping":[],"recording":false,\
  "restore":[{"added":1,"change":"modified","extent":"lines","path":"/f","removed":1}],"show":1,\
  "source":"machine","tell":[],"unknown":[[2,"need"]],"unseen":[]}
"##;
