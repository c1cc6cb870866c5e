//! The table of rows about lines that a recorder saw; `retro_rows` says how they are written.

/// What is shown of repairs of lines that a recorder saw. In the first one two lines that it
/// observed are run again, others are kept, and a line runs another text, which Retro's shell
/// doesn't know. In the second and third one an observed line is run again, which in the third one
/// writes a path that doesn't differ, and in the fourth one no line was observed.
pub const SEEN: &str = r##"
given: {"script":1,"tree":[["/f","610a"]],"sessions":[[1,"/",0,[]],[2,"/",0,[]]],"lines":\
  [[1,2,"echo b > f"],[2,1,"cat f > g; cat g"],[3,1,"cat f"],[4,1,"cat f"],[5,1,"echo done"],\
  [6,1,"ls"]]} :: 1, 4=ls :: 1=ann, 2=eve :: %(EMPTY) :: observed 2 3 5 6
- show: summary =>
| 6 lines of 2 sessions. 1 cancelled.
| Recorded on the machine. 4 lines stand as they were observed.
|
| ? 3 lines have to be run for real before this answer is whole.
|       1  a command that Retro doesn't know       4
|       2  what they depend on would be another    2 3
|   Until then they stand as they were observed.
|
|       1 cancelled
|       3 run again, another result
|       0 run again, the same result
|       1 met, kept as recorded
|       1 untouched
|
| RESTORE  2 change, 0 come back, 0 go
|   M /f  +1 -1
| ? M /g  +1 -1
|   ? written by a line that wasn't understood or has to be run for real
|
| TELL  0 sessions about 0 screens
|
| LOOKED  1 session by 2 observed lines, at what would be another
|   ann      /f                                   2x  lines 2 3
|
| LEAKED  0 cancelled lines showed something
|
| READ  1 edited line read what is in files or directories
|       4  /f
|
| CAUSES  what each edited line led to: lines with another result, run again alike, paths it wrote
|       1    2    0  echo b > f                                                    /f
|       4    ?    ?  cat f

- line: 3 =>
|       3 ann      cat f
|         unknown: what it depends on would be another
|         run again, another result
|         read /f line 1: b / a   because of 1
|         as recorded
|           directory: /
|           read /f: 1 line, 2 bytes
|           set status: 0
|         | b
|         as repaired
|           directory: /
|           read /f: 1 line, 2 bytes
|           set status: 0
|         | a

given: {"script":1,"tree":[["/f","610a"]],"sessions":[[1,"/",0,[]]],"lines":\
  [[1,1,"echo b > f"],[2,1,"cat f"]]} :: 1 :: %(EMPTY) :: %(EMPTY) :: observed 2
- show: summary =>
| 2 lines of 1 session. 1 cancelled.
| Recorded on the machine. 1 line stands as it was observed.
|
| ? 1 line has to be run for real before this answer is whole.
|       1  what it depends on would be another     2
|   Until then it stands as it was observed.
|
|       1 cancelled
|       1 run again, another result
|       0 run again, the same result
|       0 met, kept as recorded
|       0 untouched
|
| RESTORE  1 change, 0 come back, 0 go
|   M /f  +1 -1
|
| TELL  0 sessions about 0 screens
|
| LOOKED  1 session by 1 observed line, at what would be another
|   1        /f                                   1x  lines 2
|
| LEAKED  0 cancelled lines showed something
|
| READ  0 edited lines read what is in files or directories
|
| CAUSES  what each edited line led to: lines with another result, run again alike, paths it wrote
|       1    1    0  echo b > f                                                    /f

given: {"script":1,"tree":[["/f","610a"]],"sessions":[[1,"/",0,[]]],"lines":\
  [[1,1,"echo b > f"],[2,1,"cat f; echo c > g"]]} :: 1 :: %(EMPTY) :: %(EMPTY) :: observed 2
- show: summary =>
| 2 lines of 1 session. 1 cancelled.
| Recorded on the machine. 1 line stands as it was observed.
|
| ? 1 line has to be run for real before this answer is whole.
|       1  what it depends on would be another     2
|   Until then it stands as it was observed.
|
|       1 cancelled
|       1 run again, another result
|       0 run again, the same result
|       0 met, kept as recorded
|       0 untouched
|
| RESTORE  1 change, 0 come back, 0 go
|   M /f  +1 -1
| ?   /g
|   ? written by a line that wasn't understood or has to be run for real
|
| TELL  0 sessions about 0 screens
|
| LOOKED  1 session by 1 observed line, at what would be another
|   1        /f                                   1x  lines 2
|
| LEAKED  0 cancelled lines showed something
|
| READ  0 edited lines read what is in files or directories
|
| CAUSES  what each edited line led to: lines with another result, run again alike, paths it wrote
|       1    1    0  echo b > f                                                    /f

- document: /doubtful => ["/g"]

given: {"script":1,"tree":[["/f","610a"]],"sessions":[[1,"/",0,[]]],"lines":\
  [[1,1,"echo b > f"],[2,1,"cat f"]]} :: 1 :: %(EMPTY) :: %(EMPTY) :: observed none
- show: summary =>
| 2 lines of 1 session. 1 cancelled.
| Recorded on the machine. Each line did what Retro's shell does.
|
| No line has to be run for real.
|
|       1 cancelled
|       1 run again, another result
|       0 run again, the same result
|       0 met, kept as recorded
|       0 untouched
|
| RESTORE  1 change, 0 come back, 0 go
|   M /f  +1 -1
|
| TELL  1 session about 1 screen
|   1        /f                                   1x  lines 2
|
| LEAKED  0 cancelled lines showed something
|
| READ  0 edited lines read what is in files or directories
|
| CAUSES  what each edited line led to: lines with another result, run again alike, paths it wrote
|       1    1    0  echo b > f                                                    /f
"##;
