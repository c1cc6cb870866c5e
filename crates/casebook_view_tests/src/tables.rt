//! The tables of rows; `retro_rows` says how they are written.
//!
//! The first field is a log or a script, or names one. Where a row is about a repair, the second
//! has the edits: the numbers of cancelled lines, and numbers with texts that replace those of
//! their lines.

/// Rows of lines: number, session, how many bytes are printed, paths that are read, and writes.
/// Then filters, of which `all` is none, and the numbers of the lines that pass all of them; and
/// why lines aren't understood. `observed` isn't a filter: it says that a recorder saw the lines,
/// and which ones stand as they were observed.
pub const LISTED: &str = r##"
given: market
- rows: all =>
| 1 1 8 /etc/motd
| 2 1 0 >/srv/prices
| 3 3 0 +/srv/prices >/srv/prices
| 4 2 8 /srv/prices /home/bob/report +/home/bob/report >/home/bob/report
| 5 1 0 +/home/alice/notes >/home/alice/notes
| 6 3 0 >/etc/motd
| 7 2 28 /etc/motd
| 8 2 0 >/srv/prices
| 9 3 0 +/tmp/offer >/tmp/offer
| 10 2 12 /tmp/offer
| 11 1 14 /srv/prices
| 12 1 0 >/home/alice/notes
| 13 3 0 +/home/alice/notes
| 14 1 0 /home/alice/notes
| 15 1 9 /home/alice/notes >/home/alice/notes
| 16 2 0 /home/bob/report /srv/prices +/srv/summary >/srv/summary
| 17 1 22 /srv/summary
| 18 3 8 /home/bob/report
| 19 2 44 /home/bob/none
| 20 1 37 /etc/motd /home/alice/notes

- rows: from 19 :: observed 19 =>
| 19 2 44
| 20 1 37 /etc/motd /home/alice/notes

- lines: session 3 => 3,6,9,13,18
- lines: session 3 :: from 6 :: to 13 => 6,9,13
- lines: reads /srv/prices => 4,11,16
- lines: writes /srv/prices => 2,3,8
- lines: touches /srv/prices => 2,3,4,8,11,16
- lines: reads /srv => none
- lines: reads /srv/ => 4,11,16,17
- lines: writes /srv/ :: session 2 => 8,16
- lines: writes / => 2,3,4,5,6,8,9,12,13,15,16
- lines: text ^cat => 1,4,7,10,11,14,16,17,18,19,20
- lines: shown fig => 11,17
- lines: text report :: shown apple => 4,18
- lines: text nothing => none
- lines: only unknown => none
- lines: session 3 :: only unknown => none
- lines: session 3 :: only unknown :: observed 6 7 13 21 => 6,13

given: unknown
- obstacles: to 5 :: observed none => 1 none, 2 none, 3 none, 4 none, 5 none
- obstacles: to 5 :: observed 2 3 5 20 => 1 none, 2 observed, 3 observed, 4 none, 5 observed
- obstacles: observed 2 3 20 :: only unknown => 2 observed, 3 observed, 20 observed
- obstacles: to 10
  => 1 command, 2 command, 3 none, 4 expansion, 5 command, 6 none, 7 command, 8 terminal, 9 form,
  10 none
- obstacles: to 10 :: only unknown
  => 1 command, 2 command, 4 expansion, 5 command, 7 command, 8 terminal, 9 form
- obstacles: from 11 :: only unknown
  => 11 command, 12 command, 13 command, 14 command, 15 command, 16 command, 17 command, 18 command,
  19 command, 20 command
"##;

/// Edits of lines, and the parts of the summary of their repair: what becomes of each line, the
/// paths to restore, whom to tell, which cancelled lines showed something, what each edited line
/// led to, and the chains of causes of the lines that are run again. A line is cancelled (x), run
/// again with another result (c) or with the same one (a), kept (k) or untouched (u). A path
/// changes (M), comes back (A) or goes (D). The answers of a line are those to the query for which
/// it is run again, as recorded and as repaired.
pub const SHOWN: &str = r##"
given: market :: 3 6 9 13 18
- show: fates => 1u 2u 3x 4c 5u 6x 7c 8k 9x 10c 11c 12u 13x 14c 15c 16c 17c 18x 19u 20c
- show: restore
  => M /etc/motd, M /home/alice/notes, M /home/bob/report, M /srv/prices, M /srv/summary,
  D /tmp/offer
- show: tell
  => 4 2 /srv/prices, 7 2 /etc/motd, 10 2 /tmp/offer, 11 1 /srv/prices, 14 1 /home/alice/notes,
  15 1 /home/alice/notes, 17 1 /srv/summary, 20 1 /etc/motd
- show: leaked => 18 3 8
- show: causes
  => 3 4 0 /srv/prices, 6 2 0 /etc/motd, 9 1 0 /tmp/offer, 13 2 0 /home/alice/notes, 18 0 0
- show: chains
  => 4 < 3, 7 < 6, 10 < 9, 11 < 3, 14 < 13, 15 < 13, 16 < 4 < 3, 17 < 16 < 4 < 3, 20 < 6
- answers: 11 => /srv/prices apple 1%(NL)fig 7%(NL)/ apple 3%(NL)pear 4%(NL)plum 5%(NL)fig 7%(NL)
- fate: 8 => k
- fate: 21 => none

given: unknown :: 2 3 5 10
- show: unknown
  => 1 command, 2 command, 4 expansion, 5 command, 7 command, 8 terminal, 9 form, 11 command,
  12 command, 13 command, 14 command, 15 command, 16 command, 17 command, 18 command, 19 command,
  20 command
- show: leaked => 3 2 2
- show: tell => 6 1 /srv/list
- show: doubtful => /srv/list

given: unknown :: 1=echo, 6=ls, 10=echo z > /srv/other; ls
- show: unknown
  => 1 command, 2 command, 4 expansion, 5 command, 6 command, 7 command, 8 terminal, 9 form,
  10 command, 11 command, 12 command, 13 command, 14 command, 15 command, 16 command, 17 command,
  18 command, 19 command, 20 command
- show: leaked => %(EMPTY)
- show: tell => %(EMPTY)
- show: doubtful => /srv/other
"##;

/// Edits of lines of which a recorder observed some, and parts of the summary of their repair. The
/// observed line 2 is run again, since `/f` would be another file; so it has to be run for real, its
/// session looked at `/f`, and what it wrote is doubtful. Line 3 is run again too, but does what
/// Retro's shell does. The observed lines 4 and 8 are kept and cancelled. Lines 5 to 7 run other
/// texts, which are tested as ever. No recorded text is tested, as that of line 9. A line that an
/// edit gives its own text is run again with it. In the second log the observed line 2 writes paths
/// that are the same without line 1; of these it isn't known what they would be.
pub const SEEN: &str = r##"
given: {"script":1,"tree":[["/f","610a"]],"sessions":[[1,"/",0,[]]],\
  "lines":[[1,1,"echo b > f"],[2,1,"cat f > g; cat g"],[3,1,"cat f"],[4,1,"echo a"],\
  [5,1,"cat f"],[6,1,"cat f"],[7,1,"echo b"],[8,1,"cat f"],[9,1,"ls"]]} ::
  1 8, 5=echo x, 6=ls, 7=ls > h
- show: 2 4 5 6 8 :: unknown => 2 need, 6 command, 7 command
- show: 2 4 5 6 8 :: fates => 1x 2c 3c 4u 5c 6c 7c 8x 9k
- show: 2 4 5 6 8 :: tell => 3 1 /f, 5 1 text
- show: 2 4 5 6 8 :: looked => 2 1 /f
- show: 2 4 5 6 8 :: leaked => 8 1 2
- show: 2 4 5 6 8 :: restore => M /f, M /g, A /h
- show: 2 4 5 6 8 :: doubtful => /g, /h
- show: 2 4 5 6 8 :: undecided => %(EMPTY)
- show: none :: unknown => 6 command, 7 command
- show: none :: looked => %(EMPTY)
- show: unknown => 6 command, 7 command, 9 command

given: {"script":1,"tree":[["/f","610a"],["/k","6b0a"]],"sessions":[[1,"/",0,[]]],\
  "lines":[[1,1,"echo b > f"],[2,1,"cat f > i; echo c > h; echo c >> g; rm k"],\
  [3,1,"cat f; echo d > j"],[4,1,"echo e > l"],[5,1,"echo d > m"]]} :: 1
- show: 2 4 :: unknown => 2 need
- show: 2 4 :: restore => M /f, M /i
- show: 2 4 :: doubtful => /i
- show: 2 4 :: undecided => /g, /h, /k
- show: none :: undecided => %(EMPTY)
- show: undecided => %(EMPTY)

given: {"script":1,"tree":[["/f","610a"]],"sessions":[[1,"/",0,[]]],\
  "lines":[[1,1,"cat f"],[2,1,"ls"],[3,1,"cat g"]]} :: 1=cat f, 2=ls
- show: 1 3 :: unknown => 1 need
- show: 1 2 3 :: unknown => 1 need, 2 need
- show: 1 2 3 :: looked => 1 1 text, 2 1 text
- show: unknown => 2 command
"##;

/// Why lines are run again: for each of the three reasons, of recordings and of a log that isn't as
/// its lines run. A new text comes before a note that fails, and a line's own text is a new text
/// too; then nothing prints anything else. Of the log line 5 prints the same, and the chain of line
/// 4 ends at a line that nobody edited. Of the last script line 2 prints something else without
/// line 1, line 3 prints and changes the same, and line 4 reads nothing that line 1 wrote.
pub const INCIDENTS: &str = r##"
given: {"script":1,"tree":[["/f","610a"]],"sessions":[[1,"/",0,[]]],\
  "lines":[[1,1,"echo b > f"],[2,1,"cat f"],[3,1,"cat g"]]} :: 1, 2=cat f; echo c > g
- show: reasons => 2 replaced 2, 3 query 1 of 2 2
- show: causes => 1 0 0 /f, 2 1 0
- show: tell => 2 1 text, 3 1 /g

given: {"script":1,"tree":[["/f","610a"]],"sessions":[[1,"/",0,[]]],\
  "lines":[[1,1,"echo b > f"],[2,1,"cat f"],[3,1,"cat g"]]} :: 2=cat f
- show: reasons => 2 replaced 2
- show: causes => 2 0 0
- show: tell => %(EMPTY)

given: again :: 1, 3=echo b
- show: reasons => 2 again 2, 3 replaced 3, 4 query 1 of 2 2, 5 again 5
- show: causes => 1 0 0 /d, 3 0 0
- show: tell => 2 1 again, 3 1 text, 4 1 /d/f

given: {"script":1,"tree":[],"sessions":[[1,"/",0,[]]],\
  "lines":[[1,1,"echo false > /a; cat /a"],[2,1,"cat /a"],\
  [3,1,"if test -f /a; then echo done > /b; else echo done > /b; fi"],[4,1,"echo kept"]]} :: 1
- compensated: leaks => 1
- compensated: tellings => 2
- met: 2 => another result, /a by 1
- met: 3 => same result, /a by 1
- met: 4 => same result, holds
"##;

/// The nodes below the root of two trees, each a path and what is at it: `dir`, or the bytes of a
/// file. Then the paths that differ: added (+), removed (-) or modified (~).
pub const TREES: &str = r##"
changed: /a one, /b one, /c one, /e dir :: /b one, /c two, /d one, /e one, /f dir
  => -/a ~/c +/d ~/e +/f
changed: /a dir, /a/b one, /c one :: /a dir, /a/b one, /c one => none
changed: /a dir, /a/b one :: /c dir => -/a -/a/b +/c
changed: /a one :: /a dir, /a/b one => ~/a +/a/b
"##;
