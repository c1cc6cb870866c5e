//! Tables of little histories, and of what lines they have.

/// Lines, each with what it did.
pub const LINES: &str = "
lines: none :: none => nothing
lines: file /f 1 1 :: start A -, exit A => nothing
lines: none :: begin A 1 ls, file /f 5 5, end A 1 ls => 1.1 whole [ls] /f
lines: none :: begin A 1 ls, end A 1 ls => 1.1 whole [ls]
lines: none :: begin A 1 -, file /f 5 5, end A 1 - => 1.1 whole /f
lines: none :: begin A 1 typed, end A 1 ran => 1.1 whole [ran]
lines: none :: begin A 1 typed, end A 1 - => 1.1 whole
lines: none :: begin A 1 ln, file /f 5 5, target /f to, end A 1 ln => 1.1 whole [ln] /f to to
lines: none :: begin A 1 ln, target /f to, file /f 5 5, target /f other, end A 1 ln
  => 1.1 whole [ln] /f to to
lines: file /f 1 1, dir /d 1 :: begin A 1 rm, gone /f, dir /d 2, end A 1 rm
  => 1.1 whole [rm] /f gone listed /d
lines: file /f 1 1, file /g 1 1 :: begin A 1 cat, file /f 1 2, file /g 3 1, end A 1 cat
  => 1.1 whole [cat] /g read /f

lines: none :: begin A 1 a, file /f 5 5, end A 1 a, begin B 1 b, file /g 6 6, end B 1 b,
  begin A 2 c, file /f 7 5, end A 2 c => 1.1 whole [a] /f; 2.1 whole [b] /g; 1.2 whole [c] /f
lines: none :: begin A 1 a, file /f 5 5, end A 1 a, file /g 6 6, begin A 2 b, end A 2 b
  => 1.1 whole [a] /f; nobody part /g; 1.2 whole [b]
lines: none :: file /g 6 6, start A - => nobody part /g
lines: file /f 1 1, dir /d 1 :: file /f 1 9, dir /d 9, start A - => nothing
lines: file /f 1 1, dir /d 1, file /g 1 1 :: file /f 1 9, dir /d 9, file /g 3 9, start A -
  => nobody part /g

lines: none :: begin A 1 a, begin B 1 b, file /f 5 5, end B 1 b, end A 1 a
  => 2.1 whole [b] /f or 1.1 or 2.1; 1.1 whole [a]
lines: none :: begin A 1 a, begin B 1 b, end B 1 b, file /f 5 5, end A 1 a
  => 2.1 whole [b]; 1.1 whole [a] /f
lines: none :: begin A 1 a, file /f 5 5, begin B 1 b, end B 1 b, end A 1 a
  => 1.1 part [a] /f; 2.1 whole [b]; 1.1 whole [a]
lines: none :: begin A 1 a, begin B 1 b, file /f 5 5, start C -, end B 1 b, end A 1 a
  => 1.1 part [a] /f or 1.1 or 2.1; 2.1 whole [b]; 1.1 whole [a]

lines: none :: begin A 1 bash, file /a 5 5, start B A, begin B 1 b, file /f 5 5, end B 1 b,
  file /g 6 6, exit B, file /h 7 7, end A 1 bash
  => 1.1 part [bash] /a; 2.1 whole [b] /f; nobody part /g; 1.1 whole [bash] /h
lines: none :: begin A 1 bash, start B A, begin B 1 b, file /f 5 5, end A 1 bash
  => 2.1 cut off [b] /f or 1.1 or 2.1; 1.1 whole [bash] or 1.1 or 2.1
lines: none :: begin A 1 bash, start B A, begin C 1 c, begin B 1 b, file /f 5 5, end A 1 bash,
  end C 1 c => 2.1 cut off [b] or 1.1 or 3.1 or 2.1; 1.1 whole [bash] /f or 1.1 or 3.1 or 2.1;
  3.1 whole [c]

lines: none :: begin A 1 exec, file /f 5 5, start B -, begin B 1 b, end B 1 b
  => 1.1 cut off [exec] /f; 2.1 whole [b]
lines: none :: begin A 1 a, file /f 5 5, begin B 1 b, end B 1 b
  => 1.1 cut off [a] /f; 2.1 whole [b]
lines: none :: begin A 1 exit, exit A => 1.1 cut off [exit]
lines: none :: begin A 1 a => nothing
lines: none :: file /f 5 5, end A 3 late => 1.3 whole [late] /f
lines: none :: end A 3 late, begin A 4 d, end A 4 d => 1.3 whole [late]; 1.4 whole [d]

lines: dir /d 1, file /f 1 1 :: begin A 1 a, looked /f 2, looked /d 3, end A 1 a, begin A 2 b,
  file /f 1 2, end A 2 b, begin A 3 c, file /f 1 4, end A 3 c
  => 1.1 whole [a]; 1.2 whole [b]; 1.3 whole [c] read /f
lines: file /f 1 1, looked /f 9 :: begin A 1 a, file /f 1 9, end A 1 a => 1.1 whole [a]
";

/// Records that contradict earlier ones.
pub const CONTRADICTIONS: &str = "
lines: none :: begin A 1 a, begin A 1 a => the record of observation 1 contradicts an earlier one
lines: none :: end A 1 a, begin A 1 a => the record of observation 1 contradicts an earlier one
lines: none :: begin A 1 a, end A 1 a, exit A, end A 1 a
  => the record of observation 3 contradicts an earlier one
lines: none :: begin A 1 a, begin B 1 a, begin A 2 a, end A 2 a, end B 1 a, end A 1 a
  => 1.2 whole [a]; 2.1 whole [a]; 1.1 whole [a]
";

/// Sessions, each with the place of its parent if it started.
pub const SESSIONS: &str = "
sessions: start A -, start B A, exit B => A from 0; B from 1
sessions: begin B 1 b, start C B, start B A, start A - => B from 3; C from 1; A from 0
sessions: end A 1 a, start B Z, start A B, start A - => A from 2; B from 0
sessions: exit A => A
";
