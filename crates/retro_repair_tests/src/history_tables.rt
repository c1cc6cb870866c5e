//! The tables of rows about histories; `retro_rows` says how they are written.
//!
//! The first two fields, which headers have where several rows share them, are more entries of the
//! tree, and the lines: a session and a text each, with `;;` between lines. The tree has
//! `/etc/passwd`, `/h` and `/tmp`. Session 1 is in `/h` and session 2 in `/tmp`.

/// Values before lines and checkpoints, of cells that grow and of others: a checkpoint comes after
/// sixteen growths in a row, and where a line writes a whole value.
pub const GROWING: &str = r##"
given: %(EMPTY) :: %(1 echo x >> /tmp/log;;*18)1 echo y > /tmp/log
- checkpoints: /tmp/log => 0 17 19
- writers: /tmp/log => 1 2 3 4 5 6 7 8 9 10 11 12 13 14 15 16 17 18 19
- value: /tmp/log :: 1 => 0 missing
- value: /tmp/log :: 17 => 0 file %(780a*16)
- value: /tmp/log :: 18 => 17 file %(780a*17)
- value: /tmp/log :: 19 => 17 file %(780a*18)
- value: /tmp/log :: 20 => 19 file 790a
- value: /tmp/log :: 0 => 0 missing
- value: /tmp/log :: 4294967295 => 19 file 790a

given: %(EMPTY) :: %(1 echo x >> /tmp/log;;*36)
- checkpoints: /tmp/log => 0 17 34
- value: /tmp/log :: 34 => 17 file %(780a*33)
- value: /tmp/log :: 35 => 34 file %(780a*34)

checkpoints: %(EMPTY) :: %(1 echo x >> f; echo y >> f;;*17) :: /h/f => 0 17

given: %(EMPTY) :: 1 echo x >> f;;1 echo y >> f; rm f; echo z >> f;;1 echo w >> f
- checkpoints: /h/f => 0 2
- value: /h/f :: 4 => 2 file 7a0a770a

given: %(EMPTY) :: 1 x=1;;2 x=2;;1 true
- checkpoints: 1 x => 0 1
- value: 1 x :: 1 => 0 unset
- value: 1 x :: 3 => 1 text 1

given: %(EMPTY) :: 1 false;;2 false;;1 true
- checkpoints: 1 status => 0 1 3
- value: 1 status :: 3 => 1 1
- value: 1 status :: 4 => 3 0

given: %(EMPTY) :: 1 cd /tmp;;2 cd /h
- value: 1 cwd :: 1 => 0 /h
- value: 1 cwd :: 2 => 1 /tmp
- value: 3 status :: 2 => 0 0
"##;

/// A file that grows up to its limit, is truncated, moved and removed, and grows again.
pub const LIMITED: &str = r##"
given: ,["/tmp/big","%(61*1048575)"] :: 1 echo -n a >> /tmp/big;;1 echo -n b >> /tmp/big;;\
  1 > /tmp/big;;1 echo -n c >> /tmp/big;;1 mv /tmp/big /tmp/old;;1 echo -n d >> /tmp/old;;\
  1 rm /tmp/old;;1 echo -n e >> /tmp/old;;1 echo -n f >> /tmp/big
- checkpoints: /tmp/big => 0 3 5
- checkpoints: /tmp/old => 0 5 7
- writers: /tmp/big => 1 2 3 4 5 9
- value: /tmp/big :: 1 => 0 file %(61*1048575)
- value: /tmp/big :: 2 => 0 file %(61*1048576)
- value: /tmp/big :: 3 => 0 file %(61*1048576)
- value: /tmp/big :: 4 => 3 file %(EMPTY)
- value: /tmp/big :: 5 => 3 file 63
- value: /tmp/big :: 6 => 5 missing
- value: /tmp/big :: 9 => 5 missing
- value: /tmp/big :: 10 => 5 file 66
- value: /tmp/old :: 5 => 0 missing
- value: /tmp/old :: 6 => 5 file 63
- value: /tmp/old :: 7 => 5 file 6364
- value: /tmp/old :: 8 => 7 missing
- value: /tmp/old :: 9 => 7 file 65
"##;

/// Users, listings, readers and writers of worked incidents. A listing reads the cell of each
/// child, also of one that never existed.
pub const INCIDENTS: &str = r##"
given: %(EMPTY) :: 2 echo bob:x:301:301:b:/tmp:/bin/sh >> /etc/passwd;;\
  2 echo bob:x:302:302:b:/tmp:/bin/sh >> /etc/passwd;;1 id -u bob
- entry: bob :: 1 => none
- entry: bob :: 2 => 301 /tmp
- entry: bob :: 4 => 301 /tmp
- readers: /etc/passwd => 1 2 3

given: %(EMPTY) :: 1 mkdir d;;2 echo x > /h/d/v;;1 mv d e;;1 rm -r e;;1 cat d/v
- readers: /h/d/v => 2 3 5
- readers: /h/d/zz => 3
- listed: /h/d => 3
- next: /h/d/zz :: 0 => 3
- next: /h/d/zz :: 2 => 3
- next: /h/d/zz :: 3 => none
- names: /h/d :: 3 => v
- names: /h/d :: 4 => none
- names: /h/d :: 2 => %(EMPTY)
- names: /h :: 4 => e
- value: /h/d :: 2 => 1 dir
"##;

/// Incidents whose history is compared with scans, for all cells of the notes and all numbers up
/// to a last one.
pub const SCANNED: &str = r##"
scanned: %(EMPTY) :: 1 echo one >> /tmp/log;;2 echo two >> /tmp/log;;1 echo three >> /tmp/log;;\
  1 cat /tmp/log :: 5 => same
scanned: %(EMPTY) :: 1 echo x > f;;1 echo x > f;;1 cat f :: 4 => same
scanned: %(EMPTY) :: 1 echo z > f;;1 echo a > f; cat f :: 3 => same
scanned: %(EMPTY) :: 1 cd /tmp;;1 echo hi > n;;2 cat /h/n;;1 cat n :: 5 => same
scanned: %(EMPTY) :: 1 false;;1 if test $? = 0; then echo ok; else echo bad; fi :: 3 => same
scanned: ,["/h/n","6e0a"] :: 2 echo eve:x:300:300:e:/tmp:/bin/sh >> /etc/passwd;;1 cat ~alice/n;;\
  1 cat /etc/passwd :: 4 => same
scanned: %(EMPTY) :: 2 echo bob:x:301:301:b:/tmp:/bin/sh >> /etc/passwd;;\
  2 echo bob:x:302:302:b:/tmp:/bin/sh >> /etc/passwd;;1 id -u bob :: 4 => same
scanned: ,["/tmp/big","%(61*1048575)"] :: 1 echo -n a >> /tmp/big;;1 echo -n b >> /tmp/big :: 3
  => same
scanned: %(EMPTY) :: 1 mkdir d;;2 echo x > /h/d/v;;1 mv d e;;1 rm -r e;;1 cat d/v :: 6 => same
scanned: %(EMPTY) :: 1 mkdir d;;2 echo x > /h/d/v; a=1;;1 mv d e;;1 rm -r e;;1 cat d/v;;2 cd /h;
  echo $a >> w; id -u root;;1 cp w x; rm w; echo ~root;;2 echo hi | tee a b > c;;1 rm -r /h;;\
  1 test -f w :: 11 => same
"##;
