//! The tables of states and scripts; `retro_rows` says how they are written.

/// What states and overlays answer, which changes are lawful, and which states.
pub const STATES: &str = r##"
state: put /d dir :: kind /d => Dir
state: put /d dir :: kind /e => Missing

given: put /d dir; grow /d/f by a; grow /d/f by b
- state: kind /d/f => File
- state: bytes /d/f => file ab
- state: @bytes /d/f => file ab

state: put /d dir; put /d/f file a >> grow /d/f by b; grow /d/f by c :: bytes /d/f => file abc
state: put /d dir; put /d/f file a >> grow /d/f by b :: @bytes /d/f => file ab
state: put /d dir >> grow /d by b :: bytes /d => dir

given: put /d dir; grow /d/f by a; put /d/e dir
- state: names /d => e f
- state: children /d => e f

state: put /d dir; grow /d/f by a :: children / => d
state: put /d dir; grow /d/f by a :: names /d/f => no directory

given: put /old file x >> put /d dir; put /old missing
- state: children / => d
- state: bytes /old => missing

state: put /old file x >> put /old missing; grow /old by y :: bytes /old => file y
state: put /d dir; put /d/f file x >> put /d missing :: children /d => f
state: put /d dir :: canwrite /d/f 1 => Yes
state: put /d dir; put /d/f file ab :: canwrite /d/f 1048574 => Yes
state: put /d dir; put /d/f file ab :: canwrite /d/f 1048575 => TooLarge
state: put /d dir; put /d/f file a >> grow /d/f by b :: canwrite /d/f 1048575 => TooLarge
state: put /d dir; put /d/f file ab :: canwrite /d/f/g 1 => NotDir
state: put /d dir :: canwrite /e/f 1 => NoParent
state: put /d dir :: canwrite /d 1 => IsDir
state: %(EMPTY) :: canwrite / 0 => IsDir
state: put /d dir :: canwrite /d/f 4294967295 => TooLarge
state: var 7 v n :: var 7 v => n
state: var 7 v n :: @var 7 v => n
state: var 7 v n :: var 7 w => unset
state: var 7 v n :: var 8 v => unset
state: status 7 3 >> cwd 7 /d :: cwd 7 => /d
state: status 7 3 >> cwd 7 /d :: status 7 => 3
state: status 7 3 :: @status 7 => 3
state: status 7 3 :: @cwd 7 => /
state: status 7 3 :: status 8 => 0
state: put /etc dir; put /etc/passwd file a:x:1:2:i:/h:/s :: user a => 1 /h
state: put /etc dir; put /etc/passwd file a:x:1:2:i:/h >> grow /etc/passwd by :/s :: user a => 1 /h
state: put /etc dir; put /etc/passwd file a:x:1:2:i:/h%(NL)a:x:2:2:i:/h:/s%(NL) :: user a => 2 /h
state: put /etc dir; put /etc/passwd file a:x:1:2:i:/h:/s:%(NL)a::2:::/h:%(NL) :: user a => 2 /h
state: put /etc dir; put /etc/passwd file a::00000000001:::/h:%(NL)a::2:::/h: :: user a => 2 /h
state: put /etc dir; put /etc/passwd file a::4294967296:::/h:%(NL)a::2:::/h: :: user a => 2 /h
state: put /etc dir; put /etc/passwd file a::+1:::/h:%(NL)a:::::/h:%(NL)a::2:::/h: :: user a => 2 /h
state: put /etc dir; put /etc/passwd file a::1:::/%(NUL):%(NL)a::2:::/h: :: user a => 2 /h
state: put /etc dir; put /etc/passwd file :x:1:2:i:/h:/s%(NL)b::1:::/h: :: user a => nobody
state: put /etc dir; put /etc/passwd file a::4294967295:::/h:%(NL)a::2:::/h: :: user a
  => 4294967295 /h
state: put /etc dir; put /etc/passwd file a::0000000001:::/h: :: user a => 1 /h
state: put /etc dir; put /etc/passwd file a::1::::%(NL)a::2:::/h: :: user a => 1 %(EMPTY)
state: put /etc dir; put /etc/passwd file aa:x:1:2:i:/h:/s :: user a => nobody
state: put /etc dir; put /etc/passwd file a%(NL)ab:x:1:2:i:/g:%(NL)b:a:3:2:i:/g:/s%(NL)a:x:2:2:i:/h:/s
  :: user a => 2 /h
state: put /etc dir; put /etc/passwd dir :: user a => nobody

given: put /d dir; put /d/e dir
- allows: put /d dir => true
- allows: put /d missing => false
- allows: put /d file x => false
- allows: put /d/e missing => true

given: put /d dir
- allows: put /x/e dir => false
- allows: put /x/e missing => true
- allows: grow /x/e by y => false
- allows: grow /d by y => false
- allows: grow /d/f by %(EMPTY) => true

given: put /dev dir
- allows: put /dev/null dir => false
- allows: put /dev/null missing => true
- allows: grow /dev/null by x => false
- allows: put / dir => true
- allows: put / missing => false

allows: put /a/b dir :: put /a dir => true
allows: put /a/b dir :: put /a/b missing => true
allows: put /a/b dir :: put /c dir => false
allows: %(EMPTY) :: put /f file %(n*1048576) => true
allows: %(EMPTY) :: put /f file %(n*1048577) => false
allows: put /f file %(n*1048576) :: grow /f by %(EMPTY) => true
allows: put /f file %(n*1048576) :: grow /f by n => false
allows: %(EMPTY) :: status 7 0 => false
allows: status 7 0 :: status 7 255 => true
allows: %(EMPTY) :: cwd 7 /d => false
allows: status 7 0 :: cwd 7 /d => true
allows: %(EMPTY) :: var 7 v n => false
allows: status 7 0 :: var 7 v %(n*65536) => true
allows: status 7 0 :: var 7 v %(n*65537) => false
lawful: %(EMPTY) => true true
lawful: put /a dir; put /a/b dir => true true
lawful: put /a/b dir => true false
lawful: put / missing => true false
lawful: put / file x => true false
lawful: put /a file x; put /a/b dir => true false
lawful: put /dev dir; put /dev/nul dir; put /a dir; put /a/dev dir => true true
lawful: put /dev dir; put /dev/null dir => true false
lawful: put /dev dir; put /dev/null/a dir => true false
lawful: var 7 v %(n*65536); status 7 255 => true true
lawful: var 7 v %(n*65537) => false false
lawful: put /f file %(n*1048577) => false false
play: status 1 0; put /f file x :: cat f /none => xcat: /none: No such file or directory%(NL)
"##;

/// States and lines as scripts, by the refusal's number or the number of lines.
pub const SCRIPTS: &str = r##"
parts: put / missing; put /f file %(n*1048577) :: 2 2, 2 2 => 11
parts: put / missing; put /f file %(n*1048576) :: 2 2, 2 2 => 10
parts: status 1 0 :: 2 2, 2 2 => 8
parts: status 1 0 :: 0 1 => 8
parts: status 1 0 :: 1 1, 2 2 => 9
parts: status 1 0 :: 1 1, 7 1 => script 2
"##;
