//! Tables of two looks each, and of what happened between them.

/// What happened to paths between two looks.
pub const LOOKS: &str = "
seen: none :: none => nothing
seen: /d dir 1, /d/f file 2 size=5 read=9 :: /d dir 1, /d/f file 2 size=5 read=9 => nothing

seen: /f file 2 read=9 :: /f file 2 read=10 => read /f
seen: /f file 2 read=9.1 :: /f file 2 read=9.2 => read /f
seen: /f file 2 read=9 :: /f file 2 read=-1 => read /f
seen: /f file 2 read=9 written=3 :: /f file 2 read=9 written=4 => changed /f
seen: /f file 2 read=9 :: /f file 2 read=10 written=11 changed=11 size=6 => read /f; changed /f

seen: none :: /f file 2 read=10 written=10 => changed /f
seen: none :: /f file 2 read=11 written=10 => read /f; changed /f
seen: none :: /f file 2 read=10.5 written=10.4 => read /f; changed /f
seen: none :: /f file 2 read=10.4 written=10.5 => changed /f
seen: none :: /f file 2 read=-1.9 written=-2.10 => read /f; changed /f
seen: none :: /f file 2 read=9.999999999 written=10 => changed /f

seen: /f file 2 read=9 :: /f file 3 read=9 written=8 => read /f; changed /f
seen: /f file 2 read=9 :: /f file 3 read=10 written=10 => changed /f
seen: /f dir 2 read=9 :: /f file 2 read=10 written=8 => read /f; changed /f
seen: /f file 2 read=9 :: /f dir 2 read=10 => changed /f
seen: /f link 2 :: /f other 2 => changed /f

seen: /d dir 1 read=9 :: /d dir 1 read=10 => listed /d
seen: /d dir 1 read=9 :: /d dir 4 read=10 => changed /d
seen: none :: /d dir 1 read=10 written=9 => changed /d
seen: /d dir 1 written=9 changed=9 size=40 :: /d dir 1 written=10 changed=10 size=60 => nothing
seen: /d dir 1 mode=755 :: /d dir 1 mode=700 => changed /d
seen: /d dir 1 uid=7 read=9 :: /d dir 1 uid=8 read=10 => listed /d; changed /d

seen: /f file 2 size=5 :: /f file 2 size=6 => changed /f
seen: /f file 2 written=5.1 :: /f file 2 written=5.2 => changed /f
seen: /f file 2 changed=5 :: /f file 2 changed=6 => changed /f
seen: /f file 2 mode=644 :: /f file 2 mode=666 => changed /f
seen: /f file 2 uid=1 :: /f file 2 uid=2 => changed /f
seen: /f file 2 gid=1 :: /f file 2 gid=2 => changed /f
seen: /l link 2 size=5 read=8 :: /l link 2 size=6 read=9 => changed /l
seen: /l link 2 read=8 :: /l link 2 read=9 => nothing
seen: /o other 2 read=8 :: /o other 2 read=9 => nothing
seen: /o other 2 written=8 :: /o other 2 written=9 => changed /o

seen: /f file 2 :: none => gone /f
seen: /d dir 1, /d/a file 2, /d/b file 3 :: none => gone /d /d/a /d/b
seen: /d dir 1 read=1 written=1, /d/a file 2, /d/b file 3 read=4 ::
  /d dir 1 read=5 written=6, /d/b file 3 read=7, /d/c file 2 read=8 written=9
  => read /d/b; listed /d; changed /d/c; gone /d/a
seen: /b file 2 read=1, /a file 3 read=1, /a.b file 4 read=1, /a/c file 5 read=1 ::
  /a.b file 4 read=2, /a/c file 5 read=2, /b file 2 read=2, /a file 3 read=2
  => read /a /a/c /a.b /b
";

/// The changes that lead from one look to another, with the number of each new sight.
pub const DELTAS: &str = "
delta: none :: none => nothing
delta: /f file 2 read=9 :: /f file 2 read=9 => nothing
delta: /f file 2 read=9 :: /f file 2 read=10 => /f 2
delta: /f file 2 read=9.1 :: /f file 2 read=9.2 => /f 2
delta: /d dir 1 written=9 :: /d dir 1 written=10 => /d 1
delta: /d dir 1 changed=9 :: /d dir 1 changed=10 => /d 1
delta: /f file 2 size=1 :: /f file 2 size=2 => /f 2
delta: /f file 2 gid=1 :: /f file 2 gid=2 => /f 2
delta: /f file 2 :: /f link 2 => /f 2
delta: /f file 2 :: /f file 3 => /f 3
delta: none :: /b file 2, /a file 1 => /a 1, /b 2
delta: /b file 2, /a file 1 :: none => /a gone, /b gone
delta: /a file 1, /b file 2, /c file 3, /d file 4 :: /b file 2, /c file 5, /d file 4, /e file 6
  => /c 5, /e 6, /a gone
";
