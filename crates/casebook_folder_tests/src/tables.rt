//! Tables of plans, and of what folders hold after them.

/// How a folder is to each change, and what the path holds and is to hold.
pub const PLANS: &str = "
plan: /a file x, /b file y :: /a file z, /b file y :: /a file x 640 7 8, /b file q
  => ready /a: file x 640 7 8 > file z 640 7 8
plan: /a file x :: /a file z :: /a file z 640 => done /a: file z 640 > file z 640
plan: /a file x :: /a file z :: /a file q => differs /a: file q 644 > file z 644
plan: /a file x :: /a file z :: none => differs /a: missing > file z 600
plan: /a file x :: /a file z :: /a blocked Link => blocked by Link /a: blocked Link > file z 600
plan: /a file x :: none :: /a blocked SeveralNames
  => blocked by SeveralNames /a: blocked SeveralNames > missing
plan: none :: /a file z, /d dir, /known file k, /known.d dir :: none
  => ready /a: missing > file z 600; ready /d: missing > dir 700;
  ready /known: missing > file k 4750; ready /known.d: missing > dir 2775

plan: /d dir, /d/f file x :: none :: /d dir, /d/f file x
  => ready /d: dir 755 > missing; ready /d/f: file x 644 > missing
plan: /d dir, /d/f file x :: none :: /d dir, /d/f file x, /d/g file x
  => blocked by OtherChild /d: dir 755 > missing; ready /d/f: file x 644 > missing
plan: /d dir, /d/f file x :: /d file z :: /d dir, /d/f file x, /d/l blocked Link
  => blocked by OtherChild /d: dir 755 > file z 600; ready /d/f: file x 644 > missing
plan: /d dir, /d/f file x :: /d dir :: /d dir, /d/f file x, /d/g file x
  => ready /d/f: file x 644 > missing

plan: /d dir :: /d file z :: none => ready /d: missing > file z 600
plan: /d file z :: /d dir :: none => ready /d: missing > dir 700
plan: /d file z :: /d dir :: /d dir 711 => done /d: dir 711 > dir 711
";

/// What a folder holds after a plan, at the paths of both trees.
pub const APPLIED: &str = "
apply: /a file x, /b file y :: /a file z, /b file y :: /a file x 640 7 8, /b file q
  => /a file z 640 7 8, /b file q 644
apply: /a file x, /b file y :: /a file z, /b file q :: /a file x, /b file q 600
  => /a file z 644, /b file q 600
apply: /a file x, /b file y :: /a file z, /b file q :: /a file x, /b file w => NotReady
apply: /a file x, /b file y :: /a file z, /b file q :: /a file x, /b blocked Above => NotReady
apply: /d dir, /d/f file x :: /d file z :: /d dir, /d/f file x => /d file z 600
apply: /d file z :: /d dir, /d/f file x :: /d file z 4711 9 9 => /d dir 700, /d/f file x 600
";

/// Plans that are stopped at each step, gone on with, and undone.
pub const STOPS: &str = "
stops: /a file x :: /a file z :: /a file x => 1 rows, 1 steps
stops: /a file x, /d dir, /d/x file x, /f file f :: /a file z, /d file g, /f dir, /f/y file y ::
  /a file x 640, /d dir 711, /d/x file x, /f file f 600 => 5 rows, 7 steps
stops: /a file 1, /b dir, /b/c dir, /b/c/d file 2, /b/e file 3, /f file 4, /g dir, /g/h file 5,
  /g/i dir, /j dir, /k file 6, /m file 7, /n file 8, /same file 9, /t dir ::
  /a file 10, /b file 11, /f dir, /f/l dir, /f/l/o file 12, /f/p file 13, /g dir, /g/h file 14,
  /g/i file 15, /j dir, /j/q file 16, /j/r dir, /k file 17, /n file 8, /s dir, /s/t dir,
  /s/t/u file 18, /known file 19, /same file 9 ::
  /a file 1 4755 7 8, /b dir 2775, /b/c dir 700 5 5, /b/c/d file 2 600, /b/e file 3, /f file 4 640 1 2,
  /g dir, /g/h file 5 444, /g/i dir 1777, /j dir 711, /k file 6 755, /m file 7 400, /n file 8,
  /same file 0, /other file 20, /t dir 700 => 20 rows, 23 steps
";

/// Rows that were kept, and whether they are taken again.
pub const KEPT: &str = "
rows: /a file x, /a/b file x, /b file x => 3
rows: /a file x, /a file x => Unsorted
rows: /b file x, /a file x => Unsorted
rows: none => 0

kept: /a file x, /b file y :: /a file z, /b file q :: /a file x, /b file y
  :: /a file x, /b file y :: /a file z, /b file q :: /a file z, /b file y => fit
kept: /a file x, /b file y :: /a file z, /b file q :: /a file x, /b file q
  :: /a file x, /b file y :: /a file z, /b file q :: /a file z, /b file q => fit
kept: /a file x, /b file y :: /a file z, /b file q :: /a file x, /b file q
  :: /a file x, /b file y :: /a file z, /b file q :: /a file z, /b file y => NotReady
kept: /a file x :: /a file z :: /a file x :: /a file x :: /a file w :: /a file x => NotReady
kept: /a file x :: /a file z :: /a file x :: /a file v :: /a file z :: /a file x => NotReady
kept: /a file x :: /a file z :: /a file x :: /b file x :: /b file z :: /b file z => NotReady
kept: /d dir :: /d file z :: /d dir 711 :: /d dir :: /d file z :: none => fit

backwards: /a file x, /b file y :: /a file z, /b file q :: /a file x, /b file y => Unsorted
backwards: /a file x :: /a file z :: /a file x => fit
";

/// What a put returns, and what the path holds after it.
pub const PUTS: &str = "
put: /a file x 640 :: /a :: file x 640 :: file z 640 => Ok(()) file z 640
put: /a file x 640 :: /a :: file x 644 :: file z 640 => Err(Changed) file x 640
put: /a file x 640 7 8 :: /a :: file x 640 :: missing => Err(Changed) file x 640 7 8
put: /a file x 640 :: /a :: missing :: dir 700 => Err(Changed) file x 640
put: none :: /a :: missing :: dir 700 => Ok(()) dir 700
put: /a blocked Link :: /a :: blocked Link :: missing => Err(Changed) blocked Link
";
