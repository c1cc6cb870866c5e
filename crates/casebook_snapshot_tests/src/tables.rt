//! Tables of folders and their snapshots: rows in order, and then what is skipped.

/// What is kept, with modes and owners.
pub const KEPT: &str = "
snapshot: none :: none => / dir 755 0 0
snapshot: / dir 700 7 8 :: none => / dir 700 7 8
snapshot: /b file xy 4755 7 8, /a dir 1777, /a/z file q, /a.b file r :: none
  => / dir 755 0 0, /a dir 1777 0 0, /a/z file 1 644 0 0, /a.b file 1 644 0 0, /b file 2 4755 7 8
snapshot: /a file x, /a file yy :: none => / dir 755 0 0, /a file 1 644 0 0
snapshot: /a missing, /a file yy :: none => / dir 755 0 0
snapshot: /e dir, /e/l Link :: none => / dir 755 0 0, /e dir 755 0 0; /e/l Link
snapshot: / file x :: none => NotADirectory
snapshot: / Link :: none => NotADirectory
snapshot: / missing :: none => NotADirectory
";

/// What is skipped, and that nothing below it is looked at.
pub const SKIPPED: &str = "
snapshot: /l Link, /d Device, /p Pipe, /s Socket, /m OtherFileSystem, /u Unreadable, /c Changing
  :: none => / dir 755 0 0; /c Changing; /d Device; /l Link; /m OtherFileSystem; /p Pipe;
  /s Socket; /u Unreadable
snapshot: /m OtherFileSystem, /m/f file x, /l Link, /l/f file x :: none
  => / dir 755 0 0; /l Link; /m OtherFileSystem
snapshot: /bad! file x, /a%(NUL)b file x, /%(n*256) file x, /%(n*255) file x, /%(BOM) dir :: none
  => / dir 755 0 0, /%(n*255) file 1 644 0 0, /%(BOM) dir 755 0 0; /a\\x00b OddName;
  /bad\\xff OddName; /%(n*256) NameTooLong
snapshot: /d dir, /d/! dir, /d/. dir, /d/.. Link :: none
  => / dir 755 0 0, /d dir 755 0 0; /d/. OddName; /d/.. OddName; /d/\\xff OddName
snapshot: /dev dir, /dev/null Device, /dev/null/f file x, /dev/nul Device :: none
  => / dir 755 0 0, /dev dir 755 0 0; /dev/nul Device; /dev/null NullDevice
snapshot: /dev dir, /dev/null file x, /null file x :: none
  => / dir 755 0 0, /dev dir 755 0 0, /null file 1 644 0 0; /dev/null NullDevice
snapshot: /a dir, /a/b dir, /a/b/c file x, /a/bc file x :: /a/b /none
  => / dir 755 0 0, /a dir 755 0 0, /a/bc file 1 644 0 0; /a/b Asked
snapshot: /a dir, /a/b dir, /a/b/c file x, /z Link :: /a /a/b /a/b/c /z
  => / dir 755 0 0; /a Asked; /z Asked
snapshot: /a dir, /a/b Link :: / => / dir 755 0 0, /a dir 755 0 0; /a/b Link
";

/// Folders that are put at a path.
pub const PLACED: &str = "
placed: /f file x, /d dir 700 7 8, /d/e dir :: /home :: none
  => / dir 755 0 0, /home dir 755 0 0, /home/d dir 700 7 8, /home/d/e dir 755 0 0,
  /home/f file 1 644 0 0
placed: / dir 700 7 8 :: /a/b/c :: none
  => / dir 755 0 0, /a dir 755 0 0, /a/b dir 755 0 0, /a/b/c dir 700 7 8
placed: / dir 700 7 8, /f file x :: / :: none => / dir 700 7 8, /f file 1 644 0 0
placed: /null file x, /nul file x :: /dev :: none
  => / dir 755 0 0, /dev dir 755 0 0, /dev/nul file 1 644 0 0; /dev/null NullDevice
placed: /dev dir, /dev/null file x :: /home :: none
  => / dir 755 0 0, /home dir 755 0 0, /home/dev dir 755 0 0, /home/dev/null file 1 644 0 0
placed: /f file x :: /dev/null :: none => / dir 755 0 0, /dev dir 755 0 0; /dev/null NullDevice
placed: /f file x, /a Link, /a/g file x :: /a :: none
  => / dir 755 0 0, /a dir 755 0 0, /a/f file 1 644 0 0; /a/a Link
placed: /f file x, /g file y :: /a :: /a/f /g
  => / dir 755 0 0, /a dir 755 0 0, /a/g file 1 644 0 0; /a/f Asked
placed: /f file x :: /a/b :: /a => / dir 755 0 0; /a Asked
placed: / Link :: /a :: none => / dir 755 0 0; /a Link
placed: / missing :: /a/b :: none => / dir 755 0 0, /a dir 755 0 0
";

/// Files at the limit, deep trees and wide directories.
pub const LARGE: &str = "
snapshot: /f zeros 1048576, /g zeros 1048577, /h zeros 0 :: none
  => / dir 755 0 0, /f file 1048576 644 0 0, /h file 0 644 0 0; /g TooLarge
deep: 100 => 101 rows, 0 skipped
wide: 300 => 301 rows, 0 skipped
";
