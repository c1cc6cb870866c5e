//! A table of steps of which the last one fails in turn at each of its calls.

/// How many calls the last step has, and how many bytes it appends to the file `lines`.
pub const FAILING: &str = "
failing: start <- none :: exit|s|5|0|/|7|0 <- none =>
  5 calls on the spool, 2 on the folders, 24 bytes
failing: start <- none :: list :: exit|s|5|0|/|7|0 <- none =>
  3 calls on the spool, 2 on the folders, 24 bytes
failing: start <- /e file 9 holds=x :: exit|s|5|0|/|7|0 <- /e file 9 :: list :: exit|s|5|0|/|8|0 <-
  /f file 2 holds=x, /g file 3 holds=ab, /l link 4 target=ab =>
  5 calls on the spool, 5 on the folders, 289 bytes
failing: start <- none :: exit|s|5|0|/|7|0 <- none :: tail gone\t/a%(NL)gone ::
  exit|s|5|0|/|8|0 <- /d dir 1 => 5 calls on the spool, 2 on the folders, 55 bytes
failing: start <- /ä dir 1 :: exit|s|5|0|/|7|0 <- none :: list :: exit|s|5|0|/|7|0 <- /ä dir 1 ::
  begin|s|5|0|/|1|shown|%(NL)%(NL) <- /ä file 1 unkept=changing =>
  3 calls on the spool, 3 on the folders, 97 bytes
failing: start <- /f file 2 holds=x, /g file 3 holds=x, /d dir 1 =>
  3 calls on the spool, 4 on the folders, 0 bytes
failing: start <- /d dir 1 :: exit|s|5|0|/|7|0 <- none :: list =>
  4 calls on the spool, 0 on the folders, 0 bytes
failing: start <- /d dir 1 :: list :: exit|s|5|0|/|7|0 <- none :: list =>
  3 calls on the spool, 0 on the folders, 0 bytes
";
