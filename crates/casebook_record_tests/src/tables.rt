//! Tables of records and of what they are read as.

/// The fields that all kinds have, at the bounds of each.
pub const RECORDS: &str = "
given: exit :: host-1 :: 1747217400000000 :: 1000 :: /srv/my files :: 7 :: 0
- with: 9 :: 0 => [host-1] at 1747217400000000 user 1000 in [/srv/my files]: exit, lines 7, status 0
- with: 0 :: stop => UnknownKind
- with: 0 :: %(EMPTY) => UnknownKind
- with: 0 :: Exit => UnknownKind
- with: 0 :: exit%(NL) => UnknownKind
- with: 1 :: %(a*64) => [%(a*64)] at 1747217400000000 user 1000 in [/srv/my files]: exit, lines 7,
  status 0
- with: 1 :: %(a*65) => Wrong(Session)
- with: 1 :: %(EMPTY) => Wrong(Session)
- with: 1 :: -aZ09 => [-aZ09] at 1747217400000000 user 1000 in [/srv/my files]: exit, lines 7,
  status 0
- with: 1 :: a_b => Wrong(Session)
- with: 1 :: a.b => Wrong(Session)
- with: 1 :: ä => Wrong(Session)
- with: 2 :: 0 => [host-1] at 0 user 1000 in [/srv/my files]: exit, lines 7, status 0
- with: 2 :: %(9*18) => [host-1] at %(9*18) user 1000 in [/srv/my files]: exit, lines 7, status 0
- with: 2 :: 1%(0*18) => Wrong(Time)
- with: 2 :: 00 => Wrong(Time)
- with: 2 :: 01 => Wrong(Time)
- with: 2 :: +1 => Wrong(Time)
- with: 2 :: -1 => Wrong(Time)
- with: 2 :: 1.5 => Wrong(Time)
- with: 2 :: %(EMPTY) => Wrong(Time)
- with: 3 :: 0 => [host-1] at 1747217400000000 user 0 in [/srv/my files]: exit, lines 7, status 0
- with: 3 :: 4294967295 => [host-1] at 1747217400000000 user 4294967295 in [/srv/my files]: exit,
  lines 7, status 0
- with: 3 :: 4294967296 => Wrong(User)
- with: 3 :: 0xff => Wrong(User)
- with: 4 :: / => [host-1] at 1747217400000000 user 1000 in [/]: exit, lines 7, status 0
- with: 4 :: /a%(NL)b => [host-1] at 1747217400000000 user 1000 in [/a%(NL)b]: exit,
  lines 7, status 0
- with: 4 :: srv => Wrong(Directory)
- with: 4 :: %(EMPTY) => Wrong(Directory)
";

/// Starts of sessions.
pub const START: &str = "
given: start :: b :: 5 :: 0 :: / :: a :: pts/0 :: 0022 :: root :: 192.0.2.7 50122 192.0.2.1 22 ::
  new :: declare -- x=1 :: new :: alias l=ls
- with: 20 :: 0 => [b] at 5 user 0 in [/]: start, parent [a], terminal [pts/0], umask 0022, login
  [root], connection [192.0.2.7 50122 192.0.2.1 22], variables [declare -- x=1], shell [alias l=ls]
- with: 5 :: %(EMPTY) => [b] at 5 user 0 in [/]: start, parent none, terminal [pts/0], umask 0022,
  login [root], connection [192.0.2.7 50122 192.0.2.1 22], variables [declare -- x=1], shell
  [alias l=ls]
- with: 5 :: %(a*65) => Wrong(Parent)
- with: 5 :: a b => Wrong(Parent)
- with: 7 :: 7777 => [b] at 5 user 0 in [/]: start, parent [a], terminal [pts/0], umask 7777, login
  [root], connection [192.0.2.7 50122 192.0.2.1 22], variables [declare -- x=1], shell [alias l=ls]
- with: 7 :: 022 => Wrong(Umask)
- with: 7 :: 00022 => Wrong(Umask)
- with: 7 :: 0028 => Wrong(Umask)
- with: 7 :: %(EMPTY) => Wrong(Umask)
- with: 10 :: same => Wrong(Variables)
- with: 10 :: New => Wrong(Variables)
- with: 10 :: %(EMPTY) => Wrong(Variables)
- with: 11 :: %(EMPTY) => [b] at 5 user 0 in [/]: start, parent [a], terminal [pts/0], umask 0022,
  login [root], connection [192.0.2.7 50122 192.0.2.1 22], variables [], shell [alias l=ls]
- with: 12 :: same => Wrong(Shell)
- with: 12 :: shown => Wrong(Shell)
- with: 13 :: a%(NL)new => [b] at 5 user 0 in [/]: start, parent [a], terminal [pts/0], umask 0022,
  login [root], connection [192.0.2.7 50122 192.0.2.1 22], variables [declare -- x=1], shell
  [a%(NL)new]
- first: 13 => CutOff
- first: 10 => CutOff
- first: 9 => CutOff
- more: %(EMPTY) => TooMany
read: start :: b :: 5 :: 0 :: / :: %(EMPTY) :: %(EMPTY) :: 0000 :: %(EMPTY) :: %(EMPTY) :: same ::
  %(EMPTY) :: same :: %(EMPTY) => [b] at 5 user 0 in [/]: start, parent none, terminal [], umask
  0000, login [], connection [], variables same, shell same
read: start :: b :: 5 :: 0 :: / :: . :: t :: 9 :: u :: c :: x :: y :: x :: y => Wrong(Parent)
read: start :: b :: 5 :: 0 :: / :: a :: t :: 9 :: u :: c :: x :: y :: x :: y => Wrong(Umask)
read: start :: b :: 5 :: 0 :: / :: a :: t :: 0000 :: u :: c :: x :: y :: x :: y => Wrong(Variables)
read: start :: b :: 5 :: 0 :: / :: a :: t :: 0000 :: u :: c :: new :: y :: x :: y => Wrong(Shell)
";

/// Beginnings of lines.
pub const BEGIN: &str = "
given: begin :: s :: 5 :: 0 :: / :: 1 :: shown :: ls -l
- with: 20 :: 0 => [s] at 5 user 0 in [/]: begin 1 [ls -l]
- with: 5 :: 4294967295 => [s] at 5 user 0 in [/]: begin 4294967295 [ls -l]
- with: 5 :: 0 => Wrong(Number)
- with: 5 :: 4294967296 => Wrong(Number)
- with: 6 :: hidden => Wrong(Line)
- with: 6 :: %(EMPTY) => Wrong(Line)
- with: 6 :: Shown => Wrong(Line)
- with: 7 :: %(EMPTY) => [s] at 5 user 0 in [/]: begin 1 []
- with: 7 :: a%(NL)%(TAB)%(ESC)b => [s] at 5 user 0 in [/]: begin 1 [a%(NL)%(TAB)%(ESC)b]
- first: 7 => CutOff
- first: 5 => CutOff
- more: %(EMPTY) => TooMany
read: begin :: s :: 5 :: 0 :: / :: 1 :: hidden :: %(EMPTY) => [s] at 5 user 0 in [/]: begin 1 hidden
";

/// Ends of lines.
pub const END: &str = "
given: end :: s :: 5 :: 0 :: / :: 2 :: 255 :: 0 141 255 :: shown :: yes | head :: new ::
  declare -- x=1 :: new :: alias l=ls
- with: 20 :: 0 => [s] at 5 user 0 in [/]: end 2, status 255, statuses 0 141 255, line
  [yes | head], variables [declare -- x=1], shell [alias l=ls]
- with: 5 :: 0 => Wrong(Number)
- with: 6 :: 256 => Wrong(Status)
- with: 6 :: %(EMPTY) => Wrong(Status)
- with: 6 :: 0 1 => Wrong(Status)
- with: 7 :: 1 => [s] at 5 user 0 in [/]: end 2, status 255, statuses 1, line
  [yes | head], variables [declare -- x=1], shell [alias l=ls]
- with: 7 :: %(EMPTY) => Wrong(Statuses)
- with: 7 :: 256 => Wrong(Statuses)
- with: 7 :: 0 00 => Wrong(Statuses)
- with: 7 :: 0  1 => Wrong(Statuses)
- with: 7 :: %(EMPTY) 0 => Wrong(Statuses)
- with: 7 :: 0 %(EMPTY) => Wrong(Statuses)
- with: 7 :: 0%(TAB)1 => Wrong(Statuses)
- with: 7 :: 0, 1 => Wrong(Statuses)
- with: 8 :: hidden => Wrong(Line)
- with: 10 :: same => Wrong(Variables)
- with: 10 :: shown => Wrong(Variables)
- with: 11 :: %(EMPTY) => [s] at 5 user 0 in [/]: end 2, status 255, statuses 0 141 255, line
  [yes | head], variables [], shell [alias l=ls]
- with: 12 :: same => Wrong(Shell)
- first: 13 => CutOff
- more: %(EMPTY) => TooMany
read: end :: s :: 5 :: 0 :: / :: 2 :: 1 :: 0 :: hidden :: %(EMPTY) :: same :: %(EMPTY) :: same ::
  %(EMPTY) => [s] at 5 user 0 in [/]: end 2, status 1, statuses 0, line hidden, variables same,
  shell same
read: end :: s :: 5 :: 0 :: / :: 2 :: 1 :: 0 1 :: x :: y :: x :: y :: x :: y => Wrong(Line)
read: end :: s :: 5 :: 0 :: / :: 2 :: y :: x :: x :: y :: x :: y :: x :: y => Wrong(Status)
read: end :: s :: 5 :: 0 :: / :: 2 :: 1 :: x :: x :: y :: x :: y :: x :: y => Wrong(Statuses)
read: end :: s :: 5 :: 0 :: / :: 2 :: 1 :: 0 1 :: shown :: y :: x :: y :: x :: y => Wrong(Variables)
";

/// Ends of sessions.
pub const EXIT: &str = "
given: exit :: s :: 5 :: 0 :: / :: 0 :: 130
- with: 20 :: 0 => [s] at 5 user 0 in [/]: exit, lines 0, status 130
- with: 5 :: 4294967295 => [s] at 5 user 0 in [/]: exit, lines 4294967295, status 130
- with: 5 :: 4294967296 => Wrong(Number)
- with: 5 :: %(EMPTY) => Wrong(Number)
- with: 6 :: 255 => [s] at 5 user 0 in [/]: exit, lines 0, status 255
- with: 6 :: 256 => Wrong(Status)
- with: 6 :: 0 0 => Wrong(Status)
- first: 6 => CutOff
- more: 0 => TooMany
";

/// Bytes: fields that no NUL ends, bytes that aren't UTF-8, and which error counts of several.
pub const WHOLE: &str = "
bytes: %(EMPTY) => CutOff
bytes: 00 => CutOff
bytes: 0000000000 => UnknownKind
bytes: 65786974007300350030002f003000300078 => CutOff
bytes: 65786974007300350030002f0030003000 => [s] at 5 user 0 in [/]: exit, lines 0, status 0
bytes: 65786974007300350030002f00300030 => CutOff
bytes: 65786974007300350030002f003000300000 => TooMany
bytes: 65786974007300350030002fff003000300000 => TooMany
bytes: 65786974007300350030002fff0030003000 => [s] at 5 user 0 in hex 2fff: exit, lines 0, status 0
bytes: 626567696e007300350030002f00310073686f776e00fe0a00 => [s] at 5 user 0 in [/]: begin 1
  hex fe0a
read: stop :: a b :: x :: x :: x => UnknownKind
read: stop :: a b :: x :: x => CutOff
read: exit :: a b :: x :: x :: x => Wrong(Session)
read: exit :: s :: x :: x :: x => Wrong(Time)
read: exit :: s :: 5 :: x :: x => Wrong(User)
read: exit :: s :: 5 :: 0 :: x => Wrong(Directory)
read: exit :: s :: 5 :: 0 :: / :: x => CutOff
read: exit :: s :: 5 :: 0 :: / :: x :: x => Wrong(Number)
";
