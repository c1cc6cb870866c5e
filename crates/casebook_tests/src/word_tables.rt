//! The tables of rows about words; `retro_rows` says how they are written.

/// Queries with two answers, and how they differ. A value has at most 29 bytes, and the `é` in one
/// is its bytes 29 and 30.
pub const DIFFERENCES: &str = r##"
difference: bytes /f :: a%(NL)b%(NL)c%(NL) :: a%(NL)x%(NL)c%(NL) => read /f line 2: b / x
difference: bytes /f :: a%(NL)b%(NL)c%(NL)d%(NL) :: a%(NL)b%(NL)c%(NL)e%(NL)
  => read /f line 4: d / e
difference: bytes /f :: a%(NL) :: a%(NL)b => read /f line 2: ends before it / b
difference: bytes /f :: a%(NL)b%(NL) :: %(EMPTY) => read /f line 1: a / ends before it
difference: bytes /f :: a%(NL)%(NL)b%(NL) :: a%(NL)b%(NL) => read /f line 2:  / b
difference: bytes /f :: a%(NL) :: a => read /f last newline: there / missing
difference: bytes /f :: a%(NL)b :: a%(NL)b%(NL) => read /f last newline: missing / there
difference: bytes /f :: missing :: a%(NL)b => read /f: no such file / 2 lines, 3 bytes
difference: bytes /f :: dir :: %(EMPTY) => read /f: a directory / 0 lines, 0 bytes
difference: bytes /f :: not kept by casebook: a link%(TAB)/x :: a%(NL)
  => read /f: not kept: a link / 1 line, 2 bytes
difference: bytes /f :: not kept by casebook: a link%(TAB)/x :: not kept by casebook: %(ESC)
  => read /f: not kept: a link / not kept: ⟨U+001B⟩
difference: bytes /f :: missing :: not kept by casebook: neither a file nor a directory%(TAB)0%(TAB)7
  => read /f: no such file / not kept: neither a file nor a directory
difference: bytes /f :: not kept by casebook :: not kept by casebooks
  => read /f line 1: not kept by casebook / not kept by casebooks
difference: names /d :: a b c :: a c => listed /d, name b: there / missing
difference: names /d :: a c :: a b c => listed /d, name b: missing / there
difference: names /d :: a c :: b c => listed /d, name a: there / missing
difference: names /d :: b a :: a b => listed /d: 2 names / 2 names
difference: names /d :: none :: a => listed /d: no directory / 1 name
difference: kind /x +/f :: missing :: file => looked at /x⟨U+0020⟩+/f: missing / a file
difference: kind / :: dir :: dir => looked at /: a directory / a directory
difference: write /f :: yes :: no parent => could write /f: yes / no, its directory is missing
difference: write /f :: no dir :: dir
  => could write /f: no, it would be below a file / no, it is a directory
difference: write /f :: large :: yes => could write /f: no, it would be too large / yes
difference: user ann :: none :: 1000 /home/ann
  => looked up user ann: no such user / number 1000, home /home/ann
difference: var X :: none :: a b => variable X: not set / a b
difference: var X :: 0123456789012345678901234567é9 :: b
  => variable X: 0123456789012345678901234567… / b
difference: var X :: 01234567890123456789012345678 :: b
  => variable X: 01234567890123456789012345678 / b
difference: var X :: 012345678901234567890123456789 :: b
  => variable X: 01234567890123456789012345678… / b
difference: cwd 1 :: / :: /a => directory: / / /a
difference: status 1 :: 0 :: 255 => status: 0 / 255
"##;

/// Notes, and what is said of them.
pub const NOTES: &str = r##"
note: put /f :: missing => removed /f
note: put /d e :: dir => put /d⟨U+0020⟩e: a directory
note: put /f :: a%(NL)b => put /f: 2 lines, 3 bytes
note: grow /f :: a => appended to /f: 1 byte
note: grow /f :: ab%(NL) => appended to /f: 3 bytes
note: set X :: a|b => set variable X: a|b
note: cwd 2 :: /home/ann => set directory: /home/ann
note: status 2 :: 7 => set status: 7
note: asked kind /f :: file => looked at /f: a file
"##;

/// Two texts or two nodes, and their lines merged, between commas. The numbers are of lines that
/// are added and removed. Only a file has lines. Then texts, and their first lines, cut to 3 bytes.
pub const FILES: &str = r##"
merged: a%(NL)b%(NL)c%(NL) :: a%(NL)c%(NL) => =a,-b,=c 0 1
merged: a%(NL)b%(NL) :: a%(NL)b => =a,-b,+b⟨no newline⟩ 1 1
merged: a%(NL)b :: a%(NL)b => =a,=b⟨no newline⟩ 0 0
merged: %(EMPTY) :: a%(NL)%(NL)b%(NL) => +a,+,+b 3 0
merged: a :: %(EMPTY) => -a⟨no newline⟩ 0 1
merged: %(EMPTY) :: %(EMPTY) => %(EMPTY) 0 0
merged: %(TAB)%(NL) :: %(ESC)[2J%(NL) => -⟨U+0009⟩,+⟨U+001B⟩[2J 1 1

files: missing :: a%(NL)b%(NL) => +a,+b 2 0
files: dir :: a => +a⟨no newline⟩ 1 0
files: a%(NL) :: missing => -a 0 1
files: dir :: missing => %(EMPTY) 0 0
files: a%(NL) :: a%(NL) => =a 0 0

first: ab%(NL)c%(NL) => ab
first: abcd%(NL)e => abc…
first: %(NL)a%(NL) => %(EMPTY)
first: %(EMPTY) => %(EMPTY)
first: aéé => aé…
"##;

/// Names of sessions and times of lines, and what a session or a line is called.
pub const LABELS: &str = r##"
given: 5=alice, 5=alice b%(ESC) :: 7=May 06 10:52
- name: 5 => alice⟨U+0020⟩b⟨U+001B⟩
- name: 7 => 7
- time: 7 => May 06 10:52
- time: 5 => %(EMPTY)
"##;
