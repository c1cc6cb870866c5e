//! Tables of rows of a spool, and of what they say.

/// Rows of sights: a word, a path, mode, owner and group, size, number, and three times.
pub const SIGHTS: &str = "
given: file\t/f\t640\t11\t12\t13\t14\t15\t16\t17\t18\t19\t20
- with: 20 :: %(EMPTY) => file [/f] 640 11 12, 13 14, 15.16 17.18 19.20
- with: 0 :: dir => dir [/f] 640 11 12, 13 14, 15.16 17.18 19.20
- with: 0 :: link => link [/f] 640 11 12, 13 14, 15.16 17.18 19.20
- with: 0 :: other => other [/f] 640 11 12, 13 14, 15.16 17.18 19.20
- with: 0 :: %(EMPTY) => wrong
- with: 0 :: File => wrong
- with: 0 :: files => wrong
- with: 0 :: fil => wrong
- with: 0 :: fifo => wrong
- with: 0 :: record => wrong
- with: 0 :: listing => wrong
- with: 0 :: gone => wrong
- with: 0 :: bytes => wrong
- with: 0 :: target => wrong
- with: 0 :: unkept => wrong
- with: 0 :: looked => wrong
- with: 1 :: %(EMPTY) => file [] 640 11 12, 13 14, 15.16 17.18 19.20
- with: 1 :: f => wrong
- with: 1 :: /f/.. => wrong
- with: 2 :: 0 => file [/f] 0 11 12, 13 14, 15.16 17.18 19.20
- with: 2 :: 00007777 => file [/f] 7777 11 12, 13 14, 15.16 17.18 19.20
- with: 2 :: 37777777777 => file [/f] 37777777777 11 12, 13 14, 15.16 17.18 19.20
- with: 2 :: 40000000000 => wrong
- with: 2 :: 8 => wrong
- with: 2 :: -1 => wrong
- with: 2 :: +1 => wrong
- with: 2 :: 0o1 => wrong
- with: 2 :: %(EMPTY) => wrong
- with: 3 :: 4294967295 => file [/f] 640 4294967295 12, 13 14, 15.16 17.18 19.20
- with: 3 :: 4294967296 => wrong
- with: 3 :: +1 => wrong
- with: 4 :: 04294967295 => file [/f] 640 11 4294967295, 13 14, 15.16 17.18 19.20
- with: 4 :: 4294967296 => wrong
- with: 4 :: root => wrong
- with: 5 :: 18446744073709551615 => file [/f] 640 11 12, 18446744073709551615 14, 15.16 17.18
  19.20
- with: 5 :: 18446744073709551616 => wrong
- with: 5 :: -1 => wrong
- with: 6 :: 018446744073709551615 => file [/f] 640 11 12, 13 18446744073709551615, 15.16 17.18
  19.20
- with: 6 :: 18446744073709551616 => wrong
- with: 6 :: +1 => wrong
- with: 7 :: -9223372036854775808 => file [/f] 640 11 12, 13 14, -9223372036854775808.16 17.18
  19.20
- with: 7 :: -9223372036854775809 => wrong
- with: 7 :: -007 => file [/f] 640 11 12, 13 14, -7.16 17.18 19.20
- with: 7 :: -0 => file [/f] 640 11 12, 13 14, 0.16 17.18 19.20
- with: 7 :: +1 => wrong
- with: 7 :: - => wrong
- with: 8 :: 4294967295 => file [/f] 640 11 12, 13 14, 15.4294967295 17.18 19.20
- with: 8 :: 4294967296 => wrong
- with: 8 :: -1 => wrong
- with: 9 :: 9223372036854775807 => file [/f] 640 11 12, 13 14, 15.16 9223372036854775807.18
  19.20
- with: 9 :: 9223372036854775808 => wrong
- with: 10 :: 0 => file [/f] 640 11 12, 13 14, 15.16 17.0 19.20
- with: 10 :: +0 => wrong
- with: 11 :: -1 => file [/f] 640 11 12, 13 14, 15.16 17.18 -1.20
- with: 11 :: %(EMPTY) => wrong
- with: 12 :: 999999999 => file [/f] 640 11 12, 13 14, 15.16 17.18 19.999999999
- with: 12 :: 20%(CR) => wrong
- first: 12 => wrong
- first: 11 => wrong
- first: 7 => wrong
- first: 3 => wrong
- first: 2 => wrong
- first: 1 => wrong
- more: %(EMPTY) => wrong
- more: 0 => wrong
";

/// Rows of all other notes.
pub const NOTES: &str = "
note: %(EMPTY) => wrong
note: \t/a => wrong
note: moved\t/a => wrong

note: gone\t/a => gone [/a]
note: gone\t => gone []
note: gone => wrong
note: gone\t/a\t => wrong
note: gone\t/a\t/b => wrong
note: Gone\t/a => wrong
note: gone \t/a => wrong
note: g%6Fne\t/a => wrong
note: gone\t/a%09%0A%7F%25%C3%A4/ö => gone [/a%(TAB)%(NL)\u{7f}%ä/ö]
note: gone\t/%(n*255) => gone [/%(n*255)]
note: gone\t/%(n*256) => wrong
note: gone\t/a%FF => wrong
note: gone\t/a//b => wrong
note: gone\t/a/ => wrong
note: gone\t/./a => wrong
raw: gone\t/ :: c3a4 => gone [/ä]
raw: gone\t/ :: ff => wrong
raw: gone\t/ :: 410d => gone [/A%(CR)]
raw: gone\t/ :: 0041 => gone [/%(NUL)A]

note: bytes\t/f\t00ff%(1a*30) => kept [/f] 00ff%(1a*30)
note: bytes\t/f\t00FF%(1A*30) => kept [/f] 00ff%(1a*30)
note: bytes\t/f\t%(0*63) => wrong
note: bytes\t/f\t%(0*66) => wrong
note: bytes\t/f\t => wrong
note: bytes\t/f => wrong
note: bytes\t/f\t%(0*64)\t => wrong
note: bytes\tf\t%(0*64) => wrong

note: target\t/l\t../x y => leads [/l] [../x y]
note: target\t/l\t => leads [/l] []
note: target\t/l\t%09%0a%25%7f%zz => leads [/l] [%(TAB)%(NL)%\u{7f}%zz]
note: target\t/l\t%FF => leads [/l] hex ff
note: target\t/l => wrong
note: target\t/l\ta\tb => wrong
note: target\tl\ta => wrong
raw: target\t/l\t :: c3a4 => leads [/l] [ä]
raw: target\t/l\t :: e400 => leads [/l] hex e400

note: unkept\t/f\ttoo-large => unkept [/f] too large
note: unkept\t/f\tunreadable => unkept [/f] not readable
note: unkept\t/f\tchanging => unkept [/f] always changing
note: unkept\t/f\ttoo_large => wrong
note: unkept\t/f\tchanged => wrong
note: unkept\t/f\tc%68anging => wrong
note: unkept\t/f\t => wrong
note: unkept\t/f => wrong
note: unkept\t/f\tchanging\t => wrong
note: unkept\t/.\tchanging => wrong

note: looked\t/f\t5\t6 => looked [/f] 5.6
note: looked\t\t-007\t000 => looked [] -7.0
note: looked\t/f\t5 => wrong
note: looked\t/f\t5\t6\t7 => wrong
note: looked\t/f\t+5\t6 => wrong
note: looked\t/f\t5\t-6 => wrong
note: looked\t/f\t5.6\t0 => wrong
note: looked\t/f\t9223372036854775808\t0 => wrong
note: looked\t/f\t0\t4294967296 => wrong
note: looked\tf\t5\t6 => wrong
";

/// Rows of records, in the file `lines`.
pub const RECORDS: &str = "
lines: record\texit\ts\t5\t0\t/\t7\t0%(NL) => [s] at 5 user 0 in [/]: exit 7 0; 24 whole
lines: record\t%65xit\ts\t5\t0\t/\t7\t0%(NL) => [s] at 5 user 0 in [/]: exit 7 0; 26 whole
lines: record\texit\ts\t5\t0\t/%FF\t7\t0%(NL) => [s] at 5 user 0 in hex 2fff: exit 7 0; 27 whole
lines: record\tstart\tb\t5\t0\t/\ta\tpts/0\t0022\troot\t\tnew\tv%0A\tsame\t%(NL) => [b] at 5 user 0
  in [/]: start [a] [pts/0] 0022 [root] [] [v%(NL)] same; 55 whole
lines: record\tstart\tb\t5\t0\t/\ta\tpts/0\t0022\troot\t%(NL) => row 1 is neither a note nor a record
lines: record\tbegin\ts\t5\t0\t/%C3%A4\t1\tshown\ta%09b%0A%25%zz%(NL) => [s] at 5 user 0 in [/ä]:
  begin 1 [a%(TAB)b%(NL)%%zz]; 50 whole
lines: record\tbegin\ts\t5\t0\t/\t1\tshown\ta%00b%(NL) => [s] at 5 user 0 in [/]:
  begin 1 [a%(NUL)b]; 35 whole
lines: record\tbegin\ts\t5\t0\t/\t1\thidden\t%(NL) => [s] at 5 user 0 in [/]: begin 1 hidden;
  31 whole
lines: record\tend\ts\t5\t0\t/\t2\t1\t0 1\tshown\tls\tnew\tv\tsame\t%(NL) => [s] at 5 user 0 in [/]:
  end 2 status 1 of 0 1: [ls] [v] same; 48 whole
lines: record%(NL) => row 1 is neither a note nor a record
lines: record\t%(NL) => row 1 is neither a note nor a record
lines: Record\texit\ts\t5\t0\t/\t7\t0%(NL) => row 1 is neither a note nor a record
lines: record\texit\ts\t5\t0\t/\t7%(NL) => row 1 is neither a note nor a record
lines: record\texit\ts\t5\t0\t/\t7\t0\t%(NL) => row 1 is neither a note nor a record
lines: record\tstop\ts\t5\t0\t/%(NL) => row 1 is neither a note nor a record
lines: record\texit\ts\t05\t0\t/\t7\t0%(NL) => row 1 is neither a note nor a record
lines: record\texit\ts\t5\t0\t/\t7\t256%(NL) => row 1 is neither a note nor a record
lines: record\texit\ts\t5\t0\tsrv\t7\t0%(NL) => row 1 is neither a note nor a record
";
