//! Tables of notes, records and sights as they are written, and of sights after notes.

/// Observations and listings.
pub const WRITTEN: &str = "
observation: none :: exit|s|5|0|/|7|0 =>
| record\texit\ts\t5\t0\t/\t7\t0

observation: none :: begin|s|5|0|/|1|shown|a%(TAB)%(NL)%41 \u{7f}ä%(NUL)| =>
| record\tbegin\ts\t5\t0\t/\t1\tshown\ta%09%0A%2541 %7F%C3%A4%00\t

observation: seen /d dir 1 mode=1777 uid=2 gid=3 size=4 read=-5.6 written=7.8 changed=9.10, seen /f
  file 18446744073709551615 mode=37777777777 uid=4294967295 gid=4294967295
  size=18446744073709551615 read=-9223372036854775808.4294967295 written=9223372036854775807,
  seen /l link 2, seen /o other 3, gone / :: exit|s|5|0|/|7|0 =>
| dir\t/d\t1777\t2\t3\t4\t1\t-5\t6\t7\t8\t9\t10
| file\t/f\t37777777777\t4294967295\t4294967295\t18446744073709551615\t18446744073709551615\
\t-9223372036854775808\t4294967295\t9223372036854775807\t0\t0\t0
| link\t/l\t644\t0\t0\t0\t2%(\t0*6)
| other\t/o\t644\t0\t0\t0\t3%(\t0*6)
| gone\t
| record\texit\ts\t5\t0\t/\t7\t0

observation: kept /f 00FF%(1A*30), leads /l 2e2e2f78, leads /m ff0920, leads /n %(EMPTY), unkept /f
  too-large, unkept /f unreadable, unkept /f changing, looked /f -1.5, gone /a%(TAB)%(NL)\u{7f}%ä,
  gone /%(n*255) :: x =>
| bytes\t/f\t00ff%(1a*30)
| target\t/l\t../x
| target\t/m\t%FF%09 %(EMPTY)
| target\t/n\t
| unkept\t/f\ttoo-large
| unkept\t/f\tunreadable
| unkept\t/f\tchanging
| looked\t/f\t-1\t5
| gone\t/a%09%0A%7F%25%C3%A4
| gone\t/%(n*255)
| record\tx

listing: 0 :: none =>
| listing\t0\t0

listing: 18446744073709551615 :: gone /b, gone /a, gone /b =>
| listing\t18446744073709551615\t3
| gone\t/b
| gone\t/a
| gone\t/b

sights: 7 :: none =>
| listing\t7\t0

sights: 18446744073709551615 :: /b file 2 size=3, /a.b link 5, /a dir 1 mode=755,
  /a/ä file 4 read=6 =>
| listing\t18446744073709551615\t4
| dir\t/a\t755\t0\t0\t0\t1%(\t0*6)
| file\t/a/%C3%A4\t644\t0\t0\t0\t4\t6%(\t0*5)
| link\t/a.b\t644\t0\t0\t0\t5%(\t0*6)
| file\t/b\t644\t0\t0\t3\t2%(\t0*6)
";

/// Listings of the sights after notes.
pub const AFTER: &str = "
after: none :: none =>
| listing\t0\t0

after: /d dir 1, /d/f file 2 :: gone /d, gone /g =>
| listing\t0\t1
| file\t/d/f\t644\t0\t0\t0\t2%(\t0*6)

after: /f file 2 :: seen /f link 3, seen /e dir 4 =>
| listing\t0\t2
| dir\t/e\t644\t0\t0\t0\t4%(\t0*6)
| link\t/f\t644\t0\t0\t0\t3%(\t0*6)

after: /f file 2 size=3 mode=600 uid=4 read=5 written=6 changed=7 :: looked /f -8.9, looked /g 10 =>
| listing\t0\t1
| file\t/f\t600\t4\t0\t3\t2\t-8\t9\t6\t0\t7\t0

after: none :: looked /f 5, seen /f file 2, looked /f 6, seen /g file 3, looked /g 7,
  seen /g file 4 =>
| listing\t0\t2
| file\t/f\t644\t0\t0\t0\t2\t6%(\t0*5)
| file\t/g\t644\t0\t0\t0\t4%(\t0*6)

after: /f file 2 :: kept /f %(00*32), leads /g 61, unkept /h changing =>
| listing\t0\t1
| file\t/f\t644\t0\t0\t0\t2%(\t0*6)

after: /f file 2 :: gone /f, seen /f file 2 read=3, gone /f, looked /f 4 =>
| listing\t0\t0
";
