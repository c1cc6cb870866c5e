//! Tables of what a recorder does, and of what it writes to a new spool.

/// Starts, observations and listings.
pub const STEPS: &str = "
steps: start <- none :: exit|s|5|0|/|7|0 <- none :: exit|s|6|0|/|8|0 <- none :: list =>
| listing\t0\t0
| --
| record\texit\ts\t5\t0\t/\t7\t0
| --
| record\texit\ts\t6\t0\t/\t8\t0
| --
| listing\t48\t0

steps: start <- /d dir 1, /d/f file 2 size=2 holds=ab ::
  exit|s|5|0|/|7|0 <- /d dir 1, /d/f file 2 size=2 read=9 holds=xx ::
  exit|s|5|0|/|7|0 <- /d dir 1, /d/f file 2 size=5 read=9 written=10 holds=hello ::
  exit|s|5|0|/|7|0 <- /d dir 1, /d/f file 2 size=5 read=9 written=10 holds=xxxxx ::
  exit|s|5|0|/|7|0 <- /d dir 1 =>
| listing\t0\t3
| dir\t/d\t644\t0\t0\t0\t1%(\t0*6)
| file\t/d/f\t644\t0\t0\t2\t2%(\t0*6)
| bytes\t/d/f\tfb8e20fc2e4c3f248c60c39bd652f3c1347298bb977b8b4d5903b85055620603
| --
| file\t/d/f\t644\t0\t0\t2\t2\t9%(\t0*5)
| record\texit\ts\t5\t0\t/\t7\t0
| --
| file\t/d/f\t644\t0\t0\t5\t2\t9\t0\t10%(\t0*3)
| bytes\t/d/f\t2cf24dba5fb0a30e26e83b2ac5b9e29e1b161e5c1fa7425e73043362938b9824
| record\texit\ts\t5\t0\t/\t7\t0
| --
| record\texit\ts\t5\t0\t/\t7\t0
| --
| gone\t/d/f
| record\texit\ts\t5\t0\t/\t7\t0
| kept fb8e20fc2e4c3f248c60c39bd652f3c1347298bb977b8b4d5903b85055620603 [ab]
| kept 2cf24dba5fb0a30e26e83b2ac5b9e29e1b161e5c1fa7425e73043362938b9824 [hello]

steps: start <- none ::
  exit|s|5|0|/|7|0 <- /d dir 1, /d/e file 2, /d/l link 3 size=2 target=ab, /d/o other 4,
  /d/u file 5 unkept=unreadable ::
  exit|s|5|0|/|7|0 <- /d dir 1 read=9 written=9, /d/e file 2 mode=600, /d/l link 3 size=2 read=9,
  /d/o other 4 changed=9, /d/u file 5 read=9 ::
  exit|s|5|0|/|7|0 <- /d dir 7, /d/e link 2 target=%(TAB)%ä, /d/l file 3 holds=ab,
  /d/u file 6 unkept=too-large =>
| listing\t0\t0
| --
| dir\t/d\t644\t0\t0\t0\t1%(\t0*6)
| file\t/d/e\t644\t0\t0\t0\t2%(\t0*6)
| link\t/d/l\t644\t0\t0\t2\t3%(\t0*6)
| other\t/d/o\t644\t0\t0\t0\t4%(\t0*6)
| file\t/d/u\t644\t0\t0\t0\t5%(\t0*6)
| bytes\t/d/e\te3b0c44298fc1c149afbf4c8996fb92427ae41e4649b934ca495991b7852b855
| target\t/d/l\tab
| unkept\t/d/u\tunreadable
| record\texit\ts\t5\t0\t/\t7\t0
| --
| dir\t/d\t644\t0\t0\t0\t1\t9\t0\t9%(\t0*3)
| file\t/d/e\t600\t0\t0\t0\t2%(\t0*6)
| link\t/d/l\t644\t0\t0\t2\t3\t9%(\t0*5)
| other\t/d/o\t644\t0\t0\t0\t4%(\t0*4)\t9\t0
| file\t/d/u\t644\t0\t0\t0\t5\t9%(\t0*5)
| bytes\t/d/e\te3b0c44298fc1c149afbf4c8996fb92427ae41e4649b934ca495991b7852b855
| record\texit\ts\t5\t0\t/\t7\t0
| --
| dir\t/d\t644\t0\t0\t0\t7%(\t0*6)
| link\t/d/e\t644\t0\t0\t0\t2%(\t0*6)
| file\t/d/l\t644\t0\t0\t0\t3%(\t0*6)
| file\t/d/u\t644\t0\t0\t0\t6%(\t0*6)
| gone\t/d/o
| target\t/d/e\t%09%25%C3%A4
| bytes\t/d/l\tfb8e20fc2e4c3f248c60c39bd652f3c1347298bb977b8b4d5903b85055620603
| unkept\t/d/u\ttoo-large
| record\texit\ts\t5\t0\t/\t7\t0
| kept e3b0c44298fc1c149afbf4c8996fb92427ae41e4649b934ca495991b7852b855 []
| kept fb8e20fc2e4c3f248c60c39bd652f3c1347298bb977b8b4d5903b85055620603 [ab]

steps: start <- none ::
  exit|s|5|0|/|7|0 <- /d dir 1 looked=12, /f file 2 holds=x looked=13.5 ::
  exit|s|5|0|/|7|0 <- /d dir 1 read=12, /f file 2 read=13.5 holds=xx ::
  exit|s|5|0|/|7|0 <- /d dir 1 read=12 looked=14, /f file 2 read=15 holds=xx :: list =>
| listing\t0\t0
| --
| dir\t/d\t644\t0\t0\t0\t1%(\t0*6)
| file\t/f\t644\t0\t0\t0\t2%(\t0*6)
| bytes\t/f\t2d711642b726b04401627ca9fbac32f5c8530fb1903cc4db02258717921a4881
| looked\t/d\t12\t0
| looked\t/f\t13\t5
| record\texit\ts\t5\t0\t/\t7\t0
| --
| record\texit\ts\t5\t0\t/\t7\t0
| --
| file\t/f\t644\t0\t0\t0\t2\t15%(\t0*5)
| looked\t/d\t14\t0
| record\texit\ts\t5\t0\t/\t7\t0
| --
| listing\t287\t2
| dir\t/d\t644\t0\t0\t0\t1\t14%(\t0*5)
| file\t/f\t644\t0\t0\t0\t2\t15%(\t0*5)
| kept 2d711642b726b04401627ca9fbac32f5c8530fb1903cc4db02258717921a4881 [x]

steps: start <- /f file 2 holds=x looked=3, /g file 4 unkept=changing :: exit|s|5|0|/|7|0 <-
  /f file 2 read=3 holds=x, /g file 4 :: list :: exit|s|5|0|/|7|0 <- /f file 2 read=3 holds=x ::
  list :: unlisted :: exit|s|5|0|/|7|0 <- /f file 2 read=3 holds=x =>
| listing\t0\t5
| file\t/f\t644\t0\t0\t0\t2%(\t0*6)
| file\t/g\t644\t0\t0\t0\t4%(\t0*6)
| bytes\t/f\t2d711642b726b04401627ca9fbac32f5c8530fb1903cc4db02258717921a4881
| unkept\t/g\tchanging
| looked\t/f\t3\t0
| --
| record\texit\ts\t5\t0\t/\t7\t0
| --
| listing\t24\t2
| file\t/f\t644\t0\t0\t0\t2\t3%(\t0*5)
| file\t/g\t644\t0\t0\t0\t4%(\t0*6)
| --
| gone\t/g
| record\texit\ts\t5\t0\t/\t7\t0
| --
| listing\t56\t1
| file\t/f\t644\t0\t0\t0\t2\t3%(\t0*5)
| --
| record\texit\ts\t5\t0\t/\t7\t0
| kept 2d711642b726b04401627ca9fbac32f5c8530fb1903cc4db02258717921a4881 [x]

steps: start <- none :: begin|s|5|0|/ä|1|shown|a%(TAB)%(NL)% ä <- /ä%(NL)% dir 1, /%(n*255) dir 2 =>
| listing\t0\t0
| --
| dir\t/%(n*255)\t644\t0\t0\t0\t2%(\t0*6)
| dir\t/%C3%A4%0A%25\t644\t0\t0\t0\t1%(\t0*6)
| record\tbegin\ts\t5\t0\t/%C3%A4\t1\tshown\ta%09%0A%25 %C3%A4

steps: start <- none :: exit|s|5|0|/|7|0 <- none :: tail gone\t/a%(NL)dir\t/x ::
  exit|s|5|0|/|8|0 <- none :: tail moved :: exit|s|5|0|/|9|0 <- /d dir 1 :: list ::
  tail gone\t/d%(NL) :: exit|s|5|0|/|10|0 <- /d dir 1 :: list =>
| listing\t0\t0
| --
| record\texit\ts\t5\t0\t/\t7\t0
| --
| record\texit\ts\t5\t0\t/\t8\t0
| --
| dir\t/d\t644\t0\t0\t0\t1%(\t0*6)
| record\texit\ts\t5\t0\t/\t9\t0
| --
| listing\t103\t1
| dir\t/d\t644\t0\t0\t0\t1%(\t0*6)
| --
| record\texit\ts\t5\t0\t/\t10\t0
| --
| listing\t128\t1
| dir\t/d\t644\t0\t0\t0\t1%(\t0*6)

steps: start <- none :: exit|s|5|0|/|7|0 <- none :: listing listing\t25\t0%(NL) ::
  exit|s|5|0|/|8|0 <- none :: exit|s|5|0|/|9|0 <- none =>
| listing\t0\t0
| --
| record\texit\ts\t5\t0\t/\t7\t0
| --
| record\texit\ts\t5\t0\t/\t8\t0
| --
| record\texit\ts\t5\t0\t/\t9\t0
";

/// What is sent and isn't a record. Nothing is written or kept.
pub const REFUSED: &str = "
steps: start <- none :: cut exit|s|5|0|/|7|0 <- /f file 2 holds=x ::
  exit|s|5|0|/|7 <- /f file 2 holds=x :: exit|s|5|0|/|7|0|0 <- /f file 2 holds=x ::
  stop|s|5|0|/ <- /f file 2 holds=x :: exit|s|5|0|/|7|256 <- /f file 2 holds=x ::
  cut %(EMPTY) <- /f file 2 holds=x :: exit|s|5|0|/|7|0 <- none =>
| listing\t0\t0
| --
| Record(CutOff)
| --
| Record(CutOff)
| --
| Record(TooMany)
| --
| Record(UnknownKind)
| --
| Record(Wrong(Status))
| --
| Record(CutOff)
| --
| record\texit\ts\t5\t0\t/\t7\t0
";
