//! A table of spools by their files `first`, `listing` and `lines`.

/// What the last look is written as, or why it can't be read; and what the file `lines` is after an
/// exit while `/d` is a directory of mode 755, or why there is none.
pub const SPOOLS: &str = "
given: listing\t0\t1%(NL)dir\t/d\t755\t0\t0\t0\t1%(\t0*6)%(NL)

- spool: %(EMPTY) :: %(EMPTY) =>
| listing\t0\t1
| dir\t/d\t755\t0\t0\t0\t1%(\t0*6)
| --
| record\texit\ts\t5\t0\t/\t7\t0

- spool: listing\t1\t0%(NL) :: %(EMPTY) =>
| listing\t0\t1
| dir\t/d\t755\t0\t0\t0\t1%(\t0*6)
| --
| record\texit\ts\t5\t0\t/\t7\t0

- spool: listing\t0\t1%(NL)dir\t/d :: %(EMPTY) =>
| listing\t0\t1
| dir\t/d\t755\t0\t0\t0\t1%(\t0*6)
| --
| record\texit\ts\t5\t0\t/\t7\t0

- spool: listing\t0\t1%(NL)moved\t/d%(NL) :: %(EMPTY) =>
| listing\t0\t1
| dir\t/d\t755\t0\t0\t0\t1%(\t0*6)
| --
| record\texit\ts\t5\t0\t/\t7\t0

- spool: listing\t0\t0%(NL) :: %(EMPTY) =>
| listing\t0\t0
| --
| dir\t/d\t755\t0\t0\t0\t1%(\t0*6)
| record\texit\ts\t5\t0\t/\t7\t0

- spool: listing\t24\t0%(NL) :: record\texit\ts\t6\t0\t/\t8\t0%(NL) =>
| listing\t24\t0
| --
| record\texit\ts\t6\t0\t/\t8\t0
| dir\t/d\t755\t0\t0\t0\t1%(\t0*6)
| record\texit\ts\t5\t0\t/\t7\t0

- spool: listing\t25\t0%(NL) :: record\texit\ts\t6\t0\t/\t8\t0%(NL) =>
| listing\t24\t1
| dir\t/d\t755\t0\t0\t0\t1%(\t0*6)
| --
| record\texit\ts\t6\t0\t/\t8\t0
| record\texit\ts\t5\t0\t/\t7\t0

- spool: listing\t18446744073709551615\t0%(NL) :: record\texit\ts\t6\t0\t/\t8\t0%(NL)gone\t/d =>
| listing\t24\t1
| dir\t/d\t755\t0\t0\t0\t1%(\t0*6)
| --
| record\texit\ts\t6\t0\t/\t8\t0
| record\texit\ts\t5\t0\t/\t7\t0

- spool: listing\t24\t2%(NL)gone\t/x%(NL)dir\t/d\t700\t0\t0\t0\t1%(\t0*6)%(NL) ::
  record\texit\ts\t6\t0\t/\t8\t0%(NL)gone\t/d%(NL)record\texit\ts\t6\t0\t/\t9\t0%(NL) =>
| listing\t56\t0
| --
| record\texit\ts\t6\t0\t/\t8\t0
| gone\t/d
| record\texit\ts\t6\t0\t/\t9\t0
| dir\t/d\t755\t0\t0\t0\t1%(\t0*6)
| record\texit\ts\t5\t0\t/\t7\t0

- spool: listing\t24\t1%(NL)dir\t/d\t700\t0\t0\t0\t1%(\t0*6)%(NL) ::
  record\texit\ts\t6\t0\t/\t8\t0%(NL)gone\t/d%(NL)record =>
| listing\t24\t1
| dir\t/d\t700\t0\t0\t0\t1%(\t0*6)
| --
| record\texit\ts\t6\t0\t/\t8\t0
| dir\t/d\t755\t0\t0\t0\t1%(\t0*6)
| record\texit\ts\t5\t0\t/\t7\t0

- spool: %(EMPTY) :: record\texit\ts\t6\t0\t/\t8\t0%(NL)gone\t/d%(NL) =>
| listing\t24\t1
| dir\t/d\t755\t0\t0\t0\t1%(\t0*6)
| --
| record\texit\ts\t6\t0\t/\t8\t0
| record\texit\ts\t5\t0\t/\t7\t0

- spool: %(EMPTY) :: gone\t/d%(NL)moved =>
| listing\t0\t1
| dir\t/d\t755\t0\t0\t0\t1%(\t0*6)
| --
| record\texit\ts\t5\t0\t/\t7\t0

- spool: %(EMPTY) :: record\texit\ts\t6\t0\t/\t8\t0%(NL)moved\t/d%(NL) =>
| Lines(0, 2)
| --
| Lines(0, 2)

- spool: listing\t24\t0%(NL) :: record\texit\ts\t6\t0\t/\t8\t0%(NL)gone\t/d%(NL)moved\t/d%(NL)\
  record\texit\ts\t6\t0\t/\t9\t0%(NL) =>
| Lines(24, 2)
| --
| Lines(24, 2)

- spool: listing\t3\t0%(NL) :: record\texit\ts\t6\t0\t/\t8\t0%(NL) =>
| Lines(3, 1)
| --
| Lines(3, 1)

- spool: listing\t24\t0%(NL) :: moved\texit\ts\t66\t0\t/\t8\t0%(NL) =>
| listing\t24\t0
| --
| moved\texit\ts\t66\t0\t/\t8\t0
| dir\t/d\t755\t0\t0\t0\t1%(\t0*6)
| record\texit\ts\t5\t0\t/\t7\t0

spool: %(EMPTY) :: %(EMPTY) :: %(EMPTY) =>
| First
| --
| First

spool: listing\t0\t1%(NL)dir\t/d :: %(EMPTY) :: record\texit\ts\t6\t0\t/\t8\t0%(NL) =>
| First
| --
| First

spool: listing\t0\t1%(NL)record\texit\ts\t6\t0\t/\t8\t0%(NL) :: listing\t0\t0 :: %(EMPTY) =>
| First
| --
| First

spool: %(EMPTY) :: listing\t0\t0%(NL) :: %(EMPTY) =>
| listing\t0\t0
| --
| dir\t/d\t755\t0\t0\t0\t1%(\t0*6)
| record\texit\ts\t5\t0\t/\t7\t0

spool: listing\t7\t1%(NL)bytes\t/d\t%(00*32)%(NL) :: %(EMPTY) :: %(EMPTY) =>
| listing\t0\t0
| --
| dir\t/d\t755\t0\t0\t0\t1%(\t0*6)
| record\texit\ts\t5\t0\t/\t7\t0
";
