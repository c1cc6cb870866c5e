//! Tables of the files `lines` and `listing`, whole and cut off.

/// The file `lines`.
pub const LINES: &str = "
lines: %(EMPTY) => nothing; 0 whole
lines: go => nothing; 0 whole
lines: gone\t/a => nothing; 0 whole
lines: gone\t/a%(NL) => nothing; 0 whole
lines: record\texit\ts\t5\t0\t/\t7\t0 => nothing; 0 whole
lines: gone\t/a%(NL)record\texit\ts\t5\t0\t/\t7\t0%(NL) => gone [/a];
  [s] at 5 user 0 in [/]: exit 7 0; 32 whole
lines: record\texit\ts\t5\t0\t/\t7\t0%(NL)gone\t/a%(NL) => [s] at 5 user 0 in [/]: exit 7 0;
  24 whole
lines: record\texit\ts\t5\t0\t/\t7\t0%(NL)gone\t/a%(NL)gone\t/b => [s] at 5 user 0 in [/]:
  exit 7 0; 24 whole
lines: record\texit\ts\t5\t0\t/\t7\t0%(NL)moved\t/a => [s] at 5 user 0 in [/]: exit 7 0; 24 whole
lines: record\texit\ts\t5\t0\t/\t7\t0%(NL)record\texit\ts\t6\t0\t/\t8\t0%(NL) =>
  [s] at 5 user 0 in [/]: exit 7 0; [s] at 6 user 0 in [/]: exit 8 0; 48 whole
lines: record\texit\ts\t5\t0\t/\t7\t0%(NL)record\texit\ts\t6\t0\t/\t8\t0 =>
  [s] at 5 user 0 in [/]: exit 7 0; 24 whole
lines: gone\t/a%(NL)record\texit\ts\t5\t0\t/\t7\t0%(NL)gone\t/b%(NL)gone\t/c%(NL)\
  record\texit\ts\t6\t0\t/\t8\t0%(NL)gone\t/d%(NL) => gone [/a]; [s] at 5 user 0 in [/]: exit 7 0;
  gone [/b]; gone [/c]; [s] at 6 user 0 in [/]: exit 8 0; 72 whole

lines: %(NL) => row 1 is neither a note nor a record
lines: moved\t/a%(NL) => row 1 is neither a note nor a record
lines: listing\t0\t0%(NL) => row 1 is neither a note nor a record
lines: %(NL)record\texit\ts\t5\t0\t/\t7\t0%(NL) => row 1 is neither a note nor a record
lines: record\texit\ts\t5\t0\t/\t7\t0%(NL)%(NL) => row 2 is neither a note nor a record
lines: record\texit\ts\t5\t0\t/\t7\t0%(NL)moved\t/a%(NL) => row 2 is neither a note nor a record
lines: record\texit\ts\t5\t0\t/\t7\t0%(CR)%(NL) => row 1 is neither a note nor a record
lines: gone\t/a%(NL)record\texit\ts\t5\t0\t/\t7\t0%(NL)gone%(NL)gone\t/b%(NL)moved\t/c%(NL)\
  record\texit\ts\t6\t0\t/\t8\t0%(NL) => row 3 is neither a note nor a record

cut: %(EMPTY) :: record\texit\ts\t5\t0\t/\t7\t0%(NL) => 24 cuts;
  [s] at 5 user 0 in [/]: exit 7 0; 24 whole
cut: %(EMPTY) :: gone\t/a%(NL)record\texit\ts\t5\t0\t/\t7\t0%(NL) => 32 cuts; gone [/a];
  [s] at 5 user 0 in [/]: exit 7 0; 32 whole
cut: gone\t/a%(NL)record\texit\ts\t5\t0\t/\t7\t0%(NL) :: dir\t/ä\t755\t0\t0\t0\t1%(\t0*6)%(NL)\
  looked\t/ä\t5\t0%(NL)record\texit\ts\t6\t0\t/\t8\t0%(NL) => 71 cuts; gone [/a];
  [s] at 5 user 0 in [/]: exit 7 0; dir [/ä] 755 0 0, 0 1, 0.0 0.0 0.0; looked [/ä] 5.0;
  [s] at 6 user 0 in [/]: exit 8 0; 103 whole
";

/// The files `first` and `listing`.
pub const LISTINGS: &str = "
listed: listing\t0\t0%(NL) => at 0: nothing
listed: listing\t007\t01%(NL)gone\t/a%(NL) => at 7: gone [/a]
listed: listing\t9\t2%(NL)looked\t/b\t1\t2%(NL)gone\t/a%(NL) => at 9: looked [/b] 1.2; gone [/a]
listed: listing\t18446744073709551615\t0%(NL) => at 18446744073709551615: nothing
listed: listing\t18446744073709551616\t0%(NL) => none
listed: listing\t0\t18446744073709551615%(NL) => none
listed: listing\t0\t18446744073709551616%(NL) => none
listed: listing\t-1\t0%(NL) => none
listed: listing\t+7\t0%(NL) => none
listed: listing\t0\t+0%(NL) => none
listed: listing\t\t0%(NL) => none
listed: listing\t0\t%(NL) => none
listed: listing\t0%(NL) => none
listed: listing%(NL) => none
listed: listing\t0\t0\t0%(NL) => none
listed: listing\t0\t0\t%(NL) => none
listed: Listing\t0\t0%(NL) => none
listed: listing\t0\t0%(CR)%(NL) => none
listed: %(EMPTY) => none
listed: %(NL) => none
listed: gone\t/a%(NL) => none
listed: %(NL)listing\t0\t0%(NL) => none

listed: listing\t0\t1%(NL) => none
listed: listing\t0\t0%(NL)gone\t/a%(NL) => none
listed: listing\t0\t2%(NL)gone\t/a%(NL) => none
listed: listing\t0\t1%(NL)gone\t/a%(NL)gone\t/b%(NL) => none
listed: listing\t0\t1%(NL)gone\t/a => none
listed: listing\t0\t1%(NL)gone\t/a%(NL)gone => at 0: gone [/a]
listed: listing\t0\t1%(NL)gone\t/a%(NL)%(NL) => none
listed: listing\t0\t1%(NL)moved\t/a%(NL) => none
listed: listing\t0\t1%(NL)record\texit\ts\t5\t0\t/\t7\t0%(NL) => none

cutlisting: listing\t0\t0%(NL) => 12 cuts; at 0: nothing
cutlisting: listing\t5\t2%(NL)gone\t/a%(NL)gone\t/b%(NL) => 28 cuts; at 5: gone [/a]; gone [/b]
";
