//! Tables of accounts.

/// The lines of cases, repairs of them, and how both are shown.
pub const ACCOUNTS: &str = r#"
given: dir /srv, file /srv/a 1 1 one
- account: none => /srv
- account: start A /srv - set_+o_posix, begin A 1 /srv cat_a, end A 1 0 /srv cat_a =>
  1 1 modelled 1-2 at 0 [cat a] 1=bob /srv
- account: begin A 1 /srv x, file /srv/a 5 5 two, end A 1 0 /srv x =>
  1 1 seen 1-2 at 0 [x] /srv
- account: file /srv/a 5 5 two, start A /srv - - =>
  1 0 seen 1-2 at 0 [# changes outside of the recorded sessions] 1=bob /srv
- account: start B /srv - -, begin A 1 /srv x, end A 1 0 /srv x, begin B 1 /srv y, end B 1 1 /srv y
  => 1 2 seen 1-2 at 0 [x] 2 1 seen 2-3 at 0 [y] 1=bob /srv
- account: begin A 3 /srv x, end A 3 0 /srv x, begin B 1 /srv y, end B 1 0 /srv y, begin D 2 \
  /srv z, end D 2 0 /srv z =>
  1 1 seen 1-2 at 0 [x] 2 2 seen 2-3 at 0 [y] 3 3 seen 3-4 at 0 [z] 1.. 3.. /srv
- account: begin A 1 /srv x, begin B 1 /srv y, file /srv/a 5 5 two, end A 1 0 /srv x, end B 1 0 /srv y
  => 1 1 seen, overlaps 1-2 at 0 [x] 2 2 seen 2-3 at 0 [y] /srv
- shown: begin A 1 /srv x, file /srv/a 5 5 two, end A 1 0 /srv x => 1 1 [x] /srv/a then / /srv/ /srv/a
- shown: start A /srv - set_+o_posix, begin A 1 /srv cat_a, end A 1 0 /srv cat_a =>
  1 1 [cat a] then / /srv/ /srv/a
- repaired: begin A 1 /srv x, file /srv/b 5 5 two, end A 1 0 /srv x, begin A 2 /srv y, end A 2 0 \
  /srv y :: 1 => 1 cancelled, 2 kept, 2 1 [y] then / /srv/ /srv/a
- repaired: begin A 1 /srv x, file /srv/b 5 5 two, end A 1 0 /srv x, begin A 2 /srv tac_b, \
  file /srv/b 5 9 two, file /srv/c 9 9 two, end A 2 0 /srv tac_b :: 1 =>
  1 cancelled, 2 redone, 2 1 [tac b] /srv/c then / /srv/ /srv/a /srv/c
- repaired: begin A 1 /srv x, file /srv/b 5 5 two, end A 1 0 /srv x, begin A 2 /srv tac_a, \
  file /srv/c 9 9 two, end A 2 0 /srv tac_a :: 1 =>
  1 cancelled, 2 kept, 2 1 [tac a] /srv/c then / /srv/ /srv/a /srv/c
- repaired: begin A 1 /srv x, file /srv/b 5 5 two, end A 1 0 /srv x :: 1=rm a =>
  1 redone, 1 1 [rm a] /srv/a then / /srv/
- repaired: begin A 1 /srv x, file /srv/b 5 5 two, end A 1 0 /srv x :: 3 => no line 3
- repaired: begin A 1 /srv x, file /srv/b 5 5 two, end A 1 0 /srv x :: 0 => no line 0

account: dir /srv :: begin A 1 /srv x, file /srv/%(a*240)00 5 5 x, \
  file /srv/%(a*240)01 5 5 x, \
  file /srv/%(a*240)02 5 5 x, \
  file /srv/%(a*240)03 5 5 x, \
  file /srv/%(a*240)04 5 5 x, \
  file /srv/%(a*240)05 5 5 x, \
  file /srv/%(a*240)06 5 5 x, \
  file /srv/%(a*240)07 5 5 x, \
  file /srv/%(a*240)08 5 5 x, \
  file /srv/%(a*240)09 5 5 x, \
  file /srv/%(a*240)10 5 5 x, \
  file /srv/%(a*240)11 5 5 x, \
  file /srv/%(a*240)12 5 5 x, \
  file /srv/%(a*240)13 5 5 x, \
  file /srv/%(a*240)14 5 5 x, \
  file /srv/%(a*240)15 5 5 x, end A 1 0 /srv x, begin B 1 /srv y, \
  file /srv/b 6 6 x, end B 1 0 /srv y =>
  1 1 seen 1-3 at 0 [x] 2 2 seen 3-4 at 0 [y] /srv
repaired: dir /srv :: begin A 1 /srv x, file /srv/%(a*240)00 5 5 x, \
  file /srv/%(a*240)01 5 5 x, \
  file /srv/%(a*240)02 5 5 x, \
  file /srv/%(a*240)03 5 5 x, \
  file /srv/%(a*240)04 5 5 x, \
  file /srv/%(a*240)05 5 5 x, \
  file /srv/%(a*240)06 5 5 x, \
  file /srv/%(a*240)07 5 5 x, \
  file /srv/%(a*240)08 5 5 x, \
  file /srv/%(a*240)09 5 5 x, \
  file /srv/%(a*240)10 5 5 x, \
  file /srv/%(a*240)11 5 5 x, \
  file /srv/%(a*240)12 5 5 x, \
  file /srv/%(a*240)13 5 5 x, \
  file /srv/%(a*240)14 5 5 x, \
  file /srv/%(a*240)15 5 5 x, end A 1 0 /srv x, begin B 1 /srv y, \
  file /srv/b 6 6 x, end B 1 0 /srv y :: 1 =>
  1 cancelled, 2 kept, 2 2 [y] /srv/b then / /srv/ /srv/b
repaired: dir /srv :: begin A 1 /srv x, file /srv/%(a*240)00 5 5 x, \
  file /srv/%(a*240)01 5 5 x, \
  file /srv/%(a*240)02 5 5 x, \
  file /srv/%(a*240)03 5 5 x, \
  file /srv/%(a*240)04 5 5 x, \
  file /srv/%(a*240)05 5 5 x, \
  file /srv/%(a*240)06 5 5 x, \
  file /srv/%(a*240)07 5 5 x, \
  file /srv/%(a*240)08 5 5 x, \
  file /srv/%(a*240)09 5 5 x, \
  file /srv/%(a*240)10 5 5 x, \
  file /srv/%(a*240)11 5 5 x, \
  file /srv/%(a*240)12 5 5 x, \
  file /srv/%(a*240)13 5 5 x, \
  file /srv/%(a*240)14 5 5 x, \
  file /srv/%(a*240)15 5 5 x, end A 1 0 /srv x, begin B 1 /srv y, \
  file /srv/b 6 6 x, end B 1 0 /srv y :: 1=: =>
  1 redone, 2 kept, 1 1 [:] 2 2 [y] /srv/b then / /srv/ /srv/b
repaired: dir /srv :: begin A 1 /srv x, file /srv/%(a*240)00 5 5 x, \
  file /srv/%(a*240)01 5 5 x, \
  file /srv/%(a*240)02 5 5 x, \
  file /srv/%(a*240)03 5 5 x, \
  file /srv/%(a*240)04 5 5 x, \
  file /srv/%(a*240)05 5 5 x, \
  file /srv/%(a*240)06 5 5 x, \
  file /srv/%(a*240)07 5 5 x, \
  file /srv/%(a*240)08 5 5 x, \
  file /srv/%(a*240)09 5 5 x, \
  file /srv/%(a*240)10 5 5 x, \
  file /srv/%(a*240)11 5 5 x, \
  file /srv/%(a*240)12 5 5 x, \
  file /srv/%(a*240)13 5 5 x, \
  file /srv/%(a*240)14 5 5 x, \
  file /srv/%(a*240)15 5 5 x, end A 1 0 /srv x, begin B 1 /srv y, \
  file /srv/b 6 6 x, end B 1 0 /srv y :: 2 => \
  1 kept, 2 cancelled, 1 1 [x] /srv/%(a*240)00 /srv/%(a*240)01 /srv/%(a*240)02 /srv/%(a*240)03
  /srv/%(a*240)04 /srv/%(a*240)05 /srv/%(a*240)06 /srv/%(a*240)07 /srv/%(a*240)08
  /srv/%(a*240)09 /srv/%(a*240)10 /srv/%(a*240)11 /srv/%(a*240)12 /srv/%(a*240)13
  /srv/%(a*240)14 /srv/%(a*240)15 then / /srv/ \
  /srv/%(a*240)00 /srv/%(a*240)01 /srv/%(a*240)02 /srv/%(a*240)03 /srv/%(a*240)04
  /srv/%(a*240)05 /srv/%(a*240)06 /srv/%(a*240)07 /srv/%(a*240)08 /srv/%(a*240)09
  /srv/%(a*240)10 /srv/%(a*240)11 /srv/%(a*240)12 /srv/%(a*240)13 /srv/%(a*240)14 /srv/%(a*240)15
repaired: dir /srv :: begin A 1 /srv x, file /srv/%(a*240)00 5 5 x, \
  file /srv/%(a*240)01 5 5 x, \
  file /srv/%(a*240)02 5 5 x, \
  file /srv/%(a*240)03 5 5 x, \
  file /srv/%(a*240)04 5 5 x, \
  file /srv/%(a*240)05 5 5 x, \
  file /srv/%(a*240)06 5 5 x, \
  file /srv/%(a*240)07 5 5 x, \
  file /srv/%(a*240)08 5 5 x, \
  file /srv/%(a*240)09 5 5 x, \
  file /srv/%(a*240)10 5 5 x, \
  file /srv/%(a*240)11 5 5 x, \
  file /srv/%(a*240)12 5 5 x, \
  file /srv/%(a*240)13 5 5 x, \
  file /srv/%(a*240)14 5 5 x, \
  file /srv/%(a*240)15 5 5 x, end A 1 0 /srv x, begin B 1 /srv y, \
  file /srv/b 6 6 x, end B 1 0 /srv y :: 3 => no line 3
"#;
