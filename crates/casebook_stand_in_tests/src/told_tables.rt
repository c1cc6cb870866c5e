//! Tables of lines that were seen, one after the other, and of how they are told.

/// What is told of lines: the texts of each, and the queries of its needs.
pub const TOLD: &str = "
given: /tmp/ /srv/ /srv/a=old /srv/t=/tmp/x @/srv ?0

- told: =echo_-n_new_>_a ?0 /srv/a=new => modelled: [echo -n new > a] needs \
  /.casebook/shell/1;
- told: =echo_-n_new_>_a ?0 /srv/a=newer => observed: [cp /.casebook/1/1 /srv/a] needs /srv/a \
  /srv/echo /srv/-n /srv/new directory /.casebook/shell/1;
- told: x ?0 /srv/a=older => observed: [cat /.casebook/1/1 >> /srv/a] needs /srv/x directory \
  /.casebook/shell/1;
- told: x ?0 /srv/a=ol => observed: [cp /.casebook/1/1 /srv/a] needs /srv/a /srv/x directory \
  /.casebook/shell/1;
- told: x ?0 /srv/b=1 => observed: [cp /.casebook/1/1 /srv/b] needs /srv/x directory \
  /.casebook/shell/1;
- told: x ?3 </srv/t */srv => observed: [false] needs /srv/t /srv/ /srv/x /tmp/x directory \
  /.casebook/shell/1;
- told: $v ?0 => observed: [true] needs /srv/v $v directory /.casebook/shell/1;

- told: x ?0 /srv/b=q :: =cat_b_>_c ?0 /srv/c=q => observed: [cp /.casebook/1/1 /srv/b] needs \
  /srv/x directory /.casebook/shell/1;modelled: [cat b > c] needs /.casebook/shell/1;
- told: x ?0 @/tmp :: y ?0 /tmp/b=1 => observed: [cd /tmp] needs /srv/x directory \
  /.casebook/shell/1;observed: [cp /.casebook/2/1 /tmp/b] needs /tmp/y directory \
  /.casebook/shell/1;
- told: x ?3 :: =echo_$?_>_b ?0 /srv/b=3%(NL) => observed: [false] needs /srv/x directory \
  /.casebook/shell/1;observed: [cp /.casebook/2/1 /srv/b] needs /srv/echo /srv/? /srv /srv/b \
  /srv/ status directory /.casebook/shell/1;

- recorded: =echo_-n_1_>_b ?0 /srv/b=1 :: x ?0 w*5000 :: =true ?0 => \
  1 [echo -n 1 > b] /.casebook/shell/1;2 [w='%(n*4086)'] /srv/x;3 [w=$w'%(n*914)'] $w;\
  4 [true] /.casebook/shell/1;
- logged: =echo_-n_1_>_b ?0 /srv/b=1 :: x ?0 w*5000 :: =true ?0 => 1 [echo -n 1 > b] directory;\
  2 [w='%(n*4086)'];3 [w=$w'%(n*914)'] $w;4 [true];

- around: /srv/a :: x ?0 /srv/a=1 :: x ?0 /srv/a=2 => file 6f6c64, file 32
- around: /.casebook/2/1 :: x ?0 /srv/a=1 :: x ?0 /srv/a=2 => file 32, file 32
- around: /.casebook/1/1 :: x ?0 /srv/a=older => file 6572, file 6572
- around: /.casebook/1/2 :: x ?0 /srv/a=1 => missing, missing
- around: /.casebook :: =true ?0 => missing, missing
- around: 1 status :: x ?3 => 0, 1
- around: 1 status :: =test_1_2_3_4 ?2 => 0, 2
";

/// Lines that can't be told.
pub const REFUSED: &str = "
given: /srv/ /srv/a=old @/srv ?0

- told: true ?0 :: x ?0 /none/f=1 => 2: unexplained /none/f
- told: x ?0 @/none => 1: unexplained 1 cwd
- told: true ?0 :: x ?0 /srv/n%(NUL)=1 => 2: unwritten /srv/n%(NUL)
- told: x ?0 /srv/a/f=1 => 1: unexplained /srv/a/f

told: /none/f=1 @/ ?0 :: x ?0 => lawless
";
