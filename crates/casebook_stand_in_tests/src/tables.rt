//! Tables of effects, and of what explains them.

/// The texts that explain effects.
pub const EXPLAINED: &str = "
given: /tmp/ /srv/ /srv/a=old /srv/d/ /srv/d/x=1 /srv/d/y/ @/srv ?0 v=one

- explain: echo_-n_new_>_a :: /srv/a=new => modelled: echo -n new > a
- explain: echo_-n_new_>_a :: /srv/a=newer => stand-in: cp /.casebook/7/1 /srv/a
- explain: true :: ?0 => modelled: true
- explain: true :: ?1 => stand-in: false
- explain: test_1_2_3_4 :: ?2 => modelled: test 1 2 3 4
- explain: none :: ?2 => stand-in: false
- explain: none :: ?3 => stand-in: false
- explain: none :: ?0 => stand-in: true
- explain: none :: ?127 /srv/n=1 => stand-in: cp /.casebook/7/1 /srv/n; false

- explain: none :: /srv/n=new => stand-in: cp /.casebook/7/1 /srv/n
- explain: none :: /srv/n= => stand-in: cp /.casebook/7/1 /srv/n
- explain: none :: /srv/a=new => stand-in: cp /.casebook/7/1 /srv/a
- explain: none :: /srv/a=older => stand-in: cat /.casebook/7/1 >> /srv/a
- explain: none :: /srv/a=ol => stand-in: cp /.casebook/7/1 /srv/a
- explain: none :: /srv/a=old => stand-in: true
- explain: none :: /srv/a! => stand-in: rm /srv/a
- explain: none :: /srv/none! => stand-in: true
- explain: none :: /srv/d! /srv/d/x! /srv/d/y! => stand-in: rm -r /srv/d
- explain: none :: /srv/d/y! /srv/d/x=2 /tmp/x=1 => stand-in:
  cp /.casebook/7/1 /srv/d/x; rm -r /srv/d/y; cp /.casebook/7/2 /tmp/x
- explain: none :: /srv/n/m/ /srv/n/f=1 /srv/n/ => stand-in:
  mkdir /srv/n; cp /.casebook/7/1 /srv/n/f; mkdir /srv/n/m
- explain: none :: /srv/a/ /srv/a/f=1 => stand-in:
  rm /srv/a; mkdir /srv/a; cp /.casebook/7/1 /srv/a/f
- explain: none :: /srv/d=1 /srv/d/x! /srv/d/y! => stand-in:
  rm -r /srv/d; cp /.casebook/7/1 /srv/d

- explain: none :: @/tmp => stand-in: cd /tmp
- explain: none :: @/ => stand-in: cd /
- explain: none :: @/srv => stand-in: true
- explain: none :: @/srv/n /srv/n/ => stand-in: mkdir /srv/n; cd /srv/n
- explain: none :: @/srv/d /srv/d! /srv/d/x! /srv/d/y! => stand-in: cd /srv/d; rm -r /srv/d
- explain: none :: w=it's%(NL)_\"$v\" v=two => stand-in: v='two'; w='it'\\''s%(NL) \"$v\"'
- explain: none :: v=one => stand-in: true
- explain: none :: w= => stand-in: w=''

- explain: none :: /srv/-r=1 => stand-in: cp /.casebook/7/1 /srv/-r
- explain: none :: /srv/a_b=1 => stand-in: cp /.casebook/7/1 '/srv/a b'
- explain: none :: /srv/it's=1 => stand-in: cp /.casebook/7/1 '/srv/it'\\''s'
- explain: none :: /srv/$v%(NL)=older => stand-in: cp /.casebook/7/1 '/srv/$v%(NL)'
- explain: none :: /srv/~=1 => stand-in: cp /.casebook/7/1 '/srv/~'

- explain: none :: /srv/d! => unexplained: /srv/d/x
- explain: none :: /srv/none/f=1 => unexplained: /srv/none/f
- explain: none :: /srv/a/f=1 => unexplained: /srv/a/f
- explain: none :: @/none => unexplained: 1 cwd
- explain: none :: /srv/n%(NUL)=1 => unwritten: /srv/n%(NUL)
- explain: none :: w=%(NUL) => unwritten: 1 w
- explain: none :: w*5000 => stand-in: w='%(n*4086)' | w=$w'%(n*914)'
";

/// What is on the shelves of effects, and the values of cells once effects are made.
pub const SHELVES: &str = "
given: /srv/ /srv/a=old /srv/e= /srv/d/ /srv/d/x=1 @/srv ?0 v=one
- shelf: /srv/a=new => [new]
- shelf: /srv/a=older => [er]
- shelf: /srv/a=ol => [ol]
- shelf: /srv/a=old => %(EMPTY)
- shelf: /srv/a=ald => [ald]
- shelf: /srv/e=x => [x]
- shelf: /srv/e= => %(EMPTY)
- shelf: /srv/n= => []
- shelf: /srv/d=1 /srv/d/x! => [1]
- shelf: /srv/z=2 /srv/n/ /srv/n/b=3 /srv/b=1 @/ v=two ?1 => [1][3][2]
- made: /srv/a=new :: /srv/a => file 6e6577
- made: /srv/a! :: /srv/a => missing
- made: /srv/a=1 /srv/a=2 :: /srv/a => file 32
- made: @/ v=two ?3 :: 1 cwd => /
- made: @/ v=two ?3 :: 1 v => text two
- made: @/ v=two ?3 :: 1 status => 3
- made: ?3 :: 1 v => text one
- made: ?3 :: /srv/d/x => file 31
";
