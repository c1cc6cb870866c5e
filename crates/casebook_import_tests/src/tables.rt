//! Tables of little spools, and of what is imported.

/// What paths hold.
pub const NODES: &str = r#"
given: dir /srv, file /srv/a 1 1 one, link /srv/l a, large /srv/big 1, lost /srv/lost text
- first: none :: /srv => dir
- first: none :: / => dir
- first: none :: /srv/a => file 6f6e65
- first: none :: /srv/l => file \
  6e6f74206b6570742062792063617365626f6f6b3a2061206c696e6b0961
- first: none :: /srv/big => file \
  6e6f74206b6570742062792063617365626f6f6b3a20612066696c65207468617420697320746f6f206c61\
  7267650932303030303030093909310930
- first: none :: /srv/lost => file \
  6e6f74206b6570742062792063617365626f6f6b3a206279746573207468617420617265206d697373696e\
  67093938326439653365623939366635353965363333663464313934646566333736316439303966356133\
  6236343764316138353166656164363763333263396431
- first: none :: /srv/none => missing
- first: none :: /.casebook/elsewhere => dir
- after: begin A 1 /srv x, file /srv/a 5 5 two, file /srv/d 5 5 -, end A 1 0 /srv x :: /srv/a
  => file 74776f
- after: begin A 1 /srv x, file /srv/d 5 5 -, end A 1 0 /srv x :: /srv/d => file 
- after: begin A 1 /srv x, gone /srv/a, end A 1 0 /srv x :: /srv/a => missing
- after: begin A 1 /srv x, gone /srv/l, dir /srv/l, end A 1 0 /srv x :: /srv/l => dir
- after: begin A 1 /srv x, large /srv/big 5, end A 1 0 /srv x :: /srv/big => file \
  6e6f74206b6570742062792063617365626f6f6b3a20612066696c65207468617420697320746f6f206c61\
  7267650932303030303030093909350930
- after: file /srv/a 5 5 two, start A /srv - - :: /srv/a => file 74776f
"#;

/// What sessions have.
pub const SESSIONS: &str = r#"
given: dir /srv, dir /srv/d, link /srv/l d
- first: start A /srv x=1;y=2 set_+o_noclobber :: 1 x => text 1
- first: start A /srv x=1;y=2 set_+o_noclobber :: 1 cwd => /srv
- first: start A /srv x=1 set_+o_noclobber :: 1 z => unset
- first: start A /srv x=1 set_+o_noclobber :: /.casebook/shell/1 => file 736574202b6f206e6f636c6f62626572
- first: start A /srv x=1 - :: /.casebook/shell/1 => missing
- first: start A /home/ann - - :: /home/ann => dir
- first: start A /srv/later - - :: /srv/later => missing
- first: start A /srv/later - - :: 1 cwd => /srv/later
- first: start A /srv - -, start B /srv/d - - :: 2 cwd => /srv/d
- first: begin A 1 /srv x, end A 1 0 /tmp x :: /tmp => dir
- after: begin A 1 /srv x, end A 1 3 /srv x :: 1 status => 3
- after: begin A 1 /srv x, end A 1 0 /srv/d x :: 1 cwd => /srv/d
- after: begin A 1 /srv x, end A 1 0 /srv/l x :: 1 cwd => /.casebook/elsewhere
- after: begin A 1 /srv x, gone /srv/d, end A 1 0 /srv/d x :: 1 cwd => /.casebook/elsewhere
- after: begin A 1 /srv x, dir /srv/e, end A 1 0 /srv/e x :: 1 cwd => /srv/e
- after: start A /srv x=1;y=2 -, begin A 1 /srv x, ends A 1 0 /srv x x=3 - :: 1 x => text 3
- after: start A /srv x=1;y=2 -, begin A 1 /srv x, ends A 1 0 /srv x x=3 - :: 1 y => text 
- after: start A /srv x=1;y=2 -, begin A 1 /srv x, end A 1 0 /srv x :: 1 y => text 2
- after: start A /srv x=1 -, begin A 1 /srv x, ends A 1 0 /srv x PWD=/srv - :: 1 x => text 
- after: start A /srv - set_+o_posix, begin A 1 /srv x, ends A 1 0 /srv x - set_-o_posix
  :: /.casebook/shell/1 => file 736574202d6f20706f736978
- after: begin A 1 /srv x, dir /srv/e, begin B 1 /srv y, end B 1 0 /srv y :: 1 status => 0
"#;

/// Which lines have the text that was typed.
pub const LINES: &str = r#"
given: dir /srv, file /srv/a 1 1 one, link /srv/l a
- told: start A /srv - set_+o_posix, begin A 1 /srv cat_a, end A 1 0 /srv cat_a => modelled
- told: start A /srv - set_+o_posix, begin A 1 /srv cat_a, file /srv/a 1 9 one, end A 1 0 /srv cat_a
  => modelled
- told: start A /srv - -, begin A 1 /srv cat_a, end A 1 0 /srv cat_a => observed
- told: start A /srv - set_-o_posix, begin A 1 /srv cat_a, end A 1 0 /srv cat_a => observed
- told: start A /srv - alias_cat='tac', begin A 1 /srv cat_a, end A 1 0 /srv cat_a => observed
- told: start A /srv - set_+o_posix, begin A 1 /srv cat_a, end A 1 1 /srv cat_a => observed
- told: start A /srv - set_+o_posix, begin A 1 /srv cat_l, end A 1 0 /srv cat_l => observed
- told: start A /srv - set_+o_posix, begin A 1 /srv cat_l/x, end A 1 1 /srv cat_l/x => observed
- told: start A /srv - set_+o_posix, begin A 1 /srv cat_b, end A 1 1 /srv cat_b => modelled
- told: start A /srv - set_+o_posix, begin A 1 /srv rm_a, gone /srv/a, end A 1 0 /srv rm_a
  => modelled
- told: start A /srv - set_+o_posix, begin A 1 /srv rm_a, end A 1 0 /srv rm_a => observed
- told: start A /srv - set_+o_posix, begin A 1 /srv tac_a, end A 1 0 /srv tac_a => observed
- told: start A /srv - set_+o_posix, begin A 1 /srv cd_/tmp, end A 1 0 /tmp cd_/tmp => modelled
- told: start A /srv - set_+o_posix, begin A 1 /srv cd_l, end A 1 0 /srv/l cd_l => observed
- told: start A /srv x=1 set_+o_posix, begin A 1 /srv x=2, ends A 1 0 /srv x=2 x=2 - => modelled
- told: start A /srv x=1 set_+o_posix, begin A 1 /srv x=2, end A 1 0 /srv x=2 => observed
- told: start A /srv x=1 set_+o_posix, begin A 1 /srv echo_"a_$x", end A 1 0 /srv echo_"a_$x"
  => modelled
- told: start A /srv x=1 set_+o_posix, begin A 1 /srv echo_"a_$y", end A 1 0 /srv echo_"a_$y"
  => observed
- told: start A /srv - set_+o_posix, begin A 1 /srv cat_a, begin B 1 /srv x, end B 1 0 /srv x
  => observed observed
- told: file /srv/a 5 5 two, start A /srv - set_+o_posix, begin A 1 /srv cat_a,
  end A 1 0 /srv cat_a => observed modelled
"#;
