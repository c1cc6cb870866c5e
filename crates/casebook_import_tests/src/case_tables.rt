//! Tables of cases and of their logs.

/// The documents of spools' cases.
pub const CASES: &str = r#"
case: dir /srv, file /srv/a 1 1 hi :: begin A 1 /srv x, file /srv/b 5 5 hi, end A 1 0 /srv x
  => {"case":1,"contents":["6869"],"first":"listing\t0\t3\ndir\t/srv\t755\t0\t0\t1\t8\t0\t0\t0\t0\t\
  0\t0\nfile\t/srv/a\t644\t0\t0\t1\t7\t1\t0\t1\t0\t1\t0\nbytes\t/srv/a\t8f434346648f6b96df89dda90\
  1c5176b10a6d83961dd3c1ac88b59b2dc327aa4\n","lines":"record\tbegin\tA\t5\t0\t/srv\t1\tshown\tx\n\
  file\t/srv/b\t644\t0\t0\t1\t7\t5\t0\t5\t0\t5\t0\nbytes\t/srv/b\t8f434346648f6b96df89dda901c5176\
  b10a6d83961dd3c1ac88b59b2dc327aa4\nrecord\tend\tA\t5\t0\t/srv\t1\t0\t0\tshown\tx\tsame\t\tsame\
  \t\n","unseen":""}
case: dir /srv, file /srv/a 1 1 ab, file /srv/b 1 1 hi :: none
  => {"case":1,"contents":["6869","6162"],"first":"listing\t0\t5\ndir\t/srv\t755\t0\t0\t1\t8\t0\t0\
  \t0\t0\t0\t0\nfile\t/srv/a\t644\t0\t0\t1\t7\t1\t0\t1\t0\t1\t0\nbytes\t/srv/a\tfb8e20fc2e4c3f248\
  c60c39bd652f3c1347298bb977b8b4d5903b85055620603\nfile\t/srv/b\t644\t0\t0\t1\t7\t1\t0\t1\t0\t1\t\
  0\nbytes\t/srv/b\t8f434346648f6b96df89dda901c5176b10a6d83961dd3c1ac88b59b2dc327aa4\n","lines":"","unseen":""}
case: dir /srv, lost /srv/a hi :: none => row 4 of the first look: its bytes are missing
case: dir /srv :: lost /srv/a hi, start A /srv - - =>
  row 2 of the observations: its bytes are missing
case: dir /srv :: lost /srv/a hi => \
  {"case":1,"contents":[],"first":"listing\t0\t1\ndir\t/srv\t755\t0\t0\t1\t8\t0\t0\t0\t0\t0\t0\n",\
  "lines":"file\t/srv/a\t644\t0\t0\t1\t7\t1\t0\t1\t0\t1\t0\nbytes\t/srv/a\t8f434346648f6b96df89dd\
  a901c5176b10a6d83961dd3c1ac88b59b2dc327aa4\n","unseen":""}
"#;

/// Documents that are cases, or aren't.
pub const READINGS: &str = r#"
read: {"case":1,"contents":[],"first":"listing\t0\t0\n","lines":"","unseen":""} => a case
read: {"lines":"","first":"listing\t0\t0\n","contents":["AB"],"case":1,"unseen":"/srv\n","more":null} => a case
read: {"case":1,"contents":[],"first":"listing\t0\t0\n","lines":"dir\t/srv\n","unseen":""} =>
  row 1 of the observations is damaged
read: {"case":1,"contents":[],"first":"listing\t0\t0\n","lines":"gone\t/a\ngone\t/b\nx\n","unseen":""} =>
  row 3 of the observations is damaged
read: {"case":1,"contents":[],"first":"listing\t0\t0\n","lines":"gone\t/a\nx","unseen":""} => a case
read: {"case":1,"contents":[],"first":"listing\t0\t1\n","lines":"","unseen":""} =>
  the first look can't be read
read: {"case":1,"contents":[],"first":"","lines":"","unseen":""} => the first look can't be read
read: {"case":1,"contents":["00","0"],"first":"","lines":"","unseen":""} =>
  content 2: not hexadecimal digits
read: {"case":1,"contents":[7],"first":"","lines":"","unseen":""} => content 1: not hexadecimal digits
read: {"case":2,"contents":[],"first":"listing\t0\t0\n","lines":"","unseen":""} => not a case
read: {"contents":[],"first":"listing\t0\t0\n","lines":"","unseen":""} => not a case
read: {"case":1,"contents":{},"first":"listing\t0\t0\n","lines":"","unseen":""} => not a case
read: {"case":1,"contents":[],"first":["listing\t0\t0"],"lines":"","unseen":""} => not a case
read: {"case":1,"contents":[],"first":"listing\t0\t0\n","unseen":""} => not a case
read: {"case":1,"contents":[],"first":"listing\t0\t0\n","lines":""} => not a case
read: {"case":1,"contents":[],"first":"listing\t0\t0\n","lines":"","unseen":[]} => not a case
read: {"case":1,"contents":[],"first":"listing\t0\t0\n","lines":"" => not a JSON value
read: {"case":1,"contents":["6869"],"first":"listing\t0\t2\nfile\t/a\t644\t0\t0\t2\t7\t1\t0\t1\t0\
  \t1\t0\nbytes\t/a\t8f434346648f6b96df89dda901c5176b10a6d83961dd3c1ac88b59b2dc327aa4\n","lines"\
  :"","unseen":""} => a case
read: {"case":1,"contents":["6868"],"first":"listing\t0\t2\nfile\t/a\t644\t0\t0\t2\t7\t1\t0\t1\t0\
  \t1\t0\nbytes\t/a\t8f434346648f6b96df89dda901c5176b10a6d83961dd3c1ac88b59b2dc327aa4\n","lines"\
  :"","unseen":""} => row 3 of the first look: its bytes are missing
"#;

/// The logs of cases.
pub const LOGS: &str = r#"
given: dir /srv, file /srv/a 1 1 one
- log: none => runs:
- log: begin A 1 /srv x, file /srv/a 5 5 two, end A 1 0 /srv x => runs: 1 1 [cp /.casebook/1/1 /srv/a]
- log: start A /srv - set_+o_posix, begin A 1 /srv cat_a, end A 1 0 /srv cat_a => runs: 1 1 [cat a]
- log: start A /srv - set_+o_posix, begin A 1 /srv rm_a, gone /srv/a, end A 1 0 /srv rm_a, \
  begin A 2 /srv x, end A 2 3 /srv x => runs: 1 1 [rm a] 2 1 [false]
- log: file /srv/a 5 5 two, start A /srv - - => runs: 1 0 [cp /.casebook/1/1 /srv/a]
- log: start A /srv - -, start B /srv - -, begin B 1 /srv y, dir /srv/d, end B 1 0 /tmp y =>
  runs: 1 2 [mkdir /srv/d; cd /tmp]
- log: begin A 1 /srv x, begin A 1 /srv x => contradiction 1
- log: begin A 1 /srv x, end A 1 0 /srv x, end A 1 0 /srv x => contradiction 2
- log: begin A 1 /srv x, file /none/a 5 5 two, end A 1 0 /srv x => line 1

log: file /srv/a 1 1 one, file /srv/a/b 1 1 one :: none => lawless
logged: {"case":1} => not a case
"#;
