//! The tables of rows; `retro_rows` says how they are written.
//!
//! A header gives more entries of the tree, and the lines: a session and a text each, with `;;`
//! between lines. The first field of a row below it has the edits: the numbers of cancelled lines,
//! and numbers with texts that replace those of their lines. The tree has `/etc/passwd`, `/h` and
//! `/tmp`. Session 1 is in `/h` and session 2 in `/tmp`. A header that begins with `{` is a log.

/// Incidents: which lines are met, which are redone, how many are executed, what is printed, what
/// is compensated, and what files hold.
pub const INCIDENTS: &str = r##"
given: %(EMPTY) :: 1 echo one >> /tmp/log;;2 echo two >> /tmp/log;;1 echo three >> /tmp/log;;\
  1 cat /tmp/log
- lines: 2 => met 3 4, redone 4
- executed: 2 => executed 4 place
- file: 2 :: /tmp/log => one%(NL)three%(NL)
- compensations: 2 => 4 [one%(NL)two%(NL)three%(NL)] [one%(NL)three%(NL)]

given: %(EMPTY) :: 1 echo x > f;;1 echo x > f;;1 cat f
- lines: 1 => met 2, redone
- executed: 1 => executed
- compensations: 1 => %(EMPTY)

given: %(EMPTY) :: 1 echo z > f;;1 echo a > f; cat f
- lines: 1 => met 2, redone
- file: 1 :: /h/f => a%(NL)

given: %(EMPTY) :: 1 cd /tmp;;1 echo hi > n;;2 cat /h/n;;1 cat n
- lines: 1 => met 2 3 4, redone 2 3 4
- file: 1 :: /h/n => hi%(NL)
- file: 1 :: /tmp/n => none
- compensations: 1 => 3 [cat: /h/n: No such file or directory%(NL)] [hi%(NL)]

given: %(EMPTY) :: 1 false;;1 if test $? = 0; then echo ok; else echo bad; fi
- lines: 1 => met 2, redone 2
- compensations: 1 => 2 [bad%(NL)] [ok%(NL)]

given: ,["/h/n","6e0a"] :: 2 echo eve:x:300:300:e:/tmp:/bin/sh >> /etc/passwd;;1 cat ~alice/n;;\
  1 cat /etc/passwd
- lines: 1 => met 2 3, redone 3
- outputs: 1 => 2 n%(NL)3
  root:x:0:0:r:/:/bin/sh%(NL)alice:x:100:100:a:/h:/bin/sh%(NL)mallory:x:200:200:m:/tmp:/bin/sh%(NL)

given: %(EMPTY) :: 2 echo bob:x:301:301:b:/tmp:/bin/sh >> /etc/passwd;;\
  2 echo bob:x:302:302:b:/tmp:/bin/sh >> /etc/passwd;;1 id -u bob
- lines: 1 => met 2 3, redone 3
- compensations: 1 => 3 [301%(NL)] [302%(NL)]

given: ,["/tmp/big","%(61*1048575)"] :: 1 echo -n a >> /tmp/big;;1 echo -n b >> /tmp/big
- lines: 1 => met 2, redone 2
- compensations: 1 => 2 [sh: /tmp/big: File too large%(NL)] []
- end: 1 :: /tmp/big => 1048576 98

given: %(EMPTY) :: 1 mkdir d;;2 echo x > /h/d/v;;1 mv d e;;1 rm -r e;;1 cat d/v
- lines: 2 => met 3 4, redone 3 4
- compensations: 2 => %(EMPTY)
- executed: 2 => executed 3 place 4 place

given: %(EMPTY) :: 2 echo p > /tmp/k;;1 cat /tmp/k > a;;1 cat a /tmp/k;;1 cat /tmp/k;;\
  1 grep -F p /tmp/k
- lines: 1 => met 2 3 4 5, redone 2 3 4 5
- executed: 1 => executed 2 place 3 place 4 place 5 place
- compensations: 1 => 2 [] [cat: /tmp/k: No such file or directory%(NL)]3 [p%(NL)p%(NL)]
  [cat: /tmp/k: No such file or directory%(NL)]4 [p%(NL)] [cat: /tmp/k: No such file or
  directory%(NL)]5 [p%(NL)] [grep: /tmp/k: No such file or directory%(NL)]

given: %(EMPTY) :: 1 false;;1 while :; do :; done
- lines: 1 => met 2, redone
- outputs: 1 => 2 sh: unsupported line%(NL)

given: %(EMPTY) :: 2 echo a > /tmp/a;;1 cd /tmp;;1 cat a
- lines: 2 => met 3, redone 3
- compensations: 2 => 3 [a%(NL)] [cat: a: No such file or directory%(NL)]
"##;

/// Repairs with replaced lines: also a line that is replaced by its own text, by one outside the
/// profile, by an empty one and by one that is too long.
pub const REPLACED: &str = r##"
given: %(EMPTY) :: 1 echo a > f;;1 cat f
- lines: 1=echo bb > f => met 1 2, redone 1 2
- compensations: 1=echo bb > f => 2 [a%(NL)] [bb%(NL)]
- file: 1=echo bb > f :: /h/f => bb%(NL)
- executed: 1=echo bb > f => executed 1 place 2 place
- alike: 1=echo bb > f => yes
- lines: 1=echo a > f => met 1, redone 1
- compensations: 1=echo a > f => %(EMPTY)
- executed: 1=echo a > f => executed 1 place
- lines: 1=( => met 1 2, redone 1 2
- compensations: 1=( => 1 [] [sh: unsupported line%(NL)]2 [a%(NL)]
  [cat: f: No such file or directory%(NL)]
- lines: 1= => met 1 2, redone 1 2
- compensations: 1= => 2 [a%(NL)] [cat: f: No such file or directory%(NL)]
- compensations: 1=%(x*4097) => 1 [] [sh: unsupported line%(NL)]2 [a%(NL)]
  [cat: f: No such file or directory%(NL)]
- outputs: 1=false, 2=echo $? => 2 1%(NL)
- lines: 1, 2=cat /etc/passwd => met 2, redone 2
- steps: 1=echo bb > f => 1 [] redone, 2 [/h/f file 62620a] redone, end [/h/f file 62620a]
- steps: 1=echo a > f => 1 [] redone, 2 [] unmet, end []
- steps: 1, 1=x => refused 26, line 1
- stops: 1=echo a > f => 1 after 0, end after 2
- stops: 2=cat f => 2 after 1, end after 2
- stops until: 2=cat f :: 1 :: 2 => lines 2
- stops until: 2=cat f :: 1 :: 1 => lines
- lent: 2=cat f :: 2 :: /h/f => [] 2 lines, written by 1, replaced
- guessed: 2=cat f f :: 1 :: 2 => fits: a%(NL)a%(NL)
- rounds: 1=echo bb > f :: 0 1 3 16 :: 64 => 1 jobs: 1 taken up, 0 unused, 0 wrong, 0 given up,
  executed 1 guess 2 place
- rounds: 1=echo bb > f :: 0 1 3 16 :: 1 => 2 jobs: 2 taken up, 0 unused, 0 wrong, 0 given up,
  executed 1 guess 2 guess
- rounds: 1=echo a > f :: 0 1 3 16 :: 64 => 1 jobs: 1 taken up, 0 unused, 0 wrong, 0 given up,
  executed 1 guess
- rounds: 1=echo bb > f, 2=cat f :: 0 1 3 16 :: 64 => 2 jobs: 1 taken up, 0 unused, 1 wrong, 0 given
  up, executed 1 guess 2 guess 2 place
- rounds: 9=x, 2, 1, 2=x, 1=y :: 16 :: 64 => refused 26, line 1
- rounds: 1=x, 1=x, 9=x :: 16 :: 64 => refused 21, line 9
- rounds: 9=x, 1, 1=x :: 16 :: 0 => refused 22
- rounds: 9=x, 1, 1=x :: 17 :: 0 => refused 23

given: %(EMPTY) :: 2 echo a > /tmp/k;;2 cd /h;;1 cat /tmp/k
- lines: 1=echo b > /tmp/k, 2 => met 1 3, redone 1 3
- compensations: 1=echo b > /tmp/k, 2 => 3 [a%(NL)] [b%(NL)]

given: %(EMPTY) :: 1 cd /tmp;;1 echo hi > n;;2 cat /h/n;;1 cat n
- lines: 1=cd / => met 1 2 4, redone 1 2 4
- compensations: 1=cd / => %(EMPTY)
- file: 1=cd / :: /n => hi%(NL)
- file: 1=cd / :: /tmp/n => none

given: %(EMPTY) :: 1 echo one >> /tmp/log;;2 echo two >> /tmp/log;;1 echo three >> /tmp/log;;\
  1 cat /tmp/log;;2 echo four >> /tmp/log;;1 cat /tmp/log
- outputs: 2=echo zwei >> /tmp/log then 5 => 4 one%(NL)zwei%(NL)three%(NL)6
  one%(NL)zwei%(NL)three%(NL)
- outputs: 5 then 2=echo zwei >> /tmp/log => 4 one%(NL)zwei%(NL)three%(NL)6
  one%(NL)zwei%(NL)three%(NL)
- outputs: 2=echo zwei >> /tmp/log, 5 => 4 one%(NL)zwei%(NL)three%(NL)6
  one%(NL)zwei%(NL)three%(NL)
- lines: 2=echo zwei >> /tmp/log, 5 => met 2 3 4 6, redone 2 4 6
- file: 2=echo zwei >> /tmp/log then 5 :: /tmp/log => one%(NL)zwei%(NL)three%(NL)
- file: 2=echo zwei >> /tmp/log, 5 :: /tmp/log => one%(NL)zwei%(NL)three%(NL)
"##;

/// Two repairs in turn, and one of both lists.
pub const IN_TURN: &str = r##"
given: %(EMPTY) :: 1 echo one >> /tmp/log;;2 echo two >> /tmp/log;;1 echo three >> /tmp/log;;\
  1 cat /tmp/log;;2 echo four >> /tmp/log;;1 cat /tmp/log
- outputs: 2 then 5 => 4 one%(NL)three%(NL)6 one%(NL)three%(NL)
- file: 2 then 5 :: /tmp/log => one%(NL)three%(NL)
- outputs: 2 5 => 4 one%(NL)three%(NL)6 one%(NL)three%(NL)
- file: 2 5 :: /tmp/log => one%(NL)three%(NL)
- outputs: 5 2 => 4 one%(NL)three%(NL)6 one%(NL)three%(NL)
- file: 5 2 :: /tmp/log => one%(NL)three%(NL)
- compensations: 2 then 5 => 6 [one%(NL)three%(NL)four%(NL)] [one%(NL)three%(NL)]
- compensations: 2 5 => 4 [one%(NL)two%(NL)three%(NL)] [one%(NL)three%(NL)]6
  [one%(NL)two%(NL)three%(NL)four%(NL)] [one%(NL)three%(NL)]
- lines: 2 then 5 => met 6, redone 6
- lines: 2 5 => met 3 4 6, redone 4 6

given: %(EMPTY) :: 1 echo a > f;;1 cat f
- lines: 1 2 => met, redone
- compensations: 1 2 => 2 [a%(NL)] []
"##;

/// Repairs step by step: the overlay before each line, what becomes of the line, where skips stop,
/// and the least of the numbers that no line has.
pub const STEPS: &str = r##"
given: %(EMPTY) :: 1 echo one >> /tmp/log;;2 echo two >> /tmp/log;;1 echo three >> /tmp/log;;\
  1 cat /tmp/log
- steps: 2 => 1 [] unmet, 2 [] cancelled, 3 [/tmp/log file 6f6e650a] met, 4 [/tmp/log file
  6f6e650a74687265650a] redone, end [/tmp/log file 6f6e650a74687265650a]
- stops: 2 => 2 after 1, 3 after 2, 4 after 3, end after 4
- stops: 4 2 => 2 after 1, 3 after 2, 4 after 3, end after 4
- steps: 9 2 7 => refused 21, line 7
- steps: 5 => refused 21, line 5
- steps: 0 4 => refused 21, line 0

given: %(EMPTY) :: 1 echo x > f;;1 echo x > f;;1 cat f
- steps: 1 => 1 [] cancelled, 2 [/h/f missing] met, 3 [] unmet, end []
- steps: 1 1 => 1 [] cancelled, 2 [/h/f missing] met, 3 [] unmet, end []
- stops: 1 => 1 after 0, 2 after 1, end after 3

given: %(EMPTY) :: 1 cd /tmp;;1 echo hi > n;;2 cat /h/n;;1 cat n
- steps: 1 => 1 [] cancelled, 2 [1 cwd /h] redone, 3 [/h/n file 68690a; /tmp/n missing; 1 cwd /h]
  redone, 4 [/h/n file 68690a; /tmp/n missing; 1 cwd /h; 2 status 0] redone, end [/h/n file 68690a;
  /tmp/n missing; 1 cwd /h; 2 status 0]

given: %(EMPTY) :: 1 false;;1 if test $? = 0; then echo ok; else echo bad; fi
- steps: 1 => 1 [] cancelled, 2 [1 status 0] redone, end []

given: %(EMPTY) :: 1 mkdir d;;2 echo x > /h/d/v;;1 mv d e;;1 rm -r e;;1 cat d/v
- stops: 2 => 2 after 1, 3 after 2, 4 after 3, end after 5

given: %(EMPTY) :: 1 x=a;;1 echo $x
- steps: 1 => 1 [] cancelled, 2 [1 x unset] redone, end [1 x unset]
"##;

/// What is lent for guesses, which lines may be worth one, and whether a guess fits at its turn.
pub const GROUNDS: &str = r##"
given: %(EMPTY) :: 2 echo p > /tmp/k;;1 cat /tmp/k > a;;1 cat a /tmp/k;;1 cat /tmp/k;;\
  1 grep -F p /tmp/k
- lent: 1 :: 1 :: /h/a => [] 5 lines, written by 2, cancelled
- lent: 1 :: 2 :: /tmp/k => [/tmp/k missing] 5 lines, written by 1
- shown: 1 :: 2 :: 3 :: /tmp/k => missing with
- shown: 1 :: 2 :: 3 :: /tmp => dir with
- shown: 1 :: 1 :: 3 :: /tmp => dir with k
- shown: 1 :: 2 :: 3 :: /h/a => file 700a with
- shown: 1 :: 3 :: 3 :: /h/a => file  with
- stops until: 1 :: 1 :: 5 => lines 1
- stops until: 1 :: 2 :: 5 => lines 2 3 4 5
- stops until: 1 :: 2 :: 3 => lines 2 3
- stops until: 1 :: 3 :: 2 => lines
- guessed: 1 :: 2 :: 2 => fits: cat: /tmp/k: No such file or directory%(NL)
- guessed: 1 :: 2 :: 3 => no fit: p%(NL)cat: /tmp/k: No such file or directory%(NL)
- guessed: 1 :: 2 :: 4 => fits: cat: /tmp/k: No such file or directory%(NL)
- guessed: 1 :: 2 :: 5 => fits: grep: /tmp/k: No such file or directory%(NL)
- guessed: 1 :: 1 :: 2 => no fit: %(EMPTY)

given: %(EMPTY) :: 1 echo one >> /tmp/log;;2 echo two >> /tmp/log;;1 echo three >> /tmp/log;;\
  1 cat /tmp/log
- stops until: 2 :: 3 :: 4 => lines 3 4
- stops until: 2 :: 3 :: 3 => lines 3
- guessed: 2 :: 3 :: 4 => no fit: one%(NL)
- guessed: 2 :: 4 :: 4 => fits: one%(NL)three%(NL)

given: %(EMPTY) :: 1 echo x > f;;1 echo x > f;;1 cat f
- stops until: 1 :: 2 :: 3 => lines 2 3
- stops until: 1 :: 3 :: 3 => lines
- shown: 1 :: 2 :: 3 :: /h/f => missing with
- guessed: 1 :: 2 :: 3 => no fit: cat: f: No such file or directory%(NL)
- guessed: 1 :: 3 :: 3 => fits: x%(NL)
"##;

/// Repairs in rounds: the edits, numbers of workers, and the numbers of lines of the pieces.
pub const ROUNDS: &str = r##"
given: %(EMPTY) :: 2 echo p > /tmp/k;;1 cat /tmp/k > a;;1 cat a /tmp/k;;1 cat /tmp/k;;\
  1 grep -F p /tmp/k
- rounds: 1 :: 0 1 3 16 :: 1 4 => 4 jobs: 3 taken up, 0 unused, 1 wrong, 0 given up, executed 2
  guess 3 guess 4 guess 5 guess 3 place
- rounds: 1 :: 0 1 3 16 :: 1 => 4 jobs: 4 taken up, 0 unused, 0 wrong, 0 given up, executed 2 guess
  3 guess 4 guess 5 guess
- rounds: 1 :: 0 1 3 16 :: 2 => 3 jobs: 3 taken up, 0 unused, 0 wrong, 0 given up, executed 3 guess
  4 guess 5 guess 2 place
- rounds: 1 :: 0 1 3 16 :: 64 => 0 jobs: 0 taken up, 0 unused, 0 wrong, 0 given up, executed 2 place
  3 place 4 place 5 place
- rounds: 1 :: 16 :: 4294967295 4294967295 => 0 jobs: 0 taken up, 0 unused, 0 wrong, 0 given up,
  executed 2 place 3 place 4 place 5 place
- alike: 1 => yes
- rounds: 9 :: 17 :: 0 => refused 23
- rounds: 9 :: 16 :: 0 => refused 22
- rounds: 9 :: 16 :: 64 0 1 => refused 22
- rounds: 9 :: 16 :: %(EMPTY) => refused 22
- rounds: 9 7 :: 16 :: 64 => refused 21, line 7

given: %(EMPTY) :: 1 echo one >> /tmp/log;;2 echo two >> /tmp/log;;1 echo three >> /tmp/log;;\
  1 cat /tmp/log
- rounds: 2 :: 0 3 :: 64 => 0 jobs: 0 taken up, 0 unused, 0 wrong, 0 given up, executed 4 place
- rounds: 2 :: 0 3 :: 2 => 1 jobs: 0 taken up, 0 unused, 1 wrong, 0 given up, executed 4 guess 4
  place

given: %(EMPTY) :: 1 echo x > f;;1 echo x > f;;1 cat f
- rounds: 1 :: 0 1 3 16 :: 64 => 0 jobs: 0 taken up, 0 unused, 0 wrong, 0 given up, executed
- rounds: 1 :: 0 1 3 16 :: 1 2 => 1 jobs: 0 taken up, 1 unused, 0 wrong, 0 given up, executed 3
  guess
- rounds: 1 :: 0 1 3 16 :: 1 => 0 jobs: 0 taken up, 0 unused, 0 wrong, 0 given up, executed
- alike: 1 => yes

given: %(EMPTY) :: 1 false;;1 if test $? = 0; then echo ok; else echo bad; fi
- rounds: 1 :: 0 16 :: 1 => 1 jobs: 1 taken up, 0 unused, 0 wrong, 0 given up, executed 2 guess

given: %(EMPTY) :: 2 echo p > /tmp/k%(;;1 cat /tmp/k*999)
- rounds: 1 :: 3 :: 64 => 936 jobs: 936 taken up, 0 unused, 0 wrong, 0 given up, executed 2 place 3
  place 4 place 5 place 6 place 7 place 8 place 9 place
"##;

/// A recording that begins at line 2: which edits are refused, and at which number the repaired
/// recording begins.
pub const LATER: &str = r##"
given: {"from":2,"lines":[[2,1,"cat f",[["cwd","/"],["bytes","/f",["f","610a"]],\
  ["setstatus",0]],"610a"]],"log":2,"sessions":[[1,"/",0,[]]],"tree":[["/f","610a"]]}
- rounds: 1 :: 0 1 3 16 :: 64 => refused 25, line 1
- rounds: 3 :: 0 1 3 16 :: 64 => refused 21, line 3
- rounds: 0 :: 0 1 3 16 :: 64 => refused 21, line 0
- rounds: 1=x :: 0 1 3 16 :: 64 => refused 25, line 1
- rounds: 0 1 :: 0 1 3 16 :: 64 => refused 25, line 1
- rounds: 3, 1=x, 1 :: 0 1 3 16 :: 64 => refused 26, line 1
- rounds: 1 :: 16 :: 0 => refused 22
- rounds: 1 :: 17 :: 0 => refused 23
- executed: 1 => refused 25, line 1
- executed: 3 => refused 21, line 3
- executed: 0 => refused 21, line 0
- steps: 3, 1=x => refused 25, line 1
- steps: 1, 1=x => refused 26, line 1
- begins: %(EMPTY) => 2
- lines: %(EMPTY) => met, redone
- outputs: %(EMPTY) => 2 a%(NL)
- rounds: %(EMPTY) :: 0 1 3 16 :: 64 => 0 jobs: 0 taken up, 0 unused, 0 wrong, 0 given up, executed
- begins: 2=cat g => 2
- lines: 2=cat g => met 2, redone 2
- compensations: 2=cat g => 2 [a%(NL)] [cat: g: No such file or directory%(NL)]
- executed: 2=cat g => executed 2 place
- begins: 2 => 2
- compensations: 2 => 2 [a%(NL)] []
- executed: 2 then 1 => refused 25, line 1
- executed: 2=cat g then 2=cat f => executed 2 place
- outputs: 2=cat g then 2=cat f => 2 a%(NL)
"##;
