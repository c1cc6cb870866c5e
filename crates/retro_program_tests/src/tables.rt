//! The tables of rows; `retro_rows` says how they are written.

/// Lines of session 1 in `/h`, beside whose directory `d` a row may list more of the tree: the
/// status and the output of the last line.
pub const SHELL: &str = r##"
given: %(EMPTY)
- shell: echo a > f; echo b >> f; cat f f => 0 a%(NL)b%(NL)a%(NL)b%(NL)
- shell: cat d => 1 cat: d: Is a directory%(NL)
- shell: echo x > d => 1 sh: d: Is a directory%(NL)
- shell: echo x > n/m => 1 sh: n/m: No such file or directory%(NL)
- shell: nosuch => 127 sh: nosuch: not found%(NL)
- shell: ; => 2 sh: unsupported line%(NL)
- shell: nosuch :: %(EMPTY) => 127 %(EMPTY)
- shell: nosuch :: # a => 127 %(EMPTY)
- shell: echo -n x  y >> f; cat -u -- f - f => 0 x yx y
- shell: cat -x f => 2 cat: usage%(NL)
- shell: nosuch > f; cat f => 0 sh: nosuch: not found%(NL)
- shell: echo -- -n => 0 -- -n%(NL)
- shell: cat /dev/null ../dev/null => 0 %(EMPTY)
- shell: echo a | cat => 0 a%(NL)
- shell: cat none > f; cat f => 0 cat: none: No such file or directory%(NL)
- shell: cat %(n*256) => 1 cat: %(n*256): File name too long%(NL)
- shell: echo x > f > d; cat f => 0 sh: d: Is a directory%(NL)
- shell: id -u alice => 0 100%(NL)
- shell: id -u bob => 1 id: bob: no such user%(NL)
- shell: test -n => 0 %(EMPTY)
- shell: [ a = b => 2 [: usage%(NL)
- shell: [ -d d ] => 0 %(EMPTY)
- shell: test -e none => 1 %(EMPTY)
- shell: false x => 1 %(EMPTY)
- shell: false; true => 0 %(EMPTY)
- shell: rm none => 1 rm: none: No such file or directory%(NL)
- shell: rm -f none => 0 %(EMPTY)
- shell: rm -f => 0 %(EMPTY)
- shell: rm => 2 rm: usage%(NL)
- shell: rm -r / => 1 rm: /: Operation not permitted%(NL)
- shell: rm d; rm -r d; test -e d => 1 rm: d: Is a directory%(NL)
- shell: mkdir n/e => 1 mkdir: n/e: No such file or directory%(NL)
- shell: mkdir -p a/b/c; cd a/b/c; pwd => 0 /h/a/b/c%(NL)
- shell: mkdir d/e; echo x > d/e/f; mv d g; cat g/e/f d/e/f
  => 1 x%(NL)cat: d/e/f: No such file or directory%(NL)
- shell: cd d :: pwd => 0 /h/d%(NL)
- shell: cd d; echo x > f :: cat ../d/f; cd; cat d/f => 0 x%(NL)x%(NL)
- shell: cd d > o; cat o => 1 cat: o: No such file or directory%(NL)
- shell: cd none :: pwd => 0 /h%(NL)
- shell: cd none => 1 cd: none: No such file or directory%(NL)
- shell: tee a d < b => 1 sh: b: No such file or directory%(NL)
- shell: tee a d => 1 tee: d: Is a directory%(NL)
- shell: false :: if test $? = 0; then echo ok; else echo bad; fi => 0 bad%(NL)
- shell: if test $? = 0; then echo ok; else echo bad; fi => 0 ok%(NL)
- shell: false :: while :; do :; done => 2 sh: unsupported line%(NL)
- shell: x="a  b" :: echo "$x" $x '$x' \$x => 0 a  b a b $x $x%(NL)
- shell: x="a  b" :: for i in $x; do echo "<$i>"; done => 0 <a>%(NL)<b>%(NL)
- shell: cd /tmp | cat; pwd => 0 /h%(NL)
- shell: ! false && echo y || echo n => 0 y%(NL)
- shell: nosuch; echo $? => 0 sh: nosuch: not found%(NL)127%(NL)
- shell: cat < none; echo $? => 0 sh: none: No such file or directory%(NL)1%(NL)
- shell: echo "a'b"'c"d'\ e => 0 a'bc"d e%(NL)
- shell: x=; echo $x "" end => 0  end%(NL)
- shell: echo ~ "~" ~/x ~nobody ~mallory/q a#b => 0 /h ~ /h/x ~nobody /tmp/q a#b%(NL)
- shell: if false; then echo a; elif true; then echo b; else echo c; fi; echo $? => 0 b%(NL)0%(NL)
- shell: for i in; do echo x; done; echo $? => 0 0%(NL)
- shell: echo a > f | cat; cat f => 0 a%(NL)
- shell: echo hi >f>g; cat f; cat g => 0 hi%(NL)
- shell: echo a & => 2 sh: unsupported line%(NL)
- shell: echo a & :: %(#*4096) => 2 %(EMPTY)
- shell: %(#*4096) => 0 %(EMPTY)
- shell: %(#*4097) => 2 sh: unsupported line%(NL)
- shell: echo a & :: %(if *32):%(; then :; fi*32) => 0 %(EMPTY)
- shell: %(if *33):%(; then :; fi*33) => 2 sh: unsupported line%(NL)
- shell: false :: echo $? $?; echo $? => 0 1 1%(NL)0%(NL)
- shell: x=1 y=$x :: for x in $x 2; do echo $x$y; done :: echo $x => 0 2%(NL)
- shell: cat f :: echo b | tee f | cat :: cat f f | cut -b 1 > g :: cat < g => 0 b%(NL)b%(NL)

given: ,["/h/f","61"]
- shell: > f => 0 %(EMPTY)
- shell: > f :: cat f => 0 %(EMPTY)
- shell: echo -n x y > f > /dev/null; cat f => 0 %(EMPTY)
- shell: cat none f => 1 acat: none: No such file or directory%(NL)
- shell: echo z > f/g; echo next => 0 sh: f/g: Not a directory%(NL)next%(NL)
- shell: cat ../h/./f/ => 0 a

given: ,["/h/big","%(6e*1048576)"]
- shell: echo a >> big => 1 sh: big: File too large%(NL)
- shell: echo -n >> big; > big; echo a >> big; cat big => 0 a%(NL)

given: ,["/h/t","613a623a630a6e6f0a783a793a7a"]
- shell: cut -f 3,1 -d : t => 0 a:c%(NL)no%(NL)x:z%(NL)
- shell: cut -b 2-3,1 t => 0 a:b%(NL)no%(NL)x:y%(NL)
- shell: cut -f 1 t => 0 a:b:c%(NL)no%(NL)x:y:z%(NL)
- shell: cut -sf 1 t => 0 %(EMPTY)
- shell: cut -f 0 t => 2 cut: usage%(NL)
- shell: grep -Fcv b t => 0 2%(NL)
- shell: grep -Fx no t => 0 no%(NL)
- shell: grep -F no t none => 2 t:no%(NL)grep: none: No such file or directory%(NL)
- shell: grep -Fq no t none => 0 %(EMPTY)
- shell: grep -Fq no none t => 0 grep: none: No such file or directory%(NL)
- shell: grep -F zz t => 1 %(EMPTY)
- shell: grep -F no t none > o; cat o => 0 grep: none: No such file or directory%(NL)t:no%(NL)
- shell: cp t t => 1 cp: t: same file%(NL)
- shell: mv t /dev/null => 1 mv: t: Operation not permitted%(NL)
- shell: cp t d; rm t; cut -b1 d/t t => 1 a%(NL)n%(NL)x%(NL)cut: t: No such file or directory%(NL)

given: ,["/h/a"],["/h/f",""]
- shell: mv a a/b; test -d a => 0 mv: a: Invalid argument%(NL)
- shell: rm .. => 1 rm: ..: Operation not permitted%(NL)
- shell: mkdir -p f => 1 mkdir: f: File exists%(NL)
- shell: mkdir -p f/g => 1 mkdir: f/g: Not a directory%(NL)

given: ,["/h/f","710a"]
- shell: cat < f > f => 0 %(EMPTY)
- shell: cat < f > f :: cat f => 0 %(EMPTY)
"##;

/// Documents: `script`, or the number of the refusal that applies first.
pub const DOCUMENTS: &str = r##"
script: {"script":1 => 12
script: {} {} => 12
script: "\ud800" => 12
script: [01] => 12
script: 1e400 => 12
script: %(BOM){} => 12
script: %([*127)%(]*127) => 13
script: %([*128)%(]*128) => 12
script: [] => 13
script: {} => 13
script: null => 13
script: {"x":0} => 14
script: {"script":2} => 13
script: {"script":2,"tree":0,"sessions":0,"lines":0} => 16
script: {"script":2,"tree":0,"sessions":0,"lines":0,"x":0} => 14
script: {"script":1,"tree":[["/a/b"]],"sessions":0,"lines":0} => 10
script: {"script":1,"tree":[],"sessions":0,"lines":0} => 13
script: {"script":1,"tree":[],"sessions":[[1,"/%(n*256)",0,[]]],"lines":0} => 11
version: "1" => 13
version: 1.0 => 13
version: 1e0 => 13
version: -0 => 13
version: -1 => 13
version: 18446744073709551616 => 13
version: 18446744073709551615 => 16
version: 2 => 16
version: 1,"script":2 => 16
version: 2,"script":1 => script
entries: [["/a/b"]] => 10
entries: [["/dev"],["/dev/null",""]] => 10
entries: [["/f",""],["/f/g"]] => 10
entries: [["/a"],["/a"]] => 10
entries: [["/"]] => 10
entries: [["/a/b"],["/a"]] => script
entries: [["/f","4"]] => 15
entries: [["/f","4g"]] => 15
entries: [["/f","4A"]] => script
entries: [["/f","4g"],[""]] => 13
entries: [["/%(n*256)"],["/f","4g"]] => 15
entries: [["/%(n*256)"],["a"]] => 13
entries: [["a"]] => 13
entries: [["//a"]] => 13
entries: [["/a/"]] => 13
entries: [["/a/../b"]] => 13
entries: [["/."]] => 13
entries: [["/a\u0000"]] => 13
entries: [["/f","",0]] => 13
entries: {} => 13
entries: [["/a/%(n*255)"]] => 10
entries: [["/a/%(n*256)"]] => 11
entries: [["/f","%(0F*1048576)"]] => script
entries: [["/f","%(0F*1048577)"]] => 11
sessions: [[1,"/",256,[]]] => 13
sessions: [[1,"/",-0,[]]] => 13
sessions: [[4294967296,"/",0,[]]] => 13
sessions: [[1,"a",0,[]]] => 13
sessions: [[1,"/",0,[]],[1,"/",0,[]]] => 13
sessions: [[1,"/%(n*256)",0,[]],[1,"/",0,[]]] => 13
sessions: [[1,"/",0,[["x",""],["x",""]]]] => 13
sessions: [[1,"/",0,[["IFS",""]]]] => 13
sessions: [[1,"/",0,[["1x",""]]]] => 13
sessions: [[1,"/",0]] => 13
sessions: [[0,"/x",255,[["_1",""]]]] => script
sessions: [[1,"/%(n*255)",0,[]]] => script
sessions: [[1,"/%(n*256)",0,[]]] => 11
sessions: [[1,"/",0,[["x","%(v*65536)"]]]] => script
sessions: [[1,"/",0,[["x","%(v*65537)"]]]] => 11
lines: [[0,1,""]] => 13
lines: [[1,1]] => 13
lines: [[1,2,""],[1,1]] => 13
lines: [[2,2,""],[2,1,""]] => 8
lines: [[2,1,""],[2,1,""]] => 8
lines: [[1,2,""]] => 9
lines: [[1,1,""],[4294967295,1,""]] => script

given: {"script":1,"tree":[],"sessions":[[1,"/",0,[]],[2,"/",0,[]]],\
  "lines":[[1,1,"a"],[5,2,"b"],[7,1,"c"]]}
- edited: %(EMPTY) => lines 1 1 a 5 2 b 7 1 c
- edited: 7 7 => lines 1 1 a 5 2 b
- edited: 7 5 1 => lines
- edited: 5=b c => lines 1 1 a 5 2 b c 7 1 c
- edited: 7, 5=d, 7 => lines 1 1 a 5 2 d
- edited: 5=d, 7=, 5=d => lines 1 1 a 5 2 d 7 1 %(EMPTY)
- edited: 1=%(x*4097), 5 7 => lines 1 1 %(x*4097)
- edited: 1 9 5 3 => 21 3
- edited: 9=a, 3=b => 21 3
- edited: 0 => 21 0
- edited: 7 5 1, 7=c, 1=d, 5 => 26 1
- edited: 7=c, 1 5, 7=d => 26 7
- edited: 5=b, 5=d, 5=b => 26 5
- edited: 3 5, 5=b => 26 5
- edited: 9=a, 9=b, 3, 5 => 26 9

written: {"script":1,"tree":[["/a/b","4A"],["/a"]],"lines":[],"sessions":[[2,"/a",7,[["y","é"],\
  ["x",""]]],[1,"/",0,[]]]} => [["/a"],["/a/b","4a"]] [[1,"/",0,[]],[2,"/a",7,[["x",""],["y","é"]]]]
written: {"script":1,"tree":[["/f","00aBfF"]],"lines":[],"sessions":[]} => [["/f","00abff"]] []
"##;

/// Words, an input by its name, the exit status, and what is written to standard output and error.
pub const PROGRAMS: &str = r##"
run: retro replay :: EMPTY => 0 {"outputs":[],"sessions":[],"tree":[]}
run: retro replay -- :: EMPTY => 0 {"outputs":[],"sessions":[],"tree":[]}
run: retro replay :: UNORDERED
  => 0 {"outputs":[],"sessions":[[1,"/",0,[]]],"tree":[["/a"],["/a/b","4a"]]}
run: retro replay --cancel 1 :: PAIR
  => 0 {"outputs":[[2,"6361743a20663a204e6f20737563682066696c65206f72206469726563746f72790a"]],\
  "sessions":[[1,"/",1,[]]],"tree":[]}
run: retro replay :: PAIR
  => 0 {"outputs":[[1,""],[2,"610a"]],"sessions":[[1,"/",0,[]]],"tree":[["/f","610a"]]}
run: retro replay --cancel= :: PAIR
  => 0 {"outputs":[[1,""],[2,"610a"]],"sessions":[[1,"/",0,[]]],"tree":[["/f","610a"]]}
run: retro replay --cancel %(EMPTY) :: PAIR
  => 0 {"outputs":[[1,""],[2,"610a"]],"sessions":[[1,"/",0,[]]],"tree":[["/f","610a"]]}
run: retro replay --cancel=0000000002 :: PAIR
  => 0 {"outputs":[[1,""]],"sessions":[[1,"/",0,[]]],"tree":[["/f","610a"]]}
run: retro replay --cancel=2,2 :: PAIR
  => 0 {"outputs":[[1,""]],"sessions":[[1,"/",0,[]]],"tree":[["/f","610a"]]}
run: retro replay --cancel=1,2 :: PAIR => 0 {"outputs":[],"sessions":[[1,"/",0,[]]],"tree":[]}
run: retro :: PAIR => 1 retro: refused 31
run: retro --help :: PAIR => 1 retro: refused 31
run: retro -h :: PAIR => 1 retro: refused 31
run: retro help :: PAIR => 1 retro: refused 31
run: retro --version :: PAIR => 1 retro: refused 31
run: retro repl :: PAIR => 1 retro: refused 31
run: retro replay --help :: PAIR => 1 retro: refused 31
run: retro replay more :: PAIR => 1 retro: refused 31
run: retro replay -- --cancel 1 :: PAIR => 1 retro: refused 31
run: retro replay --canc 1 :: PAIR => 1 retro: refused 31
run: retro --cancel 1 replay :: PAIR => 1 retro: refused 31
run: retro replay --cancel :: PAIR => 1 retro: refused 31
run: retro replay --cancel 1 --cancel 1 :: PAIR => 1 retro: refused 31
run: retro replay --cancel 1,,2 :: PAIR => 1 retro: refused 31
run: retro replay --cancel 1, :: PAIR => 1 retro: refused 31
run: retro replay --cancel -1 :: PAIR => 1 retro: refused 31
run: retro replay --cancel -- 1 :: PAIR => 1 retro: refused 31
run: retro replay --cancel=%(TAB)1 :: PAIR => 1 retro: refused 31
run: retro replay --cancel +1 :: PAIR => 1 retro: refused 31
run: retro replay --cancel 4294967296 :: PAIR => 1 retro: refused 31
run: retro replay --cancel 00000000001 :: PAIR => 1 retro: refused 31
run: retro replay --cancel 9, :: [ => 1 retro: refused 31
run: retro replay --cancel 9 :: PAIR => 1 retro: refused 21
run: retro replay --cancel 9 :: [ => 1 retro: refused 12
run: retro replay --cancel 4294967295 :: PAIR => 1 retro: refused 21
run: retro record :: EMPTY => 0 {"from":1,"lines":[],"log":2,"sessions":[],"tree":[]}
run: retro record :: UNORDERED
  => 0 {"from":1,"lines":[],"log":2,"sessions":[[1,"/",0,[]]],"tree":[["/a"],["/a/b","4a"]]}
run: retro record :: PAIR => 0 {"from":1,"lines":[[1,1,"echo a > f",[["cwd","/"],["canwrite","/f",0,"yes"],\
  ["put","/f",["f",""]],["canwrite","/f",2,"yes"],["grow","/f","610a"],["setstatus",0]],""],\
  [2,1,"cat f",[["cwd","/"],["bytes","/f",["f","610a"]],["setstatus",0]],"610a"]],"log":2,\
  "sessions":[[1,"/",0,[]]],"tree":[]}
run: retro record --cancel 1 :: PAIR => 1 retro: refused 31
run: retro record more :: PAIR => 1 retro: refused 31
run: retro record :: LOG => 1 retro: refused 14
run: retro record :: [ => 1 retro: refused 12
run: retro check :: LOG => 0 yes
run: retro check :: ALTERED => 4 no
run: retro check :: FORGED => 4 no
run: retro check :: EMPTY_LOG => 0 yes
in turn: retro record :: retro check :: MARKET => 0 yes
many: retro record :: retro check :: 1000 :: echo a > f; cat f => 0 yes
run: retro check --cancel 1 :: LOG => 1 retro: refused 31
run: retro check :: PAIR => 1 retro: refused 14
run: retro check :: {"log":3,"tree":[],"sessions":[],"lines":[]} => 1 retro: refused 16
run: retro replay :: LOG => 1 retro: refused 14
"##;

/// The empty script.
pub const EMPTY: &str = r#"{"script":1,"tree":[],"sessions":[],"lines":[]}"#;

/// A script in which two sessions append to one file.
const SHARED: &str = concat!(
    r#"{"script":1,"tree":[["/tmp"]],"sessions":[[1,"/",0,[]],[2,"/tmp",0,[]]],"lines":["#,
    r#"[1,1,"echo one >> /tmp/log"],[2,2,"echo two >> /tmp/log"],"#,
    r#"[3,1,"echo three >> /tmp/log"],[4,1,"cat /tmp/log"],"#,
    r#"[5,2,"echo four >> /tmp/log"],[6,1,"cat /tmp/log"]]}"#,
);

/// A script in which four lines read what line 1 of another session wrote.
const READERS: &str = concat!(
    r#"{"script":1,"tree":[["/etc"],["/etc/passwd","726f6f743a783a303a303a723a2f3a2f62696e2f"#,
    "73680a616c6963653a783a3130303a3130303a613a2f683a2f62696e2f73680a6d616c6c6f72",
    r#"793a783a3230303a3230303a6d3a2f746d703a2f62696e2f73680a"],["/h"],["/tmp"]],"#,
    r#""sessions":[[1,"/h",0,[["HOME","/h"]]],[2,"/tmp",0,[["HOME","/tmp"]]]],"lines":["#,
    r#"[1,2,"echo p > /tmp/k"],[2,1,"cat /tmp/k > a"],[3,1,"cat a /tmp/k"],"#,
    r#"[4,1,"cat /tmp/k"],[5,1,"grep -F p /tmp/k"]]}"#,
);

/// The script of a market: three people, of whom the third is an intruder.
const MARKET: &str = concat!(
    r#"{"script":1,"tree":[["/etc"],["/etc/motd","57656c636f6d650a"],["/home"],["/home/alice"],"#,
    r#"["/home/bob"],["/srv"],["/srv/prices","6170706c6520330a7065617220340a"],["/tmp"]],"#,
    r#""sessions":[[1,"/home/alice",0,[]],[2,"/home/bob",0,[]],[3,"/tmp",0,[]]],"lines":["#,
    r#"[1,1,"cat /etc/motd"],[2,1,"echo plum 5 >> /srv/prices"],"#,
    r#"[3,3,"echo apple 1 > /srv/prices"],[4,2,"cat /srv/prices > report; cat report"],"#,
    r#"[5,1,"echo remember the pears > notes"],[6,3,"echo Bob: see /tmp/offer >> /etc/motd"],"#,
    r#"[7,2,"cat /etc/motd"],[8,2,"echo fig 7 >> /srv/prices"],"#,
    r#"[9,3,"echo free apples > /tmp/offer"],[10,2,"cat /tmp/offer"],[11,1,"cat /srv/prices"],"#,
    r#"[12,1,"echo order more figs >> notes"],[13,3,"> /home/alice/notes"],[14,1,"cat notes"],"#,
    r#"[15,1,"echo call Bob >> notes; cat notes"],[16,2,"cat report /srv/prices > /srv/summary"],"#,
    r#"[17,1,"cat /srv/summary"],[18,3,"cat /home/bob/report"],[19,2,"cat none; echo looked"],"#,
    r#"[20,1,"cat /etc/motd notes"]]}"#,
);

/// Returns the input with a name. Any other text is itself.
pub fn input_named(name: &str) -> &str {
    match name {
        "EMPTY" => EMPTY,
        "UNORDERED" => {
            r#"{"sessions":[[1,"/",0,[]]],"lines":[],"script":1,"tree":[["/a/b","4A"],["/a"]]}"#
        }
        "PAIR" => concat!(
            r#"{"script":1,"tree":[],"sessions":[[1,"/",0,[]]],"#,
            r#""lines":[[1,1,"echo a > f"],[2,1,"cat f"]]}"#
        ),
        "SHARED" => SHARED,
        "READERS" => READERS,
        "MARKET" => MARKET,
        "EMPTY_LOG" => r#"{"log":1,"tree":[],"sessions":[],"lines":[]}"#,
        "LOG" => concat!(
            r#"{"lines":[[1,1,"echo a > f",[["cwd","/"],["canwrite","/f",0,"yes"],"#,
            r#"["put","/f",["f",""]],["canwrite","/f",2,"yes"],["grow","/f","610a"],"#,
            r#"["setstatus",0]],""],[2,1,"cat f",[["cwd","/"],["bytes","/f",["f","610a"]],"#,
            r#"["setstatus",0]],"610a"]],"log":1,"sessions":[[1,"/",0,[]]],"tree":[]}"#
        ),
        // LOG from line 2 on.
        "LATER" => concat!(
            r#"{"from":2,"lines":[[2,1,"cat f",[["cwd","/"],["bytes","/f",["f","610a"]],"#,
            r#"["setstatus",0]],"610a"]],"log":2,"sessions":[[1,"/",0,[]]],"#,
            r#""tree":[["/f","610a"]]}"#
        ),
        // Line 2 reads other bytes than line 1 wrote.
        "ALTERED" => concat!(
            r#"{"lines":[[1,1,"echo a > f",[["cwd","/"],["canwrite","/f",0,"yes"],"#,
            r#"["put","/f",["f",""]],["canwrite","/f",2,"yes"],["grow","/f","610a"],"#,
            r#"["setstatus",0]],""],[2,1,"cat f",[["cwd","/"],["bytes","/f",["f","620a"]],"#,
            r#"["setstatus",0]],"610a"]],"log":1,"sessions":[[1,"/",0,[]]],"tree":[]}"#
        ),
        // Line 2 writes without a query.
        "FORGED" => concat!(
            r#"{"log":1,"tree":[],"sessions":[[1,"/",0,[]]],"lines":[[1,1,"mkdir d",["#,
            r#"["cwd","/"],["kind","/d","missing"],["kind","/","dir"],["put","/d",["d"]],"#,
            r#"["setstatus",0]],""],[2,1,"echo x > d/f",[["put","/d/f",["f","780a"]],"#,
            r#"["setstatus",0]],""]]}"#
        ),
        _ => name,
    }
}
