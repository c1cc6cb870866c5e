//! The table of lists and compound commands; `lines` says how its rows are written.

/// What `;`, `&&`, `||`, `!`, `if` and `for` leave (XCU 2.9.2 to 2.9.4).
pub const LISTS: &str = r##"
given: base
- line: true && echo a; false && echo b; false || echo c; true || echo d
  => 0 [a%(NL)c%(NL)] ["setstatus",0]
- line: false && echo a || echo b => 0 [b%(NL)] ["setstatus",0]
- line: true || echo a && echo b => 0 [b%(NL)] ["setstatus",0]
- line: false || false && echo a; echo $? => 0 [1%(NL)] ["setstatus",0]
- line: true && false || ! false && echo y => 0 [y%(NL)] ["setstatus",0]
- line: ! false && echo y || echo n => 0 [y%(NL)] ["setstatus",0]
- line: ! true && echo y || echo n => 0 [n%(NL)] ["setstatus",0]
- line: ! true | false && echo a => 0 [a%(NL)] ["setstatus",0]
- line: false | true && echo a => 0 [a%(NL)] ["setstatus",0]
- line: false; => 1 [] ["setstatus",1]
- line: false; true => 0 [] ["setstatus",0]
- line: ! : => 1 [] ["setstatus",1]
- line: ! nosuch => 0 [sh: nosuch: not found%(NL)] ["setstatus",0]
- line: ! cat < none => 0 [sh: none: No such file or directory%(NL)] ["cwd","/h"]
  ["kind","/h/none","missing"] ["setstatus",0]
- line: nosuch && echo a => 127 [sh: nosuch: not found%(NL)] ["setstatus",127]
- line: nosuch && echo a; echo $? => 0 [sh: nosuch: not found%(NL)127%(NL)] ["setstatus",0]

line: base /h/f=q%(NL) :: cat none || cat f => 0 [cat: none: No such file or directory%(NL)q%(NL)]
  ["cwd","/h"] ["bytes","/h/none",[]] ["cwd","/h"] ["bytes","/h/f",["f","710a"]] ["setstatus",0]
line: base :: x=1 && echo $x => 0 [1%(NL)] ["setvar","x","1"] ["var","x","1"] ["setstatus",0]
line: base :: > f && cat f && < none || echo a => 0 [sh: none: No such file or directory%(NL)a%(NL)]
  ["cwd","/h"] ["canwrite","/h/f",0,"yes"] ["put","/h/f",["f",""]] ["cwd","/h"]
  ["bytes","/h/f",["f",""]] ["cwd","/h"] ["kind","/h/none","missing"] ["setstatus",0]
line: base :: cd /tmp && pwd; cd /none || pwd
  => 0 [/tmp%(NL)cd: /none: No such file or directory%(NL)/tmp%(NL)] ["kind","/tmp","dir"]
  ["setcwd","/tmp"] ["cwd","/tmp"] ["kind","/none","missing"] ["cwd","/tmp"] ["setstatus",0]
line: base :: test -f f || echo a > f && cat f => 0 [a%(NL)] ["cwd","/h"] ["kind","/h/f","missing"]
  ["cwd","/h"] ["canwrite","/h/f",0,"yes"] ["put","/h/f",["f",""]] ["canwrite","/h/f",2,"yes"]
  ["grow","/h/f","610a"] ["cwd","/h"] ["bytes","/h/f",["f","610a"]] ["setstatus",0]
line: base :: if false; then echo a; elif true; then echo b; else echo c; fi; echo $?
  => 0 [b%(NL)0%(NL)] ["setstatus",0]
line: base :: if false; then echo a; elif false; then echo b; else echo c; fi
  => 0 [c%(NL)] ["setstatus",0]
line: base :: if true; then echo a; elif nosuch; then echo b; else echo c; fi
  => 0 [a%(NL)] ["setstatus",0]
line: base ?1 :: if test $? = 0; then echo ok; else echo bad; fi
  => 0 [bad%(NL)] ["status",1] ["setstatus",0]
line: base ?0 :: if test $? = 0; then echo ok; else echo bad; fi
  => 0 [ok%(NL)] ["status",0] ["setstatus",0]
line: base :: if true; then false; fi; echo $? => 0 [1%(NL)] ["setstatus",0]
line: base ?7 :: if false; then echo a; fi => 0 [] ["setstatus",0]
line: base ?7 :: if false; then :; elif false; then :; fi => 0 [] ["setstatus",0]

given: base
- line: if false; then :; elif false; then :; else nosuch; fi
  => 127 [sh: nosuch: not found%(NL)] ["setstatus",127]
- line: if false; true; then echo a; fi => 0 [a%(NL)] ["setstatus",0]
- line: if true; false; then echo a; else echo $?; fi => 0 [1%(NL)] ["setstatus",0]
- line: if ! cat < none; then echo a; fi => 0 [sh: none: No such file or directory%(NL)a%(NL)]
  ["cwd","/h"] ["kind","/h/none","missing"] ["setstatus",0]
- line: if if true; then false; fi; then echo a; else echo b; fi => 0 [b%(NL)] ["setstatus",0]
- line: if true; then if false; then echo a; else echo b; fi fi => 0 [b%(NL)] ["setstatus",0]
- line: ! if true; then false; fi => 0 [] ["setstatus",0]
- line: if true; then echo a; fi && echo b || echo c => 0 [a%(NL)b%(NL)] ["setstatus",0]
- line: if false; then echo a; fi && echo b => 0 [b%(NL)] ["setstatus",0]
- line: if echo a | cat; then echo b; fi => 0 [a%(NL)b%(NL)] ["setstatus",0]
- line: if $x; then echo a; fi => 0 [a%(NL)] ["var","x",null] ["setstatus",0]
- line: if x=1; then echo $x; fi => 0 [1%(NL)] ["setvar","x","1"] ["var","x","1"] ["setstatus",0]
- line: if cd /tmp; then pwd; fi; pwd => 0 [/tmp%(NL)/tmp%(NL)] ["kind","/tmp","dir"]
  ["setcwd","/tmp"] ["cwd","/tmp"] ["cwd","/tmp"] ["setstatus",0]

line: base /h/f=q%(NL) :: if test -f f; then cat f; elif test -d /tmp; then echo d; fi => 0 [q%(NL)]
  ["cwd","/h"] ["kind","/h/f","file"] ["cwd","/h"] ["bytes","/h/f",["f","710a"]] ["setstatus",0]
line: base :: if test -f f; then cat f; elif test -d /tmp; then echo d; fi
  => 0 [d%(NL)] ["cwd","/h"] ["kind","/h/f","missing"] ["kind","/tmp","dir"] ["setstatus",0]
line: base ?7 :: %(if *32):%(; then :; fi*32) => 0 [] ["setstatus",0]
line: base ?7 :: %(if *33):%(; then :; fi*33) => 2 [sh: unsupported line%(NL)] ["setstatus",2]
line: base ?7 :: for i in; do echo x; done; echo $? => 0 [0%(NL)] ["setstatus",0]
line: base ?7 :: for i in $x; do false; done => 0 [] ["var","x",null] ["setstatus",0]
line: base :: for i in a b; do echo $i; done; echo $i => 0 [a%(NL)b%(NL)b%(NL)] ["setvar","i","a"]
  ["var","i","a"] ["setvar","i","b"] ["var","i","b"] ["var","i","b"] ["setstatus",0]
line: base x=a__b :: for i in $x; do echo "<$i>"; done => 0 [<a>%(NL)<b>%(NL)] ["var","x","a  b"]
  ["setvar","i","a"] ["var","i","a"] ["setvar","i","b"] ["var","i","b"] ["setstatus",0]
line: base x=a_b :: for x in $x; do echo $x; done => 0 [a%(NL)b%(NL)] ["var","x","a b"]
  ["setvar","x","a"] ["var","x","a"] ["setvar","x","b"] ["var","x","b"] ["setstatus",0]
line: base x=a_b :: for i in $x; do x=c; echo $i $x; done => 0 [a c%(NL)b c%(NL)] ["var","x","a b"]
  ["setvar","i","a"] ["setvar","x","c"] ["var","i","a"] ["var","x","c"] ["setvar","i","b"]
  ["setvar","x","c"] ["var","i","b"] ["var","x","c"] ["setstatus",0]

given: base
- line: for i in a b; do i=c; echo $i; done => 0 [c%(NL)c%(NL)] ["setvar","i","a"] ["setvar","i",\
  "c"] ["var","i","c"] ["setvar","i","b"] ["setvar","i","c"] ["var","i","c"] ["setstatus",0]
- line: for i in a b; do for i in c; do :; done; echo $i; done
  => 0 [c%(NL)c%(NL)] ["setvar","i","a"] ["setvar","i","c"] ["var","i","c"] ["setvar","i","b"]
  ["setvar","i","c"] ["var","i","c"] ["setstatus",0]
- line: for i in a b; do for j in $i c; do echo $i$j; done; done => 0 [aa%(NL)ac%(NL)bb%(NL)bc%(NL)]
  ["setvar","i","a"] ["var","i","a"] ["setvar","j","a"] ["var","i","a"] ["var","j","a"] ["setvar",\
  "j","c"] ["var","i","a"] ["var","j","c"] ["setvar","i","b"] ["var","i","b"] ["setvar","j","b"]
  ["var","i","b"] ["var","j","b"] ["setvar","j","c"] ["var","i","b"] ["var","j","c"] ["setstatus",0]
- line: for i in "a b" '' c; do echo "<$i>"; done
  => 0 [<a b>%(NL)<>%(NL)<c>%(NL)] ["setvar","i","a b"] ["var","i","a b"] ["setvar","i",""]
  ["var","i",""] ["setvar","i","c"] ["var","i","c"] ["setstatus",0]
- line: for i in ~ ~nobody; do echo $i; done
  => 0 [/h%(NL)~nobody%(NL)] ["var","HOME","/h"] ["user","nobody",null] ["setvar","i","/h"]
  ["var","i","/h"] ["setvar","i","~nobody"] ["var","i","~nobody"] ["setstatus",0]
- line: for i in if then do done; do echo $i; done => 0 [if%(NL)then%(NL)do%(NL)done%(NL)]
  ["setvar","i","if"] ["var","i","if"] ["setvar","i","then"] ["var","i","then"] ["setvar","i","do"]
  ["var","i","do"] ["setvar","i","done"] ["var","i","done"] ["setstatus",0]
- line: for in in in; do echo $in; done => 0 [in%(NL)] ["setvar","in","in"] ["var","in","in"]
  ["setstatus",0]
- line: for i in x=1 a#b; do echo $i; done => 0 [x=1%(NL)a#b%(NL)] ["setvar","i","x=1"]
  ["var","i","x=1"] ["setvar","i","a#b"] ["var","i","a#b"] ["setstatus",0]
- line: for i in a b; do false; done; echo $?
  => 0 [1%(NL)] ["setvar","i","a"] ["setvar","i","b"] ["setstatus",0]
- line: for i in a b; do nosuch; done => 127 [sh: nosuch: not found%(NL)sh: nosuch: not found%(NL)]
  ["setvar","i","a"] ["setvar","i","b"] ["setstatus",127]
- line: ! for i in a; do false; done => 0 [] ["setvar","i","a"] ["setstatus",0]
- line: for i in a; do echo b; done && echo c => 0 [b%(NL)c%(NL)] ["setvar","i","a"] ["setstatus",0]
- line: for i in a b; do if test $i = a; then echo 1; else echo 2; fi; done => 0 [1%(NL)2%(NL)]
  ["setvar","i","a"] ["var","i","a"] ["setvar","i","b"] ["var","i","b"] ["setstatus",0]
- line: for i in a b; do echo $i | cat; done => 0 [a%(NL)b%(NL)] ["setvar","i","a"] ["var","i","a"]
  ["setvar","i","b"] ["var","i","b"] ["setstatus",0]
- line: for i in a b; do echo $i > $i; done => 0 [] ["setvar","i","a"] ["var","i","a"]
  ["var","i","a"] ["cwd","/h"] ["canwrite","/h/a",0,"yes"] ["put","/h/a",["f",""]]
  ["canwrite","/h/a",2,"yes"] ["grow","/h/a","610a"] ["setvar","i","b"] ["var","i","b"]
  ["var","i","b"] ["cwd","/h"] ["canwrite","/h/b",0,"yes"] ["put","/h/b",["f",""]]
  ["canwrite","/h/b",2,"yes"] ["grow","/h/b","620a"] ["setstatus",0]
- line: for i in a b; do echo $i >> f; done; cat f => 0 [a%(NL)b%(NL)] ["setvar","i","a"]
  ["var","i","a"] ["cwd","/h"] ["canwrite","/h/f",0,"yes"] ["grow","/h/f",""]
  ["canwrite","/h/f",2,"yes"] ["grow","/h/f","610a"] ["setvar","i","b"] ["var","i","b"] ["cwd","/h"]
  ["canwrite","/h/f",0,"yes"] ["grow","/h/f",""] ["canwrite","/h/f",2,"yes"] ["grow","/h/f","620a"]
  ["cwd","/h"] ["bytes","/h/f",["f","610a620a"]] ["setstatus",0]
- line: for i in 1 2; do mkdir d; done => 1 [mkdir: d: File exists%(NL)] ["setvar","i","1"]
  ["cwd","/h"] ["kind","/h/d","missing"] ["kind","/h","dir"] ["put","/h/d",["d"]] ["setvar","i","2"]
  ["cwd","/h"] ["kind","/h/d","dir"] ["setstatus",1]
- line: for i in a; do cd /tmp; done; pwd => 0 [/tmp%(NL)] ["setvar","i","a"] ["kind","/tmp","dir"]
  ["setcwd","/tmp"] ["cwd","/tmp"] ["setstatus",0]
- line: for i in a; do cd /tmp | cat; x=1 | cat; done; pwd; echo $x => 0 [/h%(NL)%(NL)]
  ["setvar","i","a"] ["kind","/tmp","dir"] ["cwd","/h"] ["var","x",null] ["setstatus",0]
- line: for HOME in /tmp; do cd; done; pwd => 0 [/tmp%(NL)] ["setvar","HOME","/tmp"]
  ["var","HOME","/tmp"] ["kind","/tmp","dir"] ["setcwd","/tmp"] ["cwd","/tmp"] ["setstatus",0]
- line: %(for i in a; do *32):%(; done*32) => 0 []%( ["setvar","i","a"]*32) ["setstatus",0]
- line: %(for i in a; do *33):%(; done*33) => 2 [sh: unsupported line%(NL)] ["setstatus",2]
- line: %(if :; then for i in a; do *16):%(; done; fi*16)
  => 0 []%( ["setvar","i","a"]*16) ["setstatus",0]
- line: if :; then %(if :; then for i in a; do *16):%(; done; fi*16); fi
  => 2 [sh: unsupported line%(NL)] ["setstatus",2]
"##;
