//! The table of runs; `runs` says how they are written.

/// What utilities leave, with their notes (XCU chapter 4).
pub const RUNS: &str = r##"
run: %(EMPTY) :: 1 :: ls => none
run: /d/ :: 1 :: mkdirs :: /d => none

given: %(EMPTY) :: 1
- run: echo :: a :: b => 0 [a b%(NL)] []
- run: echo :: -n :: a => 0 [a] []
- run: echo :: -- :: -x => 0 [-- -x%(NL)] []
- run: true :: -x :: /d => 0 [] []
- run: false :: -- => 1 [] []
- run: : :: /d => 0 [] []

run: @/d :: 1 :: pwd => 0 [/d%(NL)] [] ["cwd","/d"]
run: %(EMPTY) :: 1 :: pwd => 0 [/%(NL)] [] ["cwd","/"]
run: @/d/e :: 1 :: pwd :: -- => 0 [/d/e%(NL)] [] ["cwd","/d/e"]
run: %(EMPTY) :: 1 :: pwd :: x => 2 [] [pwd: usage%(NL)]
run: %(EMPTY) :: 1 :: pwd :: -P => 2 [] [pwd: usage%(NL)]
run: /d/ :: 1 :: cd :: /d => 0 [] [] ["kind","/d","dir"] ["setcwd","/d"]
run: /d/ :: 1s :: cd :: /d => 0 [] [] ["kind","/d","dir"]
run: /d/ /d/e/ @/d :: 1 :: cd :: e => 0 [] [] ["cwd","/d"] ["kind","/d/e","dir"] ["setcwd","/d/e"]
run: /d/ /d/e/ @/d/e :: 1 :: cd :: ../../d/./
  => 0 [] [] ["cwd","/d/e"] ["kind","/d","dir"] ["setcwd","/d"]
run: %(EMPTY) :: 1 :: cd :: /n => 1 [] [cd: /n: No such file or directory%(NL)]
  ["kind","/n","missing"]
run: /f=x :: 1 :: cd :: /f => 1 [] [cd: /f: Not a directory%(NL)] ["kind","/f","file"]
run: %(EMPTY) :: 1 :: cd :: /dev/null => 1 [] [cd: /dev/null: Not a directory%(NL)]
run: /dev/ @/dev :: 1 :: cd :: null => 1 [] [cd: null: Not a directory%(NL)] ["cwd","/dev"]

given: %(EMPTY) :: 1
- run: cd :: %(EMPTY) => 1 [] [cd: : No such file or directory%(NL)]
- run: cd :: %(n*256) => 1 [] [cd: %(n*256): File name too long%(NL)]
- run: cd :: - => 2 [] [cd: usage%(NL)]
- run: cd :: -- :: - => 2 [] [cd: usage%(NL)]

run: /d/ :: 1 :: cd :: /d :: /d => 2 [] [cd: usage%(NL)]
run: %(EMPTY) :: 1 :: cd :: -L :: /d => 2 [] [cd: usage%(NL)]
run: %(EMPTY) :: 1 :: cd => 1 [] [cd: HOME not set%(NL)] ["var","HOME",null]
run: HOME= :: 1 :: cd => 1 [] [cd: HOME not set%(NL)] ["var","HOME",""]
run: /d/ HOME=/d :: 1 :: cd => 0 [] [] ["var","HOME","/d"] ["kind","/d","dir"] ["setcwd","/d"]
run: /d/ /d/e/ @/d HOME=e :: 1 :: cd :: --
  => 0 [] [] ["var","HOME","e"] ["cwd","/d"] ["kind","/d/e","dir"] ["setcwd","/d/e"]
run: HOME=n :: 1 :: cd => 1 [] [cd: n: No such file or directory%(NL)] ["var","HOME","n"]
  ["cwd","/"] ["kind","/n","missing"]

given: /etc/ /etc/passwd=alice:x:100:100:a:/h:/bin/sh%(NL) :: 1
- run: id :: -u :: alice => 0 [100%(NL)] [] ["user","alice",[100,"/h"]]
- run: id :: -u :: bob => 1 [] [id: bob: no such user%(NL)] ["user","bob",null]
- run: id :: -u :: %(EMPTY) => 1 [] [id: : no such user%(NL)] ["user","",null]
- run: id :: -u :: - => 1 [] [id: -: no such user%(NL)] ["user","-",null]
- run: id :: alice => 2 [] [id: usage%(NL)]
- run: id :: -u => 2 [] [id: usage%(NL)]
- run: id :: -u :: alice :: alice => 2 [] [id: usage%(NL)]
- run: id :: -un :: alice => 2 [] [id: usage%(NL)]

run: /d/ :: 1 :: test :: -e :: /d => 0 [] [] ["kind","/d","dir"]
run: /d/ :: 1 :: test :: -f :: /d => 1 [] [] ["kind","/d","dir"]
run: /d/ :: 1 :: [ :: -d :: /d :: ] => 0 [] [] ["kind","/d","dir"]
run: /f=x @/ :: 1 :: test :: -f :: f => 0 [] [] ["cwd","/"] ["kind","/f","file"]
run: %(EMPTY) :: 1 :: test :: -e :: /n => 1 [] [] ["kind","/n","missing"]
run: %(EMPTY) :: 1 :: test :: -e :: /dev/null => 0 [] []
run: %(EMPTY) :: 1 :: test :: -f :: /dev/null => 1 [] []
run: @/dev :: 1 :: test :: -d :: null => 1 [] [] ["cwd","/dev"]

given: %(EMPTY) :: 1
- run: test :: -e :: %(EMPTY) => 1 [] []
- run: test :: -d :: %(n*256) => 1 [] []
- run: test :: -n => 0 [] []
- run: [ :: -d :: /d => 2 [] [[: usage%(NL)]
- run: [ :: a :: = :: b => 2 [] [[: usage%(NL)]
- run: test :: -- :: /d => 2 [] [test: usage%(NL)]

run: /f=hi%(NL) :: 1 :: cat :: /f => 0 [hi%(NL)] [] ["bytes","/f",["f","68690a"]]
run: /f=ab /g=cd :: 1 :: cat :: -u :: /f :: -- :: /g
  => 1 [abcd] [cat: --: No such file or directory%(NL)] ["bytes","/f",["f","6162"]] ["cwd","/"]
  ["bytes","/--",[]] ["bytes","/g",["f","6364"]]
run: /d/ /d/f=x @/d :: 1 :: cat :: f :: none :: f
  => 1 [xx] [cat: none: No such file or directory%(NL)] ["cwd","/d"] ["bytes","/d/f",["f","78"]]
  ["cwd","/d"] ["bytes","/d/none",[]] ["cwd","/d"] ["bytes","/d/f",["f","78"]]
run: /d/ :: 1 :: cat :: /d => 1 [] [cat: /d: Is a directory%(NL)] ["bytes","/d",["d"]]
run: %(EMPTY) :: 1 =in :: cat => 0 [in] []
run: /f=x :: 1 =in :: cat :: /f :: - :: /f
  => 0 [xinx] [] ["bytes","/f",["f","78"]] ["bytes","/f",["f","78"]]
run: %(EMPTY) :: 1 =in :: cat :: - :: - => 0 [in] []
run: /f=x :: 1 /f :: cat :: - :: - => 0 [x] [] ["bytes","/f",["f","78"]]
run: /d/ :: 1 /d :: cat => 0 [] [] ["bytes","/d",["d"]]
run: %(EMPTY) :: 1 /dev/null :: cat => 0 [] []
run: %(EMPTY) :: 1 :: cat :: /dev/null => 0 [] []
run: @/dev :: 1 :: cat :: ./null => 0 [] [] ["cwd","/dev"]
run: %(EMPTY) :: 1 :: cat :: %(EMPTY) :: %(n*256)
  => 1 [] [cat: : No such file or directory%(NL)cat: %(n*256): File name too long%(NL)]
run: /f=x :: 1 :: cat :: -n :: /f => 2 [] [cat: usage%(NL)]
run: %(EMPTY) :: 1 =in :: tee => 0 [in] []
run: %(EMPTY) :: 1 =in :: tee :: /f => 0 [in] [] ["canwrite","/f",0,"yes"] ["put","/f",["f",""]]
  ["canwrite","/f",2,"yes"] ["grow","/f","696e"]
run: /f=x :: 1 =in :: tee :: -a :: /f => 0 [in] [] ["canwrite","/f",0,"yes"] ["grow","/f",""]
  ["canwrite","/f",2,"yes"] ["grow","/f","696e"]
run: %(EMPTY) :: 1 =in :: tee :: /f :: /f => 0 [in] [] ["canwrite","/f",0,"yes"]
  ["put","/f",["f",""]] ["canwrite","/f",0,"yes"] ["put","/f",["f",""]] ["canwrite","/f",2,"yes"]
  ["grow","/f","696e"] ["canwrite","/f",2,"yes"] ["grow","/f","696e"]
run: /d/ :: 1 =in :: tee :: /d :: /n/f :: /g => 1 [in] [tee: /d: Is a directory%(NL)tee: /n/f: No
  such file or directory%(NL)] ["canwrite","/d",0,"isdir"] ["canwrite","/n/f",0,"noparent"]
  ["canwrite","/g",0,"yes"] ["put","/g",["f",""]] ["canwrite","/g",2,"yes"] ["grow","/g","696e"]
run: /g=x :: 1 =in :: tee :: /g/f :: /dev/null
  => 1 [in] [tee: /g/f: Not a directory%(NL)] ["canwrite","/g/f",0,"notdir"]
run: %(EMPTY) :: 1 :: tee :: /f => 0 [] [] ["canwrite","/f",0,"yes"] ["put","/f",["f",""]]
run: /i=in :: 1 /i :: tee :: /f => 0 [in] [] ["canwrite","/f",0,"yes"] ["put","/f",["f",""]]
  ["bytes","/i",["f","696e"]] ["canwrite","/f",2,"yes"] ["grow","/f","696e"]
run: /f=in :: 1 /f :: tee :: /f => 0 [] [] ["canwrite","/f",0,"yes"] ["put","/f",["f",""]]
  ["bytes","/f",["f",""]]
run: @/d /d/ :: 1 =in :: tee :: - => 0 [in] [] ["cwd","/d"] ["canwrite","/d/-",0,"yes"]
  ["put","/d/-",["f",""]] ["canwrite","/d/-",2,"yes"] ["grow","/d/-","696e"]
run: /f*1048575 :: 1 =in :: tee :: -a :: /f => 1 [in] [tee: /f: File too large%(NL)]
  ["canwrite","/f",0,"yes"] ["grow","/f",""] ["canwrite","/f",2,"toolarge"]
run: %(EMPTY) :: 1 =in :: tee :: -x :: /f => 2 [] [tee: usage%(NL)]
run: /f=abc%(NL)de :: 1 :: cut :: -b :: 2-3,1 :: /f
  => 0 [abc%(NL)de%(NL)] [] ["bytes","/f",["f","6162630a6465"]]
run: /f=ab /d/ :: 1 :: cut :: -b1 :: /n :: /d :: /f
  => 1 [a%(NL)] [cut: /n: No such file or directory%(NL)cut: /d: Is a directory%(NL)]
  ["bytes","/n",[]] ["bytes","/d",["d"]] ["bytes","/f",["f","6162"]]
run: /f=ab :: 1 =xy :: cut :: -b2 :: - :: /f :: - => 0 [y%(NL)b%(NL)] [] ["bytes","/f",["f","6162"]]
run: /i=a:b :: 1 /i :: cut :: -d: :: -f2 => 0 [b%(NL)] [] ["bytes","/i",["f","613a62"]]
run: /f=a:b:c%(NL)no%(NL)x:y:z :: 1 :: cut :: -f :: 3,1 :: -d :: : :: /f
  => 0 [a:c%(NL)no%(NL)x:z%(NL)] [] ["bytes","/f",["f","613a623a630a6e6f0a783a793a7a"]]
run: /f=abcdefg%(NL)ab :: 1 :: cut :: -b :: 6-,2-3,3,1-2 :: /f
  => 0 [abcfg%(NL)ab%(NL)] [] ["bytes","/f",["f","616263646566670a6162"]]
run: /f=a:b:c:d:e%(NL)f:g%(NL)h :: 1 :: cut :: -d: :: -f :: 4-,2,1-2,4 :: /f
  => 0 [a:b:d:e%(NL)f:g%(NL)h%(NL)] [] ["bytes","/f",["f","613a623a633a643a650a663a670a68"]]
run: /f=a:b :: 1 :: cut :: -sf :: 1 :: /f => 0 [] [] ["bytes","/f",["f","613a62"]]
run: /f=ab :: 1 :: cut :: -f :: 0 :: /f => 2 [] [cut: usage%(NL)]
run: /f=ab :: 1 :: cut :: /f => 2 [] [cut: usage%(NL)]

given: /t=a:b:c%(NL)no%(NL)x:y:z :: 1
- run: grep :: -F :: %(EMPTY) :: /t => 0 [a:b:c%(NL)no%(NL)x:y:z%(NL)] []
  ["bytes","/t",["f","613a623a630a6e6f0a783a793a7a"]]
- run: grep :: -Fcv :: b :: /t => 0 [2%(NL)] [] ["bytes","/t",["f","613a623a630a6e6f0a783a793a7a"]]
- run: grep :: -Fx :: no :: /t => 0 [no%(NL)] [] ["bytes","/t",["f","613a623a630a6e6f0a783a793a7a"]]
- run: grep :: -F :: no :: /t :: /n => 2 [/t:no%(NL)] [grep: /n: No such file or directory%(NL)]
  ["bytes","/t",["f","613a623a630a6e6f0a783a793a7a"]] ["bytes","/n",[]]
- run: grep :: -Fq :: no :: /t :: /n => 0 [] [] ["bytes","/t",["f","613a623a630a6e6f0a783a793a7a"]]
- run: grep :: -Fq :: no :: /n :: /t => 0 [] [grep: /n: No such file or directory%(NL)]
  ["bytes","/n",[]] ["bytes","/t",["f","613a623a630a6e6f0a783a793a7a"]]
- run: grep :: -F :: zz :: /t => 1 [] [] ["bytes","/t",["f","613a623a630a6e6f0a783a793a7a"]]

run: %(EMPTY) :: 1 =ab :: grep :: -F :: a => 0 [ab%(NL)] []
run: /f=ab :: 1 =ab :: grep :: -F :: a :: - :: /f :: -
  => 0 [(standard input):ab%(NL)/f:ab%(NL)] [] ["bytes","/f",["f","6162"]]
run: /i=ab :: 1 /i :: grep :: -Fq :: a :: /i :: - => 0 [] [] ["bytes","/i",["f","6162"]]

given: /t=a:b:c%(NL)no%(NL)x:y:z :: 1
- run: grep :: a :: /t => 2 [] [grep: usage%(NL)]
- run: grep :: -F => 2 [] [grep: usage%(NL)]

run: %(EMPTY) :: 1 :: mkdir :: /d => 0 [] [] ["kind","/d","missing"] ["kind","/","dir"]
  ["put","/d",["d"]]
run: /d/ @/d :: 1 :: mkdir :: e :: e => 1 [] [mkdir: e: File exists%(NL)] ["cwd","/d"] ["kind",\
  "/d/e","missing"] ["kind","/d","dir"] ["put","/d/e",["d"]] ["cwd","/d"] ["kind","/d/e","dir"]
run: /f=x :: 1 :: mkdir :: /f :: /f/g :: /n/m => 1 [] [mkdir: /f: File exists%(NL)mkdir: /f/g: Not
  a directory%(NL)mkdir: /n/m: No such file or directory%(NL)] ["kind","/f","file"]
  ["kind","/f/g","missing"] ["kind","/f","file"] ["kind","/n/m","missing"] ["kind","/n","missing"]

given: %(EMPTY) :: 1
- run: mkdir :: / => 1 [] [mkdir: /: File exists%(NL)] ["kind","/","dir"]
- run: mkdir :: /dev/null :: /dev/null/x => 1 [] [mkdir: /dev/null: File
  exists%(NL)mkdir: /dev/null/x: Not a directory%(NL)] ["kind","/dev/null/x","missing"]
- run: mkdir :: %(EMPTY) => 1 [] [mkdir: : No such file or directory%(NL)]
- run: mkdir => 2 [] [mkdir: usage%(NL)]
- run: mkdir :: -m :: 7 :: /d => 2 [] [mkdir: usage%(NL)]
- run: mkdir :: -p :: /a/b => 0 [] [] ["kind","/a","missing"] ["put","/a",["d"]]
  ["kind","/a/b","missing"] ["put","/a/b",["d"]]

run: /a/ @/a :: 1 :: mkdir :: -pp :: b/../c
  => 0 [] [] ["cwd","/a"] ["kind","/a","dir"] ["kind","/a/c","missing"] ["put","/a/c",["d"]]
run: /f=x :: 1 :: mkdir :: -p :: /f :: /f/g :: /f/g/h
  => 1 [] [mkdir: /f: File exists%(NL)mkdir: /f/g: Not a directory%(NL)mkdir: /f/g/h: Not a
  directory%(NL)] ["kind","/f","file"] ["kind","/f","file"] ["kind","/f","file"]
run: /a/ /a/f=x :: 1 :: mkdir :: -p :: /a/f/g :: /b => 1 [] [mkdir: /a/f/g: Not a directory%(NL)]
  ["kind","/a","dir"] ["kind","/a/f","file"] ["kind","/b","missing"] ["put","/b",["d"]]
run: %(EMPTY) :: 1 :: mkdir :: -p :: / => 0 [] []
run: %(EMPTY) :: 1 :: mkdir :: -p :: /dev/null
  => 1 [] [mkdir: /dev/null: File exists%(NL)] ["kind","/dev","missing"] ["put","/dev",["d"]]
run: /dev/ :: 1 :: mkdir :: -p :: /dev/null/x
  => 1 [] [mkdir: /dev/null/x: Not a directory%(NL)] ["kind","/dev","dir"]
run: %(EMPTY) :: 1 :: mkdir :: -p => 2 [] [mkdir: usage%(NL)]
run: /f=x :: 1 :: rm :: /f => 0 [] [] ["kind","/f","file"] ["put","/f",[]]
run: /d/ /d/f=x @/d :: 1 :: rm :: f :: none :: f => 1 [] [rm: none: No such file or
  directory%(NL)rm: f: No such file or directory%(NL)] ["cwd","/d"] ["kind","/d/f","file"]
  ["put","/d/f",[]] ["cwd","/d"] ["kind","/d/none","missing"] ["cwd","/d"] ["kind","/d/f","missing"]
run: /d/ :: 1 :: rm :: /d => 1 [] [rm: /d: Is a directory%(NL)] ["kind","/d","dir"]
run: /d/ :: 1 :: rm :: -f :: /d :: /n => 1 [] [rm: /d: Is a directory%(NL)] ["kind","/d","dir"]
  ["kind","/n","missing"]
run: /d/ :: 1 :: rm :: -R :: /d => 0 [] [] ["kind","/d","dir"] ["names","/d",[]] ["put","/d",[]]
run: /d/ /d/b=x /d/a/ /d/a/y=z /d/c/ :: 1 :: rm :: -rf :: /d :: /n => 0 [] [] ["kind","/d","dir"]
  ["names","/d",["a","b","c"]] ["kind","/d/a","dir"] ["names","/d/a",["y"]] ["kind","/d/a/y","file"]
  ["put","/d/a/y",[]] ["put","/d/a",[]] ["kind","/d/b","file"] ["put","/d/b",[]] ["kind","/d/c",\
  "dir"] ["names","/d/c",[]] ["put","/d/c",[]] ["put","/d",[]] ["kind","/n","missing"]
run: /f=x :: 1 :: rm :: -r :: /f :: /n => 1 [] [rm: /n: No such file or directory%(NL)]
  ["kind","/f","file"] ["put","/f",[]] ["kind","/n","missing"]
run: /d/ @/d :: 1 :: rm :: -r :: .. :: ./ :: /d/. :: /
  => 1 [] [rm: ..: Operation not permitted%(NL)rm: ./: Operation not permitted%(NL)rm: /d/.:
  Operation not permitted%(NL)rm: /: Operation not permitted%(NL)] ["cwd","/d"] ["cwd","/d"]
run: /d/ @/d :: 1 :: rm :: -rf :: ../d/.. :: /dev/null :: /dev/../
  => 1 [] [rm: ../d/..: Operation not permitted%(NL)rm: /dev/null: Operation not
  permitted%(NL)rm: /dev/../: Operation not permitted%(NL)] ["cwd","/d"]
run: %(EMPTY) :: 1 :: rm :: -f :: %(EMPTY) :: %(n*256)
  => 1 [] [rm: : No such file or directory%(NL)rm: %(n*256): File name too long%(NL)]
run: %(EMPTY) :: 1 :: rm :: -f => 0 [] []
run: %(EMPTY) :: 1 :: rm :: -r => 2 [] [rm: usage%(NL)]
run: /f=x :: 1 :: rm :: -i :: /f => 2 [] [rm: usage%(NL)]
run: /-=x :: 1 :: rm :: - => 0 [] [] ["cwd","/"] ["kind","/-","file"] ["put","/-",[]]
run: /f=x :: 1 :: cp :: /f :: /g => 0 [] [] ["kind","/g","missing"] ["bytes","/f",["f","78"]]
  ["canwrite","/g",0,"yes"] ["put","/g",["f","78"]]
run: /f=x /g=old :: 1 :: cp :: /f :: /g => 0 [] [] ["kind","/g","file"] ["bytes","/f",["f","78"]]
  ["canwrite","/g",0,"yes"] ["put","/g",["f","78"]]
run: /f=x /d/ @/d :: 1 :: cp :: ../f :: . => 0 [] [] ["cwd","/d"] ["kind","/d","dir"] ["cwd","/d"]
  ["bytes","/f",["f","78"]] ["canwrite","/d/f",0,"yes"] ["put","/d/f",["f","78"]]
run: /f=x /g=y /d/ :: 1 :: cp :: /f :: /n :: /g :: /d
  => 1 [] [cp: /n: No such file or directory%(NL)] ["kind","/d","dir"] ["bytes","/f",["f","78"]]
  ["canwrite","/d/f",0,"yes"] ["put","/d/f",["f","78"]] ["bytes","/n",[]] ["bytes","/g",["f","79"]]
  ["canwrite","/d/g",0,"yes"] ["put","/d/g",["f","79"]]
run: /f=x :: 1 :: cp :: /f :: /f => 1 [] [cp: /f: same file%(NL)] ["kind","/f","file"]
  ["bytes","/f",["f","78"]]
run: /d/ /d/f=x @/d :: 1 :: cp :: f :: ../d/ => 1 [] [cp: f: same file%(NL)] ["cwd","/d"]
  ["kind","/d","dir"] ["cwd","/d"] ["bytes","/d/f",["f","78"]]
run: /d/ /e/ :: 1 :: cp :: / :: /e :: /d => 1 [] [cp: /: Is a directory%(NL)cp: /e: Is a
  directory%(NL)] ["kind","/d","dir"] ["bytes","/",["d"]] ["bytes","/e",["d"]]
run: /f=x :: 1 :: cp :: /f :: /n/g => 1 [] [cp: /n/g: No such file or directory%(NL)]
  ["kind","/n/g","missing"] ["bytes","/f",["f","78"]] ["canwrite","/n/g",0,"noparent"]
run: /f=x /d/ /d/f/ :: 1 :: cp :: /f :: /d => 1 [] [cp: /d: Is a directory%(NL)] ["kind","/d","dir"]
  ["bytes","/f",["f","78"]] ["canwrite","/d/f",0,"isdir"]
run: /f=x /g=y :: 1 :: cp :: /f :: /f/h => 1 [] [cp: /f/h: Not a directory%(NL)]
  ["kind","/f/h","missing"] ["bytes","/f",["f","78"]] ["canwrite","/f/h",0,"notdir"]
run: /f=x /g=y :: 1 :: cp :: /f :: /g :: /n
  => 1 [] [cp: /n: Not a directory%(NL)] ["kind","/n","missing"]
run: /f=x /g=y :: 1 :: cp :: /f :: /f :: /g
  => 1 [] [cp: /g: Not a directory%(NL)] ["kind","/g","file"]
run: /f=x :: 1 :: cp :: /f :: %(EMPTY) => 1 [] [cp: : No such file or directory%(NL)]
run: /f=x :: 1 :: cp :: %(EMPTY) :: /g => 1 [] [cp: : No such file or directory%(NL)]
  ["kind","/g","missing"]
run: /f=x :: 1 :: cp :: /f :: /dev/null => 0 [] [] ["bytes","/f",["f","78"]]
run: /null=x /dev/ :: 1 :: cp :: /null :: /dev
  => 0 [] [] ["kind","/dev","dir"] ["bytes","/null",["f","78"]]
run: %(EMPTY) :: 1 :: cp :: /dev/null :: /g
  => 0 [] [] ["kind","/g","missing"] ["canwrite","/g",0,"yes"] ["put","/g",["f",""]]
run: /f=x :: 1 :: cp :: /f => 2 [] [cp: usage%(NL)]
run: /f=x :: 1 :: cp :: -r :: /f :: /g => 2 [] [cp: usage%(NL)]
run: /f=x :: 1 :: cp :: -- :: /f :: /g => 0 [] [] ["kind","/g","missing"] ["bytes","/f",["f","78"]]
  ["canwrite","/g",0,"yes"] ["put","/g",["f","78"]]
run: /f=x :: 1 :: mv :: /f :: /g => 0 [] [] ["kind","/g","missing"] ["bytes","/f",["f","78"]]
  ["canwrite","/g",0,"yes"] ["put","/g",["f","78"]] ["put","/f",[]]
run: /f=x /g=old :: 1 :: mv :: -f :: /f :: /g => 0 [] [] ["kind","/g","file"]
  ["bytes","/f",["f","78"]] ["canwrite","/g",0,"yes"] ["put","/g",["f","78"]] ["put","/f",[]]
run: /d/ /d/e/ /d/f=x @/d :: 1 :: mv :: f :: n :: e => 1 [] [mv: n: No such file or directory%(NL)]
  ["cwd","/d"] ["kind","/d/e","dir"] ["cwd","/d"] ["bytes","/d/f",["f","78"]] ["canwrite",\
  "/d/e/f",0,"yes"] ["put","/d/e/f",["f","78"]] ["put","/d/f",[]] ["cwd","/d"] ["bytes","/d/n",[]]
run: /d/ /d/s/ /d/s/x=y /d/a=b :: 1 :: mv :: /d :: /e => 0 [] [] ["kind","/e","missing"]
  ["bytes","/d",["d"]] ["kind","/e","missing"] ["kind","/","dir"] ["names","/d",["a","s"]]
  ["put","/e",["d"]] ["bytes","/d/a",["f","62"]] ["put","/e/a",["f","62"]] ["bytes","/d/s",["d"]]
  ["names","/d/s",["x"]] ["put","/e/s",["d"]] ["bytes","/d/s/x",["f","79"]] ["put","/e/s/x",\
  ["f","79"]] ["put","/d/s/x",[]] ["put","/d/s",[]] ["put","/d/a",[]] ["put","/d",[]]
run: /d/ /d/a=b /e/ /e/d/ :: 1 :: mv :: /d :: /e => 0 [] [] ["kind","/e","dir"] ["bytes","/d",["d"]]
  ["kind","/e/d","dir"] ["names","/e/d",[]] ["names","/d",["a"]] ["put","/e/d",["d"]]
  ["bytes","/d/a",["f","62"]] ["put","/e/d/a",["f","62"]] ["put","/d/a",[]] ["put","/d",[]]
run: /d/ /e/ /e/d/ /e/d/x=y :: 1 :: mv :: /d :: /e => 1 [] [mv: /e: Directory not empty%(NL)]
  ["kind","/e","dir"] ["bytes","/d",["d"]] ["kind","/e/d","dir"] ["names","/e/d",["x"]]
run: /d/ /e/ /e/d=x :: 1 :: mv :: /d :: /e => 1 [] [mv: /e: Not a directory%(NL)]
  ["kind","/e","dir"] ["bytes","/d",["d"]] ["kind","/e/d","file"]
run: /d/ :: 1 :: mv :: /d :: /n/e => 1 [] [mv: /n/e: No such file or directory%(NL)]
  ["kind","/n/e","missing"] ["bytes","/d",["d"]] ["kind","/n/e","missing"] ["kind","/n","missing"]
run: /d/ /f=x :: 1 :: mv :: /d :: /f/e => 1 [] [mv: /f/e: Not a directory%(NL)]
  ["kind","/f/e","missing"] ["bytes","/d",["d"]] ["kind","/f/e","missing"] ["kind","/f","file"]
run: /d/ :: 1 :: mv :: /d :: /dev/null/e => 1 [] [mv: /dev/null/e: Not a directory%(NL)]
  ["kind","/dev/null/e","missing"] ["bytes","/d",["d"]] ["kind","/dev/null/e","missing"]
run: /d/ /f=x :: 1 :: mv :: /d :: /f => 1 [] [mv: /f: Not a directory%(NL)] ["kind","/f","file"]
  ["bytes","/d",["d"]] ["kind","/f","file"]
run: /d/ :: 1 :: mv :: /d :: /d => 1 [] [mv: /d: Invalid argument%(NL)] ["kind","/d","dir"]
  ["bytes","/d",["d"]]
run: /a/ /f=x @/ :: 1 :: mv :: a :: a/b => 1 [] [mv: a: Invalid argument%(NL)] ["cwd","/"]
  ["kind","/a/b","missing"] ["cwd","/"] ["bytes","/a",["d"]]
run: /f=x :: 1 :: mv :: /f :: //f/ => 1 [] [mv: /f: same file%(NL)] ["kind","/f","file"]
  ["bytes","/f",["f","78"]]
run: /f=x /d/ /d/f/ :: 1 :: mv :: /f :: /d => 1 [] [mv: /d: Is a directory%(NL)] ["kind","/d","dir"]
  ["bytes","/f",["f","78"]] ["canwrite","/d/f",0,"isdir"]
run: /f=x :: 1 :: mv :: /f :: /n/g => 1 [] [mv: /n/g: No such file or directory%(NL)]
  ["kind","/n/g","missing"] ["bytes","/f",["f","78"]] ["canwrite","/n/g",0,"noparent"]
run: /f=x :: 1 :: mv :: /f :: /dev/null => 1 [] [mv: /f: Operation not permitted%(NL)]
run: /f=x :: 1 :: mv :: /f :: /dev => 1 [] [mv: /f: Operation not permitted%(NL)]
  ["kind","/dev","missing"]
run: /null=x /dev/ :: 1 :: mv :: /null :: /dev
  => 1 [] [mv: /null: Operation not permitted%(NL)] ["kind","/dev","dir"]
run: /f=x /dev/ :: 1 :: mv :: /f :: /dev => 0 [] [] ["kind","/dev","dir"] ["bytes","/f",["f","78"]]
  ["canwrite","/dev/f",0,"yes"] ["put","/dev/f",["f","78"]] ["put","/f",[]]
run: /d/ @/d :: 1 :: mv :: . :: / :: /dev/null :: /d/.. :: /x
  => 1 [] [mv: /x: Not a directory%(NL)] ["kind","/x","missing"]
run: /d/ /e/ @/d :: 1 :: mv :: . :: / :: /dev/null :: /d/.. :: /e => 1 [] [mv: .: Operation
  not permitted%(NL)mv: /: Operation not permitted%(NL)mv: /dev/null: Operation not
  permitted%(NL)mv: /d/..: Operation not permitted%(NL)] ["kind","/e","dir"] ["cwd","/d"]
run: /f=x :: 1 :: mv :: /f :: %(EMPTY) => 1 [] [mv: : No such file or directory%(NL)]
run: /d/ :: 1 :: mv :: %(EMPTY) :: /d => 1 [] [mv: : No such file or directory%(NL)]
  ["kind","/d","dir"]
run: /f=x :: 1 :: mv :: /f => 2 [] [mv: usage%(NL)]
run: /f=x :: 1 :: mv :: -i :: /f :: /g => 2 [] [mv: usage%(NL)]
"##;
