//! The tables of log documents; `retro_rows` says how they are written.

/// Logs: `log`, or the number of the refusal that applies first.
pub const LOGS: &str = r##"
log: {"log":1 => 12
log: {"log":1,"tree":[],"sessions":[],"lines":[]}0 => 12
log: [] => 13
log: {} => 13
log: {"x":0} => 14
log: {"log":1,"tree":[],"sessions":[],"lines":[],"from":1} => 14
log: {"script":1,"tree":[],"sessions":[],"lines":[]} => 14
log: {"log":2} => 13
log: {"log":3} => 13
log: {"log":3,"from":0} => 13
log: {"log":3,"tree":0,"sessions":0,"lines":0} => 16
log: {"log":3,"tree":0,"sessions":0,"lines":0,"from":1} => 16
log: {"log":3,"tree":0,"sessions":0,"lines":0,"x":1} => 14
log: {"log":1,"tree":0,"sessions":0,"lines":0,"from":0} => 14
log: {"log":"1","tree":0,"sessions":0,"lines":0,"from":0} => 13
log: {"log":2,"tree":[["/a/b"]],"sessions":0,"lines":0} => 13
log: {"log":2,"tree":[["/a/b"]],"sessions":0,"lines":0,"from":1} => 10
log: {"log":2,"tree":[["/a/b"]],"sessions":0,"lines":0,"from":0} => 13
log: {"log":2,"tree":[["/a/b"]],"sessions":0,"lines":0,"from":4294967296} => 13
log: {"log":2,"tree":[["/a/b"]],"sessions":0,"lines":0,"from":-1} => 13
log: {"log":2,"tree":[["/a/b"]],"sessions":0,"lines":0,"from":1.0} => 13
log: {"log":2,"tree":[["/a/b"]],"sessions":0,"lines":0,"from":"1"} => 13
log: {"log":2,"tree":[["/a/b"]],"sessions":0,"lines":0,"from":null} => 13
log: {"log":2,"tree":[],"sessions":[],"lines":[],"from":4294967295} => log
log: {"log":2,"tree":[],"sessions":[[1,"/",0,[]]],"lines":[[7,1,"",[],""]],"from":7} => log
log: {"log":2,"tree":[],"sessions":[[1,"/",0,[]]],"lines":[[6,1,"",[],""]],"from":7} => 8
log: {"log":2,"tree":[],"sessions":[[1,"/",0,[]]],"lines":[[6,3,"",[],""]],"from":7} => 8
log: {"log":2,"tree":[],"sessions":[[1,"/",0,[]]],"lines":[[7,3,"",[],""]],"from":7} => 9
log: {"log":2,"tree":[],"sessions":[[1,"/",0,[]]],"lines":[[6,1,"",["x"],""]],"from":7} => 13
log: {"log":2,"tree":[],"sessions":[[1,"/",0,[]]],"from":7,\
  "lines":[[9,1,"",[],""],[8,1,"",[],""]]} => 8
log: {"log":0,"tree":0,"sessions":0,"lines":0} => 16
log: {"log":"1","tree":0,"sessions":0,"lines":0} => 13
log: {"log":1.0,"tree":[],"sessions":[],"lines":[]} => 13
log: {"log":1,"tree":[["/a/b"]],"sessions":0,"lines":0} => 10
log: {"log":1,"tree":[],"sessions":[[1,"/%(n*256)",0,[]]],"lines":0} => 11
log: {"log":1,"tree":[],"sessions":[],"lines":0} => 13
log: {"log":1,"tree":[],"sessions":[],"lines":[]} => log
log: {"lines":[[1,1,"echo a > f",[["cwd","/"],["canwrite","/f",0,"yes"],["put","/f",["f",""]],\
  ["canwrite","/f",2,"yes"],["grow","/f","610a"],["setstatus",0]],""],[2,1,"cat f",[["cwd","/"],\
  ["bytes","/f",["f","610a"]],["setstatus",0]],"610a"]],"log":1,"sessions":[[1,"/",0,[]]],"tree":[]}
  => log
log: {"lines":[[1,1,"echo a > f",[["cwd","/"],["canwrite","/f",0,"yes"],["put","/f",["f",""]],\
  ["canwrite","/f",2,"yes"],["grow","/f","610a"],["setstatus",0]],""],[2,1,"cat f",[["cwd","/"],\
  ["bytes","/f",["f","610a"]],["setstatus",0]],"610a"]],"log":2,"sessions":[[1,"/",0,[]]],"tree":[]}
  => 13
log: {"from":1,"lines":[[1,1,"echo a > f",[["cwd","/"],["canwrite","/f",0,"yes"],\
  ["put","/f",["f",""]],["canwrite","/f",2,"yes"],["grow","/f","610a"],["setstatus",0]],""],\
  [2,1,"cat f",[["cwd","/"],["bytes","/f",["f","610a"]],["setstatus",0]],"610a"]],"log":1,\
  "sessions":[[1,"/",0,[]]],"tree":[]} => 14
log fronts: {"from":1,"lines":[[1,1,"echo a > f",[["cwd","/"],["canwrite","/f",0,"yes"],\
  ["put","/f",["f",""]],["canwrite","/f",2,"yes"],["grow","/f","610a"],["setstatus",0]],""],\
  [2,1,"cat f",[["cwd","/"],["bytes","/f",["f","610a"]],["setstatus",0]],"610a"]],"log":2,\
  "sessions":[[1,"/",0,[]]],"tree":[]} => 12
log: {"log":1,"tree":[],"sessions":[[1,"/",0,[]]],"lines":[[1,1,"mkdir d",[["cwd","/"],\
  ["kind","/d","missing"],["kind","/","dir"],["put","/d",["d"]],["setstatus",0]],""],\
  [2,1,"echo x > d/f",[["put","/d/f",["f","780a"]],["setstatus",0]],""]]} => log
script: {"log":1,"tree":[],"sessions":[],"lines":[]} => 14
"##;

/// The lines of a log of two sessions, 1 and 2, over a directory `/d` with a file `f`.
pub const LOG_LINES: &str = r##"
logged: {} => 13
logged: [] => log
logged: [0] => 13
logged: [[1,1,"",[],""]] => log
logged: [[4294967295,2,"%(t*70000)",[],"%(00*70000)"]] => log
logged: [[4294967296,1,"",[],""]] => 13
logged: [[1,4294967296,"",[],""]] => 13
logged: [[0,1,"",[],""]] => 13
logged: [[1,1,"",[]]] => 13
logged: [[1,1,"",[],"",0]] => 13
logged: [[1,1,0,[],""]] => 13
logged: [[1,1,"",{},""]] => 13
logged: [[1,1,"",[],0]] => 13
logged: [[1,1,"",[],"610"]] => 15
logged: [[1,1,"",[],"6g"]] => 15
logged: [[1,1,"",[],"610A"]] => log
logged: [[1,1,"",[],"6g"],[2,1,""]] => 13
logged: [[1,1,"",[["x"]],"6g"]] => 13
logged: [[0,1,"",[["put","/d",["f","4g"]]],"6g"]] => 13
logged: [[1,1,"",[["cwd","/%(n*256)"]],"6g"]] => 15
logged: [[1,1,"",[["cwd","/%(n*256)"]],""],[2,1,"",[],"6g"]] => 15
logged: [[1,1,"",[["cwd","/%(n*256)"]],""],[2,1,"",[["grow","/d/f","6"]],""]] => 15
logged: [[1,1,"",[["cwd","/%(n*256)"]],""],[2,1,"",[]]] => 13
logged: [[1,1,"",[["cwd","/%(n*256)"],["grow","/d/f","6"],["cwd"]],""]] => 13
logged: [[1,1,"",[["grow","/d/f","6"]],""],[2,1,"",[["cwd"]],""]] => 13
logged: [[1,1,"",[],""],[1,3,"",[["cwd","/%(n*256)"]],""]] => 11
logged: [[2,3,"",[["grow","/d",""]],""],[2,1,"",[],""]] => 8
logged: [[2,1,"",[],""],[1,1,"",[],""]] => 8
logged: [[1,1,"",[["grow","/d",""]],""],[2,3,"",[],""]] => 9
logged: [[1,1,"",[["grow","/d",""]],""]] => 10
logged: [[1,1,"",[["put","/m",["d"]]],""],[2,2,"",[["put","/m/n",["f","00"]]],""]] => log
logged: [[1,1,"",[["put","/m/n",["f","00"]]],""],[2,2,"",[["put","/m",["d"]]],""]] => 10
logged: [[1,1,"",[["put","/m",["d"]],["kind","/m","file"],["put","/m/n",["d"]]],""]] => log
logged: [[1,1,"",[["put","/d/f",[]],["put","/d",[]],["put","/d/f",["d"]]],""]] => 10
"##;

/// The notes of a line of session 1 in such a log.
pub const NOTES: &str = r##"
note: [] => 13
note: "kind" => 13
note: [0] => 13
note: ["Kind","/a","dir"] => 13
note: ["kind","/a","missing"] => log
note: ["kind","/","dir"] => log
note: ["kind","/%(n*255)","file"] => log
note: ["kind","/a","link"] => 13
note: ["kind","/a",0] => 13
note: ["kind","/a"] => 13
note: ["kind","/a","dir",0] => 13
note: ["kind","a","dir"] => 13
note: ["kind","//a","dir"] => 13
note: ["kind","/a/","dir"] => 13
note: ["kind","/a/..","dir"] => 13
note: ["kind","/./a","dir"] => 13
note: ["kind","/a\u0000","dir"] => 13
note: ["kind","/%(n*256)","dir"] => 11
note: ["kind","/%(n*256)","link"] => 13
note: ["bytes","/a",[]] => log
note: ["bytes","/a",["d"]] => log
note: ["bytes","/a",["f",""]] => log
note: ["bytes","/a",["f","0aBf"]] => log
note: ["bytes","/a",["f","4"]] => 15
note: ["bytes","/a",["f","4g"]] => 15
note: ["bytes","/a",["f",0]] => 13
note: ["bytes","/a",["f"]] => 13
note: ["bytes","/a",["f","00","00"]] => 13
note: ["bytes","/a",["d","00"]] => 13
note: ["bytes","/a",["e"]] => 13
note: ["bytes","/a",[0]] => 13
note: ["bytes","/a",null] => 13
note: ["bytes","/a",["f","%(6e*1048576)"]] => log
note: ["bytes","/a",["f","%(6e*1048577)"]] => 11
note: ["bytes","/%(n*256)",["f","4g"]] => 15
note: ["bytes","/%(n*256)",["e"]] => 13
note: ["names","/a",null] => log
note: ["names","/a",[]] => log
note: ["names","/a",["b","a","b","%(n*255)"]] => log
note: ["names","/a",{}] => 13
note: ["names","/a",[0]] => 13
note: ["names","/a",[""]] => 13
note: ["names","/a",["a/b"]] => 13
note: ["names","/a",["."]] => 13
note: ["names","/a",[".."]] => 13
note: ["names","/a",["\u0000"]] => 13
note: ["names","/a",["%(n*256)"]] => 11
note: ["names","/a",["%(n*256)",".."]] => 13
note: ["names","/%(n*256)",[".."]] => 13
note: ["names","/%(n*256)",null] => 11
note: ["canwrite","/a",0,"yes"] => log
note: ["canwrite","/a",4294967295,"noparent"] => log
note: ["canwrite","/a",65536,"notdir"] => log
note: ["canwrite","/a",0,"isdir"] => log
note: ["canwrite","/a",0,"toolarge"] => log
note: ["canwrite","/a",0,"no"] => 13
note: ["canwrite","/a",4294967296,"yes"] => 13
note: ["canwrite","/a",1.0,"yes"] => 13
note: ["canwrite","/a","yes",0] => 13
note: ["canwrite","/%(n*256)",0,"yes"] => 11
note: ["canwrite","/%(n*256)",-1,"yes"] => 13
note: ["user","",null] => log
note: ["user","a\u0000",[4294967295,"\u0000"]] => log
note: ["user","%(n*256)",[0,"%(n*256)"]] => log
note: ["user","a",[4294967296,""]] => 13
note: ["user","a",[0]] => 13
note: ["user","a",[0,"",0]] => 13
note: ["user","a",""] => 13
note: ["user",null,null] => 13
note: ["var","x",null] => log
note: ["var","x","\u0000"] => log
note: ["var","x","%(v*65536)"] => log
note: ["var","x","%(v*65537)"] => 11
note: ["var","x",0] => 13
note: ["var","1x",null] => 13
note: ["var","IFS",null] => 13
note: ["var","OLDPWD","%(v*65537)"] => 13
note: ["cwd","/nowhere"] => log
note: ["cwd","nowhere"] => 13
note: ["cwd",0] => 13
note: ["cwd"] => 13
note: ["cwd","/%(n*256)"] => 11
note: ["status",255] => log
note: ["status",256] => 13
note: ["status","0"] => 13
note: ["status"] => 13
note: ["put","/a",["f","00"]] => log
note: ["put","/a",["d"]] => log
note: ["put","/a",[]] => log
note: ["put","/dev/null",[]] => log
note: ["put","/dev/null/x",[]] => log
note: ["put","/",["d"]] => log
note: ["put","/d/f",["d"]] => log
note: ["put","/d",["d"]] => log
note: ["put","/d",[]] => 10
note: ["put","/d",["f",""]] => 10
note: ["put","/",[]] => 10
note: ["put","/x/y",["d"]] => 10
note: ["put","/d/f/g",["d"]] => 10
note: ["put","/dev/null",["f",""]] => 10
note: ["put","/a",["f","4g"]] => 15
note: ["put","/x/%(n*256)",["d"]] => 11
note: ["put","/%(n*256)",["f","4"]] => 15
note: ["put","/a"] => 13
note: ["put","/a",null] => 13
note: ["grow","/d/f","62"] => log
note: ["grow","/a",""] => log
note: ["grow","/d",""] => 10
note: ["grow","/x/y","00"] => 10
note: ["grow","/a","%(6e*1048577)"] => 10
note: ["grow","/d","4"] => 15
note: ["grow","/%(n*256)","4"] => 15
note: ["grow","/%(n*256)",""] => 11
note: ["grow","/d/f",["f","62"]] => 13
note: ["setvar","x","\u0000"] => log
note: ["setvar","x","%(v*65536)"] => log
note: ["setvar","x","%(v*65537)"] => 11
note: ["setvar","x",null] => 13
note: ["setvar","PWD",""] => 13
note: ["setvar","CDPATH","%(v*65537)"] => 13
note: ["setcwd","/nowhere"] => log
note: ["setcwd","/a//b"] => 13
note: ["setcwd","/%(n*256)"] => 11
note: ["setstatus",255] => log
note: ["setstatus",256] => 13
note: ["setstatus",0,0] => 13
"##;
