//! The table of logs that begin at a later line; `retro_rows` says how it is written.

/// Words, an input, and what the program answers; and words that are given in turn, each on what
/// the ones before them wrote.
pub const TRIMS: &str = r##"
run: retro trim --at 2 :: LOG => 0 {"from":2,"lines":[[2,1,"cat f",[["cwd","/"],\
  ["bytes","/f",["f","610a"]],["setstatus",0]],"610a"]],"log":2,"sessions":[[1,"/",0,[]]],\
  "tree":[["/f","610a"]]}
run: retro trim --at 2 :: LATER => 0 {"from":2,"lines":[[2,1,"cat f",[["cwd","/"],\
  ["bytes","/f",["f","610a"]],["setstatus",0]],"610a"]],"log":2,"sessions":[[1,"/",0,[]]],\
  "tree":[["/f","610a"]]}
run: retro trim --at=0000000001 :: LOG => 0 {"from":1,"lines":[[1,1,"echo a > f",[["cwd","/"],\
  ["canwrite","/f",0,"yes"],["put","/f",["f",""]],["canwrite","/f",2,"yes"],["grow","/f","610a"],\
  ["setstatus",0]],""],[2,1,"cat f",[["cwd","/"],["bytes","/f",["f","610a"]],["setstatus",0]],\
  "610a"]],"log":2,"sessions":[[1,"/",0,[]]],"tree":[]}
run: retro trim --at 9 :: LATER => 0 {"from":9,"lines":[],"log":2,"sessions":[[1,"/",0,[]]],\
  "tree":[["/f","610a"]]}
run: retro trim --at 4294967295 :: LOG => 0 {"from":4294967295,"lines":[],"log":2,\
  "sessions":[[1,"/",0,[]]],"tree":[["/f","610a"]]}
run: retro trim --at 2 :: FORGED => 0 {"from":2,"lines":[[2,1,"echo x > d/f",\
  [["put","/d/f",["f","780a"]],["setstatus",0]],""]],"log":2,"sessions":[[1,"/",0,[]]],\
  "tree":[["/d"]]}
run: retro trim --at 1 :: LATER => 1 retro: refused 25
run: retro trim --at 0 :: LATER => 1 retro: refused 25
run: retro trim --at 0 :: LOG => 1 retro: refused 25
run: retro trim --at 0 :: [ => 1 retro: refused 12
run: retro trim --at 2 :: PAIR => 1 retro: refused 14
run: retro trim :: LOG => 1 retro: refused 31
run: retro trim 2 :: LOG => 1 retro: refused 31
run: retro trim --at :: LOG => 1 retro: refused 31
run: retro trim --at= :: LOG => 1 retro: refused 31
run: retro trim --at 1,2 :: LOG => 1 retro: refused 31
run: retro trim --at -1 :: LOG => 1 retro: refused 31
run: retro trim --at 4294967296 :: LOG => 1 retro: refused 31
run: retro trim --at 00000000001 :: LOG => 1 retro: refused 31
run: retro trim --at 1 --at 1 :: LOG => 1 retro: refused 31
run: retro trim --at 2 --cancel 1 :: LOG => 1 retro: refused 31
run: retro trim --at x :: [ => 1 retro: refused 31
run: retro repair --at 1 :: LOG => 1 retro: refused 31
run: retro relog --at 1 :: LOG => 1 retro: refused 31
run: retro check --at 1 :: LOG => 1 retro: refused 31
run: retro record --at 1 :: PAIR => 1 retro: refused 31
run: retro replay --at 1 :: PAIR => 1 retro: refused 31
run: retro check :: LATER => 0 yes
run: retro repair :: LATER => 0 {"cancelled":[],"compensations":[],"met":[],"outputs":[[2,"610a"]],\
  "redone":[],"sessions":[[1,"/",0,[]]],"tree":[["/f","610a"]]}
run: retro repair --cancel 2 :: LATER => 0 {"cancelled":[2],"compensations":[[2,"610a",""]],\
  "met":[],"outputs":[],"redone":[],"sessions":[[1,"/",0,[]]],"tree":[["/f","610a"]]}
run: retro repair --cancel 1 :: LATER => 1 retro: refused 25
run: retro repair --cancel 3 :: LATER => 1 retro: refused 21
run: retro repair --cancel 0 :: LATER => 1 retro: refused 21
run: retro repair --cancel 0,3,1 :: LATER => 1 retro: refused 25
run: retro repair --replace [[1,"x"]] :: LATER => 1 retro: refused 25
run: retro repair --cancel 1 --replace [[1,"x"]] :: LATER => 1 retro: refused 26
run: retro repair --cancel 1 --replace [[2,"x"],[2,"y"]] :: LATER => 1 retro: refused 26
run: retro repair --cancel 1 --cuts 0 :: LATER => 1 retro: refused 22
run: retro repair --cancel 1 --workers 17 :: LATER => 1 retro: refused 23
run: retro repair --cancel 1 :: [ => 1 retro: refused 12
run: retro relog --cancel 1 :: LATER => 1 retro: refused 25
run: retro relog --cancel 0 :: LATER => 1 retro: refused 21
run: retro relog --replace [[3,"x"],[1,"x"]] :: LATER => 1 retro: refused 25
run: retro relog :: LATER => 0 {"from":2,"lines":[[2,1,"cat f",[["cwd","/"],\
  ["bytes","/f",["f","610a"]],["setstatus",0]],"610a"]],"log":2,"sessions":[[1,"/",0,[]]],\
  "tree":[["/f","610a"]]}
run: retro relog --cancel 2 :: LATER => 0 {"from":2,"lines":[],"log":2,"sessions":[[1,"/",0,[]]],\
  "tree":[["/f","610a"]]}
run: retro relog --replace '[[2,"echo b"]]' --workers 1 :: LATER => 0 {"from":2,\
  "lines":[[2,1,"echo b",[["setstatus",0]],"620a"]],"log":2,"sessions":[[1,"/",0,[]]],\
  "tree":[["/f","610a"]]}
run: retro relog :: LOG => 0 {"from":1,"lines":[[1,1,"echo a > f",[["cwd","/"],\
  ["canwrite","/f",0,"yes"],["put","/f",["f",""]],["canwrite","/f",2,"yes"],["grow","/f","610a"],\
  ["setstatus",0]],""],[2,1,"cat f",[["cwd","/"],["bytes","/f",["f","610a"]],["setstatus",0]],\
  "610a"]],"log":2,"sessions":[[1,"/",0,[]]],"tree":[]}
in turn: retro record :: retro trim --at 2 :: retro check :: PAIR => 0 yes
in turn: retro record :: retro relog --cancel 4 :: retro trim --at 3 :: retro trim --at 4
  :: SHARED => 0 {"from":4,"lines":[[5,2,"echo four >> /tmp/log",[["canwrite","/tmp/log",0,"yes"],\
  ["grow","/tmp/log",""],["canwrite","/tmp/log",5,"yes"],["grow","/tmp/log","666f75720a"],\
  ["setstatus",0]],""],[6,1,"cat /tmp/log",[["bytes","/tmp/log",\
  ["f","6f6e650a74776f0a74687265650a666f75720a"]],["setstatus",0]],\
  "6f6e650a74776f0a74687265650a666f75720a"]],"log":2,"sessions":[[1,"/",0,[]],[2,"/tmp",0,[]]],\
  "tree":[["/tmp"],["/tmp/log","6f6e650a74776f0a74687265650a"]]}
in turn: retro record :: retro trim --at 5 :: retro repair --cancel 5 :: SHARED
  => 0 {"cancelled":[5],"compensations":[[6,"6f6e650a74776f0a74687265650a666f75720a",\
  "6f6e650a74776f0a74687265650a"]],"met":[6],"outputs":[[6,"6f6e650a74776f0a74687265650a"]],\
  "redone":[6],"sessions":[[1,"/",0,[]],[2,"/tmp",0,[]]],\
  "tree":[["/tmp"],["/tmp/log","6f6e650a74776f0a74687265650a"]]}
"##;
