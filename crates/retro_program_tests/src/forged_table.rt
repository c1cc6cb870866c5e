//! The table of logs that are no recordings; `retro_rows` says how it is written.

/// Words, an input, and what the program answers; and words that are given in turn, each on what
/// the ones before them wrote. A line that is neither edited nor met stands with its noted output,
/// even if its notes don't hold. A met one is run again.
pub const FORGED_LOGS: &str = r##"
run: retro repair :: ALTERED => 0 {"cancelled":[],"compensations":[],"met":[],\
  "outputs":[[1,""],[2,"610a"]],"redone":[],"sessions":[[1,"/",0,[]]],"tree":[["/f","610a"]]}
run: retro repair --cancel 1 :: ALTERED => 0 {"cancelled":[1],"compensations":[[2,"610a",\
  "6361743a20663a204e6f20737563682066696c65206f72206469726563746f72790a"]],"met":[2],\
  "outputs":[[2,"6361743a20663a204e6f20737563682066696c65206f72206469726563746f72790a"]],\
  "redone":[2],"sessions":[[1,"/",1,[]]],"tree":[]}
run: retro repair --cancel 2 :: ALTERED => 0 {"cancelled":[2],"compensations":[[2,"610a",""]],\
  "met":[],"outputs":[[1,""]],"redone":[],"sessions":[[1,"/",0,[]]],"tree":[["/f","610a"]]}
run: retro repair --replace [[2,"true"]] :: ALTERED => 0 {"cancelled":[],\
  "compensations":[[2,"610a",""]],"met":[2],"outputs":[[1,""],[2,""]],"redone":[2],\
  "sessions":[[1,"/",0,[]]],"tree":[["/f","610a"]]}
run: retro relog --cuts 1 :: ALTERED => 0 {"from":1,"lines":[[1,1,"echo a > f",[["cwd","/"],\
  ["canwrite","/f",0,"yes"],["put","/f",["f",""]],["canwrite","/f",2,"yes"],["grow","/f","610a"],\
  ["setstatus",0]],""],[2,1,"cat f",[["cwd","/"],["bytes","/f",["f","620a"]],["setstatus",0]],\
  "610a"]],"log":2,"sessions":[[1,"/",0,[]]],"tree":[]}
in turn: retro relog :: retro check :: ALTERED => 4 no
in turn: retro trim --at 2 :: retro check :: ALTERED => 4 no
in turn: retro trim --at 2 :: retro relog :: retro trim --at 2 :: FORGED => 0 {"from":2,\
  "lines":[[2,1,"echo x > d/f",[["put","/d/f",["f","780a"]],["setstatus",0]],""]],"log":2,\
  "sessions":[[1,"/",0,[]]],"tree":[["/d"]]}
in turn: retro relog --cancel 1 :: retro trim --at 2 :: retro check :: FORGED => 0 yes
run: retro repair --cancel 1 --workers 1 :: FORGED => 0 {"cancelled":[1],"compensations":[[2,"",\
  "73683a20642f663a204e6f20737563682066696c65206f72206469726563746f72790a"]],"met":[2],\
  "outputs":[[2,"73683a20642f663a204e6f20737563682066696c65206f72206469726563746f72790a"]],\
  "redone":[2],"sessions":[[1,"/",1,[]]],"tree":[]}
run: retro repair --cancel 1 --workers 3 --cuts 1 :: FORGED => 0 {"cancelled":[1],\
  "compensations":[[2,"",\
  "73683a20642f663a204e6f20737563682066696c65206f72206469726563746f72790a"]],"met":[2],\
  "outputs":[[2,"73683a20642f663a204e6f20737563682066696c65206f72206469726563746f72790a"]],\
  "redone":[2],"sessions":[[1,"/",1,[]]],"tree":[]}
run: retro repair --cancel 1 --workers 3 :: {"log":1,"tree":[],"sessions":[[1,"/",0,[]]],\
  "lines":[[1,1,"echo a > f",[["cwd","/"],["canwrite","/f",0,"yes"],["put","/f",["f",""]],\
  ["canwrite","/f",2,"yes"],["grow","/f","610a"],["setstatus",0]],""],[2,1,"cat g",[["cwd","/"],\
  ["bytes","/g",["f","620a"]],["setstatus",0]],"620a"],[3,1,"cat f",[["cwd","/"],\
  ["bytes","/f",["f","610a"]],["setstatus",0]],"610a"]]}
  => 0 {"cancelled":[1],"compensations":[[3,"610a",\
  "6361743a20663a204e6f20737563682066696c65206f72206469726563746f72790a"]],"met":[3],\
  "outputs":[[2,"620a"],[3,"6361743a20663a204e6f20737563682066696c65206f72206469726563746f72790a"]],\
  "redone":[3],"sessions":[[1,"/",1,[]]],"tree":[]}
"##;
