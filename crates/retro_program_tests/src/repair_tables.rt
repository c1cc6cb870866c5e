//! The tables of the program's repairs; `retro_rows` says how they are written.

/// Words, an input, and what the program answers; and words that are given in turn, each on what
/// the ones before them wrote.
pub const REPAIRS: &str = r##"
run: retro repair --cancel 1 :: LOG => 0 {"cancelled":[1],"compensations":[[2,"610a",\
  "6361743a20663a204e6f20737563682066696c65206f72206469726563746f72790a"]],"met":[2],\
  "outputs":[[2,"6361743a20663a204e6f20737563682066696c65206f72206469726563746f72790a"]],\
  "redone":[2],"sessions":[[1,"/",1,[]]],"tree":[]}
run: retro relog --cancel 1 :: LOG => 0 {"from":1,"lines":[[2,1,"cat f",[["cwd","/"],["bytes","/f",[]],\
  ["setstatus",1]],"6361743a20663a204e6f20737563682066696c65206f72206469726563746f72790a"]],\
  "log":2,"sessions":[[1,"/",0,[]]],"tree":[]}
run: retro repair --cancel 1,2 :: LOG => 0 {"cancelled":[1,2],"compensations":[[2,"610a",""]],\
  "met":[],"outputs":[],"redone":[],"sessions":[[1,"/",0,[]]],"tree":[]}
run: retro repair --cancel 2,1,2 :: LOG => 0 {"cancelled":[1,2],"compensations":[[2,"610a",""]],\
  "met":[],"outputs":[],"redone":[],"sessions":[[1,"/",0,[]]],"tree":[]}
run: retro repair :: LOG => 0 {"cancelled":[],"compensations":[],"met":[],\
  "outputs":[[1,""],[2,"610a"]],"redone":[],"sessions":[[1,"/",0,[]]],"tree":[["/f","610a"]]}
run: retro repair --cancel= :: LOG => 0 {"cancelled":[],"compensations":[],"met":[],\
  "outputs":[[1,""],[2,"610a"]],"redone":[],"sessions":[[1,"/",0,[]]],"tree":[["/f","610a"]]}
run: retro repair --cancel 1 :: FORGED => 0 {"cancelled":[1],"compensations":[[2,"",\
  "73683a20642f663a204e6f20737563682066696c65206f72206469726563746f72790a"]],"met":[2],\
  "outputs":[[2,"73683a20642f663a204e6f20737563682066696c65206f72206469726563746f72790a"]],\
  "redone":[2],"sessions":[[1,"/",1,[]]],"tree":[]}
run: retro repair :: EMPTY_LOG
  => 0 {"cancelled":[],"compensations":[],"met":[],"outputs":[],"redone":[],"sessions":[],"tree":[]}
run: retro repair --cancel 99 :: LOG => 1 retro: refused 21
run: retro repair --cancel 0 :: LOG => 1 retro: refused 21
run: retro repair --cancel 1,3 :: LOG => 1 retro: refused 21
run: retro repair --cancel 9 :: [ => 1 retro: refused 12
run: retro repair :: PAIR => 1 retro: refused 14
run: retro repair --cancel 1,,2 :: LOG => 1 retro: refused 31
run: retro repair --cancel :: LOG => 1 retro: refused 31
run: retro repair 1 :: LOG => 1 retro: refused 31
run: retro relog --cancel 99 :: LOG => 1 retro: refused 21
run: retro relog --cancel 0 :: LOG => 1 retro: refused 21
run: retro relog --cancel 1,3 :: LOG => 1 retro: refused 21
run: retro relog --cancel 9 :: [ => 1 retro: refused 12
run: retro relog :: PAIR => 1 retro: refused 14
run: retro relog --cancel 1,,2 :: LOG => 1 retro: refused 31
run: retro relog --cancel :: LOG => 1 retro: refused 31
run: retro relog 1 :: LOG => 1 retro: refused 31
run: retro relog :: EMPTY_LOG => 0 {"from":1,"lines":[],"log":2,"sessions":[],"tree":[]}
in turn: retro relog --cancel 1 :: retro check :: LOG => 0 yes
in turn: retro record :: retro relog :: retro check :: PAIR => 0 yes

given: retro record :: retro relog --cancel 2
- in turn: retro check :: SHARED => 0 yes
- in turn: retro repair --cancel 5 :: SHARED => 0 {"cancelled":[5],\
  "compensations":[[6,"6f6e650a74687265650a666f75720a","6f6e650a74687265650a"]],"met":[6],\
  "outputs":[[1,""],[3,""],[4,"6f6e650a74687265650a"],[6,"6f6e650a74687265650a"]],"redone":[6],\
  "sessions":[[1,"/",0,[]],[2,"/tmp",0,[]]],"tree":[["/tmp"],["/tmp/log","6f6e650a74687265650a"]]}

in turn: retro record :: retro repair --cancel 2,5 :: SHARED => 0 {"cancelled":[2,5],\
  "compensations":[[4,"6f6e650a74776f0a74687265650a","6f6e650a74687265650a"],\
  [6,"6f6e650a74776f0a74687265650a666f75720a","6f6e650a74687265650a"]],"met":[3,4,6],\
  "outputs":[[1,""],[3,""],[4,"6f6e650a74687265650a"],[6,"6f6e650a74687265650a"]],"redone":[4,6],\
  "sessions":[[1,"/",0,[]],[2,"/tmp",0,[]]],"tree":[["/tmp"],["/tmp/log","6f6e650a74687265650a"]]}
"##;

/// Words that replace lines, an input, and what the program answers.
pub const REPLACED: &str = r##"
with each: retro repair --replace '[[1,"echo bb > f"]]' :: --workers 1 :: --workers 3
  :: --workers 16 --cuts 1 :: --cuts 2 :: --cancel= :: PAIR => 0 {"cancelled":[],"compensations":[[2,"610a","62620a"]],\
  "met":[1,2],"outputs":[[1,""],[2,"62620a"]],"redone":[1,2],"sessions":[[1,"/",0,[]]],\
  "tree":[["/f","62620a"]]}
with each: retro relog --replace '[[1,"echo bb > f"]]' :: --workers 1 :: --workers 3
  :: --workers 16 --cuts 1 :: --cuts 2 :: --cancel= :: PAIR => 0 {"from":1,"lines":[[1,1,"echo bb > f",\
  [["cwd","/"],["canwrite","/f",0,"yes"],["put","/f",["f",""]],["canwrite","/f",3,"yes"],\
  ["grow","/f","62620a"],["setstatus",0]],""],[2,1,"cat f",[["cwd","/"],["bytes","/f",["f",\
  "62620a"]],["setstatus",0]],"62620a"]],"log":2,"sessions":[[1,"/",0,[]]],"tree":[]}
run: retro repair --replace '[[1,"echo a > f"]]' :: LOG => 0 {"cancelled":[],"compensations":[],\
  "met":[1],"outputs":[[1,""],[2,"610a"]],"redone":[1],"sessions":[[1,"/",0,[]]],\
  "tree":[["/f","610a"]]}
run: retro repair --replace '[[1,"("]]' :: LOG => 0 {"cancelled":[],\
  "compensations":[[1,"","73683a20756e737570706f72746564206c696e650a"],[2,"610a",\
  "6361743a20663a204e6f20737563682066696c65206f72206469726563746f72790a"]],"met":[1,2],\
  "outputs":[[1,"73683a20756e737570706f72746564206c696e650a"],\
  [2,"6361743a20663a204e6f20737563682066696c65206f72206469726563746f72790a"]],"redone":[1,2],\
  "sessions":[[1,"/",1,[]]],"tree":[]}
run: retro repair --cancel 2 --replace '[[1,"echo bb > f"],[1,"echo bb > f"]]' :: LOG
  => 0 {"cancelled":[2],"compensations":[[2,"610a",""]],"met":[1],"outputs":[[1,""]],"redone":[1],\
  "sessions":[[1,"/",0,[]]],"tree":[["/f","62620a"]]}
run: retro repair --replace [] :: LOG => 0 {"cancelled":[],"compensations":[],"met":[],\
  "outputs":[[1,""],[2,"610a"]],"redone":[],"sessions":[[1,"/",0,[]]],"tree":[["/f","610a"]]}
in turn: retro relog --replace '[[1,"echo bb > f"]]' :: retro check :: LOG => 0 yes
run: retro repair --cancel 1 --replace [[1,"x"]] :: LOG => 1 retro: refused 26
run: retro repair --replace [[9,"x"],[1,"x"],[1,"y"]] :: LOG => 1 retro: refused 26
run: retro repair --replace [[9,"x"]] :: LOG => 1 retro: refused 21
run: retro repair --replace [[0,"x"]] :: LOG => 1 retro: refused 21
run: retro repair --replace [[4294967295,"x"]] :: LOG => 1 retro: refused 21
run: retro repair --cuts 0 --cancel 1 --replace [[1,"x"]] :: LOG => 1 retro: refused 22
run: retro repair --replace [[1,"x"]] :: [ => 1 retro: refused 12
run: retro repair --replace [1] :: LOG => 1 retro: refused 31
run: retro repair --replace [[1]] :: LOG => 1 retro: refused 31
run: retro repair --replace [[1,"x",1]] :: LOG => 1 retro: refused 31
run: retro repair --replace [["1","x"]] :: LOG => 1 retro: refused 31
run: retro repair --replace [[1,2]] :: LOG => 1 retro: refused 31
run: retro repair --replace [[-1,"x"]] :: LOG => 1 retro: refused 31
run: retro repair --replace [[1.0,"x"]] :: LOG => 1 retro: refused 31
run: retro repair --replace [[4294967296,"x"]] :: LOG => 1 retro: refused 31
run: retro repair --replace {} :: LOG => 1 retro: refused 31
run: retro repair --replace [[1,"x"]],[] :: LOG => 1 retro: refused 31
run: retro repair --replace= :: LOG => 1 retro: refused 31
run: retro repair --replace :: LOG => 1 retro: refused 31
run: retro repair --replace [] --replace [] :: LOG => 1 retro: refused 31
run: retro relog --cancel 1 --replace [[1,"x"]] :: LOG => 1 retro: refused 26
run: retro relog --replace [[9,"x"]] :: LOG => 1 retro: refused 21
run: retro relog --replace [1] :: LOG => 1 retro: refused 31
run: retro replay --replace '[[1,"echo bb > f"]]' :: PAIR => 0 {"outputs":[[1,""],[2,"62620a"]],\
  "sessions":[[1,"/",0,[]]],"tree":[["/f","62620a"]]}
run: retro replay --cancel 2 --replace [[1,"("]] :: PAIR => 0 {"outputs":[[1,\
  "73683a20756e737570706f72746564206c696e650a"]],"sessions":[[1,"/",2,[]]],"tree":[]}
run: retro replay --cancel 1 --replace [[1,"x"],[9,"x"]] :: PAIR => 1 retro: refused 26
run: retro replay --replace [[9,"x"]] :: PAIR => 1 retro: refused 21
run: retro replay --replace [1] :: PAIR => 1 retro: refused 31
run: retro record --replace [] :: PAIR => 1 retro: refused 31
run: retro check --replace [] :: LOG => 1 retro: refused 31
"##;

/// Words for repairs with workers and cuts into pieces: what the program answers with each of some
/// further words, and refusals.
pub const OPTIONS: &str = r##"
with each: retro repair --cancel 1 :: --cuts 64 :: --cuts 1,4 :: --cuts 1 :: --cuts 2
  :: --cuts 3,1 :: --cuts 4294967295,4294967295 :: --workers 0 :: --workers 16 --cuts 64
  :: --workers=3 --cuts=1,4 :: --cuts 0000000001 --workers 0000000016 :: READERS
  => 0 {"cancelled":[1],"compensations":[[2,"",\
  "6361743a202f746d702f6b3a204e6f20737563682066696c65206f72206469726563746f72790a"],[3,"700a700a",\
  "6361743a202f746d702f6b3a204e6f20737563682066696c65206f72206469726563746f72790a"],[4,"700a",\
  "6361743a202f746d702f6b3a204e6f20737563682066696c65206f72206469726563746f72790a"],[5,"700a",\
  "677265703a202f746d702f6b3a204e6f20737563682066696c65206f72206469726563746f72790a"]],\
  "met":[2,3,4,5],"outputs":[[2,\
  "6361743a202f746d702f6b3a204e6f20737563682066696c65206f72206469726563746f72790a"],\
  [3,"6361743a202f746d702f6b3a204e6f20737563682066696c65206f72206469726563746f72790a"],\
  [4,"6361743a202f746d702f6b3a204e6f20737563682066696c65206f72206469726563746f72790a"],\
  [5,"677265703a202f746d702f6b3a204e6f20737563682066696c65206f72206469726563746f72790a"]],\
  "redone":[2,3,4,5],"sessions":[[1,"/h",2,[["HOME","/h"]]],[2,"/tmp",0,[["HOME","/tmp"]]]],\
  "tree":[["/etc"],["/etc/passwd","726f6f743a783a303a303a723a2f3a2f62696e2f73680a616c6963653a78\
  3a3130303a3130303a613a2f683a2f62696e2f73680a6d616c6c6f72793a783a3230303a3230303a6d3a2f746d70\
  3a2f62696e2f73680a"],["/h"],["/h/a",""],["/tmp"]]}
with each: retro relog --cancel 1 :: --cuts 64 :: --cuts 1,4 :: --cuts 1 :: --cuts 2
  :: --cuts 3,1 :: --cuts 4294967295,4294967295 :: --workers 0 :: --workers 16 --cuts 64
  :: --workers=3 --cuts=1,4 :: --cuts 0000000001 --workers 0000000016 :: READERS
  => 0 {"from":1,"lines":[[2,1,"cat /tmp/k > a",[["cwd","/h"],["canwrite","/h/a",0,"yes"],\
  ["put","/h/a",["f",""]],["bytes","/tmp/k",[]],["setstatus",1]],\
  "6361743a202f746d702f6b3a204e6f20737563682066696c65206f72206469726563746f72790a"],\
  [3,1,"cat a /tmp/k",[["cwd","/h"],["bytes","/h/a",["f",""]],["bytes","/tmp/k",[]],\
  ["setstatus",1]],\
  "6361743a202f746d702f6b3a204e6f20737563682066696c65206f72206469726563746f72790a"],\
  [4,1,"cat /tmp/k",[["bytes","/tmp/k",[]],["setstatus",1]],\
  "6361743a202f746d702f6b3a204e6f20737563682066696c65206f72206469726563746f72790a"],\
  [5,1,"grep -F p /tmp/k",[["bytes","/tmp/k",[]],["setstatus",2]],\
  "677265703a202f746d702f6b3a204e6f20737563682066696c65206f72206469726563746f72790a"]],"log":2,\
  "sessions":[[1,"/h",0,[["HOME","/h"]]],[2,"/tmp",0,[["HOME","/tmp"]]]],\
  "tree":[["/etc"],["/etc/passwd","726f6f743a783a303a303a723a2f3a2f62696e2f73680a616c6963653a78\
  3a3130303a3130303a613a2f683a2f62696e2f73680a6d616c6c6f72793a783a3230303a3230303a6d3a2f746d70\
  3a2f62696e2f73680a"],["/h"],["/tmp"]]}
run: retro repair --workers 17 :: LOG => 1 retro: refused 23
run: retro repair --workers 4294967295 :: LOG => 1 retro: refused 23
run: retro repair --cuts 0 :: LOG => 1 retro: refused 22
run: retro repair --cuts %(EMPTY) :: LOG => 1 retro: refused 22
run: retro repair --cuts= :: LOG => 1 retro: refused 22
run: retro repair --cuts 1,0,2 :: LOG => 1 retro: refused 22
run: retro repair --workers 17 --cuts 0 --cancel 99 :: LOG => 1 retro: refused 23
run: retro repair --workers 16 --cuts 0 --cancel 99 :: LOG => 1 retro: refused 22
run: retro repair --workers 16 --cuts 1 --cancel 99 :: LOG => 1 retro: refused 21
run: retro repair --workers 17 --cuts 0 --cancel 99 :: [ => 1 retro: refused 12
run: retro repair --workers 17 :: PAIR => 1 retro: refused 14
run: retro repair --workers x :: LOG => 1 retro: refused 31
run: retro repair --workers -1 :: LOG => 1 retro: refused 31
run: retro repair --workers +1 :: LOG => 1 retro: refused 31
run: retro repair --workers %(EMPTY) :: LOG => 1 retro: refused 31
run: retro repair --workers= :: LOG => 1 retro: refused 31
run: retro repair --workers :: LOG => 1 retro: refused 31
run: retro repair --workers 1,2 :: LOG => 1 retro: refused 31
run: retro repair --workers 4294967296 :: LOG => 1 retro: refused 31
run: retro repair --workers 00000000001 :: LOG => 1 retro: refused 31
run: retro repair --workers 1 --workers 1 :: LOG => 1 retro: refused 31
run: retro repair --cuts x :: LOG => 1 retro: refused 31
run: retro repair --cuts 1,,2 :: LOG => 1 retro: refused 31
run: retro repair --cuts 1, :: LOG => 1 retro: refused 31
run: retro repair --cuts :: LOG => 1 retro: refused 31
run: retro repair --cuts 4294967296 :: LOG => 1 retro: refused 31
run: retro repair --cuts 1 --cuts 1 :: LOG => 1 retro: refused 31
run: retro repair --workers 17 --cuts x :: [ => 1 retro: refused 31
run: retro relog --workers 17 :: LOG => 1 retro: refused 23
run: retro relog --cuts 0 :: LOG => 1 retro: refused 22
run: retro relog --cuts %(EMPTY) :: LOG => 1 retro: refused 22
run: retro relog --workers 17 --cuts 0 --cancel 99 :: LOG => 1 retro: refused 23
run: retro relog --workers 16 --cuts 0 --cancel 99 :: LOG => 1 retro: refused 22
run: retro relog --workers 17 --cuts 0 --cancel 99 :: [ => 1 retro: refused 12
run: retro relog --workers x :: LOG => 1 retro: refused 31
run: retro relog --workers 1 --workers 1 :: LOG => 1 retro: refused 31
run: retro relog --cuts 1,,2 :: LOG => 1 retro: refused 31
run: retro replay --workers 1 :: PAIR => 1 retro: refused 31
run: retro replay --cuts 1 :: PAIR => 1 retro: refused 31
run: retro record --workers 1 :: PAIR => 1 retro: refused 31
run: retro record --cuts 1 :: PAIR => 1 retro: refused 31
run: retro check --workers 1 :: LOG => 1 retro: refused 31
run: retro check --cuts 1 :: LOG => 1 retro: refused 31
run: retro --workers 1 repair :: LOG => 1 retro: refused 31
"##;
