//! The tables of rows about documents; `retro_rows` says how they are written.

/// About documents, and what they say or why they are refused. Times are those that `date -u`
/// gives.
pub const ABOUTS: &str = r##"
about: {"about":1} => -
about: {"about":1,"sessions":[],"lines":[]} => -
about: {"about":1,"sessions":[[1,"alice"],[2,"bob","tty2","shop"]]} => 1=alice 2=bob
about: {"about":1,"lines":[[106,1746528720],[7,0,"ok","ls",null,"seen"]]}
  => 106@May 06 10:52 7@Jan 01 00:00
about: {"lines":[[5,-1]],"note":{},"sessions":[[4294967295,""]],"about":1}
  => 4294967295= 5@Dec 31 23:59
about: {"about":1,"sessions":[[1,"a"],[1,"b"]]} => 1=a 1=b
about: {"about":1,"lines":[[9,1709164800]]} => 9@Feb 29 00:00
about: {"about":2} => not an about document
about: {"script":1} => not an about document
about: [1] => not an about document
about: {"about":1} x => not a JSON value
about: {"about":1,"sessions":{}} => sessions: not a list
about: {"about":1,"lines":7,"sessions":[7]} => lines: not a list
about: {"about":1,"sessions":[[1,"a"],[4294967296,"b"]]} => sessions, row 2: not a row
about: {"about":1,"sessions":[[1]]} => sessions, row 1: not a row
about: {"about":1,"sessions":[[1,2]]} => sessions, row 1: not a row
about: {"about":1,"lines":[[1,2],[2,3],[3,"x"]]} => lines, row 3: not a row
about: {"about":1,"lines":[[1,2.5]]} => lines, row 1: not a row
about: {"about":1,"lines":[["1",2]],"sessions":[5]} => sessions, row 1: not a row
"##;

/// Scripts and logs that are refused, and for what and where. The last row has bytes in hexadecimal
/// digits; the sixth of them is in no text of UTF-8.
pub const PLACES: &str = r##"
script: {"script":1,"tree":[["/d"],["/f","610"]],"sessions":[],"lines":[]} => 15 tree, item 2
script: {"script":1,"tree":[["/f","6z"],["x"],["y"]],"sessions":[],"lines":[]} => 13 tree, item 2
script: {"script":1,"tree":[["/d"],["/%(a*256)"]],"sessions":[],"lines":[]} => 11 tree, item 2
script: {"script":1,"tree":{},"sessions":[],"lines":[]} => 13 the value of "tree"
script: {"script":1,"tree":[["/d/f",""]],"sessions":[],"lines":[]} => 10 the value of "tree"
script: {"script":1,"tree":[],"sessions":[[1,"/",0,[]],[2,"/",256,[]]],"lines":[]}
  => 13 sessions, item 2
script: {"script":1,"tree":[],"sessions":[[1,"/",0,[["IFS","x"]]]],"lines":[]}
  => 13 sessions, item 1
script: {"script":1,"tree":[],"sessions":[[1,"/",0,[]],[2,"/",0,[]],[3,"/%(a*256)",0,[]]],\
  "lines":[]} => 11 sessions, item 3
script: {"script":1,"tree":[],"sessions":7,"lines":[]} => 13 the value of "sessions"
script: {"script":1,"tree":[],"sessions":[[1,"/",0,[]],[2,"/",0,[]],[1,"/",0,[]],[2,"/",0,[]]],\
  "lines":[]} => 13 sessions, item 3
script: {"script":1,"tree":[],"sessions":[],"lines":[[1,1,"a"],[5,1,7]]}
  => 13 lines, item 2 (line 5)
script: {"script":1,"tree":[],"sessions":[],"lines":[[1,1,"a"],"b",[3]]} => 13 lines, item 2
script: {"script":1,"tree":[],"sessions":[],"lines":[[0,1,"a"]]} => 13 lines, item 1 (line 0)
script: {"script":1,"tree":[],"sessions":[],"lines":null} => 13 the value of "lines"
script: {"script":1,"tree":[],"sessions":[],"lines":[[1]],"lines":[[1,1,"a"],[2]]}
  => 13 lines, item 2 (line 2)
script: {"script":1,"tree":[],"sessions":[[1,"/",0,[]]],"lines":[[1,1,"a"],[3,1,"b"],[3,1,"c"],\
  [2,1,"d"]]} => 8 lines, item 3 (line 3)
script: {"script":1,"tree":[],"sessions":[[1,"/",0,[]]],"lines":[[1,1,"a"],[2,9,"b"],[3,8,"c"]]}
  => 9 lines, item 2 (line 2)
script: {"script":1,"foo":1,"tree":[],"sessions":[],"lines":[],"bar":1} => 14 the key "foo"
script: {"script":1,"tree":[],"sessions":[],"lines":[],"from":1} => 14 the key "from"
script: {"script":1,"log":1,"tree":[],"sessions":[],"lines":[]} => 14 the key "log"
script: {"script":1,"tree":[],"lines":[]} => 13 no key "sessions"
script: {} => 13 no key "script"
script: [1] => 13 the document
script: {"script":"1","tree":[],"sessions":[],"lines":[]} => 13 the value of "script"
script: {"script":2,"tree":[],"sessions":[],"lines":[]} => 16 the value of "script"
script: {"script":1,} => 12 byte 13
script: {} x => 12 byte 4
script: {"a":} => 12 byte 6
script: {"a": 1 2} => 12 byte 9
script: [1} => 12 byte 3
script: ["a":1] => 12 byte 2
script: {"a" => 12 byte 2
script: [1, [2] => 12 byte 8
script: 1,2 => 12 byte 3
script: {"script":1e999} => 12 byte 11
script: [1,-1e400 ] => 12 byte 4

log: {"log":2,"from":1,"tree":[],"sessions":[[1,"/",0,[]]],"lines":[[1,1,"a",[],""],[7,1,"b",[],\
  "z"]]} => 15 lines, item 2 (line 7)
log: {"log":2,"from":1,"tree":[["/f","z"]],"sessions":[[1,"/",0,[]]],"lines":[[1,1,"a",[],"z"]]}
  => 15 tree, item 1
log: {"log":2,"from":1,"tree":[],"sessions":[[1,"/",0,[]]],"lines":[[3,1,"a",[["nope"]],""]]}
  => 13 lines, item 1 (line 3)
log: {"log":2,"from":1,"tree":[],"sessions":[[1,"/",0,[]]],"lines":[[1,1,"a",[],""],[2,1,"b"]]}
  => 13 lines, item 2 (line 2)
log: {"log":2,"from":5,"tree":[],"sessions":[[1,"/",0,[]]],"lines":[[4,1,"a",[],""]]}
  => 8 lines, item 1 (line 4)
log: {"log":2,"from":5,"tree":[],"sessions":[[1,"/",0,[]]],"lines":[[5,1,"a",[],""],[9,1,"a",[],\
  ""],[8,1,"a",[],""]]} => 8 lines, item 3 (line 8)
log: {"log":1,"tree":[],"sessions":[[2,"/",0,[]]],"lines":[[1,2,"a",[],""],[2,3,"a",[],""]]}
  => 9 lines, item 2 (line 2)
log: {"log":1,"from":1,"tree":[],"sessions":[],"lines":[]} => 14 the key "from"
log: {"log":2,"from":1,"tree":[],"sessions":[],"lines":[],"script":1} => 14 the key "script"
log: {"log":2,"tree":[],"sessions":[],"lines":[]} => 13 no key "from"
log: {"log":2,"from":0,"tree":[],"sessions":[],"lines":[]} => 13 the value of "from"
log: {"log":3,"from":0,"tree":[],"sessions":[],"lines":[]} => 16 the value of "log"
log: {"log":-1,"from":0,"tree":[],"sessions":[],"lines":[]} => 13 the value of "log"
log: {"log":2,"from":1,"tree":[],"sessions":[[1,"/",0,[]]],"lines":[[1,1,"a",[["put","/d/f",\
  ["d"]]],""]]} => 10 the document
bytes: 7b2261223aff7d => 12 byte 6
"##;
