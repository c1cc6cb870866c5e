//! Tables of documents: what they hold, or why they are refused.
//!
//! Documents are spelled by hand, or as Python's `json.dumps` writes them with sorted keys and
//! without spaces.

/// Documents that are read: their rows in order, what is skipped, and the rest.
pub const READ: &str = r#"
read: {"attributes":[["/",448,7,8]],"root":"/","skipped":[],"snapshot":1,"taken":"t","tree":[]}
  => / dir 700 7 8; at / of /, t
read: {"attributes":[["/home",493,1,2],["/home/a",420,3,4],["/home/d",1023,0,0],\
  ["/home/d/b",0,4294967295,4294967295]],"root":"/srv/home","skipped":[["/home/l","link"],\
  ["/home/d","odd name","6ff0"]],"snapshot":1,"taken":"2025-05-07T17:00:00Z",\
  "tree":[["/home"],["/home/a","6869"],["/home/d"],["/home/d/b",""]]}%(NL)
  => / dir 755 0 0, /home dir 755 1 2, /home/a file 2 644 3 4, /home/d dir 1777 0 0,
  /home/d/b file 0 0 4294967295 4294967295; /home/d/o\xf0 OddName; /home/l Link;
  at /home/ of /srv/home, 2025-05-07T17:00:00Z
read: {"tree": [["/b", "0A"], ["/a.b"], ["/a"], ["/a/c"]], "taken": "t", "snapshot": 1,
  "skipped": [], "root": "\u00fc", "attributes":
  [["/", 4095, 0, 0], ["/b", 0, 0, 0], ["/a", 1, 0, 0], ["/a.b", 2, 0, 0], ["/a/c", 3, 0, 0]]}
  => / dir 7777 0 0, /a dir 1 0 0, /a/c dir 3 0 0, /a.b dir 2 0 0, /b file 1 0 0 0; at / of ü, t
read: {"attributes":[["/",0,0,0]],"root":"","skipped":[["/a","link"],["/b","device"],\
  ["/c","pipe"],["/d","socket"],["/e","other file system"],["/f","too large"],["/g","odd name"],\
  ["/h","name too long"],["/i","unreadable"],["/j","changing"],["/dev/null","null device"],\
  ["/k","asked"]],"snapshot":1,"taken":"t","tree":[]}
  => / dir 0 0 0; /a Link; /b Device; /c Pipe; /d Socket; /dev/null NullDevice;
  /e OtherFileSystem; /f TooLarge; /g OddName; /h NameTooLong; /i Unreadable; /j Changing;
  /k Asked; at / of , t
read: {"attributes":[["/",0,0,0]],"root":"","skipped":[["/%(n*256)","name too long"],\
  ["/","name too long","%(ff*3)"]],"snapshot":1,"taken":"t","tree":[]}
  => / dir 0 0 0; /\xff\xff\xff NameTooLong; /%(n*256) NameTooLong; at / of , t
read: {"attributes":[],"root":"a","skipped":[],"snapshot":2,"snapshot":1,"taken":"t","tree":[],\
  "attributes":[["/",0,0,0]],"root":"b"}
  => / dir 0 0 0; at / of b, t
"#;

/// Snapshots whose documents are read again as they were.
pub const AGAIN: &str = "
again: /f file x 4755 7 8, /d dir 1777, /d/e dir, /d.e file q, /l Link, /! file x, /d/! Device
  :: /
  => / dir 755 0 0, /d dir 1777 0 0, /d/e dir 755 0 0, /d.e file 1 644 0 0, /f file 1 4755 7 8;
  /\\xff OddName; /d/\\xff OddName; /l Link; at / of home, now
again: /f file x, /%(n*256) file x :: /a/b
  => / dir 755 0 0, /a dir 755 0 0, /a/b dir 755 0 0, /a/b/f file 1 644 0 0;
  /a/b/%(n*256) NameTooLong; at /a/b/ of home, now
";

/// Documents that are refused.
pub const REFUSED: &str = r#"
read: %(EMPTY) => not a JSON value
read: {"attributes":[["/",0,0,0]],"root":"","skipped":[],"snapshot":1,"taken":"","tree":[]
  => not a JSON value
read: {"attributes":[["/",0,0,0]],"root":"!","skipped":[],"snapshot":1,"taken":"","tree":[]}
  => not a JSON value
read: [] => not a snapshot
read: {"attributes":[["/",0,0,0]],"root":"","skipped":[],"snapshot":2,"taken":"","tree":[]}
  => not a snapshot
read: {"attributes":[["/",0,0,0]],"root":"","skipped":[],"snapshot":1,"taken":""}
  => not a snapshot
read: {"attributes":[["/",0,0,0]],"root":"","skipped":[],"snapshot":1,"taken":"","tree":{}}
  => not a snapshot
read: {"attributes":[["/",0,0,0]],"root":"","skipped":[],"snapshot":1,"taken":1,"tree":[]}
  => not a snapshot
read: {"attributes":[["/",0,0,0]],"more":1,"root":"","skipped":[],"snapshot":1,"taken":"",\
  "tree":[]}
  => not a snapshot
read: {"attributes":[["/",0,0,0]],"root":"","skipped":[],"snapshot":1,"taken":"",\
  "tree":[["/a"],["/b","f"]]}
  => tree, row 2: not a row
read: {"attributes":[["/",0,0,0],["/a",4096,0,0]],"root":"","skipped":[],"snapshot":1,\
  "taken":"","tree":[["/a"]]}
  => attributes, row 2: not a row
read: {"attributes":[["/",0,0,4294967296]],"root":"","skipped":[],"snapshot":1,"taken":"",\
  "tree":[]}
  => attributes, row 1: not a row
read: {"attributes":[["/",0,0,0]],"root":"","skipped":[["/a","link"],["/b","links"]],\
  "snapshot":1,"taken":"","tree":[]}
  => skipped, row 2: not a row
read: {"attributes":[["/",0,0,0]],"root":"","skipped":[["/","asked"]],"snapshot":1,"taken":"",\
  "tree":[]}
  => skipped, row 1: not a row
read: {"attributes":[["/",0,0,0]],"root":"","skipped":[["/","odd name","66"]],"snapshot":1,\
  "taken":"","tree":[]}
  => skipped, row 1: not a row
read: {"attributes":[["/",0,0,0]],"root":"","skipped":[],"snapshot":1,"taken":"",\
  "tree":[["/a/b"]]}
  => the tree isn't lawful
read: {"attributes":[["/",0,0,0],["/a",0,0,0]],"root":"","skipped":[],"snapshot":1,"taken":"",\
  "tree":[["/a"],["/a"]]}
  => the tree isn't lawful
read: {"attributes":[],"root":"","skipped":[],"snapshot":1,"taken":"","tree":[]}
  => the attributes aren't those of the tree
read: {"attributes":[["/",0,0,0]],"root":"","skipped":[],"snapshot":1,"taken":"",\
  "tree":[["/a"]]}
  => the attributes aren't those of the tree
read: {"attributes":[["/",0,0,0],["/b",0,0,0]],"root":"","skipped":[],"snapshot":1,"taken":"",\
  "tree":[["/a"]]}
  => the attributes aren't those of the tree
read: {"attributes":[["/a",0,0,0],["/a",1,0,0]],"root":"","skipped":[],"snapshot":1,"taken":"",\
  "tree":[["/a"]]}
  => the attributes aren't those of the tree
read: {"attributes":[["/a",0,0,0]],"root":"","skipped":[],"snapshot":1,"taken":"",\
  "tree":[["/a"],["/b"]]}
  => the attributes aren't those of the tree
read: {"attributes":[["/a",0,0,0]],"root":"","skipped":[],"snapshot":1,"taken":"",\
  "tree":[["/a",""]]}
  => the attributes aren't those of the tree
"#;
