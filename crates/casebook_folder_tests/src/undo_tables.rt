//! Tables of undo files.

/// The undo files of rows, each read as the same rows again.
pub const WRITTEN: &str = r#"
undo: / :: none => {"at":"/","rows":[],"undo":1}%(NL)
undo: /srv :: /srv/a file x 640 7 8 > file yz 640 7 8 =>
  {"at":"/srv","rows":[["/srv/a",["file","78",416,7,8],\
  ["file","797a",416,7,8]]],"undo":1}%(NL)
undo: /srv :: /srv/d dir 2775 4294967295 4294967295 > missing, /srv/d/e missing > dir 0 =>
  {"at":"/srv","rows":[["/srv/d",["dir",1533,4294967295,4294967295],null],\
  ["/srv/d/e",null,["dir",0,0,0]]],"undo":1}%(NL)
undo: / :: / dir 1777 > dir 755, /a file %(NUL) 7777 > dir 4755 =>
  {"at":"/","rows":[["/",["dir",1023,0,0],["dir",493,0,0]],\
  ["/a",["file","00",4095,0,0],["dir",2541,0,0]]],"undo":1}%(NL)
undo: /a :: /a/b missing > missing, /a/b/c missing > missing, /a/b! missing > missing =>
  {"at":"/a","rows":[["/a/b",null,null],["/a/b/c",null,null],["/a/b!",null,null]],\
  "undo":1}%(NL)
undo: /ä"q :: /ä"q/f file  600 > missing =>
  {"at":"/ä\"q","rows":[["/ä\"q/f",["file","",384,0,0],null]],"undo":1}%(NL)

undo: / :: /a blocked Link > missing => Unwritable
undo: / :: /a missing > missing, /b missing > blocked Above => Unwritable
undo: / :: /a file x 10000 > missing => Unwritable
undo: / :: /a missing > dir 10000 => Unwritable
"#;

/// What texts say as undo files.
pub const READ: &str = r#"
read: {"at":"/srv","rows":[["/srv/a",["file","78",416,7,8],null]],"undo":1} =>
  /srv: /srv/a file x 640 7 8 > missing
read: { "undo" : 1, "more" : [ ], "rows" : [ [ "/a", ["file", "4A4b", 420, 0, 0], null ] ], \
  "at" : "/", "rows" : [ [ "/a", null, [ "dir", 493, 0, 0 ] ] ] } => /: /a missing > dir 755
read: {"at":"/","rows":[["/a",["file","4A4b",420,0,0],null]],"undo":1} =>
  /: /a file JK 644 > missing
read: {"at":"/","rows":[["/a",null,null],["/a/b",null,null],["/a!",null,null]],"undo":1} =>
  /: /a missing > missing, /a/b missing > missing, /a! missing > missing

read: {"at":"/","rows":[],"undo":1 => NotJson
read: {"at":"/","rows":[],"undo":1}x => NotJson
bytes: 34 255 34 => NotJson

read: [] => NotAnUndoFile
read: {"at":"/","rows":[]} => NotAnUndoFile
read: {"at":"/","rows":[],"undo":2} => NotAnUndoFile
read: {"at":"/","rows":[],"undo":"1"} => NotAnUndoFile
read: {"rows":[],"undo":1} => NotAnUndoFile
read: {"at":"srv","rows":[],"undo":1} => NotAnUndoFile
read: {"at":"/srv/","rows":[],"undo":1} => NotAnUndoFile
read: {"at":1,"rows":[],"undo":1} => NotAnUndoFile
read: {"at":"/","undo":1} => NotAnUndoFile
read: {"at":"/","rows":{},"undo":1} => NotAnUndoFile

read: {"at":"/","rows":[null],"undo":1} => BadRow(1)
read: {"at":"/","rows":[["/a",null]],"undo":1} => BadRow(1)
read: {"at":"/","rows":[["/a",null,null,null]],"undo":1} => BadRow(1)
read: {"at":"/","rows":[["/a",null,null],["/../b",null,null]],"undo":1} => BadRow(2)
read: {"at":"/","rows":[["/a//b",null,null]],"undo":1} => BadRow(1)
read: {"at":"/","rows":[["",null,null]],"undo":1} => BadRow(1)
read: {"at":"/","rows":[["/%(n*256)",null,null]],"undo":1} => BadRow(1)
read: {"at":"/","rows":[["/a",[],null]],"undo":1} => BadRow(1)
read: {"at":"/","rows":[["/a",["link",420,0,0],null]],"undo":1} => BadRow(1)
read: {"at":"/","rows":[["/a",["blocked"],null]],"undo":1} => BadRow(1)
read: {"at":"/","rows":[["/a",["dir",493,0],null]],"undo":1} => BadRow(1)
read: {"at":"/","rows":[["/a",["dir","",493,0,0],null]],"undo":1} => BadRow(1)
read: {"at":"/","rows":[["/a",null,["file",420,0,0]]],"undo":1} => BadRow(1)
read: {"at":"/","rows":[["/a",["file","7",420,0,0],null]],"undo":1} => BadRow(1)
read: {"at":"/","rows":[["/a",["file","7g",420,0,0],null]],"undo":1} => BadRow(1)
read: {"at":"/","rows":[["/a",["dir",4096,0,0],null]],"undo":1} => BadRow(1)
read: {"at":"/","rows":[["/a",["dir",493,-1,0],null]],"undo":1} => BadRow(1)
read: {"at":"/","rows":[["/a",["dir",493,0,4294967296],null]],"undo":1} => BadRow(1)
read: {"at":"/","rows":[["/a",["dir",493.0,0,0],null]],"undo":1} => BadRow(1)
read: {"at":"/","rows":[["/b",null,null],["/a",null,null],["/c",1,null]],"undo":1} => BadRow(3)

read: {"at":"/","rows":[["/b",null,null],["/a",null,null]],"undo":1} => Unsorted
read: {"at":"/","rows":[["/a",null,null],["/a",null,null]],"undo":1} => Unsorted
read: {"at":"/","rows":[["/a!",null,null],["/a/b",null,null]],"undo":1} => Unsorted
"#;
