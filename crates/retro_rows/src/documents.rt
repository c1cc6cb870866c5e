//! Documents that several crates of tests are about.

/// The script of the market: three people, of whom the third is an intruder, who changes prices and
/// notes and looks at a report. Without the intruder's lines, which are 3, 6, 9, 13 and 18, other
/// lines of the other two print and write something else.
pub const MARKET: &str = r#"{
  "script": 1,
  "tree": [
    ["/etc"],
    ["/etc/motd","57656c636f6d650a"],
    ["/home"],
    ["/home/alice"],
    ["/home/bob"],
    ["/srv"],
    ["/srv/prices","6170706c6520330a7065617220340a"],
    ["/tmp"]
  ],
  "sessions": [
    [1,"/home/alice",0,[]],
    [2,"/home/bob",0,[]],
    [3,"/tmp",0,[]]
  ],
  "lines": [
    [1,1,"cat /etc/motd"],
    [2,1,"echo plum 5 >> /srv/prices"],
    [3,3,"echo apple 1 > /srv/prices"],
    [4,2,"cat /srv/prices > report; cat report"],
    [5,1,"echo remember the pears > notes"],
    [6,3,"echo Bob: see /tmp/offer >> /etc/motd"],
    [7,2,"cat /etc/motd"],
    [8,2,"echo fig 7 >> /srv/prices"],
    [9,3,"echo free apples > /tmp/offer"],
    [10,2,"cat /tmp/offer"],
    [11,1,"cat /srv/prices"],
    [12,1,"echo order more figs >> notes"],
    [13,3,"> /home/alice/notes"],
    [14,1,"cat notes"],
    [15,1,"echo call Bob >> notes; cat notes"],
    [16,2,"cat report /srv/prices > /srv/summary"],
    [17,1,"cat /srv/summary"],
    [18,3,"cat /home/bob/report"],
    [19,2,"cat none; echo looked"],
    [20,1,"cat /etc/motd notes"]
  ]
}"#;

/// A script of two people, of whom the second is an intruder. Of its lines those 17 aren't
/// understood that aren't 3, 6 and 10: by their command, a form, a pattern, or since they read the
/// terminal. The intruder's lines are 2, 3, 5 and 10.
pub const UNKNOWN: &str = r#"{
  "script": 1,
  "tree": [
    ["/home"],
    ["/home/ann"],
    ["/srv"],
    ["/srv/list","610a"]
  ],
  "sessions": [
    [1,"/home/ann",0,[]],
    [2,"/srv",0,[]]
  ],
  "lines": [
    [1,1,"ls"],
    [2,2,"sed -i s/a/b/ list"],
    [3,2,"cat list"],
    [4,1,"cat *"],
    [5,2,"echo x > list; vi list"],
    [6,1,"cat /srv/list"],
    [7,1,"cat /srv/list; date"],
    [8,1,"cat > notes"],
    [9,1,"grep -r x /srv"],
    [10,2,"echo y > other"],
    [11,1,"ls"],
    [12,1,"ls"],
    [13,1,"ls"],
    [14,1,"ls"],
    [15,1,"ls"],
    [16,1,"ls"],
    [17,1,"ls"],
    [18,1,"ls"],
    [19,1,"ls"],
    [20,1,"ls"]
  ]
}"#;

/// A log that isn't as its lines run. Line 2 writes to a directory without asking whether it is
/// there. Without the line that makes the directory the notes of line 2 make no recording, so all
/// lines are run again.
pub const AGAIN: &str = r#"{"log":1,"tree":[],"sessions":[[1,"/",0,[]]],"lines":[
[1,1,"mkdir d",[["cwd","/"],["kind","/d","missing"],["kind","/","dir"],["put","/d",["d"]],
["setstatus",0]],""],
[2,1,"echo x > d/f",[["put","/d/f",["f","780a"]],["setstatus",0]],""],
[3,1,"true",[["setstatus",0]],""],
[4,1,"cat d/f",[["cwd","/"],["bytes","/d/f",["f","780a"]],["setstatus",0]],"780a"],
[5,1,"true",[["setstatus",0]],""]
]}"#;

/// Returns the document that a field of a row names: `market`, `unknown` or `again`. Any other
/// field is a document itself.
pub fn document(field: &str) -> &str {
    match field {
        "market" => MARKET,
        "unknown" => UNKNOWN,
        "again" => AGAIN,
        _ => field,
    }
}
