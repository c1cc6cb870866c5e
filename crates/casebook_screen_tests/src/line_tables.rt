//! The tables of rows about lines of logs; `retro_rows` says how they are written.

/// Lines from one number to another as a table, as a terminal shows them, or as a list of numbers.
/// A table doesn't say what is understood. If a recorder saw the lines, no text is tested, and
/// those that it observed have their own mark.
pub const LINES: &str = r##"
given: market :: 1=alice :: 16=May 06 10:52
- table: 15 :: 16 => 15%(TAB)%(TAB)1%(TAB)alice%(TAB)echo call Bob >> notes; cat notes%(TAB)\
  call Bob⟨U+000A⟩%(TAB)=/home/alice/notes%(TAB)>/home/alice/notes%(NL)16%(TAB)May 06 10:52%(TAB)\
  2%(TAB)2%(TAB)cat report /srv/prices > /srv/summary%(TAB)%(TAB)=/home/bob/report%(TAB)\
  =/srv/prices%(TAB)+/srv/summary%(TAB)>/srv/summary%(NL)

given: market :: 1=alice, 2=bob, 3=mallory :: %(EMPTY)
- screen: 1 :: 7 =>
|     1 alice   cat /etc/motd
|         read  /etc/motd
|         shown 8 bytes: Welcome
|     2 alice   echo plum 5 >> /srv/prices
|         wrote >/srv/prices
|     3 mallory echo apple 1 > /srv/prices
|         wrote +/srv/prices >/srv/prices
|     4 bob     cat /srv/prices > report; cat report
|         read  /srv/prices /home/bob/report
|         wrote +/home/bob/report >/home/bob/report
|         shown 8 bytes: apple 1
|     5 alice   echo remember the pears > notes
|         wrote +/home/alice/notes >/home/alice/notes
|     6 mallory echo Bob: see /tmp/offer >> /etc/motd
|         wrote >/etc/motd
|     7 bob     cat /etc/motd
|         read  /etc/motd
|         shown 28 bytes: Welcome

numbers: market :: %(EMPTY) :: %(EMPTY) :: 18 :: 99 => 18,19,20

given: hostile :: 2=%(ESC)[31m eve :: 1=%(ESC)noon
- table: 1 :: 2 => 1%(TAB)⟨U+001B⟩noon%(TAB)1%(TAB)1%(TAB)\
  echo '⟨U+001B⟩[2J⟨U+202E⟩⟨U+0009⟩' > 'x +/f'%(TAB)%(TAB)+/d/x⟨U+0020⟩+/f%(TAB)\
  >/d/x⟨U+0020⟩+/f%(NL)2%(TAB)%(TAB)2%(TAB)⟨U+001B⟩[31m⟨U+0020⟩eve%(TAB)\
  cat 'x +/f' > '⟨U+001B⟩g'; cat 'x +/f'%(TAB)⟨U+001B⟩[2J⟨U+202E⟩⟨U+0009⟩⟨U+000A⟩%(TAB)\
  =/d/x⟨U+0020⟩+/f%(TAB)+/d/⟨U+001B⟩g%(TAB)>/d/⟨U+001B⟩g%(NL)

given: unknown :: 1=ann, 2=eve :: %(EMPTY)
- screen: 2 :: 4 =>
|     2 ? eve     sed -i s/a/b/ list
|         unknown: a command that Retro doesn't know
|         shown 19 bytes: sh: sed: not found
|     3   eve     cat list
|         read  /srv/list
|         shown 2 bytes: a
|     4 ? ann     cat *
|         unknown: a pattern or value that a shell expands
|         read  /home/ann/*
|         shown 34 bytes: cat: *: No such file or directory

- screen: 2 :: 4 :: observed 3 4 =>
|     2   eve     sed -i s/a/b/ list
|         shown 19 bytes: sh: sed: not found
|     3 o eve     cat list
|         read  /srv/list
|         shown 2 bytes: a
|     4 o ann     cat *
|         shown 34 bytes: cat: *: No such file or directory

- screen: 2 :: 2 :: observed 3 4 =>
|     2 eve     sed -i s/a/b/ list
|         shown 19 bytes: sh: sed: not found

- table: 2 :: 3 => 2%(TAB)%(TAB)2%(TAB)eve%(TAB)sed -i s/a/b/ list%(TAB)\
  sh: sed: not found⟨U+000A⟩%(NL)3%(TAB)%(TAB)2%(TAB)eve%(TAB)cat list%(TAB)a⟨U+000A⟩%(TAB)\
  =/srv/list%(NL)
"##;

/// A script that reads a file before and after it grows, and what is said of its log if a line
/// isn't as noted.
pub const FORGED: &str = r##"
given: {"script":1,"tree":[["/d"],["/d/f","610a"]],"sessions":[[1,"/d",0,[]]],"lines":\
  [[1,1,"cat f"],[2,1,"echo b >> f"],[3,1,"cat f"],[4,1,"echo done"]]} :: 1=alice
- unlike: nothing => %(EMPTY)
- unlike: notes =>
| line 3 of alice isn't as noted: cat f
|     noted / run again: read /d/f line 2: ends before it / b

- unlike: output =>
| line 4 of alice isn't as noted: echo done
|     noted / run again: output line 1: gone / done

- unlike: no notes =>
| line 4 of alice isn't as noted: echo done
|     noted / run again: nothing more / set status: 0
"##;
