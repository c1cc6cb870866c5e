//! The tables of rows about texts; `retro_rows` says how they are written.

/// Bytes in hexadecimal digits, and how they are shown in one line. Categories are those of
/// UnicodeData.txt; which bytes belong to a character is table 3-7 of the Unicode Standard. Then
/// bytes whose breaks are kept, words, which have no spaces, and texts in HTML.
pub const SHOWN: &str = r##"
shown: 616263207e => abc ~
shown: 1b5b33316d => ⟨U+001B⟩[31m
shown: 00 => ⟨U+0000⟩
shown: 090a0d => ⟨U+0009⟩⟨U+000A⟩⟨U+000D⟩
shown: 7f => ⟨U+007F⟩
shown: c285 => ⟨U+0085⟩
shown: c29b33316d => ⟨U+009B⟩31m
shown: c2ad => ⟨U+00AD⟩
shown: c3a9 => é
shown: e4b8ad => 中
shown: f09f9880 => 😀
shown: e280ae => ⟨U+202E⟩
shown: e2808d => ⟨U+200D⟩
shown: e281a6 => ⟨U+2066⟩
shown: e280a8e280a9 => ⟨U+2028⟩⟨U+2029⟩
shown: efbbbf => ⟨U+FEFF⟩
shown: ee8080 => ⟨U+E000⟩
shown: cdb8 => ⟨U+0378⟩
shown: efbfbf => ⟨U+FFFF⟩
shown: f3a08081 => ⟨U+E0001⟩
shown: f48fbfbd => ⟨U+10FFFD⟩
shown: e29fa8e29fa9 => ⟨U+27E8⟩⟨U+27E9⟩
shown: ff => ⟨FF⟩
shown: 80 => ⟨80⟩
shown: e282 => ⟨E2⟩⟨82⟩
shown: e28241 => ⟨E2⟩⟨82⟩A
shown: f09f98 => ⟨F0⟩⟨9F⟩⟨98⟩
shown: c080 => ⟨C0⟩⟨80⟩
shown: eda080 => ⟨ED⟩⟨A0⟩⟨80⟩
shown: f4908080 => ⟨F4⟩⟨90⟩⟨80⟩⟨80⟩

kept: 610a09620d0b00 => a%(NL)%(TAB)b⟨U+000D⟩⟨U+000B⟩⟨U+0000⟩
kept: %(EMPTY) => %(EMPTY)
word: 61206209630a64 => a⟨U+0020⟩b⟨U+0009⟩c⟨U+000A⟩d

escaped: <script>alert("x")</script> => &lt;script&gt;alert(&quot;x&quot;)&lt;/script&gt;
escaped: it's a 'b' => it&#39;s a &#39;b&#39;
escaped: a && b => a &amp;&amp; b
escaped: &lt; => &amp;lt;
escaped: é<中>😀 => é&lt;中&gt;😀
escaped: plain = 1; => plain = 1;
escaped: %(EMPTY) => %(EMPTY)
"##;

/// A line with each kind of piece, among them bytes that would do harm: an escape, a newline, a
/// tab, a space, and one that is no character. Its width is that of it alone and of two of it. Then
/// texts of lines and of rows of fields, with `|` between lines and between fields.
pub const LINES: &str = r##"
line: 1b5b324a0a0920ff
  => 18446744073709551615%( *2)⟨U+001B⟩[2J⟨U+000A⟩⟨U+0009⟩ ⟨FF⟩|⟨U+001B⟩[2J\
  ⟨U+000A⟩⟨U+0009⟩⟨U+0020⟩⟨FF⟩⟨no newline⟩…
widths: 1b5b324a0a0920ff => 107 214
lines: %(EMPTY) => %(EMPTY)
lines: |a%(NL)b => %(NL)a⟨U+000A⟩b%(NL)
fields: a%(TAB)b||c d :: %(EMPTY) => a⟨U+0009⟩b%(TAB)%(TAB)c d%(NL)%(NL)
"##;

/// Lists, and the numbers that they name or why they are refused. Then files with lists, and
/// numbers as lists.
pub const LISTS: &str = r##"
list: %(EMPTY) => %(EMPTY)
list: 7 => 7
list: 5:all,-41 => 44 92 227
list: 90-98 => 90 92 98
list: 90-98,-92-97 => 90 98
list: 7,-7 => %(EMPTY)
list: -7,7 => 7
list: 98,5,98 => 5 98
list: 0000000007 => 7
list: 4294967295 => 4294967295
list: 0-4294967295,-5:all => item 2: not an item
list: 8 => item 1: no line has the number 8
list: 7,-8 => item 2: no line has the number 8
list: 9-3 => item 1: no line has a number from 9 to 3
list: 7,8-40 => item 2: no line has a number from 8 to 40
list: 7,4:all,x => item 2: no line is of session 4
list: 4294967296 => item 1: not an item
list: 00000000007 => item 1: not an item
list: 7,,5 => item 2: not an item
list: 7, => item 2: not an item
list: , => item 1: not an item
list: 7 ,5 => item 1: not an item
list: +7 => item 1: not an item
list: 7- => item 1: not an item
list: - => item 1: not an item
list: --7 => item 1: not an item
list: 5-7-41 => item 1: not an item
list: 5:ALL => item 1: not an item
list: 5:all:all => item 1: not an item
list: :all => item 1: not an item
list: ٧ => item 1: not an item

file: # the guest's lines%(NL)5:all  # but for two%(NL)%(NL)%(TAB)-41 ,%(TAB)-44%(NL)90-98#%(NL)
  => 5:all,-41,-44,90-98
list: 5:all,-41,-44,90-98 => 90 92 98 227
file: # nothing%(NL) => %(EMPTY)

numbers: 5 41 4294967295 => 5,41,4294967295
numbers: 5 92 4294967295 => 5,92,4294967295
list: 5,92,4294967295 => 5 92 4294967295
numbers: %(EMPTY) => %(EMPTY)
"##;

/// Two texts, whose lines are words, and their diff. Removed lines come before added ones, as in a
/// unified diff. Then the parts of such a diff with one line of context, as the heads of unified
/// diffs.
pub const DIFFS: &str = r##"
diff: a b c :: a b c => =a =b =c
diff: a b c :: a c => =a -b =c
diff: a c :: a b c => =a +b =c
diff: a b c :: a x c => =a -b +x =c
diff: a b c d :: b c d e => -a =b =c =d +e
diff: a b c :: x y c d => -a -b +x +y =c +d
diff: %(EMPTY) :: a b => +a +b
diff: a b :: %(EMPTY) => -a -b
diff: %(EMPTY) :: %(EMPTY) => %(EMPTY)

hunks: a b c :: a b c => %(EMPTY)
hunks: a b c d e :: a b x d e => -2,3 +2,3
hunks: a :: b => -1 +1
hunks: %(EMPTY) :: a b => -0,0 +1,2
hunks: a b :: %(EMPTY) => -1,2 +0,0
hunks: a :: %(EMPTY) => -1 +0,0
hunks: a b c :: a b c d => -3 +3,2
hunks: a b c d e f g :: x b c d e f y => -1,2 +1,2 -6,2 +6,2
hunks: a b c d :: x b c y => -1,4 +1,4
hunks: a b c d e :: x b c d y => -1,2 +1,2 -4,2 +4,2
hunks: %(EMPTY) :: %(EMPTY) => %(EMPTY)
"##;
