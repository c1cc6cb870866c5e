//! Tables of fields: what they are read as, and how values are written.

/// Rows and fields of rows, numbers (of 64 bits, of 32 bits, in octal digits, with a sign), texts,
/// paths and digests.
pub const FIELDS: &str = "
rows: %(EMPTY) => []
rows: a => [a]
rows: a%(NL) => [a] []
rows: %(NL)a%(CR)%(NL)%(NL)b\tc => [] [a%(CR)] [] [b\tc]
fields: %(EMPTY) => []
fields: gone => [gone]
fields: gone\t/a b\t\t7\t => [gone] [/a b] [] [7] []

number: 0 => 0 0 0 0
number: 7 => 7 7 7 7
number: 8 => 8 8 - 8
number: 10 => 10 10 8 10
number: %(0*40)10 => 10 10 8 10
number: 4294967295 => 4294967295 4294967295 - 4294967295
number: 4294967296 => 4294967296 - - 4294967296
number: 37777777777 => 37777777777 - 4294967295 37777777777
number: 40000000000 => 40000000000 - - 40000000000
number: 9223372036854775807 => 9223372036854775807 - - 9223372036854775807
number: 9223372036854775808 => 9223372036854775808 - - -
number: 18446744073709551615 => 18446744073709551615 - - -
number: 18446744073709551616 => - - - -
number: 1777777777777777777777 => - - - -
number: -1 => - - - -1
number: -0 => - - - 0
number: -%(0*40)12 => - - - -12
number: -9223372036854775808 => - - - -9223372036854775808
number: -9223372036854775809 => - - - -
number: -18446744073709551616 => - - - -
number: %(EMPTY) => - - - -
number: - => - - - -
number: --1 => - - - -
number: -+1 => - - - -
number: 1- => - - - -
number: +1 => - - - -
number: %(EMPTY) 1 => - - - -
number: 1 %(EMPTY) => - - - -
number: 1%(CR) => - - - -
number: 1.5 => - - - -
number: 1e3 => - - - -
number: 0x1f => - - - -
number: 1_000 => - - - -
number: 1%32 => - - - -
number: ٣ => - - - -

text: %(EMPTY) => []
text: a b~ => [a b~]
text: %41%2f%2F => [A//]
text: a%09b%0Ac => [a%(TAB)b%(NL)c]
text: %25 => [%]
text: %2541 => [%41]
text: 100% => [100%]
text: %4 => [%4]
text: %4g%zz%%41 => [%4g%zz%A]
text: %C3%A4%c3%a4ä => [äää]
text: %ff%00 => hex ff00
text: %E4 => hex e4

path: %(EMPTY) => []
path: /a => [/a]
path: /a/b c => [/a/b c]
path: /a%2Fb => [/a/b]
path: %2fa => [/a]
path: a => none
path: a/b => none
path: / => none
path: // => none
path: //a => none
path: /a/ => none
path: /a//b => none
path: /. => none
path: /.. => none
path: /a/../b => none
path: /a/. => none
path: /%2E%2e => none
path: /... => [/...]
path: /.a/..a/a. => [/.a/..a/a.]
path: /%C3%A4/ö => [/ä/ö]
path: /%FF => none
path: /%C3/%A4 => none
path: /a%09%0a%7f%25 => [/a%(TAB)%(NL)\u{7f}%]
path: /a%00b => [/a%(NUL)b]
path: /%(n*255) => [/%(n*255)]
path: /%(n*256) => none
path: /%(ä*127)n/%(n*255) => [/%(ä*127)n/%(n*255)]
path: /%(%C3%A4*127)n => [/%(ä*127)n]
path: /%(ä*128) => none

digest: 00ff%(1a*30) => 00ff%(1a*30)
digest: 00FF%(1A*30) => 00ff%(1a*30)
digest: %(0*63) => none
digest: %(0*65) => none
digest: %(0*62)0g => none
digest: %(EMPTY) => none
";

/// Values that are appended to a row.
pub const PUSHED: &str = "
push: number :: 0 => a\t0
push: number :: 18446744073709551615 => a\t18446744073709551615
push: signed :: 0 => a\t0
push: signed :: -1 => a\t-1
push: signed :: -9223372036854775808 => a\t-9223372036854775808
push: signed :: 9223372036854775807 => a\t9223372036854775807
push: octal :: 0 => a\t0
push: octal :: 420 => a\t644
push: octal :: 4294967295 => a\t37777777777
push: text :: %(EMPTY) => a\t
push: text :: a b~%(TAB)%(NL)% => a\ta b~%09%0A%25
push: text :: %41 => a\t%2541
push: text :: \u{7f}\u{1f}%(NUL)/ => a\t%7F%1F%00/
push: text :: ä€ => a\t%C3%A4%E2%82%AC
push: bytes :: ff80 => a\t%FF%80
push: path :: / => a\t
push: path :: /a/b c%/ä%(NL) => a\t/a/b c%25/%C3%A4%0A
push: path :: /%(n*255) => a\t/%(n*255)
push: digest :: 00FF%(1A*30) => a\t00ff%(1a*30)
";
