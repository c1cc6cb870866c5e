//! The tables of rows; `retro_rows` says how they are written.

/// What utilities compute from texts alone (XCU chapter 4).
pub const TEXTS: &str = r##"
utility: echo => echo
utility: true => true
utility: false => false
utility: : => :
utility: pwd => pwd
utility: cd => cd
utility: id => id
utility: test => test
utility: [ => [
utility: cat => cat
utility: tee => tee
utility: cut => cut
utility: grep => grep
utility: mkdir => mkdir
utility: rm => rm
utility: cp => cp
utility: mv => mv
utility: ls => none
utility: Echo => none
utility: ech => none
utility: echoo => none
utility: %(EMPTY) => none

given: ab :: cd
- request: x => %(EMPTY) | x
- request: -a => a |
- request: -ab :: x => ab | x
- request: -a :: -b :: x => ab | x
- request: -a :: -a => a |
- request: -cx => %(EMPTY) c=x |
- request: -c :: x :: y => %(EMPTY) c=x | y
- request: -acx :: y => a c=x | y
- request: -ac :: x :: y => a c=x | y
- request: -cab => %(EMPTY) c=ab |
- request: -c :: -a => %(EMPTY) c=-a |
- request: -c :: -- :: -- :: x => %(EMPTY) c=-- | x
- request: -c :: %(EMPTY) => %(EMPTY) c= |
- request: -cx :: -d1 :: -cy => %(EMPTY) c=y d=1 |
- request: -a :: -- :: -b => a | -b
- request: -- :: -- => %(EMPTY) | --
- request: x :: -a => %(EMPTY) | x -a
- request: - :: -a => %(EMPTY) | - -a
- request: %(EMPTY) :: -a => %(EMPTY) |  -a
- request: -x => usage
- request: -ax => usage
- request: -a- => usage
- request: --a => usage
- request: -c => usage
- request: -ac => usage
- request: -a :: -- :: -x => a | -x

textlines: %(EMPTY) => %(EMPTY)
textlines: a => [a]
textlines: a%(NL) => [a]
textlines: a%(NL)b => [a][b]
textlines: a%(NL)b%(NL) => [a][b]
textlines: %(NL) => []
textlines: %(NL)%(NL) => [][]
textlines: %(NL)a => [][a]
textlines: a%(CR)%(NL) => [a%(CR)]
textlines: a%(NUL)b%(NL) => [a%(NUL)b]

given: abcdef%(NL)
- cut: -b1 => a%(NL)
- cut: -b :: 2-3 => bc%(NL)
- cut: -b4- => def%(NL)
- cut: -b-2 => ab%(NL)
- cut: -b1,3,5 => ace%(NL)
- cut: -b5,3,1 => ace%(NL)
- cut: -b2-4,3-5 => bcde%(NL)
- cut: -b2,2,2 => b%(NL)
- cut: -b1 3 => ac%(NL)
- cut: -b1%(TAB)3 => ac%(NL)
- cut: -b3-3 => c%(NL)
- cut: -b7- => %(NL)
- cut: -b000000002 => b%(NL)
- cut: -b6-999999999 => f%(NL)

cut: ab :: -b1 => a%(NL)
cut: %(EMPTY) :: -b1 => %(EMPTY)
cut: ab%(NL)%(NL)cd :: -b2 => b%(NL)%(NL)d%(NL)
cut: é%(NL) :: -b1 => 0xc30a
cut: é%(NL) :: -b2 => 0xa90a
cut: a%(NUL)b%(NL) :: -b2-3 => %(NUL)b%(NL)
cut: abc%(NL) :: -b1 :: -b3 => c%(NL)
cut: abc%(NL) :: -bx :: -b3 => c%(NL)
cut: a%(TAB)b%(TAB)c%(NL) :: -f2 => b%(NL)
cut: a%(TAB)b%(TAB)c%(NL) :: -f1,3 => a%(TAB)c%(NL)
cut: a:b:c%(NL) :: -f3,1 :: -d: => a:c%(NL)
cut: a:b:c%(NL) :: -d: :: -f2- => b:c%(NL)
cut: a:b:c%(NL) :: -d :: : :: -f-2 => a:b%(NL)
cut: a:b:c%(NL) :: -d: :: -f4 => %(NL)
cut: a::c%(NL) :: -d: :: -f2,3 => :c%(NL)
cut: :%(NL) :: -d: :: -f1 => %(NL)
cut: abc%(NL)a:b%(NL) :: -d: :: -f2 => abc%(NL)b%(NL)
cut: abc%(NL)a:b%(NL) :: -s :: -d: :: -f2 => b%(NL)
cut: abc%(NL)a:b%(NL) :: -sd: :: -f3 => %(NL)
cut: abc :: -sf1 => %(EMPTY)
cut: a:b%(NL) :: -dx :: -d: :: -f1 => a%(NL)
cut: a b%(NL) :: -d :: %( *1) :: -f2 => b%(NL)

given: a%(NL)
- cut: -b%(EMPTY) => usage
- cut: -b :: %(EMPTY) => usage
- cut: -b0 => usage
- cut: -b000000000 => usage
- cut: -b0000000001 => usage
- cut: -b1000000000 => usage
- cut: -b- => usage
- cut: -b1-2-3 => usage
- cut: -b--2 => usage
- cut: -b2-1 => usage
- cut: -b0-1 => usage
- cut: -b1-0 => usage
- cut: -b1,,2 => usage
- cut: -b1, 2 => usage
- cut: -b,1 => usage
- cut: -b1, => usage
- cut: -b+1 => usage
- cut: -bx => usage
- cut: -b1%(NL)2 => usage
- cut: -b1 :: -f1 => usage
- cut: -b1 :: -d: => usage
- cut: -b1 :: -s => usage
- cut: -s => usage
- cut: -d: => usage
- cut: x => usage
- cut: -f1 :: -d%(NL) => usage
- cut: -f1 :: -dab => usage
- cut: -f1 :: -dé => usage
- cut: -f1 :: -d :: %(EMPTY) => usage
- cut: -f1 :: -d => usage
- cut: -c1 => usage

given: f
- grep: ab%(NL)bc%(NL)cd%(NL) :: -F :: b => 0 ab%(NL)bc%(NL)
- grep: ab%(NL)bc%(NL)cd :: -F :: d => 0 cd%(NL)
- grep: ab%(NL)bc%(NL) :: -F :: x => 1 %(EMPTY)
- grep: ab%(NL)bc%(NL) :: -Fv :: a => 0 bc%(NL)
- grep: ab%(NL)bc%(NL) :: -F :: -v :: b => 1 %(EMPTY)
- grep: ab%(NL)b%(NL) :: -Fx :: b => 0 b%(NL)
- grep: ab%(NL)b%(NL) :: -Fxv :: b => 0 ab%(NL)
- grep: ab%(NL)bc%(NL)cd%(NL) :: -Fc :: b => 0 2%(NL)
- grep: ab%(NL)bc%(NL)cd%(NL) :: -Fcv :: b => 0 1%(NL)
- grep: ab%(NL) :: -Fc :: x => 1 0%(NL)
- grep: ab%(NL)bc%(NL) :: -Fq :: b => 0 %(EMPTY)
- grep: ab%(NL)bc%(NL) :: -Fq :: x => 1 %(EMPTY)
- grep: ab%(NL)bc%(NL) :: -Fqc :: b => 0 %(EMPTY)
- grep: ab%(NL)bc%(NL)cd%(NL) :: -F :: a%(NL)d => 0 ab%(NL)cd%(NL)
- grep: ab%(NL)%(NL) :: -F :: %(EMPTY) => 0 ab%(NL)%(NL)
- grep: ab%(NL)%(NL) :: -Fx :: %(EMPTY) => 0 %(NL)
- grep: ab%(NL)cd%(NL) :: -F :: x%(NL) => 0 ab%(NL)cd%(NL)
- grep: %(EMPTY) :: -F :: %(EMPTY) => 1 %(EMPTY)
- grep: %(EMPTY) :: -Fv :: x => 1 %(EMPTY)
- grep: %(EMPTY) :: -Fc :: x => 1 0%(NL)
- grep: aab%(NL) :: -F :: ab => 0 aab%(NL)
- grep: a.b%(NL)axb%(NL) :: -F :: a.b => 0 a.b%(NL)
- grep: AB%(NL) :: -F :: ab => 1 %(EMPTY)
- grep: é%(NUL)%(NL) :: -F :: %(NUL) => 0 é%(NUL)%(NL)
- grep: ab%(NL)bc%(NL) :: -F :: b :: f => 0 ab%(NL)bc%(NL)
- grep: ab%(NL)bc%(NL) :: -F :: b :: f :: g => 0 f:ab%(NL)f:bc%(NL)

grep: - :: ab%(NL) :: -F :: b :: - :: g => 0 (standard input):ab%(NL)

given: f :: ab%(NL)
- grep: -Fc :: b :: f :: g => 0 f:1%(NL)
- grep: -F :: b :: f :: -v => 0 f:ab%(NL)
- grep: -F => usage
- grep: b => usage
- grep: -v :: b => usage
- grep: -Fi :: b => usage

grep: f :: ab%(NL)-v%(NL) :: -F :: -- :: -v => 0 -v%(NL)
grepstatus: selected :: none :: -F :: x => 0
grepstatus: none :: none :: -F :: x => 1
grepstatus: selected :: fault :: -F :: x => 2
grepstatus: none :: fault :: -F :: x => 2
grepstatus: selected :: fault :: -Fq :: x => 0
grepstatus: none :: fault :: -Fq :: x => 2
grepstatus: none :: none :: -Fq :: x => 1
condition: %(EMPTY) => false
condition: a => true
condition: -n => true
condition: -- => true
condition: ! => true
condition: -n :: a => true
condition: -n :: %(EMPTY) => false
condition: -z :: a => false
condition: -z :: %(EMPTY) => true
condition: -e :: p => exists p
condition: -f :: p => file p
condition: -d :: p => dir p
condition: -e :: %(EMPTY) => exists %(EMPTY)
condition: -x :: p => usage
condition: -- :: x => usage
condition: ! :: x => usage
condition: a :: = :: a => true
condition: a :: = :: b => false
condition: a :: != :: a => false
condition: a :: != :: b => true
condition: %(EMPTY) :: = :: %(EMPTY) => true
condition: -n :: = :: x => false
condition: -n :: = :: -n => true
condition: a :: == :: a => usage
condition: a :: -eq :: a => usage
condition: a :: = :: b :: c => usage
bracket: ] => false
bracket: a :: ] => true
bracket: ! :: ] => true
bracket: ] :: ] => true
bracket: -n :: %(EMPTY) :: ] => false
bracket: a :: = :: a :: ] => true
bracket: a => usage
bracket: a :: ]] => usage
bracket: ] :: a => usage
bracket: a :: b :: c :: d :: ] => usage
echo: a => a%(NL)
echo: a :: b => a b%(NL)
echo: %(EMPTY) => %(NL)
echo: %(EMPTY) :: %(EMPTY) => %( *1)%(NL)
echo: -n => %(EMPTY)
echo: -n :: a :: b => a b
echo: -n :: -n => -n
echo: a :: -n => a -n%(NL)
echo: -nn => -nn%(NL)
echo: -- :: a => -- a%(NL)
echo: a\n => a\n%(NL)
usage: cut => cut: usage%(NL)
usage: [ => [: usage%(NL)
"##;
