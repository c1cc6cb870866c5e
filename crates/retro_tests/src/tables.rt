//! The tables of paths, lines and expansions; `retro_rows` says how they are written.

/// Names, paths, and what texts name from a directory (XBD 3.170, 3.235, 3.271).
pub const PATHS: &str = r##"
given: /x/y
- resolve: /a//b/./../c/ => /a/c
- resolve: c => /x/y/c
- resolve: ../../.. => /
- resolve: / => /
- resolve: . => /x/y
- resolve: ... => /x/y/...
- resolve: %(EMPTY) => empty
- resolve: %(n*255)/.. => /x/y
- resolve: %(n*256) => long
- resolve: %(n*256)/.. => long
- resolve: %(é*128) => long

relative: c => true
relative: /c => false
relative: %(EMPTY) => false
relative: %(n*256) => false
name: ... => true
name: a%(NUL) => true
name: %(EMPTY) => false
name: . => false
name: .. => false
name: a/b => false
name: %(n*255) => true
name: %(n*256) => false
variable: HOME => HOME
variable: _ => _
variable: a1 => a1
variable: _0 => _0
variable: IFS2 => IFS2
variable: ifs => ifs
variable: OLDPWDS => OLDPWDS
variable: %(EMPTY) => none
variable: 1a => none
variable: a-b => none
variable: é => none
variable: a%(NUL) => none
variable: IFS => none
variable: PWD => none
variable: OLDPWD => none
variable: CDPATH => none
path: a :: b => /a/b
path: a :: .. => none
path: a :: b/c => none
parent: /a/b => /a
parent: /a => /
parent: / => /
child: /a :: b => /a/b
child: / :: b => /b
below: /a/b/c :: /a => /b/c
below: /a :: / => /a
below: /a :: /a => /
prefixes: /a/b/c => /a /a/b /a/b/c %(EMPTY)
prefixes: / => %(EMPTY)
below: /a :: /a/b => none
below: /ab :: /a => none
"##;

/// Texts, the trees of their lines, and refusals: 5 unsupported, 6 too long, 7 too deep.
pub const TREES: &str = r##"
tree: %(EMPTY) => %(EMPTY)
tree:  %(TAB) # a; b => %(EMPTY)
tree: a; => [(a,);]
tree: a b;c => [(a,b,);(c,)]
tree: a && b || c;d => [(a,)&&(b,)||(c,);(d,)]
tree: a || ! b && c => [(a,)||!(b,)&&(c,)]
tree: ! a | b>f|c => [!(a,)(b,>f,)(c,)]
tree: <a>b>>c d => [(<a,>b,>>c,d,)]
tree: > f | cat => [(>f,)(cat,)]
tree: 2 > f a2>f 2a => [(2,>f,a2,>f,2a,)]
tree: if a; then b; fi; => [if[(a,);]then[(b,);];]
tree: if a; then b; elif c; then d; else e; fi
  => [if[(a,);]then[(b,);]if[(c,);]then[(d,);]else[(e,);]]
tree: if if a; then b; fi then c; fi && d => [if[if[(a,);]then[(b,);]]then[(c,);]&&(d,)]
tree: for if in in do; do ! a; done => [for if in in,do,do[!(a,);]]
tree: for i in; do a; b; done || c => [for i in do[(a,);(b,);]||(c,)]
tree: echo if then; > if a => [(echo,if,then,);(>if,a,)]
tree: x=1 _y2=a=b z= => [(x:=1,_y2:=a=b,z:=,)]
tree: x="a b"$y'' | a x=1 => [(x:="a b"${y}"",)(a,x=1,)]
tree: > x=1 2a=b "x"=1 \x=1 => [(>x=1,2a=b,"x"=1,"x"=1,)]
tree: > IFS=x => [(>IFS=x,)]
tree: x=~/a:b y=a":"~ z=:\~ => [(x:=~/a:b,y:=a":"~,z:=:"~",)]
tree: echo "a'b"'c"d'\ e => [(echo,"a'bc"d "e,)]
tree: a\;\\ '\' "\a\\\$\"" "" => [(a";\","\","\a\$"","",)]
tree: e\%(NL)ch\%(NL)o a &\%(NL)& b>\%(NL)>c => [(echo,a,)&&(b,>>c,)]
tree: i\%(NL)f a; then "b\%(NL)c" 'd\%(NL)'; fi # e => [if[(a,);]then[("bc","d\%(NL)",);]]
tree: a#b "#" \# #c\ => [(a#b,"#","#",)]
tree: $x${y}z $?${?} => [(${x}${y}z,${?}${?},)]
tree: "$x ${y}z$" a$ $"b" $+ => [("""${x}"" ""${y}""z$",a$,$"b",$+,)]
tree: '$x' \$x "\$x" $x\%(NL)y => [("$x","$"x,"$x",${xy},)]
tree: ~ ~a/b é%(CR) => [(~,~a/b,é%(CR),)]
tree: $é => [($é,)]
tree: a & => 5
tree: a & b => 5
tree: (a) => 5
tree: { a; } => 5
tree: while a; do b; done => 5
tree: until a; do b; done => 5
tree: case a in esac => 5
tree: f() { a; } => 5
tree: a << b => 5
tree: x=1 a => 5
tree: x=1 > f => 5
tree: if a; then b; fi > f => 5
tree: if a; then b; fi | c => 5
tree: a | if b; then c; fi => 5
tree: a <> f => 5
tree: a >| f => 5
tree: a <& 1 => 5
tree: a >& 1 => 5
tree: a 2> f => 5
tree: a 2>f => 5
tree: 10<f => 5
tree: IFS=a => 5
tree: x=1 PWD=a => 5
tree: OLDPWD= => 5
tree: CDPATH="a" => 5
tree: for IFS in a; do b; done => 5
tree: a%(NL)b => 5
tree: a%(NL) => 5
tree: # a%(NL) => 5
tree: x=a:~b => 5
tree: x=~:~alice => 5
tree: x=$y"":~ => 5
tree: ; => 5
tree: a;;b => 5
tree: ; a => 5
tree: a > => 5
tree: a > > f => 5
tree: a >; b => 5
tree: a >>> f => 5
tree: a && => 5
tree: || a => 5
tree: a | => 5
tree: ! ! a => 5
tree: ! => 5
tree: a | ! b => 5
tree: if a; then fi => 5
tree: if a then b; fi => 5
tree: fi => 5
tree: a; then => 5
tree: for 1 in; do a; done => 5
tree: for i; do a; done => 5
tree: for i in a do b; done => 5
tree: for i in a; do b done => 5
tree: > f if => 5
tree: > f x=1 => 5
tree: a; > f then => 5
tree: 'a => 5
tree: "a => 5
tree: a\ => 5
tree: "a\ => 5
tree: a%(NUL) => 5
tree: '%(NUL)' => 5
tree: # %(NUL) => 5
tree: "$ => 5
tree: 2\%(NL)>f => 5
tree: elif => 5
tree: done => 5
tree: } => 5
tree: esac => 5
tree: %(if *33):%(; then :; fi*33) => 7
tree: if a; then b; %(elif a; then b; *3)fi
  => [if[(a,);]then[(b,);]if[(a,);]then[(b,);]if[(a,);]then[(b,);]if[(a,);]then[(b,);]]
tree: %(#*4096) => %(EMPTY)
tree: %(#*4097) => 6
tree: %(if *1365) => 5
tree: %(if *2000) => 6
tilde: ~ => |
tilde: ~bob/a$x => bob|/a
tilde: > ~a:b c => a:b|
tilde: x=~:a => |:a
tilde: x=~a:b/c => a|:b/c
tilde: x=~a/$y => a|/
tilde: ~"" => none
tilde: ~$x => none
tilde: ~a\b/c => none
tilde: \~ => none
tilde: a~ => none
tilde: x=a~ => none
tilde: x=""~ => none
"##;

/// Each form of an expansion that the profile leaves out: as a word, in double quotes, as a value,
/// after a redirection, and as a word of a `for`.
pub const EXPANSIONS: &str = r##"
tree: a $(a) => 5
tree: a "$(a)" => 5
tree: x=$(a) => 5
tree: > $(a) => 5
tree: for i in $(a); do a; done => 5
tree: a $((1)) => 5
tree: a "$((1))" => 5
tree: x=$((1)) => 5
tree: > $((1)) => 5
tree: for i in $((1)); do a; done => 5
tree: a $1 => 5
tree: a "$1" => 5
tree: x=$1 => 5
tree: > $1 => 5
tree: for i in $1; do a; done => 5
tree: a $@ => 5
tree: a "$@" => 5
tree: x=$@ => 5
tree: > $@ => 5
tree: for i in $@; do a; done => 5
tree: a $* => 5
tree: a "$*" => 5
tree: x=$* => 5
tree: > $* => 5
tree: for i in $*; do a; done => 5
tree: a $# => 5
tree: a "$#" => 5
tree: x=$# => 5
tree: > $# => 5
tree: for i in $#; do a; done => 5
tree: a $- => 5
tree: a "$-" => 5
tree: x=$- => 5
tree: > $- => 5
tree: for i in $-; do a; done => 5
tree: a $$ => 5
tree: a "$$" => 5
tree: x=$$ => 5
tree: > $$ => 5
tree: for i in $$; do a; done => 5
tree: a $! => 5
tree: a "$!" => 5
tree: x=$! => 5
tree: > $! => 5
tree: for i in $!; do a; done => 5
tree: a ${1} => 5
tree: a "${1}" => 5
tree: x=${1} => 5
tree: > ${1} => 5
tree: for i in ${1}; do a; done => 5
tree: a ${} => 5
tree: a "${}" => 5
tree: x=${} => 5
tree: > ${} => 5
tree: for i in ${}; do a; done => 5
tree: a ${x:-w} => 5
tree: a "${x:-w}" => 5
tree: x=${x:-w} => 5
tree: > ${x:-w} => 5
tree: for i in ${x:-w}; do a; done => 5
tree: a ${x => 5
tree: a "${x" => 5
tree: x=${x => 5
tree: > ${x => 5
tree: for i in ${x; do a; done => 5
tree: a `a` => 5
tree: a "`a`" => 5
tree: x=`a` => 5
tree: > `a` => 5
tree: for i in `a`; do a; done => 5
tree: a $IFS => 5
tree: a "$IFS" => 5
tree: x=$IFS => 5
tree: > $IFS => 5
tree: for i in $IFS; do a; done => 5
tree: a ${PWD} => 5
tree: a "${PWD}" => 5
tree: x=${PWD} => 5
tree: > ${PWD} => 5
tree: for i in ${PWD}; do a; done => 5
tree: a $OLDPWD => 5
tree: a "$OLDPWD" => 5
tree: x=$OLDPWD => 5
tree: > $OLDPWD => 5
tree: for i in $OLDPWD; do a; done => 5
tree: a ${CDPATH} => 5
tree: a "${CDPATH}" => 5
tree: x=${CDPATH} => 5
tree: > ${CDPATH} => 5
tree: for i in ${CDPATH}; do a; done => 5
"##;
