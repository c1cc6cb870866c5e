//! Tables of rows of `declare -p`, and of the variables that they say.

/// Values as bash 5.2 prints them in the locale `C.UTF-8`, or `C` in the last rows.
pub const VALUES: &str = r#"
rows: declare -- x="plain text" => x [plain text] own Plain
rows: declare -- x="" => x [] own Plain
rows: declare -- x="it's" => x [it's] own Plain
rows: declare -- x="a\"b\\c\$d\`e!f" => x [a"b\c$d`e!f] own Plain
rows: declare -- x="\$HOME \$(ls)" => x [$HOME $(ls)] own Plain
rows: declare -- x="declare -- y=\"1\"" => x [declare -- y="1"] own Plain
rows: declare -- x="\\n" => x [\n] own Plain
rows: declare -- x="ä" => x [ä] own Plain
rows: declare -- x=$'two\nlines\t\E[0m' => x [two%(NL)lines%(TAB)%(ESC)[0m] own Plain
rows: declare -- x=$'ä\n' => x [ä%(NL)] own Plain
rows: declare -- x=$'\303\244\n' => x [ä%(NL)] own Plain
bytes: 6465636c617265202d2d20783d24275c275c5c225c303031270a => x hex 275c2201 own Plain
bytes: 6465636c617265202d2d20783d24275c615c625c765c665c72270a => x hex 07080b0c0d own Plain
bytes: 6465636c617265202d2d20783d24275c3137375c303337270a => x hex 7f1f own Plain
bytes: 6465636c617265202d2d20783d24275c333737270a => x hex ff own Plain
bytes: 6465636c617265202d2d20783d24275c3030313031270a => x hex 013031 own Plain
"#;

/// Attributes, and rows that say nothing.
pub const ATTRIBUTES: &str = r#"
rows: declare -x e="1" => e [1] exported Plain
rows: declare -i i="7" => i [7] own Changed
rows: declare -l l="abc" => l [abc] own Changed
rows: declare -u u="ABC" => u [ABC] own Changed
rows: declare -c c="Abc" => c [Abc] own Changed
rows: declare -r r="1" => r [1] own Refused
rows: declare -irx irx="4" => irx [4] exported Refused
rows: declare -irtxl all="3" => all [3] exported Refused
rows: declare -t tt="1" => tt [1] own Plain
rows: declare -x z => %(EMPTY)
rows: declare -- z => %(EMPTY)
rows: declare -- - => %(EMPTY)
rows: declare -n ref="x" => %(EMPTY)
rows: declare -n ref => %(EMPTY)
rows: declare -a a=([0]="x" [1]=$'\n') => %(EMPTY)
rows: declare -a a=() => %(EMPTY)
rows: declare -ar a=([10]="") => %(EMPTY)
rows: declare -a a => %(EMPTY)
rows: declare -A h=([k]="v" ["a b"]="w" [$'\n']="" ) => %(EMPTY)
rows: declare -A h=() => %(EMPTY)
rows: declare -- a="1" :: declare -a b=() :: declare -x c="2" => a [1] own Plain,
  c [2] exported Plain
bytes: %(EMPTY) => %(EMPTY)
"#;

/// Rows that bash doesn't print.
pub const OTHERS: &str = r#"
rows: %(EMPTY) => NotPrinted(1)
rows: x="1" => NotPrinted(1)
rows: declare x="1" => NotPrinted(1)
rows: declare - x="1" => NotPrinted(1)
rows: declare -- x=1 => NotPrinted(1)
rows: declare -- x='1' => NotPrinted(1)
rows: declare -- x="1 => NotPrinted(1)
rows: declare -- x="1" 2 => NotPrinted(1)
rows: declare -- x="1\" => NotPrinted(1)
rows: declare -- x="a"b" => NotPrinted(1)
rows: declare -- x="$HOME" => NotPrinted(1)
rows: declare -- x="`ls`" => NotPrinted(1)
rows: declare -- x="\a" => NotPrinted(1)
rows: declare -- x="a%(TAB)b" => NotPrinted(1)
rows: declare -- x=$'abc' => NotPrinted(1)
rows: declare -- x=$'a%(TAB)\n' => NotPrinted(1)
rows: declare -- x=$'\n => NotPrinted(1)
rows: declare -- x=$'\n'' => NotPrinted(1)
rows: declare -- x=$'\x01' => NotPrinted(1)
rows: declare -- x=$'\e' => NotPrinted(1)
rows: declare -- x=$'\n\101' => NotPrinted(1)
rows: declare -- x=$'\012' => NotPrinted(1)
rows: declare -- x=$'\000' => NotPrinted(1)
rows: declare -- x=$'\400' => NotPrinted(1)
rows: declare -- x=$'\01' => NotPrinted(1)
rows: declare -- x=$'\018' => NotPrinted(1)
rows: declare -- x=$"\n" => NotPrinted(1)
rows: declare -- 1x="1" => NotPrinted(1)
rows: declare -- x.y="1" => NotPrinted(1)
rows: declare -- ="1" => NotPrinted(1)
rows: declare -- -="1" => NotPrinted(1)
rows: declare -- ä="1" => NotPrinted(1)
rows: declare -- x y => NotPrinted(1)
rows: declare -xi x="1" => NotPrinted(1)
rows: declare -xx x="1" => NotPrinted(1)
rows: declare -f x="1" => NotPrinted(1)
rows: declare -x- x="1" => NotPrinted(1)
rows: declare -x a=([0]="x") => NotPrinted(1)
rows: declare -a a="x" => NotPrinted(1)
rows: declare -a a=([k]="x") => NotPrinted(1)
rows: declare -a a=([]="x") => NotPrinted(1)
rows: declare -a a=([0]="x" ) => NotPrinted(1)
rows: declare -a a=([0]="x"[1]="y") => NotPrinted(1)
rows: declare -a a=([0]="x") ls => NotPrinted(1)
rows: declare -a a=([0]="$x") => NotPrinted(1)
rows: declare -a a=( => NotPrinted(1)
rows: declare -A h=([k]="v") => NotPrinted(1)
rows: declare -A h=([a b]="v" ) => NotPrinted(1)
rows: declare -A h=([$x]="v" ) => NotPrinted(1)
rows: declare -- a="1" :: declare -- b => a [1] own Plain
rows: declare -- a="1" :: declare -- b= :: declare -- c= => NotPrinted(2)
bytes: 6465636c617265202d2d20783d2231 => CutOff
bytes: 6465636c617265202d2d20783d223122 => CutOff
bytes: 6465636c617265202d2d20783d2427275c275c5c225c30303127270a => NotPrinted(1)
bytes: 0a => NotPrinted(1)
bytes: 6465636c617265202d2d20783d2231220a0a => NotPrinted(2)
bytes: 6465636c617265202d2d20783d22310032220a => NotPrinted(1)
bytes: 6465636c617265202d2d20783d22ff220a => x hex ff own Plain
"#;
