//! The table of rows about the profile; `retro_rows` says how they are written.

/// Lines of a session that has set `v` and `RANDOM`, and why they aren't understood. What is wanted
/// is what bash 5.2 and GNU's utilities make of the line.
pub const UNDERSTOOD: &str = r##"
understood: %(EMPTY) => -
understood: cat f => -
understood: ! cat f && echo n || echo y; true => -
understood: if test -f f; then cat f; elif [ a = b ]; then :; else pwd; fi => -
understood: > f => -
understood: ls => command
understood: true && ls => command
understood: "cat" f => command
understood: $v f => command
understood: nosuch < none => command
understood: if ls; then :; fi => command
understood: if :; then ls; fi => command
understood: if :; then :; else ls; fi => command
understood: if :; then :; elif ls; then :; fi => command
understood: for x in a; do ls; done => command
understood: cat f | ls => command
understood: ls | ( => form
understood: a & => form
understood: echo $(pwd) => form
understood: echo 2> f => form
understood: grep a f => form
understood: grep -F a f => -
understood: cp -r a b => form
understood: rm a -r => form
understood: cd - => form
understood: echo -e x => form
understood: echo "$v" => form
understood: echo "a $v" => -
understood: cat "$v" => form
understood: cat "./$v" => -
understood: PATH=/x => form
understood: for UID in a; do :; done => form
understood: cat * => expansion
understood: cat 'a*' \* "[b]" => -
understood: echo {a,b} => expansion
understood: echo a?b => expansion
understood: echo [ab] => expansion
understood: > * => expansion
understood: cat $v => expansion
understood: > "$v" => -
understood: > $v => expansion
understood: x=* => -
understood: x=$v => -
understood: x=$w => expansion
understood: echo "a $w" => expansion
understood: echo "a $RANDOM" => expansion
understood: w=b; echo "a $w" => -
understood: w=b && echo "a $w" => -
understood: w=b x="a $w" => -
understood: false && w=b; echo "a $w" => expansion
understood: w=b | cat; echo "a $w" => expansion
understood: echo ~/f ~bob/f => -
understood: cd ~+ => expansion
understood: x=~-/f => expansion
understood: echo a=~/f => expansion
understood: echo b:~ => expansion
understood: for x in a b; do cat $x; id -u $x; done => -
understood: for x in a b; do cat f$x; x=c; done => expansion
understood: for x in a b; do for x in c; do :; done; done => expansion
understood: for x in 'a b'; do cat $x; done => expansion
understood: for x in 'a b'; do echo "a $x"; done => -
understood: for x in -r; do rm $x; done => expansion
understood: for x in "$v"; do cat $x; done => expansion
understood: for x in *; do :; done => expansion
understood: cat => terminal
understood: cat - f => terminal
understood: cat < f => -
understood: cat | cat => terminal
understood: echo a | cat => -
understood: echo a | cut -b 1 | tee g => -
understood: if cat; then :; fi => terminal
understood: ls * => command
understood: cat *; ls => expansion
"##;
