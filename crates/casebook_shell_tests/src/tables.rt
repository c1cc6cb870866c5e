//! Tables of what shells print, and of lines that are typed there.

/// Lines where functions and aliases are defined. `declare -f` printed the functions and `alias -p`
/// the aliases; `shopt -p` and `set +o` printed many more rows.
pub const NAMES: &str = r#"
given: cat () %(NL){ %(NL)    :%(NL)}%(NL)my-ls () %(NL){ %(NL)    ls%(NL)}\
  %(NL)outer () %(NL){ %(NL)    function inner () %(NL)    { %(NL)        echo "usage: rm()"\
  %(NL)    };\
  %(NL)    local words=()%(NL)}\
  %(NL)tee () %(NL){ %(NL)    ( /usr/bin/tee "$@" )%(NL)}\
  %(NL)alias -- -='cd -'%(NL)alias cp='cp -i'%(NL)alias grep='grep -n'\
  %(NL)alias two='a%(NL)mkdir ()'\
  %(NL)shopt -s cmdhist%(NL)shopt -u xpg_echo%(NL)set -o emacs%(NL)set +o noclobber%(NL)
- means: echo a > b => itself
- means: cat a => something else
- means: echo "$(cat a)" => something else
- means: echo cat => something else
- means: echo concatenate => itself
- means: my-ls => something else
- means: ls => itself
- means: outer => something else
- means: inner a => something else
- means: function => itself
- means: rm a => itself
- means: echo usage => itself
- means: local words => itself
- means: echo a | tee b => something else
- means: cp a b => something else
- means: - => something else
- means: test -f a && grep -F b a => something else
- means: two => something else
- means: mkdir a => itself
- means: if test -d a; then cd a; fi => itself
- means: %(EMPTY) => itself
- means_with: count :: count=1 => something else
- means_with: count :: echo "$count" => something else
- means_with: count :: echo counts => itself
- means_with: count :: cat a => something else
means: function cat () %(NL) :: cat a => something else
means: %(TAB)cat()%(TAB) :: cat a => something else
means: cat () { :; } :: cat a => itself
means: cat  :: cat a => itself
means: alias cat :: cat a => itself
means: alias -- cat=x :: cat a => something else
means: alias  =x :: echo a => itself
means: %(EMPTY) :: cat a => itself
"#;

/// Lines under options, as `shopt -p` and `set +o` print them.
pub const OPTIONS: &str = r#"
means: set -o noclobber%(NL) :: echo a => something else
means: set +o noclobber%(NL) :: echo a => itself
means: set -o errexit%(NL) :: echo a => something else
means: set -o nounset%(NL) :: echo a => something else
means: set -o noexec%(NL) :: echo a => something else
means: set -o pipefail%(NL) :: echo a => something else
means: set -o physical%(NL) :: echo a => something else
means: set -o keyword%(NL) :: echo a => something else
means: set -o posix%(NL) :: echo a => something else
means: set -o onecmd%(NL) :: echo a => something else
means: set -o histexpand%(NL) :: echo a => itself
means: set -o xpg_echo%(NL) :: echo a => itself
means: shopt -s xpg_echo%(NL) :: echo a => something else
means: shopt -u xpg_echo%(NL) :: echo a => itself
means: shopt -s cdable_vars%(NL) :: echo a => something else
means: shopt -s cdspell%(NL) :: echo a => something else
means: shopt -u interactive_comments%(NL) :: echo a # b => something else
means: shopt -s interactive_comments%(NL) :: echo a # b => itself
means: shopt -s lastpipe%(NL) :: echo a => something else
means: shopt -s cmdhist%(NL)shopt -s noclobber%(NL) :: echo a => itself
means: set -o emacs%(NL)set -o posix%(NL)set +o vi%(NL) :: echo a => something else
means_with: set -o posix%(NL) :: b :: echo a => something else
"#;
