//! Whether a typed line may mean in a session's shell what it means in Retro's.
//!
//! A shell can give a line another meaning: a function or an alias takes the place of a utility, or
//! an option changes what the shell does. The recorder keeps one text of a session's shell: what
//! `declare -f`, `alias -p`, `shopt -p` and `set +o` print in bash 5.1 or later, one after the
//! other. [`ShellRules::of`] reads it once. [`ShellRules::leave`] says of a line whether the names
//! and the options leave it as it is.
//!
//! The answer is `false` more often than need be, since the line is then only taken as it was seen:
//!
//! - Each part of the line that may be a word counts, also one that is no command. The words are
//!   those of [`casebook_needs::words_of`], the parts between blanks, operators and quotes.
//! - A row counts wherever it is, also in the body of a function or in the value of an alias. So a
//!   function that is defined within another one counts before that one is called.
//!
//! A name that has a byte between words in it, as `a:b`, is never a word. No utility of the profile
//! has such a name.
//!
//! Variables are no part of the text. A caller adds the name of one that gives a line another
//! meaning, as one that an assignment can't set, by [`ShellRules::add_name`].
//!
//! A look-up takes time in proportion to the logarithm of the number of names. If allocation fails,
//! calls return `NoMem`.
//!
//! Start reading at `rules.rt`, then `rows.rt`.
//!
//! # What is proved
//!
//! - `of` returns exactly the names of the text's rows, and whether no row switches on an option
//!   under which lines mean something else (`rules_of` in `specs/Rules.antt`; what a row says is in
//!   `specs/Rows.antt`).
//! - `leave` returns whether a line means itself under the rules (`means_itself`): no such option
//!   is on, and none of the line's words is a name.
//! - `add_name` adds the name and nothing else. If it fails, the rules are unchanged.
//!
//! That bash prints its functions, aliases and options in such rows isn't proved.
//! `casebook_shell_tests` has texts that bash printed.
#![tactic(auto)]

mod key;
mod parts;
mod rows;
mod rules;

pub use rules::ShellRules;

/// Allocation failed.
pub use retro_path::NoMem;
