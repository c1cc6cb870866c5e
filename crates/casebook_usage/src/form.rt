//! The forms of the utilities' synopses (XCU chapter 4) that Retro's shell has.
ghost use Rattle.std.specs.Prelude.{◌≡◌, [], IfOk, is_some, map, string_bytes};
ghost use Rattle.std.specs.List.{list_any};
ghost use Rattle.casebook_usage.specs.Forms.{is_dash, is_directory_use, letters_of, takes};
ghost use Rattle.casebook_usage.specs.Forms.{is_form};
ghost use Rattle.casebook_usage.specs.Obstacles.{reads_as_file, reads_input};
ghost use Rattle.retro_text.specs.Cut.{cut_in};
ghost use Rattle.retro_text.specs.Request.{RequestValue, is_option, known_in, known_letters};
ghost use Rattle.retro_text.specs.Request.{request_in};
ghost use Rattle.retro_text.specs.declared.utility.Utility.TheVariants as utilities;

use retro_path::NoMem;
use retro_text::{
    Condition, Cut, KnownLetters, Request, Search, UsageError, Utility, before_bracket,
};
use std::alloc::Global;

/// Returns the option letters of a utility.
pub(crate) fn letters_of(utility: Utility) -> KnownLetters<'static>
    ensures { known_in result ≡ letters_of utility }
{
    match utility {
        Utility::Id | Utility::Cat => flags(b"u"),
        Utility::Tee => flags(b"a"),
        Utility::Cut => KnownLetters {
            flags: b"s",
            arguments: b"bfd",
        },
        Utility::Grep => flags(b"Fvxcq"),
        Utility::Mkdir => flags(b"p"),
        Utility::Rm => flags(b"frR"),
        Utility::Mv => flags(b"f"),
        _ => flags(b""),
    }
}

/// Returns the letters of a utility whose options take no arguments.
fn flags(letters: &'static [u8]) -> KnownLetters<'static>
    ensures { known_in result ≡ known_letters letters.now [] }
{
    KnownLetters {
        flags: letters,
        arguments: b"",
    }
}

/// Returns the options and operands in the fields of a utility, or `None` if the utility doesn't
/// know an option or an option lacks its argument.
pub(crate) fn request_of<'a>(
    alloc: Global,
    utility: Utility,
    fields: &'a [String],
) -> Result<Option<Request<'a>>, NoMem>
    ensures { IfOk result (λ request. request
        ≡ request_in (letters_of utility) (map string_bytes fields.entry.now)) }
{
    let known = letters_of(utility);
    match Request::of(alloc, &known, fields) {
        Ok(request) => Ok(Some(request)),
        Err(UsageError::Usage) => Ok(None),
        Err(UsageError::NoMem) => Err(NoMem),
    }
}

/// Returns whether the options of `cut` are in a form of its synopsis.
fn is_cut(alloc: Global, request: &Request) -> Result<bool, NoMem>
    ensures { IfOk result (λ is_cut. is_cut ≡ is_some (cut_in request.now.options)) }
{
    match Cut::of(alloc, request) {
        Ok(_) => Ok(true),
        Err(UsageError::Usage) => Ok(false),
        Err(UsageError::NoMem) => Err(NoMem),
    }
}

/// Returns whether the operands are those of `cd [dir]`, without `cd -`.
fn is_directory_use(operands: &[String]) -> bool
    ensures { result ≡ is_directory_use (map string_bytes operands.now) }
{
    match operands {
        [] => true,
        [dir] => dir.as_str() != "-",
        [_, _, ..] => false,
    }
}

/// Returns whether options and operands are in a form of the utility.
pub(crate) fn is_form(alloc: Global, utility: Utility, request: &Request) -> Result<bool, NoMem>
    ensures { IfOk result (λ found. found ≡ is_form utility request.now) }
{
    let operands = request.operands();
    let count = operands.len();
    match utility {
        Utility::Pwd => Ok(count == 0),
        Utility::Cd => Ok(is_directory_use(operands)),
        Utility::Id => Ok(request.has(b'u') && count == 1),
        Utility::Cut => is_cut(alloc, request),
        Utility::Grep => Ok(Search::of(request).is_some()),
        Utility::Mkdir => Ok(count >= 1),
        Utility::Rm => Ok(count >= 1 || request.has(b'f')),
        Utility::Cp | Utility::Mv => Ok(count >= 2),
        _ => Ok(true),
    }
}

/// Returns whether `test` takes these operands.
#[tactic(auto, unfolding(crate::specs::Forms::takes))]
pub(crate) fn is_test(operands: &[String]) -> bool
    ensures { result ≡ takes utilities.Test (map string_bytes operands.now) }
{
    Condition::of(operands).is_some()
}

/// Returns whether `[` takes these fields.
#[tactic(auto, unfolding(crate::specs::Forms::takes))]
pub(crate) fn is_bracket_test(fields: &[String]) -> bool
    ensures { result ≡ takes utilities.Bracket (map string_bytes fields.now) }
{
    match before_bracket(fields) {
        Some(operands) => is_test(operands),
        None => false,
    }
}

/// Returns whether a field would be an option if it weren't after an operand.
fn is_option(field: &str) -> bool
    ensures { result ≡ is_option field.now }
{
    matches!(field.as_bytes(), [b'-', _, ..])
}

/// Returns whether one of the operands would be an option if it weren't after an operand.
pub(crate) fn has_late_option(operands: &[String]) -> bool
    ensures { result ≡ list_any (λ o. is_option (string_bytes o)) operands.now }
{
    operands.iter().any(|operand| is_option(operand.as_str()))
}

/// Returns whether one of the operands is `-`.
fn has_dash(operands: &[String]) -> bool
    ensures { result ≡ list_any (λ o. is_dash (string_bytes o)) operands.now }
{
    operands.iter().any(|operand| operand.as_str() == "-")
}

/// Returns whether standard input is read, as one of the files or as none is given.
#[tactic(auto, using(crate::proofs::Lists::list_any_map))]
fn reads_as_file(files: &[String]) -> bool
    ensures { result ≡ reads_as_file (map string_bytes files.now) }
{
    match files {
        [] => true,
        [_, ..] => has_dash(files),
    }
}

/// Returns whether the utility reads standard input.
pub(crate) fn reads_input(utility: Utility, operands: &[String]) -> bool
    ensures { (request : RequestValue) → request.operands ≡ map string_bytes operands.now
        → result ≡ reads_input utility request }
{
    match utility {
        Utility::Cat | Utility::Cut => reads_as_file(operands),
        Utility::Grep => match operands {
            [] => true,
            [_, files @ ..] => reads_as_file(files),
        },
        Utility::Tee => true,
        _ => false,
    }
}
