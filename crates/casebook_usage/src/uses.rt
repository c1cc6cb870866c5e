//! Why a use of a utility isn't understood.
ghost use Rattle.std.specs.Prelude.{◌≡◌, IfOk, map, string_bytes};
ghost use Rattle.std.specs.List.{list_all};
ghost use Rattle.casebook_usage.specs.Obstacles.{form_unless, has_own_arguments, known_front};
ghost use Rattle.casebook_usage.specs.Obstacles.{is_one_field, option_use_obstacle};
ghost use Rattle.casebook_usage.specs.Obstacles.{request_obstacle, sample, use_obstacle};
ghost use Rattle.casebook_usage.specs.Shape.{shape_view};

use crate::echo::has_other_echo_option;
use crate::form::{has_late_option, is_bracket_test, is_form, is_test, reads_input, request_of};
use crate::obstacle::Obstacle;
use crate::shape::Shape;
use retro_path::NoMem;
use retro_text::{Request, Utility};
use std::alloc::Global;

/// Returns `Form` unless the use is understood.
fn form_unless(is_understood: bool) -> Option<Obstacle>
    ensures { result ≡ form_unless is_understood }
{
    if is_understood {
        None
    } else {
        Some(Obstacle::Form)
    }
}

/// Returns whether each word becomes one field, which is known or is an operand.
fn are_fields(words: &[Shape]) -> bool
    ensures { result ≡ list_all (λ word. is_one_field (shape_view word)) words.now }
{
    words.iter().all(|word| word.is_one_field())
}

/// Returns a field that each word may become.
fn samples(alloc: Global, words: &[Shape]) -> Result<Vec<String>, NoMem>
    ensures { IfOk result (λ fields. map string_bytes fields.items
        ≡ map sample (map shape_view words.now)) }
{
    let mut fields = Vec::new(alloc);
    for word in words {
        fields.push(word.sample(alloc)?)?;
    }
    Ok(fields)
}

/// Returns the fields of known text before the first word whose text is unknown.
fn known_front(alloc: Global, words: &[Shape]) -> Result<Vec<String>, NoMem>
    ensures { IfOk result (λ fields. map string_bytes fields.items
        ≡ known_front (map shape_view words.now)) }
{
    let mut fields = Vec::new(alloc);
    let mut rest = words;
    while let [Shape::Literal(text), more @ ..] = rest {
        fields.push(text.clone()?)?;
        rest = more;
    }
    Ok(fields)
}

/// Returns whether no word of unknown text is the argument of an option.
fn has_own_arguments(alloc: Global, utility: Utility, words: &[Shape]) -> Result<bool, NoMem>
    ensures { IfOk result (λ own. own ≡ has_own_arguments utility (map shape_view words.now)) }
{
    let fields = known_front(alloc, words)?;
    Ok(request_of(alloc, utility, fields.as_slice())?.is_some())
}

/// Returns why a use with these options and operands isn't understood, or `None` if it is.
#[tactic(auto, using(crate::proofs::Lists::list_any_map))]
fn request_obstacle(
    alloc: Global,
    utility: Utility,
    has_input: bool,
    request: &Request,
) -> Result<Option<Obstacle>, NoMem>
    ensures { IfOk result (λ found. found
        ≡ request_obstacle utility has_input (Some request.now)) }
{
    if has_late_option(request.operands()) || !is_form(alloc, utility, request)? {
        Ok(Some(Obstacle::Form))
    } else if !has_input && reads_input(utility, request.operands()) {
        Ok(Some(Obstacle::Terminal))
    } else {
        Ok(None)
    }
}

/// Returns why a use of a utility with options isn't understood, or `None` if it is.
#[tactic(auto, using(crate::proofs::Lists::mapped))]
fn option_use_obstacle(
    alloc: Global,
    utility: Utility,
    has_input: bool,
    words: &[Shape],
) -> Result<Option<Obstacle>, NoMem>
    ensures { IfOk result (λ found. found
        ≡ option_use_obstacle utility has_input (map shape_view words.now)) }
{
    if !are_fields(words) || !has_own_arguments(alloc, utility, words)? {
        return Ok(Some(Obstacle::Form));
    }
    let fields = samples(alloc, words)?;
    match request_of(alloc, utility, fields.as_slice())? {
        Some(request) => request_obstacle(alloc, utility, has_input, &request),
        None => Ok(Some(Obstacle::Form)),
    }
}

/// Returns why a use of a utility isn't understood, or `None` if it is. `words` are those after the
/// name. `has_input` says whether standard input is a pipe or a file, and not the terminal.
#[tactic(auto, using(crate::proofs::Lists::mapped), unfolding(crate::specs::Obstacles::use_obstacle))]
pub fn obstacle_of_use(
    alloc: Global,
    utility: Utility,
    has_input: bool,
    words: &[Shape],
) -> Result<Option<Obstacle>, NoMem>
    ensures { IfOk result (λ found. found
        ≡ use_obstacle utility has_input (map shape_view words.now)) }
{
    match utility {
        Utility::True | Utility::False | Utility::Colon => Ok(None),
        Utility::Echo => Ok(form_unless(!has_other_echo_option(words))),
        Utility::Test => {
            let fields = samples(alloc, words)?;
            Ok(form_unless(are_fields(words) && is_test(fields.as_slice())))
        }
        Utility::Bracket => {
            let fields = samples(alloc, words)?;
            Ok(form_unless(are_fields(words) && is_bracket_test(fields.as_slice())))
        }
        _ => option_use_obstacle(alloc, utility, has_input, words),
    }
}
