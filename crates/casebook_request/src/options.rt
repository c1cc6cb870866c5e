//! What the words of the command line give a command.
ghost use Rattle.std.specs.Prelude.{◌≡◌, option_map};
ghost use Rattle.retro_text.specs.Numbers.{number_in};
ghost use Rattle.casebook_request.specs.Request.{case_given, is_given, is_input_twice, log_given};
ghost use Rattle.casebook_request.specs.Request.{once, read_option};
ghost use Rattle.retro_edge.specs.Calls.{call_view};
ghost use Rattle.casebook_request.specs.Views.{Means};

use crate::problem::Problem;
use crate::words::WordsFault;
use retro_edge::CommandCall;
use retro_text::number_of;

/// Returns the log that a command is given.
pub(crate) fn log_of<'a>(call: &CommandCall<'a>) -> Result<&'a str, WordsFault>
    ensures { Means (λ s. s.now) result (log_given (call_view call.now)) }
{
    call.text_of("log").ok_or(WordsFault::Bad(Problem::NoLog))
}

/// Returns the case that a command is given.
pub(crate) fn case_of<'a>(call: &CommandCall<'a>) -> Result<&'a str, WordsFault>
    ensures { Means (λ s. s.now) result (case_given (call_view call.now)) }
{
    call.text_of("case").ok_or(WordsFault::Bad(Problem::NoCase))
}

/// Returns whether more than one of a log, a list and a document with names and times is standard
/// input.
fn is_input_twice(log: &str, list: &str, about: Option<&str>) -> bool
    ensures { result ≡ is_input_twice log.now list.now (option_map (λ s. s.now) about.entry) }
{
    let from_log = log == "-";
    let from_list = list == "@-";
    let from_about = match about {
        Some(about) => about == "-",
        None => false,
    };
    (from_log && from_list) || ((from_log || from_list) && from_about)
}

/// Returns a request, unless it needs standard input twice.
pub(crate) fn check_input(log: &str, list: &str, about: Option<&str>) -> Result<(), WordsFault>
    ensures { Means (λ u. u) result (once log.now list.now (option_map (λ s. s.now) about.entry)) }
{
    if is_input_twice(log, list, about) {
        return Err(WordsFault::Bad(Problem::InputTwice));
    }
    Ok(())
}

/// Returns the number of an option, if the option is given.
pub(crate) fn number_option(text: Option<&str>, problem: Problem) -> Result<Option<u32>, WordsFault>
    ensures { Means (λ n. n) result
        (read_option problem number_in (option_map (λ s. s.now) text.entry)) }
{
    match text {
        None => Ok(None),
        Some(text) => match number_of(text) {
            Some(number) => Ok(Some(number)),
            None => Err(WordsFault::Bad(problem)),
        },
    }
}

/// Returns whether an option without a value is given.
pub(crate) fn is_given(call: &CommandCall<'_>, name: &str) -> bool
    ensures { result ≡ is_given name.now (call_view call.now) }
{
    match call.text_of(name) {
        Some(text) => text == "true",
        None => false,
    }
}
