//! Options and operands in the fields of a utility.
ghost use Rattle.std.specs.Prelude.{◌≡◌, map, string_bytes};
ghost use Rattle.std.specs.Option.{option_copied};
ghost use Rattle.retro_text.specs.Request.{known_in, group, request_in, has_option, argument_of};
ghost use Rattle.retro_text.specs.Usage.{Reads};

use crate::given::Given;
use crate::known_letters::KnownLetters;
use crate::usage::UsageError;
use std::alloc::Global;
use std::marker::Model;

/// The options and operands in the fields of a utility (XBD 12.2).
///
/// Letters may be grouped after one dash. An option's argument is the rest of its field, or the
/// next field if the rest is empty. `--` ends the options, and so does the first operand.
#[derive(Drop)]
pub struct Request<'a> {
    options: Vec<Given<'a>>,
    operands: &'a [String],
}

impl<'a> Model for Request<'a> {
    ghost use Rattle.std.specs.Prelude.{map, string_bytes};
    ghost use Rattle.retro_text.specs.Request.{RequestValue, request};

    ghost Value = { RequestValue };

    ghost view = { λ a. request a.options.items (map string_bytes a.operands.now) };
}

/// Appends the options of the letters that follow a dash. Returns the last letter if its argument
/// is the next field, and `None` otherwise.
#[tactic(auto, using(crate::proofs::GroupLemmas::group_steps))]
fn push_group<'a>(
    known: &KnownLetters,
    letters: &'a [u8],
    options: &mut Vec<Given<'a>>,
) -> Result<Option<u8>, UsageError>
    ensures { Reads (λ waiting. (options.new.items, waiting)) result
        (group (known_in known.now) options.old.items letters.entry.now) }
{
    let mut rest = letters;
    while let [letter, more @ ..] = rest {
        let letter = *letter;
        rest = more;
        if known.flags.contains(&letter) {
            options.push(Given {
                letter,
                argument: None,
            })?;
        } else if !known.arguments.contains(&letter) {
            return Err(UsageError::Usage);
        } else if rest.is_empty() {
            return Ok(Some(letter));
        } else {
            options.push(Given {
                letter,
                argument: Some(rest),
            })?;
            return Ok(None);
        }
    }
    Ok(None)
}

impl<'a> Request<'a> {
    /// Reads the fields after the utility's name.
    ///
    /// # Errors
    ///
    /// `Usage` if the utility doesn't know an option or an option lacks its argument.
    #[tactic(auto, unfolding(crate::specs::Request::request_in))]
    pub fn of(
        alloc: Global,
        known: &KnownLetters,
        fields: &'a [String],
    ) -> Result<Request<'a>, UsageError>
        ensures { Reads (λ request. request) result
            (request_in (known_in known.now) (map string_bytes fields.entry.now)) }
    {
        let mut options = Vec::new(alloc);
        let mut rest = fields;
        while let [field, more @ ..] = rest {
            let letters = match field.as_bytes() {
                b"--" => {
                    return Ok(Request {
                        options,
                        operands: more,
                    });
                }
                [b'-', letters @ ..] if !letters.is_empty() => letters,
                _ => break,
            };
            rest = more;
            if let Some(letter) = push_group(known, letters, &mut options)? {
                let [argument, more @ ..] = rest else {
                    return Err(UsageError::Usage);
                };
                options.push(Given {
                    letter,
                    argument: Some(argument.as_bytes()),
                })?;
                rest = more;
            }
        }
        Ok(Request {
            options,
            operands: rest,
        })
    }

    /// Returns the operands.
    pub fn operands(&self) -> &'a [String]
        ensures { map string_bytes result.now ≡ self.now.operands }
    {
        self.operands
    }

    /// Returns whether an option was given.
    #[tactic(auto, unfolding(crate::specs::Request::has_option))]
    pub fn has(&self, letter: u8) -> bool
        ensures { result ≡ has_option letter self.now.options }
    {
        self.options.iter().any(|option| option.letter == letter)
    }

    /// Returns the argument of an option: the last one if it was given more than once.
    #[tactic(auto, unfolding(crate::specs::Request::argument_of))]
    pub fn argument(&self, letter: u8) -> Option<&'a [u8]>
        ensures { option_copied result ≡ argument_of letter self.now.options }
    {
        let mut argument = None;
        for option in &self.options {
            if option.letter == letter {
                argument = option.argument;
            }
        }
        argument
    }
}
