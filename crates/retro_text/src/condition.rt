//! `test` and `[` (XCU test).
ghost use Rattle.std.specs.Prelude.{◌≡◌, map, string_bytes, option_map};
ghost use Rattle.retro_text.specs.Condition.{condition_view, condition_in, unary, binary};
ghost use Rattle.retro_text.specs.Condition.{before_bracket};

/// Which paths pass a test of `test`.
#[derive(Clone, Copy, Debug, PartialEq, Eq)]
pub enum PathTest {
    /// `-e`: those of files and directories.
    Exists,
    /// `-f`: those of files.
    IsFile,
    /// `-d`: those of directories.
    IsDir,
}

/// A condition that the operands of `test` make.
#[derive(Clone, Copy, Debug, Drop)]
pub enum Condition<'a> {
    /// A condition that doesn't depend on files, and whether it holds.
    Known(bool),
    /// A condition that holds if the path that a text names passes a test.
    Path(PathTest, &'a str),
}

/// Returns the condition that an operator and its operand make, or `None` if the operator isn't
/// one.
#[tactic(auto, unfolding(crate::specs::Condition::unary))]
fn unary<'a>(operator: &str, operand: &'a str) -> Option<Condition<'a>>
    ensures { option_map condition_view result ≡ unary operator.now operand.entry.now }
{
    match operator {
        "-n" => Some(Condition::Known(!operand.is_empty())),
        "-z" => Some(Condition::Known(operand.is_empty())),
        "-e" => Some(Condition::Path(PathTest::Exists, operand)),
        "-f" => Some(Condition::Path(PathTest::IsFile, operand)),
        "-d" => Some(Condition::Path(PathTest::IsDir, operand)),
        _ => None,
    }
}

/// Returns whether a comparison of two texts holds, or `None` if the operator isn't one.
#[tactic(auto, unfolding(crate::specs::Condition::binary))]
fn binary(left: &str, operator: &str, right: &str) -> Option<bool>
    ensures { result ≡ binary left.now operator.now right.now }
{
    match operator {
        "=" => Some(left == right),
        "!=" => Some(left != right),
        _ => None,
    }
}

impl<'a> Condition<'a> {
    /// Returns the condition that the operands of `test` make, or `None` if they don't make one.
    #[tactic(auto, unfolding(crate::specs::Condition::condition_in))]
    pub fn of(operands: &'a [String]) -> Option<Condition<'a>>
        ensures { option_map condition_view result
            ≡ condition_in (map string_bytes operands.entry.now) }
    {
        match operands {
            [] => Some(Condition::Known(false)),
            [text] => Some(Condition::Known(!text.is_empty())),
            [operator, operand] => unary(operator.as_str(), operand.as_str()),
            [left, operator, right] => {
                let holds = binary(left.as_str(), operator.as_str(), right.as_str())?;
                Some(Condition::Known(holds))
            }
            _ => None,
        }
    }
}

/// Returns the operands before the last one if that is `]`, and `None` otherwise.
#[tactic(auto, unfolding(crate::specs::Condition::before_bracket))]
pub fn before_bracket(operands: &[String]) -> Option<&[String]>
    ensures { option_map (λ r. map string_bytes r.now) result
        ≡ before_bracket (map string_bytes operands.entry.now) }
{
    match operands {
        [before @ .., last] if last.as_str() == "]" => Some(before),
        _ => None,
    }
}
