//! Lines, and the trees that they are read as: lists in `[ ]`, simple commands in `( )`.
use retro_rows::text;
use retro_syntax::tree::{
    AndOr, Assignment, Command, Commands, Conditional, Connector, Direction, Item, Loop, Piece,
    Pipeline, Simple, Word,
};
use retro_syntax::{Line, Parsed, Refused, TildePrefix, parse};
use retro_tree::NoMem;
use std::alloc::Global;

/// Appends a word. Quoted pieces are in double quotes, and parameters in `${ }`.
fn show_word(out: &mut String, word: &Word) -> Result<(), NoMem> {
    for piece in &word.pieces {
        match piece {
            Piece::Plain(text) => out.push_str(text)?,
            Piece::Quoted(text) => show_between(out, "\"", text, "\"")?,
            Piece::Parameter(parameter) => show_between(out, "${", parameter.text(), "}")?,
            Piece::QuotedParameter(parameter) => {
                show_between(out, "\"${", parameter.text(), "}\"")?
            }
        }
    }
    Ok(())
}

/// Appends a text between two others.
fn show_between(out: &mut String, before: &str, text: &str, after: &str) -> Result<(), NoMem> {
    out.push_str(before)?;
    out.push_str(text)?;
    out.push_str(after)
}

/// Appends an argument or a redirection.
fn show_item(out: &mut String, item: &Item) -> Result<(), NoMem> {
    match item {
        Item::Argument(word) => show_word(out, word),
        Item::Redirect(direction, word) => {
            out.push_str(match direction {
                Direction::From => "<",
                Direction::Onto => ">",
                Direction::Append => ">>",
            })?;
            show_word(out, word)
        }
    }
}

/// Appends an assignment.
fn show_assignment(out: &mut String, assignment: &Assignment) -> Result<(), NoMem> {
    show_between(out, "", assignment.name.as_str(), ":=")?;
    show_word(out, &assignment.value)
}

/// Appends a simple command in `( )`.
fn show_simple(out: &mut String, simple: &Simple) -> Result<(), NoMem> {
    out.push_str("(")?;
    match simple {
        Simple::Assignments(assignments) => {
            for assignment in assignments {
                show_assignment(out, assignment)?;
                out.push_str(",")?;
            }
        }
        Simple::Command(items) => {
            for item in items {
                show_item(out, item)?;
                out.push_str(",")?;
            }
        }
    }
    out.push_str(")")
}

/// Appends the simple commands of a pipe.
fn show_stages(out: &mut String, stages: &[Simple]) -> Result<(), NoMem> {
    for stage in stages {
        show_simple(out, stage)?;
    }
    Ok(())
}

/// Appends a command, or `..` if it is too deep.
#[cycle(shown)]
fn show_command(out: &mut String, command: &Command, room: u8) -> Result<(), NoMem> {
    if room == 0 {
        return out.push_str("..");
    }
    match command {
        Command::Pipe(stages) => show_stages(out, stages),
        Command::If(parts) => show_arms(out, parts, room - 1),
        Command::IfElse(parts, alternative) => {
            show_arms(out, parts, room - 1)?;
            show_list(out, "else", alternative, room - 1)
        }
        Command::For(parts) => show_loop(out, parts, room - 1),
    }
}

/// Appends the conditions of an `if`, each with its consequence.
#[cycle(shown)]
fn show_arms(out: &mut String, parts: &Conditional<Command>, room: u8) -> Result<(), NoMem> {
    for arm in &parts.before {
        show_list(out, "if", &arm.0, room)?;
        show_list(out, "then", &arm.1, room)?;
    }
    show_list(out, "if", &parts.condition, room)?;
    show_list(out, "then", &parts.consequence, room)
}

/// Appends what a `for` has before its body.
fn show_head(out: &mut String, parts: &Loop<Command>) -> Result<(), NoMem> {
    show_between(out, "for ", parts.name.as_str(), " in ")?;
    for word in &parts.words {
        show_word(out, word)?;
        out.push_str(",")?;
    }
    Ok(())
}

/// Appends a `for`.
#[cycle(shown)]
fn show_loop(out: &mut String, parts: &Loop<Command>, room: u8) -> Result<(), NoMem> {
    show_head(out, parts)?;
    show_list(out, "do", &parts.body, room)
}

/// Appends a pipeline, after `!` if it is negated.
#[cycle(shown)]
fn show_pipeline(out: &mut String, pipeline: &Pipeline<Command>, room: u8) -> Result<(), NoMem> {
    if pipeline.negated {
        out.push_str("!")?;
    }
    show_command(out, &pipeline.command, room)
}

/// Appends pipelines with `&&` and `||` between them.
#[cycle(shown)]
fn show_and_or(out: &mut String, and_or: &AndOr<Command>, room: u8) -> Result<(), NoMem> {
    for joined in &and_or.before {
        show_pipeline(out, &joined.0, room)?;
        out.push_str(match joined.1 {
            Connector::AndIf => "&&",
            Connector::OrIf => "||",
        })?;
    }
    show_pipeline(out, &and_or.last, room)
}

/// Appends a list in `[ ]` after its keyword.
#[cycle(shown)]
fn show_list(out: &mut String, key: &str, list: &Commands<Command>, room: u8) -> Result<(), NoMem> {
    out.push_str(key)?;
    out.push_str("[")?;
    for and_or in &list.before {
        show_and_or(out, and_or, room)?;
        out.push_str(";")?;
    }
    show_and_or(out, &list.last, room)?;
    out.push_str(if list.final_semicolon { ";]" } else { "]" })
}

/// Returns the tree of a line, nothing for a blank one.
fn line_text(alloc: Global, line: &Line) -> Result<String, NoMem> {
    let mut out = String::new(alloc);
    if let Some(commands) = &line.commands {
        show_list(&mut out, "", commands, 40)?;
    }
    Ok(out)
}

/// Returns the number of a refusal.
fn refusal(refused: Option<Refused>) -> &'static str {
    match refused {
        Some(Refused::Unsupported) => "5",
        Some(Refused::TooLong) => "6",
        Some(Refused::TooDeep) => "7",
        Some(Refused::NoMem) => "out of memory",
        None => "no line",
    }
}

/// Returns the tree of a parsed text, or the number of its refusal.
fn parsed_text(alloc: Global, parsed: &Parsed) -> Result<String, NoMem> {
    match parsed.line() {
        Some(line) => line_text(alloc, line),
        None => text(alloc, refusal(parsed.refused())),
    }
}

/// Returns the tree of a parsed text, or the number of its refusal, or that its text isn't the
/// given one.
fn tree_of(alloc: Global, parsed: &Parsed, given: &str) -> Result<String, NoMem> {
    if parsed.text() == given {
        parsed_text(alloc, parsed)
    } else {
        text(alloc, "another text")
    }
}

/// Returns the tree of a text, nothing for a blank line, or the number of its refusal.
pub fn tree(alloc: Global, given: &str) -> Result<String, NoMem> {
    let text = text(alloc, given)?;
    tree_of(alloc, &Parsed::of(alloc, text)?, given)
}

/// Returns the tilde prefix of a command's first word or first value, where it has one.
fn stage_prefix(stage: &Simple) -> Option<TildePrefix<'_>> {
    match stage {
        Simple::Assignments(assignments) => assignments.first()?.tilde_prefix(),
        Simple::Command(items) => match items.first()? {
            Item::Argument(word) => word.tilde_prefix(),
            Item::Redirect(_, word) => word.tilde_prefix(),
        },
    }
}

/// Returns the tilde prefix of a line's first word or first value, where it has one.
fn line_prefix(line: &Line) -> Option<TildePrefix<'_>> {
    let commands = line.commands.as_ref()?;
    match &commands.last.last.command {
        Command::Pipe(stages) => stage_prefix(stages.first()?),
        Command::If(_) | Command::IfElse(_, _) | Command::For(_) => None,
    }
}

/// Returns a login name and the rest of its word, or `none`.
fn prefix_text(alloc: Global, prefix: Option<TildePrefix<'_>>) -> Result<String, NoMem> {
    match prefix {
        Some(prefix) => format!(in alloc; "{}|{}", prefix.login, prefix.rest),
        None => text(alloc, "none"),
    }
}

/// Returns the login name and the rest of the first tilde prefix of a text's line, or `none`.
pub fn tilde(alloc: Global, given: &str) -> Result<String, NoMem> {
    match parse(alloc, given) {
        Ok(line) => prefix_text(alloc, line_prefix(&line)),
        Err(_) => text(alloc, "refused"),
    }
}
