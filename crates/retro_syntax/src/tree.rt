//! A line as a tree (XCU 2.10.2), and the tokens that it is written with.

ghost use Rattle.std.specs.Prelude.{◌≡◌};
ghost use Rattle.retro_syntax.specs.View.{parameter_view};
ghost use Rattle.retro_syntax.specs.Writing.{parameter_text};

use retro_path::VarName;

/// What a `$` expands (XCU 2.5).
#[derive(Drop)]
pub enum Parameter {
    /// `$?`: the exit status of the last pipeline.
    Status,
    /// `$name`: the value of a variable.
    Variable(VarName),
}

impl Parameter {
    /// Returns the parameter as it is written between braces: `?` or the variable's name.
    pub fn text(&self) -> &str
        ensures { result.now ≡ parameter_text (parameter_view self.now) }
    {
        match self {
            Parameter::Status => "?",
            Parameter::Variable(name) => name.as_str(),
        }
    }
}

/// A piece of a word (XCU 2.2, 2.6.2). A pair of quotes with nothing between them is an empty
/// quoted piece.
#[derive(Drop)]
pub enum Piece {
    /// Unquoted text.
    Plain(String),
    /// Quoted text.
    Quoted(String),
    /// A parameter outside double quotes.
    Parameter(Parameter),
    /// A parameter in double quotes.
    QuotedParameter(Parameter),
}

/// A word (XCU 2.3): at least one piece.
#[derive(Drop)]
pub struct Word {
    /// Its pieces, in order.
    pub pieces: Vec<Piece>,
}

/// What a redirection does (XCU 2.7).
#[derive(Clone, Copy, Debug, PartialEq, Eq)]
pub enum Direction {
    /// `<`: read from the file.
    From,
    /// `>`: empty the file and write to it.
    Onto,
    /// `>>`: write at the file's end.
    Append,
}

/// The operator between two pipelines (XCU 2.9.3).
#[derive(Clone, Copy, Debug, PartialEq, Eq)]
pub enum Connector {
    /// `&&`
    AndIf,
    /// `||`
    OrIf,
}

/// A token (XCU 2.3).
#[derive(Drop)]
pub enum Token {
    /// `;`
    Semicolon,
    /// `|`
    Bar,
    /// `&&` or `||`
    Connector(Connector),
    /// `<`, `>` or `>>`
    Redirection(Direction),
    /// A word.
    Word(Word),
}

/// A reserved word that the grammar has a rule for (XCU 2.4).
#[derive(Clone, Copy, Debug, PartialEq, Eq)]
pub enum ReservedWord {
    /// `!`
    Bang,
    /// `if`
    If,
    /// `then`
    Then,
    /// `elif`
    Elif,
    /// `else`
    Else,
    /// `fi`
    Fi,
    /// `for`
    For,
    /// `in`
    In,
    /// `do`
    Do,
    /// `done`
    Done,
}

/// A part of a simple command.
#[derive(Drop)]
pub enum Item {
    /// The command's name or an operand.
    Argument(Word),
    /// A redirection and its word.
    Redirect(Direction, Word),
}

/// An assignment (XCU 2.9.1).
#[derive(Drop)]
pub struct Assignment {
    /// The variable's name.
    pub name: VarName,
    /// The value. Its first piece is the unquoted text right after the `=`, which may be empty.
    pub value: Word,
}

/// A simple command (XCU 2.9.1): assignments alone, or words and redirections.
#[derive(Drop)]
pub enum Simple {
    /// Assignments, as written.
    Assignments(Vec<Assignment>),
    /// Words and redirections, as written.
    Command(Vec<Item>),
}

/// A pipeline (XCU 2.9.2).
#[derive(Drop)]
pub struct Pipeline<C> {
    /// Whether it begins with `!`.
    pub negated: bool,
    /// What the pipeline runs.
    pub command: C,
}

/// An and-or list: pipelines with connectors between them (XCU 2.9.3).
#[derive(Drop)]
pub struct AndOr<C> {
    /// The pipelines before the last, in order, each with the connector after it.
    pub before: Vec<(Pipeline<C>, Connector)>,
    /// The last pipeline.
    pub last: Pipeline<C>,
}

/// A list: and-or lists with `;` between them (XCU 2.9.3).
#[derive(Drop)]
pub struct Commands<C> {
    /// The and-or lists before the last, in order.
    pub before: Vec<AndOr<C>>,
    /// The last and-or list.
    pub last: AndOr<C>,
    /// Whether a `;` follows the last.
    pub final_semicolon: bool,
}

/// The conditions of an `if`, each with the list that runs if it holds (XCU 2.9.4.4).
#[derive(Drop)]
pub struct Conditional<C> {
    /// The conditions before the last, in order, each with its list.
    pub before: Vec<(Commands<C>, Commands<C>)>,
    /// The last condition.
    pub condition: Commands<C>,
    /// The list that runs if the last condition holds.
    pub consequence: Commands<C>,
}

/// A `for` (XCU 2.9.4.2).
#[derive(Drop)]
pub struct Loop<C> {
    /// The variable's name.
    pub name: VarName,
    /// The words after `in`.
    pub words: Vec<Word>,
    /// The list that runs for each word.
    pub body: Commands<C>,
}

/// What a pipeline runs: a pipe of simple commands, or a compound command (XCU 2.9.4).
#[derive(Drop)]
pub enum Command {
    /// Simple commands with `|` between them, at least one.
    Pipe(Vec<Simple>),
    /// An `if` without `else`.
    If(Box<Conditional<Command>>),
    /// An `if` with the list after its `else`.
    IfElse(Box<Conditional<Command>>, Box<Commands<Command>>),
    /// A `for`.
    For(Box<Loop<Command>>),
}
