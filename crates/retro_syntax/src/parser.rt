//! The parser, which reads the tree of a line token by token (XCU 2.10).
//!
//! `specs/Parsing.antt` defines the state after each token. Each method of [`Parser`] that reads a
//! token is one step of that definition. It fails with `Unsupported` if the grammar doesn't allow
//! the token there.

mod open;

ghost use Rattle.std.specs.Prelude.{◌≡◌, ◌∷◌, [], ◌++◌, OnOk, Some, map, true, false};
ghost use Rattle.retro_syntax.specs.inner.Failing.{Gives};
ghost use Rattle.retro_syntax.specs.Parsing;
ghost use Rattle.retro_syntax.specs.Tree;
ghost use Rattle.retro_syntax.specs.Words;
ghost use Rattle.retro_syntax.specs.View.{
  assignment_view,
  commands_of,
  item_view,
  simple_view,
  token_view,
  tokens_view,
  view,
  word_view,
};
ghost use Rattle.retro_syntax.specs.inner.ParserViews.{
  Parses,
  ParsesAt,
  arm_view,
  frame_view,
  items_view,
  open_view,
  parser_view,
  place_view,
  stack_view,
  stages_view,
  words_view,
};

use crate::build::{conditional, conditional_else, pipe, repetition};
use crate::syntax_error::SyntaxError;
use crate::tree::{
    AndOr, Assignment, Command, Commands, Conditional, Connector, Direction, Item, Loop, Pipeline,
    ReservedWord, Simple, Token, Word,
};
use crate::words::{Class, assignment_of, class_of, is_assignment, is_ordinary, name_of};
use open::Open;
use retro_path::VarName;
use std::alloc::Global;
use std::mem;

/// A condition of an `if`, and the list that runs if it holds.
pub type Arm = (Commands<Command>, Commands<Command>);

/// The part of a compound command that an inner list is, with the parts of the command before it.
#[derive(Drop)]
pub enum Frame {
    /// The condition of an `if` or `elif`, with the arms before it.
    Condition(Vec<Arm>),
    /// The list after `then`, with the arms before it and its condition.
    Consequence(Vec<Arm>, Commands<Command>),
    /// The list after `else`, with the arms before the last, the last condition and its list.
    Alternative(Vec<Arm>, Commands<Command>, Commands<Command>),
    /// The list that a `for` repeats, with the variable and the words.
    Body(VarName, Vec<Word>),
}

/// Where in a list the next token is.
#[derive(Drop)]
pub enum Place {
    /// Where a command may begin.
    Start,
    /// After a part of a simple command, with the earlier stages of the pipe and this one so far.
    InSimple(Vec<Simple>, Simple),
    /// After a redirection's operator, with the earlier stages of the pipe and the items before
    /// it.
    Target(Vec<Simple>, Vec<Item>, Direction),
    /// After a `|`, with the stages before it.
    AfterBar(Vec<Simple>),
    /// After a compound command.
    AfterCompound(Command),
    /// After `for`.
    ForName,
    /// After `for` and its variable.
    ForIn(VarName),
    /// Among the words after `in`, with those that were read.
    ForWords(VarName, Vec<Word>),
    /// After the `;` that follows these words.
    ForDo(VarName, Vec<Word>),
}

/// The state of reading a line, after some of its tokens.
#[derive(Drop)]
pub struct Parser {
    alloc: Global,
    /// The lists that contain the innermost one, outermost first. Each has the frame of the list
    /// directly inside it.
    stack: Vec<(Open, Frame)>,
    /// The innermost list.
    here: Open,
    /// Where in the innermost list the next token is.
    place: Place,
}

/// Returns whether all items of a command are redirections.
fn no_argument(items: &[Item]) -> bool
    ensures { result ≡ Parsing.no_argument (map item_view items.now) }
{
    let mut rest = items;
    while let [item, more @ ..] = rest {
        match item {
            Item::Argument(_) => return false,
            Item::Redirect(_, _) => rest = more,
        }
    }
    true
}

impl Parser {
    /// Returns a parser that hasn't read a token.
    fn new(alloc: Global) -> Parser
        ensures { parser_view result ≡ Parsing.at [] Parsing.empty_list Parsing.start }
    {
        Parser {
            alloc,
            stack: Vec::new(alloc),
            here: Open::new(alloc),
            place: Place::Start,
        }
    }

    // ---- lists

    /// Begins a list inside the innermost one. `frame` is the new list's part of its compound
    /// command.
    fn begin_list(&mut self, frame: Frame) -> Result<(), SyntaxError>
        ensures { Parses self.new result
            (Some (Parsing.at
            ((open_view self.old.here, frame_view frame) ∷ stack_view self.old.stack)
            Parsing.empty_list Parsing.start)) }
    {
        let here = mem::replace(&mut self.here, Open::new(self.alloc));
        self.stack.push((here, frame))?;
        self.place = Place::Start;
        Ok(())
    }

    /// Appends a command to the innermost list, and reads the operator after it.
    fn continue_list(&mut self, command: Command, token: Token) -> Result<(), SyntaxError>
        ensures { Parses self.new result
            (Parsing.go_on (stack_view self.old.stack) (open_view self.old.here) (view command)
            (token_view token)) }
    {
        let last = Pipeline {
            negated: self.here.negated,
            command,
        };
        match token {
            Token::Semicolon => {
                let before = mem::replace(&mut self.here.pipelines, Vec::new(self.alloc));
                self.here.and_ors.push(AndOr { before, last })?;
                self.here.negated = false;
                self.place = Place::Start;
                Ok(())
            }
            Token::Connector(connector) => {
                self.here.pipelines.push((last, connector))?;
                self.here.negated = false;
                self.place = Place::Start;
                Ok(())
            }
            Token::Bar | Token::Redirection(_) | Token::Word(_) => Err(SyntaxError::Unsupported),
        }
    }

    // ---- compound commands

    /// Reads the reserved word that ends a condition.
    fn end_condition(
        &mut self,
        before: Vec<Arm>,
        condition: Commands<Command>,
        reserved: ReservedWord,
    ) -> Result<(), SyntaxError>
        ensures { Parses self.new result
            (Parsing.close_by (stack_view self.old.stack) (open_view self.old.here)
            (Parsing.condition (map arm_view before.items)) (commands_of view condition)
            reserved) }
    {
        match reserved {
            ReservedWord::Then => self.begin_list(Frame::Consequence(before, condition)),
            _ => Err(SyntaxError::Unsupported),
        }
    }

    /// Reads the reserved word that ends the list after `then`.
    fn end_consequence(
        &mut self,
        arms: Conditional<Command>,
        reserved: ReservedWord,
    ) -> Result<(), SyntaxError>
        ensures { Parses self.new result
            (Parsing.close_by (stack_view self.old.stack) (open_view self.old.here)
            (Parsing.consequence (map arm_view arms.before.items)
            (commands_of view arms.condition)) (commands_of view arms.consequence) reserved) }
    {
        match reserved {
            ReservedWord::Elif => {
                let Conditional {
                    mut before,
                    condition,
                    consequence,
                } = arms;
                before.push((condition, consequence))?;
                self.begin_list(Frame::Condition(before))
            }
            ReservedWord::Else => {
                let Conditional {
                    before,
                    condition,
                    consequence,
                } = arms;
                self.begin_list(Frame::Alternative(before, condition, consequence))
            }
            ReservedWord::Fi => {
                self.place = Place::AfterCompound(conditional(self.alloc, arms)?);
                Ok(())
            }
            _ => Err(SyntaxError::Unsupported),
        }
    }

    /// Reads the reserved word that ends the list after `else`.
    fn end_alternative(
        &mut self,
        arms: Conditional<Command>,
        alternative: Commands<Command>,
        reserved: ReservedWord,
    ) -> Result<(), SyntaxError>
        ensures { Parses self.new result
            (Parsing.close_by (stack_view self.old.stack) (open_view self.old.here)
            (Parsing.alternative (map arm_view arms.before.items)
            (commands_of view arms.condition) (commands_of view arms.consequence))
            (commands_of view alternative) reserved) }
    {
        match reserved {
            ReservedWord::Fi => {
                let command = conditional_else(self.alloc, arms, alternative)?;
                self.place = Place::AfterCompound(command);
                Ok(())
            }
            _ => Err(SyntaxError::Unsupported),
        }
    }

    /// Reads the reserved word that ends the list that a `for` repeats.
    fn end_body(&mut self, parts: Loop<Command>, reserved: ReservedWord) -> Result<(), SyntaxError>
        ensures { Parses self.new result
            (Parsing.close_by (stack_view self.old.stack) (open_view self.old.here)
            (Parsing.body parts.name (words_view parts.words)) (commands_of view parts.body)
            reserved) }
    {
        match reserved {
            ReservedWord::Done => {
                self.place = Place::AfterCompound(repetition(self.alloc, parts)?);
                Ok(())
            }
            _ => Err(SyntaxError::Unsupported),
        }
    }

    /// Reads the reserved word that ends a list of this frame.
    fn close_frame(
        &mut self,
        frame: Frame,
        list: Commands<Command>,
        reserved: ReservedWord,
    ) -> Result<(), SyntaxError>
        ensures { Parses self.new result
            (Parsing.close_by (stack_view self.old.stack) (open_view self.old.here)
            (frame_view frame) (commands_of view list) reserved) }
    {
        match frame {
            Frame::Condition(before) => self.end_condition(before, list, reserved),
            Frame::Consequence(before, condition) => self.end_consequence(
                Conditional {
                    before,
                    condition,
                    consequence: list,
                },
                reserved,
            ),
            Frame::Alternative(before, condition, consequence) => self.end_alternative(
                Conditional {
                    before,
                    condition,
                    consequence,
                },
                list,
                reserved,
            ),
            Frame::Body(name, words) => self.end_body(
                Loop {
                    name,
                    words,
                    body: list,
                },
                reserved,
            ),
        }
    }

    /// Reads the reserved word that ends the innermost list, which is `list`. The list that
    /// contains it becomes the innermost one.
    fn close(&mut self, list: Commands<Command>, reserved: ReservedWord) -> Result<(), SyntaxError>
        ensures { Parses self.new result
            (Parsing.close (stack_view self.old.stack) (commands_of view list) reserved) }
    {
        match self.stack.pop() {
            None => Err(SyntaxError::Unsupported),
            Some((here, frame)) => {
                self.here = here;
                self.close_frame(frame, list, reserved)
            }
        }
    }

    /// Takes the innermost list, and leaves an empty one.
    fn take_list(&mut self) -> Open
        ensures result { open_view result ≡ open_view self.old.here }
        ensures stack { self.new.stack ≡ self.old.stack }
    {
        mem::replace(&mut self.here, Open::new(self.alloc))
    }

    /// Reads a reserved word where a command may begin.
    fn begin_reserved(&mut self, reserved: ReservedWord) -> Result<(), SyntaxError>
        ensures { Parses self.new result
            (Parsing.begin_reserved (stack_view self.old.stack) (open_view self.old.here)
            reserved) }
    {
        match reserved {
            ReservedWord::Bang => {
                if self.here.negated {
                    return Err(SyntaxError::Unsupported);
                }
                self.here.negated = true;
                self.place = Place::Start;
                Ok(())
            }
            ReservedWord::If => self.begin_list(Frame::Condition(Vec::new(self.alloc))),
            ReservedWord::For => {
                self.place = Place::ForName;
                Ok(())
            }
            ReservedWord::Then
            | ReservedWord::Elif
            | ReservedWord::Else
            | ReservedWord::Fi
            | ReservedWord::In
            | ReservedWord::Do
            | ReservedWord::Done => match self.take_list().end_with_semicolon() {
                None => Err(SyntaxError::Unsupported),
                Some(list) => self.close(list, reserved),
            },
        }
    }

    // ---- simple commands

    /// Appends the assignment that a word is to a simple command. Fails with `Unsupported` if the
    /// word doesn't begin with `name=`, or if a line may not assign the variable.
    fn push_assignment(
        &mut self,
        stages: Vec<Simple>,
        mut assignments: Vec<Assignment>,
        word: Word,
    ) -> Result<(), SyntaxError>
        ensures { Parses self.new result
            (Parsing.push_assignment (stack_view self.old.stack) (open_view self.old.here)
            (stages_view stages) (map assignment_view assignments.items)
            (Words.assignment_of (word_view word))) }
    {
        let assignment = assignment_of(self.alloc, word)?;
        assignments.push(assignment)?;
        self.place = Place::InSimple(stages, Simple::Assignments(assignments));
        Ok(())
    }

    /// Reads the first word of a simple command. `class` is the class of the word.
    fn begin_simple(
        &mut self,
        stages: Vec<Simple>,
        word: Word,
        class: Class,
    ) -> Result<(), SyntaxError>
        ensures { Parses self.new result
            (Parsing.begin_simple (stack_view self.old.stack) (open_view self.old.here)
            (stages_view stages) (word_view word) class) }
    {
        match class {
            Class::Assignment => self.push_assignment(stages, Vec::new(self.alloc), word),
            Class::Ordinary => {
                let mut items = Vec::new(self.alloc);
                items.push(Item::Argument(word))?;
                self.place = Place::InSimple(stages, Simple::Command(items));
                Ok(())
            }
            Class::Reserved(_) | Class::Forbidden => Err(SyntaxError::Unsupported),
        }
    }

    /// Reads a further word of a simple command.
    fn add_word(
        &mut self,
        stages: Vec<Simple>,
        simple: Simple,
        word: Word,
    ) -> Result<(), SyntaxError>
        ensures { Parses self.new result
            (Parsing.add_word (stack_view self.old.stack) (open_view self.old.here)
            (stages_view stages) (simple_view simple) (word_view word)) }
    {
        let class = class_of(&word);
        match simple {
            Simple::Assignments(assignments) => {
                if !is_assignment(class) {
                    return Err(SyntaxError::Unsupported);
                }
                self.push_assignment(stages, assignments, word)
            }
            Simple::Command(mut items) => {
                if no_argument(&items) && !is_ordinary(class) {
                    return Err(SyntaxError::Unsupported);
                }
                items.push(Item::Argument(word))?;
                self.place = Place::InSimple(stages, Simple::Command(items));
                Ok(())
            }
        }
    }

    /// Ends a pipe with its last stage, and reads the operator after it.
    fn end_pipe(
        &mut self,
        mut stages: Vec<Simple>,
        last: Simple,
        operator: Token,
    ) -> Result<(), SyntaxError>
        ensures { Parses self.new result
            (Parsing.go_on (stack_view self.old.stack) (open_view self.old.here)
            (Tree.simples (stages_view stages ++ simple_view last ∷ [])) (token_view operator)) }
    {
        stages.push(last)?;
        self.continue_list(pipe(stages), operator)
    }

    // ---- a token at each place

    /// Reads a token where a command may begin.
    fn read_start(&mut self, token: Token) -> Result<(), SyntaxError>
        ensures { ParsesAt self.old Parsing.start token self.new result }
    {
        match token {
            Token::Word(word) => match class_of(&word) {
                Class::Reserved(reserved) => self.begin_reserved(reserved),
                class => self.begin_simple(Vec::new(self.alloc), word, class),
            },
            Token::Redirection(direction) => {
                let stages = Vec::new(self.alloc);
                self.place = Place::Target(stages, Vec::new(self.alloc), direction);
                Ok(())
            }
            Token::Semicolon | Token::Bar | Token::Connector(_) => Err(SyntaxError::Unsupported),
        }
    }

    /// Reads a token after a part of a simple command.
    fn read_in_simple(
        &mut self,
        mut stages: Vec<Simple>,
        simple: Simple,
        token: Token,
    ) -> Result<(), SyntaxError>
        ensures { ParsesAt self.old (Parsing.in_simple (stages_view stages) (simple_view simple))
            token self.new result }
    {
        match token {
            Token::Word(word) => self.add_word(stages, simple, word),
            Token::Redirection(direction) => match simple {
                Simple::Assignments(_) => Err(SyntaxError::Unsupported),
                Simple::Command(items) => {
                    self.place = Place::Target(stages, items, direction);
                    Ok(())
                }
            },
            Token::Bar => {
                stages.push(simple)?;
                self.place = Place::AfterBar(stages);
                Ok(())
            }
            Token::Semicolon => self.end_pipe(stages, simple, Token::Semicolon),
            Token::Connector(connector) => {
                self.end_pipe(stages, simple, Token::Connector(connector))
            }
        }
    }

    /// Reads the token after a redirection's operator.
    fn read_target(
        &mut self,
        stages: Vec<Simple>,
        mut items: Vec<Item>,
        direction: Direction,
        token: Token,
    ) -> Result<(), SyntaxError>
        ensures { ParsesAt self.old
            (Parsing.target (stages_view stages) (items_view items) direction)
            token self.new result }
    {
        match token {
            Token::Word(word) => {
                items.push(Item::Redirect(direction, word))?;
                self.place = Place::InSimple(stages, Simple::Command(items));
                Ok(())
            }
            Token::Semicolon | Token::Bar | Token::Connector(_) | Token::Redirection(_) => {
                Err(SyntaxError::Unsupported)
            }
        }
    }

    /// Reads the token after `|`.
    fn read_after_bar(&mut self, stages: Vec<Simple>, token: Token) -> Result<(), SyntaxError>
        ensures { ParsesAt self.old (Parsing.after_bar (stages_view stages))
            token self.new result }
    {
        match token {
            Token::Word(word) => {
                let class = class_of(&word);
                self.begin_simple(stages, word, class)
            }
            Token::Redirection(direction) => {
                self.place = Place::Target(stages, Vec::new(self.alloc), direction);
                Ok(())
            }
            Token::Semicolon | Token::Bar | Token::Connector(_) => Err(SyntaxError::Unsupported),
        }
    }

    /// Reads the token after a compound command.
    fn read_after_compound(&mut self, command: Command, token: Token) -> Result<(), SyntaxError>
        ensures { ParsesAt self.old (Parsing.after_compound (view command))
            token self.new result }
    {
        match token {
            Token::Word(word) => match class_of(&word) {
                Class::Reserved(reserved) => {
                    let list = self.take_list().end_with(command);
                    self.close(list, reserved)
                }
                Class::Forbidden | Class::Assignment | Class::Ordinary => {
                    Err(SyntaxError::Unsupported)
                }
            },
            Token::Semicolon => self.continue_list(command, Token::Semicolon),
            Token::Connector(connector) => {
                self.continue_list(command, Token::Connector(connector))
            }
            Token::Bar | Token::Redirection(_) => Err(SyntaxError::Unsupported),
        }
    }

    /// Reads the token after `for`.
    fn read_for_name(&mut self, token: Token) -> Result<(), SyntaxError>
        ensures { ParsesAt self.old Parsing.for_name token self.new result }
    {
        match token {
            Token::Word(word) => {
                self.place = Place::ForIn(name_of(self.alloc, &word)?);
                Ok(())
            }
            Token::Semicolon | Token::Bar | Token::Connector(_) | Token::Redirection(_) => {
                Err(SyntaxError::Unsupported)
            }
        }
    }

    /// Reads the token after the variable of a `for`.
    fn read_for_in(&mut self, name: VarName, token: Token) -> Result<(), SyntaxError>
        ensures { ParsesAt self.old (Parsing.for_in name) token self.new result }
    {
        match token {
            Token::Word(word) => match class_of(&word) {
                Class::Reserved(ReservedWord::In) => {
                    self.place = Place::ForWords(name, Vec::new(self.alloc));
                    Ok(())
                }
                Class::Reserved(
                    ReservedWord::Bang
                    | ReservedWord::If
                    | ReservedWord::Then
                    | ReservedWord::Elif
                    | ReservedWord::Else
                    | ReservedWord::Fi
                    | ReservedWord::For
                    | ReservedWord::Do
                    | ReservedWord::Done,
                )
                | Class::Forbidden
                | Class::Assignment
                | Class::Ordinary => Err(SyntaxError::Unsupported),
            },
            Token::Semicolon | Token::Bar | Token::Connector(_) | Token::Redirection(_) => {
                Err(SyntaxError::Unsupported)
            }
        }
    }

    /// Reads a token among the words of a `for`.
    fn read_for_words(
        &mut self,
        name: VarName,
        mut words: Vec<Word>,
        token: Token,
    ) -> Result<(), SyntaxError>
        ensures { ParsesAt self.old (Parsing.for_words name (words_view words))
            token self.new result }
    {
        match token {
            Token::Word(word) => {
                words.push(word)?;
                self.place = Place::ForWords(name, words);
                Ok(())
            }
            Token::Semicolon => {
                self.place = Place::ForDo(name, words);
                Ok(())
            }
            Token::Bar | Token::Connector(_) | Token::Redirection(_) => {
                Err(SyntaxError::Unsupported)
            }
        }
    }

    /// Reads the token after the `;` that follows the words of a `for`.
    fn read_for_do(
        &mut self,
        name: VarName,
        words: Vec<Word>,
        token: Token,
    ) -> Result<(), SyntaxError>
        ensures { ParsesAt self.old (Parsing.for_do name (words_view words))
            token self.new result }
    {
        match token {
            Token::Word(word) => match class_of(&word) {
                Class::Reserved(ReservedWord::Do) => self.begin_list(Frame::Body(name, words)),
                Class::Reserved(
                    ReservedWord::Bang
                    | ReservedWord::If
                    | ReservedWord::Then
                    | ReservedWord::Elif
                    | ReservedWord::Else
                    | ReservedWord::Fi
                    | ReservedWord::For
                    | ReservedWord::In
                    | ReservedWord::Done,
                )
                | Class::Forbidden
                | Class::Assignment
                | Class::Ordinary => Err(SyntaxError::Unsupported),
            },
            Token::Semicolon | Token::Bar | Token::Connector(_) | Token::Redirection(_) => {
                Err(SyntaxError::Unsupported)
            }
        }
    }

    /// Reads the next token.
    #[tactic(auto, unfolding(crate::specs::Parsing::step))]
    fn read(&mut self, token: Token) -> Result<(), SyntaxError>
        ensures { Parses self.new result
            (Parsing.step (parser_view self.old) (token_view token)) }
    {
        match mem::replace(&mut self.place, Place::Start) {
            Place::Start => self.read_start(token),
            Place::InSimple(stages, simple) => self.read_in_simple(stages, simple, token),
            Place::Target(stages, items, direction) => {
                self.read_target(stages, items, direction, token)
            }
            Place::AfterBar(stages) => self.read_after_bar(stages, token),
            Place::AfterCompound(command) => self.read_after_compound(command, token),
            Place::ForName => self.read_for_name(token),
            Place::ForIn(name) => self.read_for_in(name, token),
            Place::ForWords(name, words) => self.read_for_words(name, words, token),
            Place::ForDo(name, words) => self.read_for_do(name, words, token),
        }
    }

    /// Ends the line, and returns its list. Fails with `Unsupported` if the line may not end after
    /// its last token.
    fn finish(self) -> Result<Commands<Command>, SyntaxError>
        ensures { Gives (commands_of view) result (Parsing.finish (Some (parser_view self))) }
    {
        let Parser {
            stack,
            here,
            place,
            ..
        } = self;
        if stack.len() != 0 {
            return Err(SyntaxError::Unsupported);
        }
        match place {
            Place::Start => match here.end_with_semicolon() {
                None => Err(SyntaxError::Unsupported),
                Some(list) => Ok(list),
            },
            Place::InSimple(mut stages, simple) => {
                stages.push(simple)?;
                Ok(here.end_with(pipe(stages)))
            }
            Place::AfterCompound(command) => Ok(here.end_with(command)),
            Place::Target(_, _, _)
            | Place::AfterBar(_)
            | Place::ForName
            | Place::ForIn(_)
            | Place::ForWords(_, _)
            | Place::ForDo(_, _) => Err(SyntaxError::Unsupported),
        }
    }
}

/// Returns the list that tokens spell. Fails with `Unsupported` if they spell none.
#[tactic(auto, unfolding(crate::specs::Parsing::commands_of))]
pub fn commands_of(alloc: Global, tokens: Vec<Token>) -> Result<Commands<Command>, SyntaxError>
    ensures { Gives (commands_of view) result (Parsing.commands_of (tokens_view tokens)) }
{
    let mut parser = Parser::new(alloc);
    for token in tokens {
        parser.read(token)?;
    }
    parser.finish()
}
