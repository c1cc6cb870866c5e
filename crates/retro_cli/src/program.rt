//! A run of the program.
ghost use Rattle.std.specs.Prelude.{◌≡◌, true, false, None, map, Ok, Err, IfOk, IfErr, IfSome};
ghost use Rattle.std.specs.Prelude.{string_bytes};
ghost use Rattle.retro_cli.specs.Exit.{exit_of, writes_nothing};
ghost use Rattle.retro_cli.specs.Input.{is_broken};
ghost use Rattle.retro_cli.specs.Program.{Answered, Runs, WordsAllow, replay_answer};
ghost use Rattle.retro_cli.specs.Program.{request_refusal};
ghost use Rattle.retro_cli.specs.inner.Stop.{Refuses, ReturnsAs};
ghost use Rattle.retro_cli.specs.Words.{request_view, request_in};
ghost use Rattle.retro_cli.specs.declared.exit.Exit.TheVariants as exits;
ghost use Rattle.retro_cli.specs.declared.stop.Stop.TheVariants as stops;

use crate::answers::answer;
use crate::ending::Ending;
use crate::exit::Exit;
use crate::input::Input;
use crate::stop::Stop;
use crate::words::read_words;
use retro_edge::Output;
use std::alloc::AllocGlobal;
use std::io::{Read, Write};
use std::thread::Threads;

/// Reads the command line, reads the input to its end, and writes the answer. Returns how the
/// program ends, or why it stops.
#[tactic(auto, unfolding(crate::specs::Program::refusal_of))]
fn run<T: Threads + Sync + AllocGlobal, R: Read, W: Write>(
    rt: &T,
    words: &[String],
    input: &mut Input<R>,
    output: &mut Output<W>,
) -> Result<Ending, Stop>
    ensures runs { IfSome (R.remaining input.old.reader) (λ bytes.
        Runs (map string_bytes words.now) bytes
        (W.contents output.old.writer) (W.contents output.new.writer) (exit_of result)) }
    ensures words { WordsAllow (map string_bytes words.now) (exit_of result) }
    ensures unread { request_in (map string_bytes words.now) ≡ None → input.new ≡ input.old }
    ensures unwritten { writes_nothing (exit_of result) ≡ true → output.new ≡ output.old }
    ensures read_failed { result ≡ Err stops.ReadFailed →
        is_broken input.new.reads input.new.has_failed ≡ true }
    ensures read_failure { input.old.has_failed ≡ false → input.new.has_failed ≡ true →
        result ≡ Err stops.ReadFailed }
    ensures write_failed { result ≡ Err stops.WriteFailed → output.new.has_failed ≡ true }
    ensures write_failure { output.old.has_failed ≡ false → output.new.has_failed ≡ true →
        result ≡ Err stops.WriteFailed }
{
    let request = read_words(rt.alloc(), words)?;
    let bytes = input.read_to_end(rt.alloc())?;
    let (text, ending) = answer(rt, &request, bytes)?;
    output.write_all(&text)?;
    Ok(ending)
}

/// Runs the program: reads the command line, whose first word is the program's name, reads the
/// input to its end, and writes the answer. Returns how the program ends.
pub fn run_with<T: Threads + Sync + AllocGlobal, R: Read, W: Write>(
    rt: &T,
    words: &[String],
    input: &mut Input<R>,
    output: &mut Output<W>,
) -> Exit
    ensures runs { IfSome (R.remaining input.old.reader) (λ bytes.
        Runs (map string_bytes words.now) bytes
        (W.contents output.old.writer) (W.contents output.new.writer) result) }
    ensures words { WordsAllow (map string_bytes words.now) result }
    ensures unread { request_in (map string_bytes words.now) ≡ None → input.new ≡ input.old }
    ensures unwritten { writes_nothing result ≡ true → output.new ≡ output.old }
    ensures read_failed { result ≡ exits.ReadFailed →
        is_broken input.new.reads input.new.has_failed ≡ true }
    ensures read_failure { input.old.has_failed ≡ false → input.new.has_failed ≡ true →
        result ≡ exits.ReadFailed }
    ensures write_failed { result ≡ exits.WriteFailed → output.new.has_failed ≡ true }
    ensures write_failure { output.old.has_failed ≡ false → output.new.has_failed ≡ true →
        result ≡ exits.WriteFailed }
{
    Exit::of(run(rt, words, input, output))
}
