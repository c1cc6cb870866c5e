//! A run of the program.
ghost use Rattle.std.specs.Prelude.{◌≡◌, ◌↔◌, true, false, Ok, IfOk, IfErr, IfSome, map};
ghost use Rattle.std.specs.Prelude.{string_bytes};
ghost use Rattle.casebook_request.specs.Request.{request_in};
ghost use Rattle.casebook_request.specs.Views.{request_view};
ghost use Rattle.casebook_cli.specs.Exit.{writes_nothing};
ghost use Rattle.casebook_cli.specs.Program.{AnswersWords, Ends, Runs};
ghost use Rattle.casebook_cli.specs.Stops.{IsBadWords, StopsWords};
ghost use Rattle.casebook_cli.specs.inner.Views.{answer_view};
ghost use Rattle.casebook_cli.specs.declared.exit.Exit.TheVariants as exits;

use crate::answer::Answer;
use crate::answers::answer;
use crate::exit::Exit;
use casebook_folder_cli::Folders;
use casebook_recorder_cli::Spools;
use casebook_repairs::{Documents, Progress, Step, Stop};
use casebook_request::{Request, WordsFault, read_words};
use retro_edge::Output;
use std::alloc::{AllocGlobal, Global};
use std::io::Write;
use std::thread::Threads;

/// Returns the request that words make.
fn request_of<'a>(alloc: Global, words: &'a [String]) -> Result<Request<'a>, Stop<'a>>
    ensures ok { IfOk result (λ request.
        request_in (map string_bytes words.entry.now) ≡ Ok (request_view request)) }
    ensures err { IfErr result (IsBadWords (map string_bytes words.entry.now)) }
{
    match read_words(alloc, words) {
        Ok(request) => Ok(request),
        Err(WordsFault::NoMem) => Err(Stop::OutOfMemory),
        Err(WordsFault::Bad(problem)) => Err(Stop::BadWords(problem)),
    }
}

/// Returns the answer to the request that words make.
fn answer_to<'a, R: Threads + Sync + AllocGlobal, D: Documents + Folders + Spools + Progress>(
    rt: &R,
    words: &'a [String],
    documents: &D,
    colours: bool,
) -> Result<Answer, Stop<'a>>
    ensures ok { IfOk result (λ answer. IfSome (D.bytes_of documents.now) (λ at.
        IfSome (D.holds documents.now) (λ folders.
        AnswersWords (map string_bytes words.entry.now) at folders (D.spools documents.now) colours
        (answer_view answer)))) }
    ensures err { IfErr result (λ stop. IfSome (D.bytes_of documents.now) (λ at.
        IfSome (D.holds documents.now) (λ folders.
        StopsWords (map string_bytes words.entry.now) at folders (D.spools documents.now) stop))) }
{
    let request = request_of(rt.alloc(), words)?;
    answer(rt, documents, request, colours)
}

/// Writes an answer, and returns how the program ends then.
fn written<'a, W: Write>(answer: &Answer, output: &mut Output<W>) -> Exit<'a>
    ensures ends { Ends (answer_view answer.now)
        (W.contents output.old.writer) (W.contents output.new.writer) result }
    ensures write_failure { output.old.has_failed ≡ false →
        (output.new.has_failed ≡ true) ↔ (result ≡ exits.WriteFailed) }
{
    if output.write_all(answer.text.as_slice()).is_err() {
        return Exit::WriteFailed;
    }
    if answer.is_no { Exit::No } else { Exit::Done }
}

/// Runs the program: reads the command line, whose first word is the program's name, reads the
/// documents, folders and spools that it names, and writes the answer, with the codes of
/// `specs/Colours.antt` if `colours` are wanted. Returns how the program ends.
pub fn run_with<
    'a,
    R: Threads + Sync + AllocGlobal,
    D: Documents + Folders + Spools + Progress,
    W: Write,
>(rt: &R, words: &'a [String], documents: &D, colours: bool, output: &mut Output<W>) -> Exit<'a>
    ensures runs { IfSome (D.bytes_of documents.now) (λ at. IfSome (D.holds documents.now)
        (λ folders. Runs (map string_bytes words.entry.now) at folders (D.spools documents.now) colours
        (W.contents output.old.writer) (W.contents output.new.writer) result)) }
    ensures unwritten { writes_nothing result ≡ true → output.new ≡ output.old }
    ensures write_failure { output.old.has_failed ≡ false →
        (output.new.has_failed ≡ true) ↔ (result ≡ exits.WriteFailed) }
{
    let answer = answer_to(rt, words, documents, colours);
    documents.begin(Step::Writing);
    match answer {
        Ok(answer) => written(&answer, output),
        Err(stop) => Exit::Stopped(stop),
    }
}
