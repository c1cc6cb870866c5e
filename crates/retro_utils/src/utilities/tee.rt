//! `tee` (XCU tee).
ghost use Rattle.std.specs.Prelude.{◌≡◌, [], IfOk, map, string_bytes};
ghost use Rattle.retro_local.specs.Runs.{Computes, Extends, ExtendsTree};
ghost use Rattle.retro_utils.specs.Outcomes.{nothing_done};
ghost use Rattle.retro_utils.specs.Tee.{append_all, files_view, open_all, open_operand};
ghost use Rattle.retro_utils.specs.Tee.{path_opened, tee, write_all};
ghost use Rattle.retro_utils.specs.Output.{opened};

use crate::done::Done;
use crate::input::Input;
use crate::mode::Mode;
use crate::opened::Opened;
use crate::operand::locate;
use crate::output::{append, open};
use crate::reason::Reason;
use retro_local::Local;
use retro_tree::{Bytes, NoMem, Path, View};
use std::alloc::Global;

/// The operands of `tee`, and how it opens their files.
#[derive(Clone, Copy, Debug)]
pub(crate) struct TeeOperands<'a> {
    /// `Append` for `-a`.
    pub mode: Mode,
    /// The operands.
    pub operands: &'a [String],
}

/// Opens the file at a path, and returns the path.
fn open_path<V: View>(
    alloc: Global,
    mode: Mode,
    path: Path,
    local: &mut Local<V>,
) -> Result<Result<Path, Reason>, NoMem>
    ensures means { IfOk result (λ outcome. Computes local.old local.new
        (λ s. path_opened path (opened mode path s)) outcome) }
    ensures extends { ExtendsTree local.old local.new }
{
    match open(alloc, mode, &path, local)? {
        Ok(()) => Ok(Ok(path)),
        Err(reason) => Ok(Err(reason)),
    }
}

/// Opens the file that an operand names, and returns its path.
#[tactic(auto, unfolding(crate::specs::Tee::open_operand))]
fn open_operand<V: View>(
    alloc: Global,
    sid: u32,
    mode: Mode,
    operand: &str,
    local: &mut Local<V>,
) -> Result<Result<Path, Reason>, NoMem>
    ensures means { IfOk result (λ outcome. Computes local.old local.new
        (open_operand sid mode operand.now) outcome) }
    ensures extends { Extends sid local.old local.new }
{
    match locate(alloc, sid, operand, local)? {
        Ok(path) => Ok(open_path(alloc, mode, path, local)?),
        Err(reason) => Ok(Err(reason)),
    }
}

/// Opens the file of each operand in turn.
fn open_all<'a, V: View>(
    alloc: Global,
    sid: u32,
    tee: TeeOperands<'a>,
    local: &mut Local<V>,
) -> Result<Opened<'a>, NoMem>
    ensures means { IfOk result (λ opened. Computes local.old local.new
        (open_all sid tee.entry.mode (map string_bytes tee.entry.operands.now) ([], nothing_done 0))
        (files_view opened)) }
    ensures extends { Extends sid local.old local.new }
{
    let mut opened = Opened::nothing(alloc);
    for operand in tee.operands {
        let outcome = open_operand(alloc, sid, tee.mode, operand, local)?;
        opened.add(operand, outcome)?;
    }
    Ok(opened)
}

/// Appends bytes to each open file in turn.
fn append_all<V: View>(
    alloc: Global,
    text: &Bytes,
    files: &[(&str, Path)],
    done: Done,
    local: &mut Local<V>,
) -> Result<Done, NoMem>
    ensures means { IfOk result (λ after. Computes local.old local.new
        (append_all text.now (map (λ f. (f.0.now, f.1)) files.now) done) after) }
    ensures extends { ExtendsTree local.old local.new }
{
    let mut done = done;
    for (operand, path) in files {
        let outcome = append(alloc, text, path, local)?;
        done.outcome("tee", operand, outcome)?;
    }
    Ok(done)
}

/// Writes the input to the output and to each open file.
#[tactic(auto, unfolding(crate::specs::Tee::write_all))]
fn write_all<V: View>(
    alloc: Global,
    text: &Bytes,
    opened: Opened,
    local: &mut Local<V>,
) -> Result<Done, NoMem>
    ensures means { IfOk result (λ done. Computes local.old local.new
        (write_all text.now (files_view opened.entry)) done) }
    ensures extends { ExtendsTree local.old local.new }
{
    let Opened { files, done } = opened;
    match text.as_slice() {
        [] => Ok(done),
        bytes => {
            let mut done = done;
            done.print(bytes)?;
            Ok(append_all(alloc, text, &files, done, local)?)
        }
    }
}

/// Runs `tee`: writes standard input to the output and to each file.
#[tactic(auto, unfolding(crate::specs::Tee::tee))]
pub(crate) fn tee<V: View>(
    alloc: Global,
    sid: u32,
    operands: TeeOperands,
    input: Input,
    local: &mut Local<V>,
) -> Result<Done, NoMem>
    ensures means { IfOk result (λ done. Computes local.old local.new
        (tee sid operands.entry.mode (map string_bytes operands.entry.operands.now) input) done) }
    ensures extends { Extends sid local.old local.new }
{
    let mut input = input;
    let opened = open_all(alloc, sid, operands, local)?;
    let text = input.read(alloc, local)?;
    Ok(write_all(alloc, &text, opened, local)?)
}
