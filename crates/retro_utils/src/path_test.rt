//! The tests of `test` that look at a path (XCU test).
ghost use Rattle.std.specs.Prelude.{◌≡◌, IfOk};
ghost use Rattle.retro_local.specs.Runs.{Computes, Extends, ExtendsTree};
ghost use Rattle.retro_utils.specs.PathTests.{kind_passes, null_passes, operand_passes};
ghost use Rattle.retro_utils.specs.PathTests.{path_passes};

use crate::operand::locate;
use retro_local::Local;
use retro_text::PathTest;
use retro_tree::{Kind, NoMem, Path, View};
use std::alloc::Global;

/// Returns whether a node of the given kind passes.
fn kind_passes(test: PathTest, kind: Kind) -> bool
    ensures { result ≡ kind_passes test kind }
{
    match (test, kind) {
        (PathTest::Exists, Kind::Dir | Kind::File)
        | (PathTest::IsFile, Kind::File)
        | (PathTest::IsDir, Kind::Dir) => true,
        (PathTest::Exists, Kind::Missing)
        | (PathTest::IsFile, Kind::Missing | Kind::Dir)
        | (PathTest::IsDir, Kind::Missing | Kind::File) => false,
    }
}

/// Returns whether `/dev/null` passes.
fn null_passes(test: PathTest) -> bool
    ensures { result ≡ null_passes test }
{
    match test {
        PathTest::Exists => true,
        PathTest::IsFile | PathTest::IsDir => false,
    }
}

/// Returns whether the node at a path passes. Makes no query for `/dev/null`.
#[tactic(auto, unfolding(crate::specs::PathTests::path_passes))]
fn path_passes<V: View>(
    alloc: Global,
    test: PathTest,
    path: &Path,
    local: &mut Local<V>,
) -> Result<bool, NoMem>
    ensures means { IfOk result (λ passes. Computes local.old local.new
        (λ s. (s, path_passes test path.now s)) passes) }
    ensures extends { ExtendsTree local.old local.new }
{
    if path.is_null() {
        return Ok(null_passes(test));
    }
    let kind = local.kind(alloc, path)?;
    Ok(kind_passes(test, kind))
}

/// Returns whether the node at the path that an operand names passes. An operand that names no path
/// doesn't pass.
#[tactic(auto, unfolding(crate::specs::PathTests::operand_passes))]
pub(crate) fn operand_passes<V: View>(
    alloc: Global,
    test: PathTest,
    sid: u32,
    operand: &str,
    local: &mut Local<V>,
) -> Result<bool, NoMem>
    ensures means { IfOk result (λ passes. Computes local.old local.new
        (λ s. (s, operand_passes sid test operand.now s)) passes) }
    ensures extends { Extends sid local.old local.new }
{
    match locate(alloc, sid, operand, local)? {
        Ok(path) => Ok(path_passes(alloc, test, &path, local)?),
        Err(_) => Ok(false),
    }
}
