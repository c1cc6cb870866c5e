//! Cases of spools.
ghost use Rattle.std.specs.Prelude.{IfOk, IfSome};
ghost use Rattle.casebook_case.specs.Written.{IsCaseOf};

use crate::fault::RecorderFault;
use crate::spools::Spools;
use casebook_case::spool_case;
use std::alloc::Global;

/// Returns the document of the case of the spool with a name: what the spool holds at one moment.
pub fn import_in<S: Spools>(alloc: Global, spools: &S, name: &str) -> Result<Vec<u8>, RecorderFault>
    ensures { IfSome (S.spools spools.now) (λ all. IfOk result (λ text.
        IsCaseOf (all.held name.now) (all.unseen name.now) text.items)) }
{
    let source = spools.spool_source(alloc, name)?;
    let unseen = spools.unseen_of(alloc, name)?;
    Ok(spool_case(alloc, &source, unseen.as_slice())?)
}
