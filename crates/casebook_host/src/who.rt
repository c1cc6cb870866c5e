//! What `who` prints.
ghost use Rattle.std.specs.Prelude.{◌≡◌, IfOk, map};
ghost use Rattle.casebook_host.specs.Logins.{logins_in};
ghost use Rattle.casebook_host.specs.LoginViews.{login_value};

use crate::NoMem;
use crate::login::Login;
use crate::words::{rows_of, words_of};
use std::alloc::Global;

/// Returns the logins that `who` printed, in the order of the rows: the first two words of each row
/// that has two.
pub fn logins<'a>(alloc: Global, who: &'a [u8]) -> Result<Vec<Login<'a>>, NoMem>
    ensures { IfOk result (λ logins. map login_value logins.items ≡ logins_in who.now) }
{
    let rows = rows_of(alloc, who)?;
    let mut logins = Vec::new(alloc);
    for row in rows.as_slice() {
        let words = words_of(alloc, row)?;
        if let Some(login) = Login::of(words.as_slice()) {
            logins.push(login)?;
        }
    }
    Ok(logins)
}
