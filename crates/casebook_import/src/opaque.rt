//! Texts that stand for bytes that a spool doesn't have, or that a state can't hold.
ghost use Rattle.std.specs.Prelude.{◌≡◌, ◌∷◌, [], ◌++◌, IfOk, codes, string_bytes};
ghost use Rattle.hex.specs.Hex.{encode_lower};
ghost use Rattle.sha2.specs.Sha256.{sha256};
ghost use Rattle.casebook_rows.specs.Written.{escaped};
ghost use Rattle.casebook_import.specs.Nodes.{version};
ghost use Rattle.casebook_import.specs.Opaque.{opaque};
ghost use Rattle.casebook_opaque.specs.Opaque.{opaque_mark};

use crate::NoMem;
use casebook_opaque::opaque_mark;
use casebook_rows::{push_digest, push_number, push_signed, push_text};
use casebook_watch::Sight;
use sha2::{Digest as _, Sha256};
use std::alloc::Global;

/// Returns the beginning of a text that stands for something, by what that is.
fn marked(alloc: Global, what: &str) -> Result<String, NoMem>
    ensures { IfOk result (λ text. string_bytes text ≡ opaque_mark ++ what.now) }
{
    let mut text = String::from_str(alloc, opaque_mark())?;
    text.push_str(what)?;
    Ok(text)
}

/// Returns the text that stands for what a sight is of.
#[tactic(auto, unfolding(crate::specs::Opaque::opaque), using(crate::proofs::Fields::four_fields))]
pub(crate) fn opaque_sight(alloc: Global, what: &str, sight: &Sight) -> Result<String, NoMem>
    ensures { IfOk result (λ text. string_bytes text ≡ opaque what.now (version sight.now)) }
{
    let mut text = marked(alloc, what)?;
    push_number(&mut text, sight.size)?;
    push_number(&mut text, sight.number)?;
    push_signed(&mut text, sight.changed.second)?;
    push_number(&mut text, u64::from(sight.changed.nanosecond))?;
    Ok(text)
}

/// Returns the text that stands for a link.
#[tactic(auto, unfolding(crate::specs::Opaque::opaque), using(crate::proofs::Fields::one_field))]
pub(crate) fn opaque_link(alloc: Global, target: &[u8]) -> Result<String, NoMem>
    ensures { IfOk result (λ text.
        string_bytes text ≡ opaque (codes "a link") (escaped target.now ∷ [])) }
{
    let mut text = marked(alloc, "a link")?;
    push_text(&mut text, target)?;
    Ok(text)
}

/// Returns the text that stands for bytes with a digest.
#[tactic(auto, unfolding(crate::specs::Opaque::opaque), using(crate::proofs::Fields::one_field))]
pub(crate) fn opaque_digest(alloc: Global, what: &str, digest: &[u8; 32]) -> Result<String, NoMem>
    ensures { IfOk result (λ text.
        string_bytes text ≡ opaque what.now (encode_lower digest.now ∷ [])) }
{
    let mut text = marked(alloc, what)?;
    push_digest(alloc, &mut text, digest)?;
    Ok(text)
}

/// Returns the text that stands for bytes.
pub(crate) fn opaque_bytes(alloc: Global, what: &str, bytes: &[u8]) -> Result<String, NoMem>
    ensures { IfOk result (λ text.
        string_bytes text ≡ opaque what.now (encode_lower (sha256 bytes.now) ∷ [])) }
{
    opaque_digest(alloc, what, &Sha256::digest(bytes))
}
