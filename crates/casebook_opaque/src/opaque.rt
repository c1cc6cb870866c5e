//! Texts that stand for something else.
ghost use Rattle.std.specs.Prelude.{◌≡◌};
ghost use Rattle.std.specs.List.{position};
ghost use Rattle.casebook_opaque.specs.Opaque.{before_tab, is_opaque, is_tab};
ghost use Rattle.casebook_opaque.specs.Opaque.{opaque_mark, stands_for};

/// Returns the text with which all that stands for something else begins.
#[tactic(auto, unfolding(crate::specs::Opaque::opaque_mark))]
pub fn opaque_mark() -> &'static str
    ensures { result.now ≡ opaque_mark }
{
    "not kept by casebook: "
}

/// Returns whether bytes stand for something else.
pub fn is_opaque(bytes: &[u8]) -> bool
    ensures { result ≡ is_opaque bytes.now }
{
    bytes.starts_with(opaque_mark().as_bytes())
}

/// Returns whether a byte is a tab.
fn is_tab(byte: u8) -> bool
    ensures { result ≡ is_tab byte }
{
    byte == b'\t'
}

/// Returns the index of the first tab, or `None` if there is none.
fn tab_in(bytes: &[u8]) -> Option<usize>
    ensures { result ≡ position is_tab bytes.now }
{
    bytes.iter().position(|byte| is_tab(*byte))
}

/// Returns the bytes before the first tab, or all if there is none.
fn before_tab(bytes: &[u8]) -> &[u8]
    ensures { result.now ≡ before_tab bytes.now }
{
    match tab_in(bytes) {
        Some(end) => &bytes[..end],
        None => bytes,
    }
}

/// Returns what bytes that stand for something else say that this is, as `a link`.
#[tactic(auto, unfolding(crate::specs::Opaque::stands_for))]
pub fn stands_for(bytes: &[u8]) -> &[u8]
    ensures { result.now ≡ stands_for bytes.now }
{
    match bytes.get(opaque_mark().len()..) {
        Some(rest) => before_tab(rest),
        None => &[],
    }
}
