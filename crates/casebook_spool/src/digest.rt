//! Digests.

/// The SHA-256 digest of some bytes.
#[derive(Clone, Copy, Debug, PartialEq, Eq)]
pub struct Digest {
    /// Its bytes.
    pub bytes: [u8; 32],
}
