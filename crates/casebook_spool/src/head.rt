//! The first rows of listings.
ghost use Rattle.std.specs.Prelude.{◌≡◌, map};
ghost use Rattle.casebook_spool.specs.Listings.{head_of};

use casebook_rows::number_of;

/// What the first row of a listing says.
#[derive(Clone, Copy, Debug, PartialEq, Eq)]
pub(crate) struct Head {
    /// To which byte of the file `lines` it goes.
    pub at: u64,
    /// How many notes follow.
    pub count: u64,
}

impl Head {
    /// Reads the first row of a listing.
    #[tactic(auto, unfolding(crate::specs::Listings::head_of))]
    pub(crate) fn of(fields: &[&[u8]]) -> Option<Head>
        ensures { result ≡ head_of (map (λ field. field.now) fields.now) }
    {
        match fields {
            [word, at, count] if *word == b"listing".as_slice() => {
                let at = number_of(at)?;
                let count = number_of(count)?;
                Some(Head { at, count })
            }
            _ => None,
        }
    }
}
