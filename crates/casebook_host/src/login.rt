//! Logins.
ghost use Rattle.std.specs.Prelude.{◌≡◌, map, option_map};
ghost use Rattle.casebook_host.specs.Logins.{login_of};
ghost use Rattle.casebook_host.specs.LoginViews.{login_value};

/// Somebody who is logged in, by the machine's own list.
#[derive(Clone, Copy)]
pub struct Login<'a> {
    /// The name of the user.
    pub name: &'a [u8],
    /// The terminal as `who` writes it: `pts/0`, `tty1` or `:0`.
    pub terminal: &'a [u8],
}

impl<'a> Login<'a> {
    /// Returns the login of the words of a row, or `None` if there are fewer than two.
    pub(crate) fn of(words: &[&'a [u8]]) -> Option<Login<'a>>
        ensures { option_map login_value result ≡ login_of (map (λ word. word.now) words.now) }
    {
        match words {
            [name, terminal, ..] => Some(Login { name, terminal }),
            _ => None,
        }
    }
}
