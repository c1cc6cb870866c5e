//! Mounts.
ghost use Rattle.std.specs.Prelude.{◌≡◌, IfOk, map};
ghost use Rattle.casebook_host.specs.Mounts.{covers, hides_reading, mount_of, shows_reading};

use crate::NoMem;
use crate::escape::unescaped;
use retro_path::{Bytes, Path};
use std::alloc::Global;

/// A mount.
#[derive(Drop)]
pub(crate) struct Mount {
    /// The text of its point, `/a/b`, or `/` for the root.
    pub point: Bytes,
    /// Whether reading is seen there.
    pub shows_reading: bool,
}

/// Returns whether reading isn't seen in a mount that has an option.
fn hides_reading(option: &[u8]) -> bool
    ensures { result ≡ hides_reading option.now }
{
    option == b"relatime".as_slice()
        || option == b"noatime".as_slice()
        || option == b"nodiratime".as_slice()
        || option == b"ro".as_slice()
}

/// Returns whether reading is seen in a mount with these options, which commas separate.
fn shows_reading(options: &[u8]) -> bool
    ensures { result ≡ shows_reading options.now }
{
    !options
        .split(|byte| *byte == b',')
        .any(|option| hides_reading(option))
}

impl Mount {
    /// Returns the mount of the words of a row, or `None` if there are fewer than four.
    pub fn of(alloc: Global, words: &[&[u8]]) -> Result<Option<Mount>, NoMem>
        ensures { IfOk result (λ mount. mount ≡ mount_of (map (λ word. word.now) words.now)) }
    {
        match words {
            [_, point, _, options, ..] => Ok(Some(Mount {
                point: Bytes::of(unescaped(alloc, point)?),
                shows_reading: shows_reading(options),
            })),
            _ => Ok(None),
        }
    }

    /// Returns whether the point is a path or lies above it.
    pub fn covers(&self, path: &Path) -> bool
        ensures { result ≡ covers path.now self.now.point }
    {
        let point = self.point.as_slice();
        let text = path.as_str().as_bytes();
        point == b"/".as_slice()
            || match text.strip_prefix(point) {
                Some(rest) => rest.is_empty() || rest[0] == b'/',
                None => false,
            }
    }
}
