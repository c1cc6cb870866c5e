//! Reasons by their names.
ghost use Rattle.std.specs.Prelude.{◌≡◌};
ghost use Rattle.casebook_snapshot_read.specs.Reasons.{reason_named};

use casebook_snapshot::Reason;

/// Returns the reason that has a name in documents, if there is one.
pub(crate) fn reason_named(name: &str) -> Option<Reason>
    ensures { result ≡ reason_named name.now }
{
    match name {
        "link" => Some(Reason::Link),
        "device" => Some(Reason::Device),
        "pipe" => Some(Reason::Pipe),
        "socket" => Some(Reason::Socket),
        "other file system" => Some(Reason::OtherFileSystem),
        "too large" => Some(Reason::TooLarge),
        "odd name" => Some(Reason::OddName),
        "name too long" => Some(Reason::NameTooLong),
        "unreadable" => Some(Reason::Unreadable),
        "changing" => Some(Reason::Changing),
        "null device" => Some(Reason::NullDevice),
        "asked" => Some(Reason::Asked),
        _ => None,
    }
}
