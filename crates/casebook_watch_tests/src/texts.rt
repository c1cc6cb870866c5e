//! Sights, read from texts.
//!
//! A field has entries that `, ` separates: a path, a kind, a number, and what isn't usual of the
//! sight, as `/f file 7 size=5 mode=640 read=10.5`. A time is a second, and maybe a point and a
//! nanosecond. Without a word a file has no bytes, mode 644, owner and group 0, and each time is
//! second 0. The field `none` has no entries.
use casebook_folder::Attributes;
use casebook_watch::{FileTime, Kind, Sight, Sights};
use retro_rows::{fail, path};
use std::alloc::Global;
use std::test::Fail;

/// Returns the kind of a name.
fn kind(name: &str) -> Result<Kind, Fail> {
    match name {
        "dir" => Ok(Kind::Dir),
        "file" => Ok(Kind::File),
        "link" => Ok(Kind::Link),
        "other" => Ok(Kind::Other),
        _ => fail("no such kind"),
    }
}

/// Returns the time that a text says.
fn time(text: &str) -> Result<FileTime, Fail> {
    match text.split_once('.') {
        Some((second, nanosecond)) => Ok(FileTime {
            second: second.parse()?,
            nanosecond: nanosecond.parse()?,
        }),
        None => Ok(FileTime {
            second: text.parse()?,
            nanosecond: 0,
        }),
    }
}

/// Returns the sight of a kind and a number, with what is usual.
fn usual(kind: Kind, number: u64) -> Sight {
    let time = FileTime {
        second: 0,
        nanosecond: 0,
    };
    Sight {
        kind,
        size: 0,
        number,
        attributes: Attributes {
            mode: 0o644,
            uid: 0,
            gid: 0,
        },
        read: time,
        written: time,
        changed: time,
    }
}

/// Sets what a word says of a sight.
fn set(sight: &mut Sight, word: &str) -> Result<(), Fail> {
    match word.split_once('=') {
        Some(("size", value)) => sight.size = value.parse()?,
        Some(("mode", value)) => sight.attributes.mode = u32::from_str_radix(value, 8)?,
        Some(("uid", value)) => sight.attributes.uid = value.parse()?,
        Some(("gid", value)) => sight.attributes.gid = value.parse()?,
        Some(("read", value)) => sight.read = time(value)?,
        Some(("written", value)) => sight.written = time(value)?,
        Some(("changed", value)) => sight.changed = time(value)?,
        _ => return fail("no such word"),
    }
    Ok(())
}

/// Returns what one look says.
pub fn sights(alloc: Global, field: &str) -> Result<Sights, Fail> {
    let mut sights = Sights::new(alloc);
    if field == "none" {
        return Ok(sights);
    }
    for entry in field.split(", ") {
        let words: Vec<&str> = entry.split(' ').collect(alloc)?;
        let [name, of, number, more @ ..] = words.as_slice() else {
            return fail("no sight");
        };
        let mut sight = usual(kind(of)?, number.parse()?);
        for word in more {
            set(&mut sight, word)?;
        }
        sights.insert(path(alloc, name)?, sight)?;
    }
    Ok(sights)
}
