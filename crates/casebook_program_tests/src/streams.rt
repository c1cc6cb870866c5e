//! A stream of tar.
use retro_path::NoMem;
use std::alloc::Global;

/// The stream that GNU's `tar --format=ustar -b1` writes of a folder with an empty directory `d` and
/// a file `f`: bytes, and how many NULs come after them.
const STREAM: &[(&[u8], usize)] = &[
    (b"./", 98),
    (
        b"0000755\x000000007\x000000010\x0000000000000\x0000000000000\x00007706\x00 5",
        100,
    ),
    (b"ustar\x0000u", 31),
    (b"g", 31),
    (b"0000000\x000000000", 168),
    (b"./d/", 96),
    (
        b"0000755\x000000007\x000000010\x0000000000000\x0000000000000\x00010131\x00 5",
        100,
    ),
    (b"ustar\x0000u", 31),
    (b"g", 31),
    (b"0000000\x000000000", 168),
    (b"./f", 97),
    (
        b"0000644\x000000007\x000000010\x0000000000004\x0000000000000\x00010050\x00 0",
        100,
    ),
    (b"ustar\x0000u", 31),
    (b"g", 31),
    (b"0000000\x000000000", 168),
    (b"fig\n", 1532),
];

/// Returns the stream without the first parts.
pub(crate) fn stream(alloc: Global, skipped: usize) -> Result<Vec<u8>, NoMem> {
    let mut bytes = Vec::new(alloc);
    for (part, nuls) in STREAM.iter().skip(skipped) {
        bytes.extend_from_slice(part)?;
        for _ in 0..*nuls {
            bytes.push(0)?;
        }
    }
    Ok(bytes)
}
