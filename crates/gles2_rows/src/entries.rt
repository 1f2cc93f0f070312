//! Entries of the ring, as lines of a script.
ghost use Rattle.std.specs.Prelude.{◌≡◌, ◌++◌, IfOk, OnOk};
ghost use Rattle.gl_plain.specs.Bytes.{bytes_of_words};
ghost use Rattle.gles2_rows.specs.Texts.{entries_line};

use crate::refusal::LineRefusal;
use arrayvec::ArrayVec;
use byteorder::{ByteOrder, LittleEndian};
use cb_format::Command;
use std::alloc::{AllocError, Global};

/// One more than the greatest number of a command.
const NUMBERS: u32 = 1 << 11;

/// The bytes of a command's entries.
pub fn command_bytes(alloc: Global, number: u32, words: &[u32]) -> Result<Vec<u8>, LineRefusal> {
    let Ok(words) = ArrayVec::try_from(words) else {
        return Err(LineRefusal::Unreadable);
    };
    if number >= NUMBERS {
        return Err(LineRefusal::Unreadable);
    }
    let command = Command { number, words };
    let mut bytes = vec![in alloc; 0u8; 4 * (1 + command.words.len())]?;
    command.write(&mut bytes);
    Ok(bytes)
}

/// The bytes of entries.
pub fn entry_bytes(alloc: Global, words: &[u32]) -> Result<Vec<u8>, AllocError>
    ensures { IfOk result (λ bytes. bytes.items ≡ bytes_of_words words.now) }
{
    let size = words.len().checked_mul(4).ok_or(AllocError)?;
    let mut bytes = vec![in alloc; 0u8; size]?;
    LittleEndian::write_u32_into(words, &mut bytes);
    Ok(bytes)
}

/// Adds the line that puts bytes into the ring from an entry on.
pub fn add_entries(
    alloc: Global,
    out: &mut Vec<u8>,
    place: u32,
    bytes: &[u8],
) -> Result<(), AllocError>
    ensures { OnOk result (out.new.items ≡ out.old.items ++ entries_line place bytes.now) }
{
    let offset = 4 * u64::from(place);
    let digits = hex::encode(alloc, bytes)?;
    let line = format!(in alloc; "bytes 0 {offset} {digits}\n")?;
    out.extend_from_slice(line.as_bytes())
}
