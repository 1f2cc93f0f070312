//! The greatest of the indices of a draw (OpenGL ES 2.0.25, section 2.8).
ghost use Rattle.std.specs.Prelude.{◌≡◌, ◌≤◌, ◌+◌, ◌*◌, ◌/◌, length, true};
ghost use Rattle.gl_base.specs.declared.enums.TheConstants.{UNSIGNED_SHORT};
ghost use Rattle.gl_plain.specs.subjects.Draws as d;

use gl_base::GlEnum;
use gl_base::enums::UNSIGNED_BYTE;

/// The greatest byte, or 0 of none.
fn greatest_byte(bytes: &[u8]) -> u8
    ensures { result ≡ d.greatest bytes.now }
{
    let mut greatest = 0;
    for byte in bytes {
        greatest = greatest.max(*byte);
    }
    greatest
}

/// The number of two bytes at a place, counted in pairs; the first is its low byte.
fn short_at(bytes: &[u8], pair: usize) -> u16
    requires { 2 * pair + 2 ≤ length bytes.now }
    ensures { result ≡ d.index_at bytes.now UNSIGNED_SHORT (2 * pair) }
{
    u16::from_le_bytes([bytes[2 * pair], bytes[2 * pair + 1]])
}

/// The greatest number of two bytes, or 0 of none.
fn greatest_short(bytes: &[u8]) -> u16
    ensures { result ≡ d.greatest (d.indices bytes.now UNSIGNED_SHORT 0 (length bytes.now / 2)) }
{
    let mut greatest = 0;
    for pair in 0..bytes.len() / 2 {
        greatest = greatest.max(short_at(bytes, pair));
    }
    greatest
}

/// The bytes of an index of this kind.
fn index_size(kind: GlEnum) -> usize
    ensures size { result ≡ d.index_size kind }
    ensures small { result ≤ 2 }
{
    if kind == UNSIGNED_BYTE { 1 } else { 2 }
}

/// The greatest of so many indices of this kind from a byte on; `None` where there are none or they are not inside the bytes.
pub fn max_index(bytes: &[u8], offset: u32, count: u32, kind: GlEnum) -> Option<u32>
    requires { d.is_index_kind kind ≡ true }
    ensures { result ≡ d.max_index bytes.now offset count kind }
{
    let start = offset as usize;
    let end = start + count as usize * index_size(kind);
    if count == 0 || bytes.len() < end {
        return None;
    }
    let part = &bytes[start..end];
    if kind == UNSIGNED_BYTE {
        Some(greatest_byte(part) as u32)
    } else {
        Some(greatest_short(part) as u32)
    }
}
