//! The fields of a line of text: what separates them, numbers, and bytes in hexadecimal. Scripts and traces share them.
ghost use Rattle.std.specs.Prelude.{◌≡◌, ◌≤◌, ◌==◌, option_map, position, IfOk};
ghost use Rattle.gl_plain.specs.Fields.{cut_at, digit_in, digits_in, number_in, bytes_in};

use crate::Bytes;
use hex::FromHexError;
use std::alloc::{AllocError, Global};

fn place_of(text: &[u8], byte: u8) -> Option<usize>
    ensures { result ≡ position (λ c. c == byte) text.now }
{
    text.iter().position(|c| *c == byte)
}

/// What stands before the first such byte, and what stands after it.
#[tactic(auto, unfolding(crate::specs::Fields::cut_at))]
pub fn cut(text: &[u8], byte: u8) -> Option<(&[u8], &[u8])>
    ensures { option_map (λ parts. (parts.0.now, parts.1.now)) result ≡ cut_at byte text.now }
{
    match place_of(text, byte) {
        Some(i) => Some((&text[..i], &text[i + 1..])),
        None => None,
    }
}

fn digit(base: u64, c: u8) -> Option<u64>
    requires { base ≤ 16 }
    ensures { result ≡ digit_in base c }
{
    let value = match c {
        b'0'..=b'9' => u64::from(c - b'0'),
        b'a'..=b'f' => u64::from(c - b'a') + 10,
        b'A'..=b'F' => u64::from(c - b'A') + 10,
        _ => return None,
    };
    if value < base { Some(value) } else { None }
}

#[tactic(auto, unfolding(crate::specs::Fields::digits_in))]
fn digits(base: u64, text: &[u8]) -> Option<u32>
    requires low { 1 ≤ base }
    requires high { base ≤ 16 }
    ensures { result ≡ digits_in base text.now }
{
    let mut value = 0u64;
    for c in text {
        let digit = digit(base, *c)?;
        value = value * base + digit;
        if value >= 1 << 32 {
            return None;
        }
    }
    Some(value as u32)
}

/// A number of 32 bits, in decimal without leading zeros or as `0x` and 1 to 8 hexadecimal digits.
#[tactic(auto, unfolding(crate::specs::Fields::number_in))]
pub fn number(text: &[u8]) -> Option<u32>
    ensures { result ≡ number_in text.now }
{
    match text {
        [] => None,
        [b'0', b'x', rest @ ..] => {
            if rest.is_empty() || rest.len() > 8 {
                None
            } else {
                digits(16, rest)
            }
        }
        [b'0', _, ..] => None,
        _ => digits(10, text),
    }
}

/// Bytes as a positive even number of hexadecimal digits, or as `-` for none.
#[tactic(auto, unfolding(crate::specs::Fields::bytes_in))]
pub fn bytes(alloc: Global, text: &[u8]) -> Result<Option<Bytes>, AllocError>
    ensures { IfOk result (λ found. found ≡ bytes_in text.now) }
{
    match text {
        [] => Ok(None),
        [b'-'] => Ok(Some(Bytes::new(alloc))),
        [_] => Ok(None),
        _ => match hex::decode(alloc, text) {
            Ok(bytes) => Ok(Some(Bytes::from_vec(bytes))),
            Err(FromHexError::OutOfMemory) => Err(AllocError),
            Err(_) => Ok(None),
        },
    }
}
