//! Numbers in a file of rows.

use crate::refusal::LineRefusal;
use std::alloc::Global;

/// A number of 32 bits: decimal, hexadecimal behind `0x`, or below zero, in two's complement.
pub fn number(text: &str) -> Result<u32, LineRefusal> {
    let found = if let Some(digits) = text.strip_prefix("0x") {
        u32::from_str_radix(digits, 16)
    } else if let Some(digits) = text.strip_prefix("-") {
        digits.parse::<u32>().map(|n| n.wrapping_neg())
    } else {
        text.parse::<u32>()
    };
    found.map_err(|_| LineRefusal::Unreadable)
}

/// Numbers with a space between them; none is an empty text.
pub fn numbers(alloc: Global, text: &str) -> Result<Vec<u32>, LineRefusal> {
    let mut found = Vec::new(alloc);
    if !text.is_empty() {
        for word in text.split(' ') {
            found.push(number(word)?)?;
        }
    }
    Ok(found)
}

/// A line in which each `{K}` is replaced by the number that is so much above K.
pub fn filled(alloc: Global, line: &str, above: u32) -> Result<String, LineRefusal> {
    let mut text = String::new(alloc);
    let mut pieces = line.split('{');
    if let Some(front) = pieces.next() {
        text.push_str(front)?;
    }
    for piece in pieces {
        let (digits, rest) = piece.split_once('}').ok_or(LineRefusal::Unreadable)?;
        let value = u64::from(number(digits)?) + u64::from(above);
        write!(text, "{value}{rest}")?;
    }
    Ok(text)
}
