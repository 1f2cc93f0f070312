//! Numbers and bytes as they are printed.
ghost use Rattle.std.specs.Prelude.{◌≡◌, ◌++◌, ◌≤◌, ◌<◌, OnOk, codes, drop, length, replicate, true};
ghost use Rattle.gl_plain.specs.Fields.{digit_zero};
ghost use Rattle.std.specs.Fmt.{decimal, digit_glyph, signed_decimal};
ghost use Rattle.hex.specs.Hex.{encode_lower};
ghost use Rattle.report_text.specs.Values.{bytes_text, given_text, shown_bytes, upper_hex};

use itoa::Buffer;
use std::alloc::AllocError;

/// How many bytes of a list are printed.
pub const SHOWN: usize = 32;

/// How many digits a number of 32 bits has at most.
const HEX_DIGITS: usize = 8;

/// Writes a number in decimal.
pub fn write_number(line: &mut Vec<u8>, number: u64) -> Result<(), AllocError>
    ensures { OnOk result (line.new.items ≡ line.old.items ++ decimal number) }
{
    line.extend_from_slice(Buffer::new().format(number).as_bytes())
}

/// Writes a number in decimal, with a hyphen where it is negative.
pub fn write_signed(line: &mut Vec<u8>, number: i32) -> Result<(), AllocError>
    ensures { OnOk result (line.new.items ≡ line.old.items ++ signed_decimal number) }
{
    line.extend_from_slice(Buffer::new().format(number).as_bytes())
}

/// The upper-case digit of a value.
fn upper_digit(value: u8) -> u8
    requires { value < 16 }
    ensures { result ≡ digit_glyph true value }
{
    if value < 10 {
        b'0' + value
    } else {
        b'A' - 10 + value
    }
}

/// Puts the upper-case digits of a number at the end of zeros, and answers where they begin, with zeros before them where they are fewer
/// than the width.
fn place_digits(digits: &mut [u8], width: usize, value: u32) -> usize
    requires zeros { digits.old ≡ replicate HEX_DIGITS digit_zero }
    requires narrow { width ≤ HEX_DIGITS }
    ensures inside { result ≤ HEX_DIGITS }
    ensures digits { codes "0x" ++ drop result digits.new ≡ upper_hex width value }
{
    let mut first = digits.len();
    let mut rest = value;
    'digits: loop {
        first -= 1;
        digits[first] = upper_digit((rest % 16) as u8);
        rest /= 16;
        if rest == 0 {
            break;
        }
    }
    first.min(HEX_DIGITS - width)
}

/// Writes `0x` and the upper-case digits of a number, with zeros before them where they are fewer than the width.
pub fn write_hex(line: &mut Vec<u8>, width: usize, value: u32) -> Result<(), AllocError>
    requires { width ≤ HEX_DIGITS }
    ensures { OnOk result (line.new.items ≡ line.old.items ++ upper_hex width value) }
{
    let mut digits = [b'0'; HEX_DIGITS];
    let first = place_digits(&mut digits, width, value);
    line.extend_from_slice(b"0x")?;
    line.extend_from_slice(&digits[first..])
}

/// Writes two digits for each byte.
fn write_digits(line: &mut Vec<u8>, bytes: &[u8]) -> Result<(), AllocError>
    requires { length bytes.now ≤ SHOWN }
    ensures { OnOk result (line.new.items ≡ line.old.items ++ encode_lower bytes.now) }
{
    let mut room = [0u8; 2 * SHOWN];
    let digits = &mut room[..2 * bytes.len()];
    hex::encode_to_slice(bytes, digits).unwrap();
    line.extend_from_slice(digits)
}

/// Writes the first of some bytes.
#[tactic(auto, unfolding(crate::specs::Values::shown_bytes))]
fn write_shown(line: &mut Vec<u8>, bytes: &[u8]) -> Result<(), AllocError>
    ensures { OnOk result (line.new.items ≡ line.old.items ++ shown_bytes bytes.now) }
{
    if bytes.is_empty() {
        line.extend_from_slice(b"-")
    } else if bytes.len() <= SHOWN {
        write_digits(line, bytes)
    } else {
        let (front, _) = bytes.split_at(SHOWN);
        write_digits(line, front)?;
        line.extend_from_slice(b"+")
    }
}

/// Writes how many bytes there are, and the first of them.
#[tactic(auto, unfolding(crate::specs::Values::bytes_text))]
pub fn write_bytes(line: &mut Vec<u8>, bytes: &[u8]) -> Result<(), AllocError>
    ensures { OnOk result (line.new.items ≡ line.old.items ++ bytes_text bytes.now) }
{
    write_number(line, bytes.len() as u64)?;
    line.extend_from_slice(b":")?;
    write_shown(line, bytes)
}

/// Writes bytes that are given, or that none are.
#[tactic(auto, unfolding(crate::specs::Values::given_text))]
pub fn write_given(line: &mut Vec<u8>, bytes: Option<&[u8]>) -> Result<(), AllocError>
    ensures { OnOk result (line.new.items ≡ line.old.items ++ given_text bytes.entry) }
{
    match bytes {
        Some(bytes) => write_bytes(line, bytes),
        None => line.extend_from_slice(b"none"),
    }
}
