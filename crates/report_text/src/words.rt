//! Words of a line, each with a space before it.
ghost use Rattle.std.specs.Prelude.{◌≡◌, ◌∷◌, [], ◌++◌, OnOk, codes, map};
ghost use Rattle.std.specs.Fmt.{decimal};
ghost use Rattle.report_text.specs.Lines.{spaced};
ghost use Rattle.report_text.specs.Values.{pattern_text, words};

use crate::arguments::Argument;
use crate::values::{write_bytes, write_given, write_hex, write_number, write_signed};
use std::alloc::AllocError;

/// How many digits an enum has at least.
const ENUM_DIGITS: usize = 4;

/// How many digits the pattern of a float, or a word of the fixed state, has.
const PATTERN_DIGITS: usize = 8;

fn write_space(line: &mut Vec<u8>) -> Result<(), AllocError>
    ensures { OnOk result (line.new.items ≡ line.old.items ++ codes " ") }
{
    line.extend_from_slice(b" ")
}

#[tactic(auto, unfolding(crate::specs::Values::pattern_text))]
fn write_pattern(line: &mut Vec<u8>, pattern: u32) -> Result<(), AllocError>
    ensures { OnOk result (line.new.items ≡ line.old.items ++ spaced (pattern_text pattern ∷ [])) }
{
    write_space(line)?;
    write_hex(line, PATTERN_DIGITS, pattern)
}

fn write_patterns(line: &mut Vec<u8>, patterns: &[u32]) -> Result<(), AllocError>
    ensures { OnOk result (line.new.items ≡ line.old.items ++ spaced (map pattern_text patterns.now)) }
{
    for pattern in patterns {
        write_pattern(line, *pattern)?;
    }
    Ok(())
}

/// Writes the words of an argument.
#[tactic(auto, unfolding(crate::specs::Values::enum_text))]
fn write_argument(line: &mut Vec<u8>, argument: &Argument) -> Result<(), AllocError>
    ensures { OnOk result (line.new.items ≡ line.old.items ++ spaced (words (argument.now ∷ []))) }
{
    match argument {
        Argument::Number(number) => {
            write_space(line)?;
            write_number(line, *number)
        }
        Argument::Signed(number) => {
            write_space(line)?;
            write_signed(line, *number)
        }
        Argument::Enum(value) => {
            write_space(line)?;
            write_hex(line, ENUM_DIGITS, value.0)
        }
        Argument::Flag(flag) => {
            write_space(line)?;
            line.extend_from_slice(if *flag { b"1" } else { b"0" })
        }
        Argument::Patterns(patterns) => write_patterns(line, patterns),
        Argument::Data(bytes) => {
            write_space(line)?;
            write_bytes(line, bytes)
        }
        Argument::Given(bytes) => {
            write_space(line)?;
            write_given(line, *bytes)
        }
    }
}

/// Writes the words of some arguments.
fn write_words(line: &mut Vec<u8>, arguments: &[Argument]) -> Result<(), AllocError>
    ensures { OnOk result (line.new.items ≡ line.old.items ++ spaced (words arguments.now)) }
{
    for argument in arguments {
        write_argument(line, argument)?;
    }
    Ok(())
}

/// Writes the name of a call and its arguments.
pub fn write_named(line: &mut Vec<u8>, name: &str, arguments: &[Argument]) -> Result<(), AllocError>
    ensures { OnOk result (line.new.items ≡ line.old.items ++ (name.now ++ spaced (words arguments.now))) }
{
    line.extend_from_slice(name.as_bytes())?;
    write_words(line, arguments)
}
