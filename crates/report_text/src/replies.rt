//! The lines of replies.
ghost use Rattle.std.specs.Prelude.{◌≡◌, ◌++◌, OnOk, IfOk, codes, map};
ghost use Rattle.std.specs.Fmt.{decimal};
ghost use Rattle.report_text.specs.Lines.{spaced};
ghost use Rattle.report_text.specs.Replies.{code_text, reply_line};

use crate::text::{Line, Text};
use crate::values::{write_bytes, write_number};
use gl_base::error_name;
use gl_plain::{Bytes, Reply};
use std::alloc::{AllocError, Global};

/// Writes each number with a space before it.
fn write_numbers(line: &mut Vec<u8>, numbers: &[u32]) -> Result<(), AllocError>
    ensures { OnOk result (line.new.items ≡ line.old.items ++ spaced (map decimal numbers.now)) }
{
    for number in numbers {
        line.extend_from_slice(b" ")?;
        write_number(line, u64::from(*number))?;
    }
    Ok(())
}

/// Writes an error code by its name. A number that is no error code, which no reply has, is written as it is.
fn write_code(line: &mut Vec<u8>, code: u32) -> Result<(), AllocError>
    ensures { OnOk result (line.new.items ≡ line.old.items ++ code_text code) }
{
    match error_name(code) {
        Some(name) => line.extend_from_slice(name.as_bytes()),
        None => write_number(line, u64::from(code)),
    }
}

/// Writes the front of a reply's line.
fn write_front(line: &mut Vec<u8>, number: u64) -> Result<(), AllocError>
    ensures { OnOk result (line.new.items ≡ line.old.items ++ (codes "reply " ++ decimal number)) }
{
    line.extend_from_slice(b"reply ")?;
    write_number(line, number)
}

impl Line for Reply {
    ghost use Rattle.report_text.specs.Replies.{reply_line};

    ghost printed = { reply_line };

    #[tactic(auto, unfolding(crate::specs::Replies::reply_line))]
    fn write_line(&self, number: u64, line: &mut Vec<u8>) -> Result<(), AllocError> {
        match self {
            Reply::None => Ok(()),
            Reply::Word(word) => {
                write_front(line, number)?;
                line.extend_from_slice(b" word ")?;
                write_number(line, u64::from(*word))?;
                line.extend_from_slice(b"\n")
            }
            Reply::Words(words) => {
                write_front(line, number)?;
                line.extend_from_slice(b" words")?;
                write_numbers(line, words.as_slice())?;
                line.extend_from_slice(b"\n")
            }
            Reply::Names(names) => {
                write_front(line, number)?;
                line.extend_from_slice(b" names")?;
                write_numbers(line, names.as_slice())?;
                line.extend_from_slice(b"\n")
            }
            Reply::Bytes(bytes) => {
                write_front(line, number)?;
                line.extend_from_slice(b" bytes ")?;
                write_bytes(line, bytes.as_slice())?;
                line.extend_from_slice(b"\n")
            }
            Reply::Error(code) => {
                write_front(line, number)?;
                line.extend_from_slice(b" error ")?;
                write_code(line, *code)?;
                line.extend_from_slice(b"\n")
            }
        }
    }
}

/// The line of a reply with its number, or nothing where it gives nothing back.
pub fn reply_line(alloc: Global, number: u64, reply: &Reply) -> Result<Bytes, AllocError>
    ensures { IfOk result (λ line. line ≡ reply_line number reply.now) }
{
    let mut text = Text::new(alloc);
    text.push(number, reply)?;
    Ok(text.into_bytes())
}
