//! The lines of a journal.
ghost use Rattle.std.specs.Prelude.{◌≡◌, IfOk};
ghost use Rattle.report_text.specs.Journal.{journal_line};

use crate::calls::{write_answer, write_call};
use crate::text::{Line, Text};
use crate::values::write_number;
use gl_plain::{Bytes, DriverEntry};
use std::alloc::{AllocError, Global};

impl Line for DriverEntry {
    ghost use Rattle.report_text.specs.Journal.{journal_line};

    ghost printed = { journal_line };

    #[tactic(auto, unfolding(crate::specs::Journal::journal_line))]
    fn write_line(&self, number: u64, line: &mut Vec<u8>) -> Result<(), AllocError> {
        line.extend_from_slice(b"driver ")?;
        write_number(line, number)?;
        line.extend_from_slice(b" ")?;
        write_call(line, &self.call)?;
        write_answer(line, &self.answer)?;
        line.extend_from_slice(b"\n")
    }
}

/// The line of a driver call and its answer, with the number of the call.
pub fn journal_line(alloc: Global, number: u64, entry: &DriverEntry) -> Result<Bytes, AllocError>
    ensures { IfOk result (λ line. line ≡ journal_line number entry.now) }
{
    let mut text = Text::new(alloc);
    text.push(number, entry)?;
    Ok(text.into_bytes())
}
