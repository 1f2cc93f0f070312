//! What a run prints, written in blocks, and the status.
ghost use Rattle.std.specs.Prelude.{◌≡◌, [], ◌++◌, OnOk, OnErr, IsErrOf};
ghost use Rattle.std.specs.Io.KnownBytes.{Appends};
ghost use Rattle.io_edge.specs.Causes.{Rose};
ghost use Rattle.io_edge.specs.Pieces.{AppendsFront};
ghost use Rattle.gl_plain.specs.State.{opening_driver};
ghost use Rattle.gl_plain.specs.Journal.{IsLegal};
ghost use Rattle.report_text.specs.Lines.{lines};
ghost use Rattle.report_text.specs.Report.{output_text, work_text};
ghost use Rattle.gles2_run.specs.Ends.{Closes};
ghost use Rattle.gles2_run.specs.Written.{ClosesShort, HasWritten, HasWrittenFront};

use crate::desk::Desk;
use gl_plain::{DriverEntry, Reply};
use io_edge::{Failed, Sink, write_all};
use report_text::statuses::{NO_MEMORY, WRITE_FAULT};
use report_text::{End, Line, Text};
use std::alloc::{AllocError, Global};

/// How many bytes wait at least before they are written.
const BLOCK: usize = 65_536;

/// Why not all was written.
#[derive(Clone, Copy)]
enum ClosingStop {
    /// A write failed.
    Fault,
    /// There was no memory for a line. The lines before it were made, and wait or are written.
    NoMemory,
}

impl From<Failed> for ClosingStop {
    ghost use Rattle.gles2_run.specs.ClosingStops.{write_failed};

    ghost from_gives = { λ _ stop. stop ≡ write_failed };

    fn from(_failed: Failed) -> ClosingStop {
        ClosingStop::Fault
    }
}

impl From<AllocError> for ClosingStop {
    ghost use Rattle.gles2_run.specs.ClosingStops.{no_memory};

    ghost from_gives = { λ _ stop. stop ≡ no_memory };

    fn from(_error: AllocError) -> ClosingStop {
        ClosingStop::NoMemory
    }
}

/// Writes what waits, where that is a block.
fn write_block<O: Sink>(waiting: &mut Text, sink: &mut O) -> Result<(), Failed>
    ensures ok { OnOk result (HasWritten (O.held sink.old) (O.held sink.new) waiting.old waiting.new) }
    ensures kept { OnOk result (O.faults sink.new ≡ O.faults sink.old) }
    ensures fault { OnErr result (Rose (O.faults sink.old) (O.faults sink.new)) }
    ensures part { OnErr result (AppendsFront (O.held sink.old) (O.held sink.new) waiting.old) }
{
    if waiting.len() < BLOCK {
        return Ok(());
    }
    write_all(sink, waiting.as_slice())?;
    waiting.clear();
    Ok(())
}

/// Adds the lines of some items to those that wait, and writes each block that gets full.
fn write_lines<T: Line, O: Sink>(
    waiting: &mut Text,
    items: &[T],
    sink: &mut O,
) -> Result<(), ClosingStop>
    ensures ok { OnOk result (HasWritten (O.held sink.old) (O.held sink.new) (waiting.old ++ lines T.printed 0 items.now) waiting.new) }
    ensures kept { OnOk result (O.faults sink.new ≡ O.faults sink.old) }
    ensures memory { IsErrOf result ClosingStop.NoMemory
        → HasWrittenFront (O.held sink.old) (O.held sink.new) (waiting.old ++ lines T.printed 0 items.now) waiting.new }
    ensures still { IsErrOf result ClosingStop.NoMemory → O.faults sink.new ≡ O.faults sink.old }
    ensures fault { IsErrOf result ClosingStop.Fault → Rose (O.faults sink.old) (O.faults sink.new) }
    ensures part { IsErrOf result ClosingStop.Fault
        → AppendsFront (O.held sink.old) (O.held sink.new) (waiting.old ++ lines T.printed 0 items.now) }
{
    for (number, item) in items.iter().enumerate() {
        waiting.push(number as u64, item)?;
        write_block(waiting, sink)?;
    }
    Ok(())
}

/// Writes the replies, the journal and the end.
fn write_output<O: Sink>(
    waiting: &mut Text,
    replies: &[Reply],
    journal: &[DriverEntry],
    end: &End,
    sink: &mut O,
) -> Result<(), ClosingStop>
    requires { waiting.old ≡ [] }
    ensures ok { OnOk result (Appends (O.held sink.old) (O.held sink.new) (output_text replies.now journal.now end.now)) }
    ensures memory { IsErrOf result ClosingStop.NoMemory → HasWrittenFront (O.held sink.old) (O.held sink.new) (work_text replies.now journal.now) waiting.new }
    ensures kept { IsErrOf result ClosingStop.NoMemory → O.faults sink.new ≡ O.faults sink.old }
    ensures fault { IsErrOf result ClosingStop.Fault → Rose (O.faults sink.old) (O.faults sink.new) }
    ensures part { IsErrOf result ClosingStop.Fault → AppendsFront (O.held sink.old) (O.held sink.new) (output_text replies.now journal.now end.now) }
{
    write_lines(waiting, replies, sink)?;
    write_lines(waiting, journal, sink)?;
    waiting.push_end(end)?;
    write_all(sink, waiting.as_slice())?;
    Ok(())
}

/// Writes the lines that wait where there was no memory for the next, and then that there was none.
#[tactic(auto, unfolding(report_text::specs::Ends::end_text))]
fn write_short<O: Sink>(waiting: &Text, sink: &mut O) -> u8
    ensures { ClosesShort waiting.now result (O.held sink.old) (O.held sink.new) (O.faults sink.old) (O.faults sink.new) }
{
    let Ok(()) = write_all(sink, waiting.as_slice()) else {
        return WRITE_FAULT;
    };
    let _ = write_all(sink, b"end no memory\n");
    NO_MEMORY
}

/// Writes the replies, the journal and the end, and answers the status.
pub fn close<O: Sink>(alloc: Global, desk: &Desk, end: End, sink: &mut O) -> u8
    ensures legal { IsLegal (opening_driver desk.now.driver.surface) desk.now.driver.journal }
    ensures closes { Closes end desk.now result (O.held sink.old) (O.held sink.new) (O.faults sink.old) (O.faults sink.new) }
{
    let mut waiting = Text::new(alloc);
    let replies = desk.answers.as_slice();
    match write_output(&mut waiting, replies, desk.driver.journal(), &end, sink) {
        Ok(()) => end.status(),
        Err(ClosingStop::Fault) => WRITE_FAULT,
        Err(ClosingStop::NoMemory) => write_short(&waiting, sink),
    }
}
