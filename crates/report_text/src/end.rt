//! How a run ends, and what that prints.
ghost use Rattle.std.specs.Prelude.{◌≡◌, ◌++◌, IfOk, OnOk};
ghost use Rattle.report_text.specs.Ends.{status_of, kind_text, end_text};

use crate::statuses;
use crate::text::Text;
use crate::values::write_number;
use gl_plain::{Bytes, Malformed, Stop};
use std::alloc::{AllocError, Global};

/// How a run ends.
#[derive(Clone, Copy, Debug, PartialEq, Eq)]
pub enum End {
    /// Everything was done.
    Done,
    /// The words of the command line are not such as the program takes.
    Usage,
    /// The line of the input with this number, from 1, is outside its grammar.
    BadLine(u32),
    /// The input could not be read.
    ReadFault,
    /// A command was malformed.
    Stopped(Stop),
    /// There was no memory for what had to be kept.
    NoMemory,
    /// The driver was lost.
    Lost,
    /// The input is longer than the program takes.
    TooLong,
}

impl End {
    /// The exit status that says how the run ended.
    pub fn status(self) -> u8
        ensures { result ≡ status_of self }
    {
        match self {
            End::Done => statuses::DONE,
            End::Usage => statuses::USAGE,
            End::BadLine(_) => statuses::BAD_LINE,
            End::ReadFault => statuses::READ_FAULT,
            End::Stopped(_) => statuses::STOPPED,
            End::NoMemory => statuses::NO_MEMORY,
            End::Lost => statuses::LOST,
            End::TooLong => statuses::TOO_LONG,
        }
    }
}

fn kind_name(kind: Malformed) -> &'static str
    ensures { result.now ≡ kind_text kind }
{
    match kind {
        Malformed::InvalidSize => "InvalidSize",
        Malformed::OutOfBounds => "OutOfBounds",
        Malformed::UnknownCommand => "UnknownCommand",
        Malformed::InvalidArguments => "InvalidArguments",
    }
}

/// Writes what says how a run ended.
#[tactic(auto, unfolding(crate::specs::Ends::end_text))]
pub(crate) fn write_end(line: &mut Vec<u8>, end: &End) -> Result<(), AllocError>
    ensures { OnOk result (line.new.items ≡ line.old.items ++ end_text end.now) }
{
    match end {
        End::Done => line.extend_from_slice(b"end ok\n"),
        End::Usage => line.extend_from_slice(b"usage: gles2_cli ring\n"),
        End::BadLine(number) => {
            line.extend_from_slice(b"bad line ")?;
            write_number(line, u64::from(*number))?;
            line.extend_from_slice(b"\n")
        }
        End::ReadFault => line.extend_from_slice(b"end read fault\n"),
        End::Stopped(stop) => {
            line.extend_from_slice(b"stop ")?;
            line.extend_from_slice(kind_name(stop.kind).as_bytes())?;
            line.extend_from_slice(b" ")?;
            write_number(line, u64::from(stop.place))?;
            line.extend_from_slice(b"\n")
        }
        End::NoMemory => line.extend_from_slice(b"end no memory\n"),
        End::Lost => line.extend_from_slice(b"end driver lost\n"),
        End::TooLong => line.extend_from_slice(b"end too long\n"),
    }
}

/// The line that says how a run ended.
pub fn end_line(alloc: Global, end: &End) -> Result<Bytes, AllocError>
    ensures { IfOk result (λ line. line ≡ end_text end.now) }
{
    let mut text = Text::new(alloc);
    text.push_end(end)?;
    Ok(text.into_bytes())
}
