//! The script that a text stands for, or its first line outside the grammar.
ghost use Rattle.std.specs.Prelude.{◌≡◌, ◌<◌, ◌^◌, ◌∷◌, ℕ, length, if◌then◌else◌, IfOk, IsErrOf, IsTrue};
ghost use Rattle.gl_plain.specs.CommonLines.{are_sound_answers};
ghost use Rattle.cb_shm.specs.Whole.{IsWholeScript};
ghost use Rattle.ring_script.specs.Limits.{IsWithinLimits};
ghost use Rattle.ring_script.specs.Rules.{IsSound};
ghost use Rattle.ring_script.specs.Script.{draft_with, lines_of, script_in, IsFirstBad};
ghost use Rattle.ring_script.specs.declared.script.ReadRefusal.TheVariants.{NoMemory};

use crate::draft::Draft;
use crate::line::read_line;
use cb_shm::Script;
use gl_plain::fields::cut;
use std::alloc::{AllocError, Global};
use thiserror::Error;

/// Why a text was not read.
#[derive(Clone, Copy, Debug, PartialEq, Eq, Error)]
pub enum ReadRefusal {
    /// The number, from 1, of the first line that is outside the grammar.
    #[error("line {0} is outside the grammar")]
    BadLine(u32),
    /// There was no memory for the script.
    #[error("there was no memory")]
    NoMemory,
}

impl From<AllocError> for ReadRefusal {
    ghost from_gives = { λ _ refusal. refusal ≡ NoMemory };

    fn from(_error: AllocError) -> ReadRefusal {
        ReadRefusal::NoMemory
    }
}

/// The first line without its line feed, and what follows it.
fn first_line(text: &[u8]) -> (&[u8], &[u8])
    requires { 0 < length text.now }
    ensures lines { lines_of text.now ≡ result.0.now ∷ lines_of result.1.now }
    ensures shorter { length result.1.now < length text.now }
{
    match cut(text, b'\n') {
        Some(parts) => parts,
        None => (text, &[]),
    }
}

/// Takes the next line, where it is in the grammar and may stand there. The answer is whether it does.
fn take_text(alloc: Global, draft: &mut Draft, text: &[u8]) -> Result<bool, AllocError>
    requires { IsSound draft.old }
    ensures taken { IfOk result (λ taken. draft_with text.now draft.old ≡ (if taken then Some draft.new else None)) }
{
    match read_line(alloc, text)? {
        Some(line) => draft.take(alloc, line),
        None => Ok(false),
    }
}

/// The script that a text stands for. Each line is read once, in place, and decoded bytes are not copied again. A script that was
/// read describes a memory: its regions have numbers of their own and sizes within the limits, and what is written lies in them. What it
/// says of compilations, links and validations is such as a driver may say.
///
/// # Errors
///
/// `BadLine` names the first line that is outside the grammar. `NoMemory` may come for any text.
pub fn read_script(alloc: Global, text: &[u8]) -> Result<Script, ReadRefusal>
    requires { length (lines_of text.now) < 2 ^ 32 }
    ensures ok { IfOk result (λ script. script_in text.now ≡ Ok script) }
    ensures whole { IfOk result (λ script. IsWholeScript script) }
    ensures limits { IfOk result (λ script. IsWithinLimits script) }
    ensures answers { IfOk result (λ script. IsTrue (are_sound_answers script.answers)) }
    ensures bad { (k : ℕ) → IsErrOf result (ReadRefusal.BadLine k) → script_in text.now ≡ Err k }
    ensures first { (k : ℕ) → IsErrOf result (ReadRefusal.BadLine k) → IsFirstBad (lines_of text.now) k }
{
    let mut draft = Draft::new(alloc);
    let mut number = 0u32;
    let mut rest = text;
    'reading: while !rest.is_empty() {
        let (line, more) = first_line(rest);
        number += 1;
        let is_taken = take_text(alloc, &mut draft, line)?;
        if !is_taken {
            return Err(ReadRefusal::BadLine(number));
        }
        rest = more;
    }
    Ok(draft.into_script()?)
}
