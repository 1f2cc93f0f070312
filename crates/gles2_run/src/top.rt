//! The top call.
ghost use Rattle.std.specs.Prelude.{◌≡◌, ◌⊎◌, ◌≤◌, ◌<◌, ℕ, List, map, length, IsTrue, Option, Ok, Err, None, Some, string_bytes};
ghost use Rattle.io_edge.specs.Causes.{Rose};
ghost use Rattle.gl_plain.specs.declared.commands.Stop.{Stop};
ghost use Rattle.cb_shm.specs.declared.script.Script.{Script};
ghost use Rattle.gl_plain.specs.State.{opening_wire, opening_driver};
ghost use Rattle.cb_fetch.specs.Seen.{seen};
ghost use Rattle.gl_plain.specs.Parts.{AreParts};
ghost use Rattle.gl_plain.specs.driver.Answers.{AreAnsweredBy};
ghost use Rattle.gl_plain.specs.Journal.{IsLegal};
ghost use Rattle.ring_script.specs.Script.{script_in};
ghost use Rattle.report_text.specs.declared.end.End.{End};
ghost use Rattle.gles2_run.specs.Desks.{new_desk};
ghost use Rattle.gles2_run.specs.Ends.{IsRing, INPUT_LIMIT, IsTooLong, answers_of, ring_run, RanTo, RanShort, RanLost, HasBadLine, Means, Closes, UnlessCut, UnlessLost, IsToldRing, is_run, is_unrun};

use crate::closing::close;
use crate::desk::Desk;
use crate::working::work;
use io_edge::{Sink, Source};
use std::alloc::Global;

/// All that the program does: reads a script from the source, runs the service in the memory that it describes, writes the replies,
/// the driver calls and how the run ended to the sink, and answers the status and the desk.
///
/// # Errors
///
/// The status says how the run ended: 0 at the script's end, 2 for words other than `ring`, 3 for a line outside the grammar, 4 for a
/// fault of the source, 5 for a fault of the sink, 6 at a malformed command, 7 for want of memory, 8 where the driver was lost, 9 for an input that is too long.
pub fn run<I: Source, O: Sink>(
    alloc: Global,
    words: &[String],
    source: &mut I,
    sink: &mut O,
    desk: Desk,
) -> (u8, Desk)
    requires { desk ≡ new_desk }

    // Each driver call met its condition in the state that the earlier calls left, with every status.
    ensures legal { IsLegal (opening_driver result.1.driver.surface) result.1.driver.journal }

    // What the end was, what it says, and what was written of it, with every status.
    ensures output { (end : End) × Means end (map string_bytes words.now) (I.left source.old) (I.left source.new) (I.ended source.new) (I.faults source.old) (I.faults source.new) result.1
        × Closes end result.1 result.0 (O.held sink.old) (O.held sink.new) (O.faults sink.old) (O.faults sink.new) }

    // The replies are those of the commands as read, executed as OpenGL ES does, and the driver's tables are those that they left.
    ensures ring_run { IsTrue (is_run result.0) → (stop : Option Stop) × RanTo (I.left source.old) (I.left source.new) (I.ended source.new) stop result.1 }

    // The driver calls are one part for each command, in order.
    ensures parts { (input : List ℕ) (script : Script) → IsToldRing (map string_bytes words.now) (I.left source.old) (I.faults source.old) (I.faults source.new) input → script_in input ≡ Ok script
        → IsTrue (is_run result.0) → AreParts (opening_wire script.surface) (seen script).commands (answers_of script) result.1.driver.journal }

    // The answers of the driver calls are the first of those that the script gives.
    ensures answers { (input : List ℕ) (script : Script) → IsToldRing (map string_bytes words.now) (I.left source.old) (I.faults source.old) (I.faults source.new) input → script_in input ≡ Ok script
        → IsTrue (is_run result.0) → AreAnsweredBy (answers_of script) result.1.driver.journal }

    // An input that was not run leaves no replies and no driver calls.
    ensures unread { IsTrue (is_unrun result.0) → result.1 ≡ new_desk }

    // When each status comes. Status 7 may come at any allocation.
    ensures done { result.0 ≡ 0 → IsRing (map string_bytes words.now) × RanTo (I.left source.old) (I.left source.new) (I.ended source.new) None result.1 }
    ensures done_exact { (input : List ℕ) (script : Script) → IsToldRing (map string_bytes words.now) (I.left source.old) (I.faults source.old) (I.faults source.new) input
        → length input ≤ INPUT_LIMIT → script_in input ≡ Ok script → (ring_run script).stop ≡ None → UnlessLost (result.0 ≡ 0) result.0 }
    ensures usage { result.0 ≡ 2 → ¬ IsRing (map string_bytes words.now) × (I.left source.new ≡ I.left source.old) × (I.faults source.new ≡ I.faults source.old) }
    ensures usage_exact { ¬ IsRing (map string_bytes words.now) → UnlessCut (result.0 ≡ 2) result.0 }
    ensures bad_line { result.0 ≡ 3 → IsRing (map string_bytes words.now) × ((number : ℕ) × HasBadLine (I.left source.old) (I.left source.new) (I.ended source.new) number) }
    ensures bad_line_exact { (input : List ℕ) (number : ℕ) → IsToldRing (map string_bytes words.now) (I.left source.old) (I.faults source.old) (I.faults source.new) input
        → length input ≤ INPUT_LIMIT → script_in input ≡ Err number → UnlessCut (result.0 ≡ 3) result.0 }
    ensures read_fault { result.0 ≡ 4 → IsRing (map string_bytes words.now) × Rose (I.faults source.old) (I.faults source.new) }
    ensures write_fault { result.0 ≡ 5 → Rose (O.faults sink.old) (O.faults sink.new) }
    ensures stopped { result.0 ≡ 6 → IsRing (map string_bytes words.now) × ((stop : Stop) × RanTo (I.left source.old) (I.left source.new) (I.ended source.new) (Some stop) result.1) }
    ensures stopped_exact { (input : List ℕ) (script : Script) (stop : Stop) → IsToldRing (map string_bytes words.now) (I.left source.old) (I.faults source.old) (I.faults source.new) input
        → length input ≤ INPUT_LIMIT → script_in input ≡ Ok script → (ring_run script).stop ≡ Some stop → UnlessLost (result.0 ≡ 6) result.0 }
    ensures lost { result.0 ≡ 8 → IsRing (map string_bytes words.now) × RanLost (I.left source.old) (I.left source.new) (I.ended source.new) result.1 }
    ensures cut_short { result.0 ≡ 7 → (result.1 ≡ new_desk) ⊎ RanShort (I.left source.old) (I.left source.new) (I.ended source.new) result.1
        ⊎ RanLost (I.left source.old) (I.left source.new) (I.ended source.new) result.1
        ⊎ ((stop : Option Stop) × RanTo (I.left source.old) (I.left source.new) (I.ended source.new) stop result.1) }
    ensures too_long { result.0 ≡ 9 → IsRing (map string_bytes words.now) × IsTooLong (I.left source.old) (I.left source.new) }
    ensures too_long_exact { (input : List ℕ) → IsToldRing (map string_bytes words.now) (I.left source.old) (I.faults source.old) (I.faults source.new) input
        → INPUT_LIMIT < length input → UnlessCut (result.0 ≡ 9) result.0 }
{
    let mut desk = desk;
    let end = work(alloc, words, source, &mut desk);
    let status = close(alloc, &desk, end, sink);
    (status, desk)
}
