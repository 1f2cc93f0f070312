//! From the words and the input to an end.
ghost use Rattle.std.specs.Prelude.{◌≡◌, ◌⊎◌, ◌↔◌, ◌<◌, ◌≤◌, ◌^◌, map, length, IsTrue, OnOk, None, Some, IsErrOf, string_bytes, false, true};
ghost use Rattle.gl_plain.specs.declared.commands.Stop.{Stop};
ghost use Rattle.gl_plain.specs.CommonLines.{are_sound_answers};
ghost use Rattle.gl_driver.specs.declared.stop.DriverStop.TheVariants as driver;
ghost use Rattle.cb_shm.specs.Whole.{IsWholeScript};
ghost use Rattle.gles2_run.specs.Desks.{new_desk};
ghost use Rattle.gles2_run.specs.Ends.{IsRing, INPUT_LIMIT, ring_run, HoldsRun, HoldsFront, TextMeans, Means};

use crate::desk::Desk;
use crate::puts::take_puts;
use cb_shm::{HostileMemory, Script};
use decoder_core::{Service, ServiceStop};
use io_edge::{ReadStop, Source, read_all};
use report_text::End;
use ring_script::{ReadRefusal, read_script};
use std::alloc::Global;

fn is_ring(words: &[String]) -> bool
    ensures { IsTrue result ↔ IsRing (map string_bytes words.now) }
{
    match words {
        [word] => word.as_str() == "ring",
        _ => false,
    }
}

/// Executes the commands of a script, in the memory that it describes, with a driver that answers as it says. What stands in the memory at
/// first, and what is written there later, is kept by the memory alone.
fn execute(alloc: Global, script: Script, desk: &mut Desk) -> Result<(), ServiceStop>
    requires whole { IsWholeScript script }
    requires sound { IsTrue (are_sound_answers script.answers) }
    requires fresh { desk.old ≡ new_desk }
    ensures done { OnOk result (((ring_run script).stop ≡ None) × HoldsRun script desk.new) }
    ensures bad { (stop : Stop) → IsErrOf result (ServiceStop.Bad stop) → ((ring_run script).stop ≡ Some stop) × HoldsRun script desk.new }
    ensures lost { IsErrOf result ServiceStop.Lost → HoldsFront true script desk.new × (script.answers.lost ≡ Some (length desk.new.driver.journal)) × (desk.new.driver.stop ≡ Some driver.Lost) }
    ensures short { IsErrOf result ServiceStop.NoMemory → (desk.new ≡ new_desk) ⊎ HoldsFront false script desk.new }
{
    let Ok(mut memory) = HostileMemory::new(alloc, &script) else {
        return Err(ServiceStop::NoMemory);
    };
    let Script {
        surface,
        entries,
        regions,
        opening,
        timed,
        puts,
        answers,
    } = script;
    drop(regions);
    drop(opening);
    drop(timed);
    let Ok(mut service) = Service::new(alloc, surface, entries) else {
        return Err(ServiceStop::NoMemory);
    };
    desk.driver.load(surface, answers);
    let taken = take_puts(&mut service, &mut memory, puts.as_slice(), desk);
    // The journal's clauses say what the driver answered, how many calls there are at most, and at which of them it was lost.
    desk.driver.journal();
    taken
}

/// Runs the script that a text is. The text is not kept while the script runs.
fn run_text(alloc: Global, text: Vec<u8>, desk: &mut Desk) -> End
    requires fresh { desk.old ≡ new_desk }
    requires short { length text.items ≤ INPUT_LIMIT }
    ensures { TextMeans result text.items desk.new }
{
    let script = match read_script(alloc, &text) {
        Ok(script) => script,
        Err(ReadRefusal::BadLine(number)) => return End::BadLine(number),
        Err(ReadRefusal::NoMemory) => return End::NoMemory,
    };
    drop(text);
    match execute(alloc, script, desk) {
        Ok(()) => End::Done,
        Err(ServiceStop::Bad(stop)) => End::Stopped(stop),
        Err(ServiceStop::NoMemory) => End::NoMemory,
        Err(ServiceStop::Lost) => End::Lost,
    }
}

/// Does what the words say.
pub fn work<I: Source>(alloc: Global, words: &[String], source: &mut I, desk: &mut Desk) -> End
    requires { desk.old ≡ new_desk }
    ensures { Means result (map string_bytes words.now) (I.left source.old) (I.left source.new) (I.ended source.new) (I.faults source.old) (I.faults source.new) desk.new }
{
    if !is_ring(words) {
        return End::Usage;
    }
    match read_all(alloc, source) {
        Ok(text) => run_text(alloc, text, desk),
        Err(ReadStop::Fault) => End::ReadFault,
        Err(ReadStop::TooLong) => End::TooLong,
        Err(ReadStop::NoMemory) => End::NoMemory,
    }
}
