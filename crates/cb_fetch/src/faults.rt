//! The tests of a command: five of its header, and the sixth of the range that its words name.
ghost use Rattle.std.specs.Prelude.{◌≡◌, ◌<◌, ◌^◌, IfOk, IfErr, None, Some, is_none};
ghost use Rattle.cb_format.specs.Layouts.{IsFitting};
ghost use Rattle.cb_format.specs.Ring as ring;
ghost use Rattle.cb_fetch.specs.Steps.{IsFront, IsStart};

use crate::stages::Start;
use cb_format::{Header, Layout, Plan, layout};
use cb_shm::Shm;
use gl_plain::Malformed;

/// How many entries are ready from get on. A command does not cross the ring's end.
fn ready(entries: u32, put: u32, get: u32) -> u32
    requires { get < entries }
    ensures { result ≡ ring.ready entries put get }
{
    if get < put { put - get } else { entries - get }
}

/// Whether a command of so many entries has as many as its layout says.
fn has_size(size: u32, layout: Layout) -> bool
    requires { IsFitting layout }
    ensures { result ≡ is_none (ring.layout_fault size (Some layout)) }
{
    layout.any_size || size == layout.words + 1
}

/// Tests a header, with put below the entries. Where it passes it is parsed, and otherwise this says which test is the first that fails.
#[tactic(auto, unfolding(cb_format::specs::Ring::first_fault))]
pub fn start(entries: u32, put: u32, get: u32, word: u32) -> Result<Start, Malformed>
    requires inside { get < entries }
    requires put { put < entries }
    ensures fair { IfOk result (λ start. (ring.first_fault entries put get word ≡ None) × IsStart entries get word start) }
    ensures fault { IfErr result (λ kind. ring.first_fault entries put get word ≡ Some kind) }
{
    let header = Header::read(word);
    if header.size == 0 {
        return Err(Malformed::InvalidSize);
    }
    if ready(entries, put, get) < header.size {
        return Err(Malformed::OutOfBounds);
    }
    match layout(header.number) {
        None => Err(Malformed::UnknownCommand),
        Some(layout) if has_size(header.size, layout) => Ok(Start { header, layout }),
        Some(_) => Err(Malformed::InvalidArguments),
    }
}

/// The sixth test: the range that a command's words name lies in a region that is there, also if it is empty.
pub fn range_fault<S: Shm>(shm: &S, plan: Plan) -> Option<Malformed>
    ensures exact { result ≡ ring.range_fault (S.memory shm.now).sizes plan }
    ensures front { result ≡ None → IsFront plan 0 }
{
    let (region, offset, count) = match plan {
        Plan::Nothing => return None,
        Plan::Read {
            region,
            offset,
            count,
        } => (region, offset, count),
        Plan::Write {
            region,
            offset,
            count,
        } => (region, offset, count),
    };
    match shm.size(region) {
        Some(size) if offset <= size && count <= size - offset => None,
        _ => Some(Malformed::OutOfBounds),
    }
}
