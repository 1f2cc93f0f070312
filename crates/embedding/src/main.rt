//! What another program does to embed the service: it brings memory and a driver, publishes commands, and takes steps until they are executed.
//! Here the client writes a Noop and a GenBuffers into the ring, and the program prints what came of them.
#![tactic(auto)]

mod memory;
mod serving;

use byteorder::{ByteOrder, LittleEndian};
use cb_format::Header;
use counting_driver::{CountingDriver, Names};
use decoder_core::{Service, ServiceStop};
use gl_base::limits::DEFAULT_SURFACE;
use gl_plain::ReplyList;
use gl_plain::numbers::{GEN_BUFFERS, NOOP};
use memory::BlockMemory;
use serving::work;
use std::alloc::Global;
use std::io::Print;

/// How many entries of 4 bytes the ring has.
const ENTRIES: u32 = 16;

/// How many bytes region 1 has.
const TRANSFER: u32 = 4096;

/// The name that the client wants for its buffer.
const BUFFER: u32 = 7;

/// The entry behind the last command.
const PUT: u32 = 3;

/// What came of the commands.
#[derive(Drop)]
struct Report {
    /// The replies of those that were executed, in order.
    replies: ReplyList,
    /// The entry up to which they were executed.
    get: u32,
    /// Why not all were, if so.
    end: Result<(), ServiceStop>,
    /// How many names the driver gave.
    names: Names,
}

/// The commands of the client, as the bytes of the ring.
fn commands() -> [u8; 12] {
    let noop = Header {
        size: 1,
        number: NOOP,
    };
    let gen_buffers = Header {
        size: 2,
        number: GEN_BUFFERS,
    };
    let mut bytes = [0u8; 12];
    LittleEndian::write_u32_into(&[noop.word(), gen_buffers.word(), BUFFER], &mut bytes);
    bytes
}

/// The memory, with the commands in its ring.
fn client(alloc: Global) -> anyhow::Result<BlockMemory> {
    let mut memory = BlockMemory::new(alloc, &[4 * ENTRIES, TRANSFER])?;
    memory.write(0, 0, &commands())?;
    Ok(memory)
}

/// Executes the commands that stand in the memory.
fn execute(alloc: Global, memory: &mut BlockMemory) -> anyhow::Result<Report> {
    let mut service = Service::new(alloc, DEFAULT_SURFACE, ENTRIES)?;
    let mut driver = CountingDriver::new(alloc, DEFAULT_SURFACE);
    let mut replies = ReplyList::new(alloc);
    let end = work(&mut service, memory, &mut driver, PUT, &mut replies);
    Ok(Report {
        replies,
        get: service.get(),
        end,
        names: driver.names(),
    })
}

/// Prints what came of them.
fn print<R: Print>(rt: &R, report: &Report) -> anyhow::Result<()> {
    for reply in report.replies.as_slice() {
        println!(rt; "reply {reply:?}")?;
    }
    match report.end {
        Ok(()) => println!(rt; "all is executed up to entry {}", report.get)?,
        Err(stop) => println!(rt; "{stop}")?,
    }
    let Names {
        buffers,
        textures,
        renderbuffers,
        framebuffers,
        programs,
    } = report.names;
    println!(rt;
        "names given: {buffers} to buffers, {textures} to textures, {renderbuffers} to renderbuffers, {framebuffers} to framebuffers, {programs} to shaders and programs"
    )?;
    Ok(())
}

fn main(rt: HostRuntime) -> anyhow::Result<()> {
    let mut memory = client(rt.alloc())?;
    let report = execute(rt.alloc(), &mut memory)?;
    print(&rt, &report)
}
