//! Replies as they are written into shared memory.
ghost use Rattle.std.specs.Prelude.{◌≡◌, ◌∷◌, [], OnOk, OnErr, IfOk};
ghost use Rattle.gl_plain.specs.Agreement.{Agrees};
ghost use Rattle.cb_format.specs.Replied.{counted, reply_bytes};
ghost use Rattle.cb_shm.specs.Memory.{stored};
ghost use Rattle.cb_fetch.specs.Readable.{IsReadable};
ghost use Rattle.decoder_core.specs.Execution.{state_of};
ghost use Rattle.decoder_core.specs.Replying.{replied, CarriesOut};

use crate::outcome::ServiceStop;
use crate::tables::Tables;
use byteorder::{ByteOrder, LittleEndian};
use cb_format::{Plan, plan};
use cb_shm::{Shm, ShmRefusal};
use gl_driver::Driver;
use gl_plain::{Fetched, Reply};
use std::alloc::{AllocError, Global};

/// How many words of 32 bits there are.
const WORDS: usize = 1 << 32;

/// The bytes of a reply of one word: the number 1, and then the word.
fn one_word(word: u32) -> [u8; 8]
    ensures { result ≡ counted (word ∷ []) }
{
    let mut bytes = [0; 8];
    LittleEndian::write_u32_into(&[1, word], &mut bytes);
    bytes
}

/// How many words there are, and then the words, as bytes.
fn counted_bytes(alloc: Global, words: &[u32]) -> Result<Vec<u8>, AllocError>
    ensures { IfOk result (λ bytes. bytes.items ≡ counted words.now) }
{
    let count = (words.len() % WORDS) as u32;
    let mut bytes = Vec::new(alloc);
    bytes.extend_from_slice(&count.to_le_bytes())?;
    for word in words {
        bytes.extend_from_slice(&word.to_le_bytes())?;
    }
    Ok(bytes)
}

/// Writes a list of words at a place: how many there are, and then the words.
fn put_words<S: Shm>(
    alloc: Global,
    shm: &mut S,
    region: u32,
    offset: u32,
    words: &[u32],
) -> Result<(), ShmRefusal>
    ensures written { OnOk result (S.memory shm.new ≡ stored (S.memory shm.old) region offset (counted words.now)) }
    ensures refused { OnErr result (S.memory shm.new ≡ S.memory shm.old) }
    ensures grows { S.grown shm.old shm.new }
{
    match counted_bytes(alloc, words) {
        Ok(bytes) => shm.put(region, offset, bytes.as_slice()),
        Err(_) => Err(ShmRefusal::NoMemory),
    }
}

/// Writes a reply at a place: its bytes as they are, or else how many words it has, and then the words.
fn put_reply<S: Shm>(
    alloc: Global,
    shm: &mut S,
    region: u32,
    offset: u32,
    reply: &Reply,
) -> Result<(), ShmRefusal>
    ensures written { OnOk result (S.memory shm.new ≡ stored (S.memory shm.old) region offset (reply_bytes reply.now)) }
    ensures refused { OnErr result (S.memory shm.new ≡ S.memory shm.old) }
    ensures grows { S.grown shm.old shm.new }
{
    match reply {
        Reply::Bytes(bytes) => shm.put(region, offset, bytes.as_slice()),
        Reply::Words(words) => put_words(alloc, shm, region, offset, words.as_slice()),
        Reply::Word(word) | Reply::Error(word) => shm.put(region, offset, &one_word(*word)),
        Reply::None | Reply::Names(_) => shm.put(region, offset, &[0; 4]),
    }
}

/// Writes the reply of a command where its words say, if they do.
fn write_reply<S: Shm>(
    alloc: Global,
    shm: &mut S,
    command: &Fetched,
    reply: &Reply,
) -> Result<(), ShmRefusal>
    requires { IsReadable command.now }
    ensures written { OnOk result (S.memory shm.new ≡ replied (S.memory shm.old) command.now reply.now) }
    ensures refused { OnErr result (S.memory shm.new ≡ S.memory shm.old) }
    ensures grows { S.grown shm.old shm.new }
{
    match plan(command.number, command.words.as_slice()) {
        Plan::Nothing | Plan::Read { .. } => Ok(()),
        Plan::Write { region, offset, .. } => put_reply(alloc, shm, region, offset, reply),
    }
}

/// Executes a command, and writes its reply.
pub fn carry_out<S: Shm, D: Driver>(
    tables: &mut Tables,
    command: &Fetched,
    shm: &mut S,
    driver: &mut D,
) -> Result<Reply, ServiceStop>
    requires readable { IsReadable command.now }
    requires agrees { Agrees (state_of tables.old) (D.history driver.old).state }
    ensures carries { CarriesOut D.history D.grown command.now (state_of tables.old) (S.memory shm.old) driver.old (state_of tables.new) (S.memory shm.new) driver.new result }
    ensures grows { S.grown shm.old shm.new }
{
    let reply = match tables.execute(command, driver) {
        Ok(reply) => reply,
        Err(stop) => return Err(ServiceStop::at(command.place, stop)),
    };
    match write_reply(tables.alloc(), shm, command, &reply) {
        Ok(()) => Ok(reply),
        Err(_) => Err(ServiceStop::NoMemory),
    }
}
