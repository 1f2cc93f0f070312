//! Copies of shared memory, one a call: a header, all words of a command, and a piece of its data. Nothing is copied where there is
//! no memory.
ghost use Rattle.std.specs.Prelude.{◌≡◌, ◌<◌, ◌≤◌, ◌+◌, ◌*◌, ◌^◌, List, ℕ, ◌++◌, length, IfOk, OnOk, OnErr};
ghost use Rattle.gl_plain.specs.Bytes.{word_at, words_from};
ghost use Rattle.cb_fetch.specs.Begun.{header_range, words_range, piece_range};
ghost use Rattle.cb_fetch.specs.Steps.{Gave};

use arrayvec::ArrayVec;
use cb_shm::Shm;
use gl_base::limits::COPY_LIMIT;
use std::alloc::AllocError;

/// Copies the header at get.
pub fn copy_header<S: Shm>(shm: &mut S, get: u32) -> Result<u32, AllocError>
    requires { get < 2 ^ 20 }
    ensures made { IfOk result (λ header. (bytes : List ℕ) × Gave (S.memory shm.old) (header_range get) bytes (S.memory shm.new) × (header ≡ word_at bytes 0)) }
    ensures refused { OnErr result (S.memory shm.new ≡ S.memory shm.old) }
    ensures grows { S.grown shm.old shm.new }
{
    let mut bytes = [0u8; 4];
    match shm.copy(0, 4 * get, &mut bytes) {
        Ok(()) => Ok(word(&bytes, 0)),
        Err(_) => Err(AllocError),
    }
}

/// Copies so many words behind the header at get.
pub fn copy_words<S: Shm>(
    shm: &mut S,
    get: u32,
    count: u32,
) -> Result<ArrayVec<u32, 16>, AllocError>
    requires inside { get < 2 ^ 20 }
    requires few { count ≤ 16 }
    ensures made { IfOk result (λ words. (bytes : List ℕ) × Gave (S.memory shm.old) (words_range get count) bytes (S.memory shm.new) × (words.items ≡ words_from bytes 0 count)) }
    ensures refused { OnErr result (S.memory shm.new ≡ S.memory shm.old) }
    ensures grows { S.grown shm.old shm.new }
{
    let mut bytes = [0u8; 64];
    let part = &mut bytes[..4 * count as usize];
    match shm.copy(0, 4 * (get + 1), part) {
        Ok(()) => Ok(words(part, count)),
        Err(_) => Err(AllocError),
    }
}

/// Copies the next piece of a range behind those that were copied before. Room for the whole range is made before its first piece, so that
/// no copy is made where there is no memory.
pub fn copy_piece<S: Shm>(
    shm: &mut S,
    region: u32,
    offset: u32,
    count: u32,
    payload: &mut Vec<u8>,
) -> Result<(), AllocError>
    requires left { length payload.old.items < count }
    requires small { offset + count < 2 ^ 32 }
    ensures made { OnOk result ((bytes : List ℕ) × Gave (S.memory shm.old) (piece_range (record { region = region; offset = offset; count = count }) (length payload.old.items)) bytes (S.memory shm.new) × (payload.new.items ≡ payload.old.items ++ bytes)) }
    ensures refused { OnErr result (S.memory shm.new ≡ S.memory shm.old) }
    ensures grows { S.grown shm.old shm.new }
{
    let done = payload.len() as u32;
    let left = count - done;
    payload.reserve_exact(left as usize)?;
    let piece = COPY_LIMIT.min(left);
    payload.resize((done + piece) as usize, 0)?;
    match shm.copy(region, offset + done, &mut payload[done as usize..]) {
        Ok(()) => Ok(()),
        Err(_) => Err(AllocError),
    }
}

/// The word at a place.
fn word(bytes: &[u8], place: u32) -> u32
    requires { 4 * place + 4 ≤ length bytes.now }
    ensures { result ≡ word_at bytes.now place }
{
    let at = 4 * place as usize;
    u32::from_le_bytes([bytes[at], bytes[at + 1], bytes[at + 2], bytes[at + 3]])
}

/// So many words.
fn words(bytes: &[u8], count: u32) -> ArrayVec<u32, 16>
    requires few { count ≤ 16 }
    requires whole { 4 * count ≤ length bytes.now }
    ensures exact { result.items ≡ words_from bytes.now 0 count }
{
    let mut words = ArrayVec::new();
    for i in 0..count {
        words.push(word(bytes, i));
    }
    words
}
