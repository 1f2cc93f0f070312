//! The steps of a fetcher, one at a time, in memory that keeps what is put.
use crate::{FetchOutcome, Fetcher};
use cb_shm::{PlainMemory, Shm};
use gl_plain::numbers::{BUFFER_DATA, NOOP, SET_TOKEN};
use gl_plain::{Fetched, Malformed};
use std::test::*;

fn is_command(command: &Fetched, number: u32, words: &[u32], place: u32) -> bool {
    command.number == number && command.words.as_slice() == words && command.place == place
}

#[test]
fn each_step_makes_one_copy(rt: HostRuntime) -> Result<(), Fail> {
    let alloc = rt.alloc();
    let mut memory = PlainMemory::new(alloc, 13, 8192)?;
    // A Noop of two entries, SetToken 7, BufferData of 4,097 bytes of region 1 from byte 2 on, and a command of size 0.
    let ring =
        b"\x02\0\0\0\xFF\xFF\xFF\xFF\x02\0\x20\0\x07\0\0\0\x08\0\x60\x20\x92\x88\0\0\x01\x10\0\0\xE4\x88\0\0\x01\0\0\0\x01\x10\0\0\x01\0\0\0\x02\0\0\0";
    assert_eq!(rt; memory.put(0, 0, ring), Ok(()));
    assert_eq!(rt; memory.put(1, 1, b"ab"), Ok(()));
    assert_eq!(rt; memory.put(1, 4097, b"cde"), Ok(()));
    let mut fetcher = Fetcher::new(alloc, 13);
    assert!(rt; matches!(fetcher.step(&mut memory), FetchOutcome::Idle));

    fetcher.set_put(4);
    assert!(rt;
        matches!(fetcher.step(&mut memory), FetchOutcome::Ready(command) if is_command(&command, NOOP, &[], 0))
    );
    assert_eq!(rt; fetcher.get(), 2);
    assert!(rt; matches!(fetcher.step(&mut memory), FetchOutcome::Copied));
    assert!(rt;
        matches!(fetcher.step(&mut memory), FetchOutcome::Ready(command) if is_command(&command, SET_TOKEN, &[7], 2))
    );
    assert!(rt; matches!(fetcher.step(&mut memory), FetchOutcome::Idle));

    fetcher.set_put(12);
    for _ in 0..3 {
        assert!(rt; matches!(fetcher.step(&mut memory), FetchOutcome::Copied));
    }
    // What was copied is not read again.
    assert_eq!(rt; memory.put(1, 4097, b"xyz"), Ok(()));
    let FetchOutcome::Ready(command) = fetcher.step(&mut memory) else {
        panic!(rt; "the last piece was not read");
    };
    assert!(rt;
        is_command(
            &command,
            BUFFER_DATA,
            &[0x8892, 4097, 0x88E4, 1, 4097, 1, 2],
            4
        )
    );
    let bytes = command.payload.as_slice();
    assert_eq!(rt; bytes.len(), 4097);
    assert!(rt; bytes.starts_with(b"b\0"));
    assert!(rt; bytes.ends_with(b"\0cy"));

    fetcher.set_put(0);
    for _ in 0..2 {
        assert!(rt;
            matches!(
                fetcher.step(&mut memory),
                FetchOutcome::Bad {
                    kind: Malformed::InvalidSize,
                    place: 12
                }
            )
        );
        // After that nothing is copied, so a Noop that is put there now is not read.
        assert_eq!(rt; memory.put(0, 48, b"\x01\0\0\0"), Ok(()));
    }
    Ok(())
}
