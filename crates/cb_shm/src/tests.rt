//! Each call on memories once, on its happy path.
use crate::{HostileMemory, PlainMemory, Script, Shm, ShmRefusal};
use gl_base::limits::DEFAULT_SURFACE;
use gl_plain::{Answers, PatchList, RegionList, TimedList, Words};
use std::test::*;

#[test]
fn memories_give_what_stands_in_them(rt: HostRuntime) -> Result<(), Fail> {
    let alloc = rt.alloc();
    let mut plain = PlainMemory::new(alloc, 2, 4)?;
    assert_eq!(rt; plain.size(0), Some(8));
    assert_eq!(rt; plain.size(2), Some(65536));
    assert_eq!(rt; plain.size(3), None);
    assert_eq!(rt; plain.put(1, 1, b"ab"), Ok(()));
    assert_eq!(rt; plain.put(1, 3, b"ab"), Err(ShmRefusal::NoRegion));
    let mut out = [9u8; 4];
    assert_eq!(rt; plain.copy(1, 0, &mut out), Ok(()));
    assert_eq!(rt; out, [0, 97, 98, 0]);
    let mut two = [9u8; 2];
    plain.read(1, 2, &mut two);
    assert_eq!(rt; two, [98, 0]);

    // A put changes nothing in a memory that a script describes.
    let script = Script {
        surface: DEFAULT_SURFACE,
        entries: 2,
        regions: RegionList::new(alloc),
        opening: PatchList::new(alloc),
        timed: TimedList::new(alloc),
        puts: Words::new(alloc),
        answers: Answers::new(alloc),
    };
    let mut hostile = HostileMemory::new(alloc, &script)?;
    assert_eq!(rt; hostile.size(0), Some(8));
    assert_eq!(rt; hostile.put(0, 0, b"zz"), Ok(()));
    assert_eq!(rt; hostile.copy(0, 0, &mut two), Ok(()));
    assert_eq!(rt; two, [0, 0]);
    Ok(())
}
