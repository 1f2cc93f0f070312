//! Each call once, on its happy path, and the ends of a bucket.
use crate::Buckets;
use std::test::*;

#[test]
fn a_bucket_is_filled_in_pieces(rt: HostRuntime) -> Result<(), Fail> {
    let mut buckets = Buckets::new(rt.alloc());
    assert!(rt; buckets.read(3).is_empty());
    buckets.size(3, 4)?;
    assert!(rt; buckets.write(3, 1, b"ab"));
    assert_eq!(rt; buckets.read(3), [0, b'a', b'b', 0].as_slice());
    assert!(rt; buckets.write(3, 4, b""));
    assert!(rt; !buckets.write(3, 3, b"cd"));
    assert_eq!(rt; buckets.read(3), [0, b'a', b'b', 0].as_slice());
    assert!(rt; buckets.read(0).is_empty());
    buckets.size(3, 1)?;
    assert_eq!(rt; buckets.read(3), [0].as_slice());
    Ok(())
}
