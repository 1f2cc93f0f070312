//! The life of a buffer, each call on its happy path.
use crate::{Buffers, is_buffer_target};
use gl_base::enums::{ARRAY_BUFFER, DYNAMIC_DRAW, UNSIGNED_BYTE, UNSIGNED_SHORT};
use gl_plain::Bytes;
use std::test::*;

#[test]
fn a_buffer_is_bound_changed_and_deleted(rt: HostRuntime) -> Result<(), Fail> {
    let mut buffers = Buffers::new(rt.alloc());
    assert!(rt; is_buffer_target(ARRAY_BUFFER) && !buffers.is_over_limit(65_536));
    assert!(rt; buffers.add_name(7, 1).is_ok());
    let name = buffers.name(7).ok_or("7 is not in use")?;
    buffers.bind(ARRAY_BUFFER, 7, name)?;
    assert_eq!(rt; buffers.array_object(), Some(1));
    let bytes = Bytes::zeros(rt.alloc(), 4)?;
    assert!(rt; buffers.bound(ARRAY_BUFFER).is_some());
    buffers.store(ARRAY_BUFFER, bytes, DYNAMIC_DRAW)?;
    assert!(rt; buffers.change(ARRAY_BUFFER, 2, b"ab"));
    assert!(rt; !buffers.change(ARRAY_BUFFER, 3, b"ab"));
    assert!(rt; !buffers.change(ARRAY_BUFFER, u32::MAX, b"ab"));
    let buffer = buffers.bound(ARRAY_BUFFER).ok_or("nothing is bound")?;
    assert_eq!(rt; buffer.bytes(), [0, 0, b'a', b'b'].as_slice());
    assert_eq!(rt; buffer.usage(), DYNAMIC_DRAW);
    assert_eq!(rt; buffer.max_index(1, 3, UNSIGNED_BYTE), Some(98));
    assert_eq!(rt; buffer.max_index(0, 2, UNSIGNED_SHORT), Some(0x6261));
    assert_eq!(rt; buffer.max_index(1, 2, UNSIGNED_SHORT), None);
    assert_eq!(rt; buffer.max_index(u32::MAX, u32::MAX, UNSIGNED_SHORT), None);
    assert!(rt; buffers.object(1).is_some() && buffers.object(7).is_none());
    buffers.delete(7);
    assert_eq!(rt; buffers.array_object(), None);
    assert!(rt; buffers.name(7).is_none());
    buffers.unbind(ARRAY_BUFFER);
    Ok(())
}
