//! Calls on vertex attributes at the limits of what they take.
use crate::Attribs;
use gl_base::GlEnum;
use gl_base::enums::{FIXED, FLOAT};
use gl_plain::{ArraySpec, GlError};
use std::test::*;

fn array(size: u32, kind: GlEnum, stride: u32) -> ArraySpec {
    ArraySpec {
        object: Some(7),
        size,
        kind,
        normalized: false,
        stride,
        offset: 0,
    }
}

#[test]
fn an_attribute_is_refused_past_the_limits(rt: HostRuntime) {
    let mut attribs = Attribs::new();
    assert_eq!(rt; attribs.enable(15, true), Ok(()));
    assert_eq!(rt; attribs.enable(16, true), Err(GlError::InvalidValue));
    assert_eq!(rt; attribs.constant(15, [1, 2, 3, 4]), Ok(()));
    let rows = [
        (15, array(4, FLOAT, 0x7FFF_FFFF), Ok(())),
        (0, array(1, FIXED, 0x8000_0000), Err(GlError::InvalidValue)),
        (0, array(0, FLOAT, 0), Err(GlError::InvalidValue)),
        (0, array(5, FLOAT, 0), Err(GlError::InvalidValue)),
        (16, array(4, GlEnum(0x1404), 0), Err(GlError::InvalidEnum)),
    ];
    for (index, array, answer) in rows {
        assert_eq!(rt; attribs.pointer(index, array), answer, "at {index}");
    }
    attribs.unbind_buffer(7);
}
