//! Each call on lists once, on its happy path.
use crate::{Answers, ArraySpec, Bytes, Errors, GlError, Seq, VertexAttributes, Words};
use gl_base::GlEnum;
use std::test::*;

#[test]
fn lists_keep_their_items(rt: HostRuntime) -> Result<(), Fail> {
    let mut words = Words::new(rt.alloc());
    assert!(rt; words.is_empty());
    words.push(7)?;
    words.push(9)?;
    assert_eq!(rt; words.len(), 2);
    assert_eq!(rt; words.get(1).copied(), Some(9));
    assert_eq!(rt; words.as_slice(), [7, 9].as_slice());
    let again = Seq::from_vec(words.into_vec());
    assert_eq!(rt; again.len(), 2);
    let bytes = Bytes::from_slice(rt.alloc(), b"ab")?;
    assert_eq!(rt; bytes.as_slice(), b"ab".as_slice());
    let mut zeros = Bytes::zeros(rt.alloc(), 3)?;
    assert_eq!(rt; zeros.as_slice(), [0, 0, 0].as_slice());
    zeros.overwrite(1, b"ab");
    assert_eq!(rt; zeros.as_slice(), [0, b'a', b'b'].as_slice());
    Ok(())
}

#[test]
fn each_code_has_its_flag(rt: HostRuntime) -> Result<(), Fail> {
    let mut errors = Errors::new();
    errors.note(GlError::InvalidOperation);
    assert!(rt; errors.invalid_operation && !errors.invalid_value);
    assert_eq!(rt; GlError::InvalidOperation.code(), 0x0502);
    Ok(())
}

#[test]
fn an_attribute_is_changed_alone(rt: HostRuntime) {
    let mut attributes = VertexAttributes::new();
    let opening = attributes.get(0);
    assert!(rt; !opening.enabled && opening.array.size == 4 && opening.array.object.is_none());
    assert_eq!(rt; opening.constant, [0, 0, 0, 0x3F80_0000]);
    let array = ArraySpec {
        object: Some(7),
        size: 2,
        kind: GlEnum(0x1402),
        normalized: true,
        stride: 8,
        offset: 4,
    };
    attributes.set_array(3, array);
    attributes.set_enabled(3, true);
    attributes.set_constant(15, [1, 2, 3, 4]);
    assert_eq!(rt; attributes.get(3).array, array);
    assert!(rt; attributes.get(3).enabled && !attributes.get(4).enabled);
    assert_eq!(rt; attributes.get(15).constant, [1, 2, 3, 4]);
    assert_eq!(rt; attributes.get(0), opening);
    attributes.unbind_buffer(8);
    assert_eq!(rt; attributes.get(3).array.object, Some(7));
    attributes.unbind_buffer(7);
    assert_eq!(rt; attributes.get(3).array.object, None);
    assert_eq!(rt; attributes.get(3).array.offset, 4);
}

#[test]
fn no_answers_are_given_at_first(rt: HostRuntime) {
    let answers = Answers::new(rt.alloc());
    assert!(rt;
        answers.compile.is_empty() && answers.link.is_empty() && answers.validate.is_empty()
    );
    assert!(rt; answers.oom.is_empty());
    assert_eq!(rt; answers.lost, None);
}
