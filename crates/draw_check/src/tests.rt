//! A draw that is let through, and what stops it.
use crate::check;
use gl_base::GlEnum;
use gl_base::enums::{FLOAT, FRAMEBUFFER_COMPLETE, TRIANGLE_FAN, UNSIGNED_BYTE};
use gl_plain::{
    ArraySpec, ArrayView, DrawPlan, DrawView, GlError, IndexView, UnitView, is_index_kind,
};
use std::test::*;

/// An array of three floats an element, in a buffer of so many bytes.
fn array(on: bool, bytes: u32) -> ArrayView {
    ArrayView {
        on,
        spec: ArraySpec {
            object: Some(7),
            size: 3,
            kind: FLOAT,
            normalized: false,
            stride: 0,
            offset: 4,
        },
        bytes,
    }
}

/// A draw of fans with a program that uses location 1, whose buffer has four elements.
fn view() -> DrawView {
    let mut arrays = [array(false, 0); 16];
    arrays[1] = array(true, 52);
    DrawView {
        mode: TRIANGLE_FAN,
        indexed: None,
        arrays,
        used: 2,
        units: [UnitView::default(); 8],
        status: FRAMEBUFFER_COMPLETE,
        program: true,
    }
}

#[test]
fn a_draw_stays_inside_its_arrays(rt: HostRuntime) {
    let plan = |black| Ok(DrawPlan { draw: true, black });
    let mut view = view();
    assert!(rt; is_index_kind(UNSIGNED_BYTE) && !is_index_kind(FLOAT));
    assert_eq!(rt; check(&view, 0, 4), plan(0));
    assert_eq!(rt; check(&view, 1, 4), Err(GlError::InvalidOperation));
    assert_eq!(rt;
        check(&view, i32::MAX, i32::MAX),
        Err(GlError::InvalidOperation)
    );
    assert_eq!(rt; check(&view, 0, -1), Err(GlError::InvalidValue));
    view.units[7].flat = true;
    assert_eq!(rt; check(&view, 3, 1), plan(128));
    view.indexed = Some(IndexView {
        kind: UNSIGNED_BYTE,
        last: Some(3),
    });
    assert_eq!(rt; check(&view, 0, 9), plan(128));
    view.mode = GlEnum(7);
    assert_eq!(rt; check(&view, 0, 9), Err(GlError::InvalidEnum));
}
