//! Each call once: the sizes of images, and a level that is written in parts.
use crate::{Cover, Rect, image_bytes, image_rows, pixel_bytes};
use gl_base::enums::{BYTE, UNSIGNED_BYTE};
use gl_base::texture_enums::{ALPHA, RGB, RGBA, UNSIGNED_SHORT_5_6_5};
use std::test::*;

#[test]
fn rows_are_padded_but_for_the_last(rt: HostRuntime) {
    assert_eq!(rt; pixel_bytes(RGB, UNSIGNED_SHORT_5_6_5), Some(2));
    assert_eq!(rt; pixel_bytes(ALPHA, UNSIGNED_SHORT_5_6_5), None);
    assert_eq!(rt; pixel_bytes(RGB, BYTE), None);
    assert_eq!(rt; image_bytes(3, 2, RGB, UNSIGNED_BYTE, 4), Some(21));
    assert_eq!(rt;
        image_bytes(4096, 4096, RGBA, UNSIGNED_BYTE, 8),
        Some(67_108_864)
    );
    assert_eq!(rt; image_bytes(4096, 4097, RGBA, UNSIGNED_BYTE, 8), None);
    let rows = image_rows(3, RGB, UNSIGNED_BYTE, 8);
    assert_eq!(rt; rows.row, 9);
    assert_eq!(rt; rows.step, 16);
}

#[test]
fn a_level_is_written_in_parts(rt: HostRuntime) {
    let corner = Rect {
        x: 0,
        y: 0,
        width: 4,
        height: 2,
    };
    let right = Rect {
        x: 4,
        y: 0,
        width: 4,
        height: 2,
    };
    let apart = Rect {
        x: 7,
        y: 7,
        width: 1,
        height: 1,
    };
    let below = Rect {
        x: 0,
        y: 2,
        width: 8,
        height: 6,
    };
    let mut cover = Cover::new(8, 8);
    assert!(rt; cover.add(corner));
    assert!(rt; !cover.holds(right));
    assert!(rt; cover.add(right));
    assert!(rt; cover.holds(right));
    assert!(rt; !cover.add(apart));
    assert_eq!(rt; cover.rest().as_slice(), [below].as_slice());
    assert!(rt; !cover.is_whole());
    cover.fill();
    assert!(rt; cover.is_whole());
    assert!(rt; cover.rest().as_slice().is_empty());
    assert_eq!(rt; (cover.width(), cover.height()), (8, 8));
}
