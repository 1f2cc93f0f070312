//! The fixed state as commands set it and as it is asked for.
use crate::{Raster, kept_words, raster_refusal};
use gl_base::raster_enums as enums;
use gl_plain::GlError;
use gl_plain::numbers::{BLEND_COLOR, ENABLE, PIXEL_STOREI, STENCIL_FUNC_SEPARATE, VIEWPORT};
use std::test::*;

/// Whether the state of this name has these words.
fn has(raster: &Raster, pname: u32, words: &[u32]) -> bool {
    match raster.get(pname) {
        Some(found) => found.as_slice() == words,
        None => false,
    }
}

#[test]
fn a_command_sets_the_words_that_are_asked_for(rt: HostRuntime) {
    let mut raster = Raster::new(64, 32);
    assert!(rt; has(&raster, enums::VIEWPORT.0, &[0, 0, 64, 32]));
    assert_eq!(rt; raster.set(VIEWPORT, &[5, u32::MAX, 4096, 7]), Ok(()));
    assert!(rt; has(&raster, enums::VIEWPORT.0, &[5, u32::MAX, 2048, 7]));
    assert_eq!(rt; raster.set(ENABLE, &[enums::BLEND.0]), Ok(()));
    assert!(rt; has(&raster, enums::BLEND.0, &[1]));
    let function = [enums::FRONT.0, enums::LESS.0, 0xFFFF_FFFF, 0xF0];
    assert_eq!(rt; raster.set(STENCIL_FUNC_SEPARATE, &function), Ok(()));
    assert!(rt; has(&raster, enums::STENCIL_REF.0, &[0]));
    assert!(rt; has(&raster, enums::STENCIL_BACK_FUNC.0, &[enums::ALWAYS.0]));
    let unpack = enums::UNPACK_ALIGNMENT.0;
    assert_eq!(rt;
        raster.set(PIXEL_STOREI, &[unpack, 3]),
        Err(GlError::InvalidValue)
    );
    assert_eq!(rt;
        raster_refusal(PIXEL_STOREI, &[0, 3]),
        Some(GlError::InvalidEnum)
    );
    let kept = kept_words(PIXEL_STOREI, &[unpack, 8, 0, 0]);
    assert_eq!(rt; kept.as_slice(), [unpack, 8].as_slice());
    assert_eq!(rt; raster.set(PIXEL_STOREI, &[unpack, 8]), Ok(()));
    assert!(rt; has(&raster, unpack, &[8]));
    let pack = enums::PACK_ALIGNMENT.0;
    assert_eq!(rt; raster.set(PIXEL_STOREI, &[pack, 2]), Ok(()));
    assert_eq!(rt;
        (raster.unpack_alignment(), raster.pack_alignment()),
        (8, 2)
    );
    let colour = kept_words(
        BLEND_COLOR,
        &[0x3F00_0000, 0xBF80_0000, 0x4000_0000, 0x7FC0_0000],
    );
    assert_eq!(rt;
        colour.as_slice(),
        [0x3F00_0000, 0, 0x3F80_0000, 0].as_slice()
    );
    assert!(rt; raster.get(0).is_none());
}
