//! Names and images, each call on its happy path.
use crate::Textures;
use gl_base::Rect;
use gl_base::enums::UNSIGNED_BYTE;
use gl_base::texture_enums::{
    LINEAR, RGBA, TEXTURE_2D, TEXTURE_CUBE_MAP, TEXTURE_CUBE_MAP_POSITIVE_X, TEXTURE_MIN_FILTER,
};
use gl_plain::{LevelView, UnitView};
use std::test::*;

#[test]
fn a_name_is_bound_and_deleted(rt: HostRuntime) -> Result<(), Fail> {
    let mut textures = Textures::new(rt.alloc())?;
    assert!(rt; !textures.is_over_limit(65_536));
    assert!(rt; textures.add_name(7, 1).is_ok());
    textures.set_active(3);
    let name = textures.name(7).ok_or("7 is not in use")?;
    assert!(rt; !textures.is_of_other_target(true, Some(name)));
    textures.bind(TEXTURE_2D, 7, name)?;
    assert!(rt; textures.is_of_other_target(true, textures.name(7)));
    assert_eq!(rt; textures.place_bound(TEXTURE_2D, 0).texture, 1);
    assert_eq!(rt;
        textures.place_bound(TEXTURE_CUBE_MAP_POSITIVE_X, 0).texture,
        0
    );
    textures.delete(7);
    assert_eq!(rt; textures.place_bound(TEXTURE_2D, 0).texture, 0);
    textures.unbind(TEXTURE_CUBE_MAP);
    Ok(())
}

#[test]
fn an_image_is_written_in_parts(rt: HostRuntime) -> Result<(), Fail> {
    let view = LevelView {
        width: 8,
        height: 4,
        format: RGBA,
        kind: UNSIGNED_BYTE,
    };
    let top = Rect {
        x: 0,
        y: 0,
        width: 8,
        height: 1,
    };
    let mut textures = Textures::new(rt.alloc())?;
    textures.set_image(TEXTURE_2D, 0, view, false);
    let place = textures.place_bound(TEXTURE_2D, 0);
    assert_eq!(rt; textures.level(place), Some(view));
    assert!(rt; textures.extend(place, top));
    assert_eq!(rt; textures.unwritten(place).len(), 1);
    assert!(rt; !textures.is_whole(place));
    textures.mark_whole(place);
    assert!(rt; textures.is_whole(place) && textures.unwritten(place).is_empty());
    Ok(())
}

#[test]
fn a_texture_without_halves_is_complete_if_it_uses_none(rt: HostRuntime) -> Result<(), Fail> {
    let view = LevelView {
        width: 8,
        height: 4,
        format: RGBA,
        kind: UNSIGNED_BYTE,
    };
    let flat = UnitView {
        flat: true,
        cube: false,
        complete: false,
        attached: false,
    };
    let mut textures = Textures::new(rt.alloc())?;
    textures.set_image(TEXTURE_2D, 0, view, true);
    assert!(rt; !textures.is_complete(2, flat));
    assert_eq!(rt; textures.sampled_levels(0, false), 4);
    textures.set_parameter(TEXTURE_2D, TEXTURE_MIN_FILTER, LINEAR);
    assert!(rt; textures.view(2, flat).complete);
    assert_eq!(rt; textures.sampled_number(2, flat), 0);
    assert_eq!(rt; textures.sampled_levels(0, false), 1);
    Ok(())
}
