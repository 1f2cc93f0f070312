//! Textures and texture units (OpenGL ES 2.0.25, section 3.7), as tables have them.
ghost use Rattle.std.specs.Prelude.{◌≡◌, ◌≤◌, true, IfOk};
ghost use Rattle.gl_base.specs.declared.limits.TheConstants.{LAST_LEVEL};
ghost use Rattle.gl_plain.specs.subjects.Levels.{is_image_target, with_level, new_texture};
ghost use Rattle.gl_plain.specs.subjects.Parameters.{parameter_of};
ghost use Rattle.gl_plain.specs.subjects.Textures.{with_parameter, bound_in, with_number, unit_unbound, no_bindings, unit_at, bound_number, with_bound, all_unbound};

use crate::Seq;
use crate::texture_targets::level_index;
use gl_base::GlEnum;
use gl_base::limits::LAST_LEVEL;
use gl_base::texture_enums::{
    LINEAR, NEAREST_MIPMAP_LINEAR, REPEAT, TEXTURE_2D, TEXTURE_CUBE_MAP_POSITIVE_X,
    TEXTURE_MAG_FILTER, TEXTURE_MIN_FILTER, TEXTURE_WRAP_S,
};
use std::alloc::{AllocError, Global};

/// The image of a level: its sides, and the format and type of its pixels.
#[derive(Clone, Copy, Debug, PartialEq, Eq)]
pub struct LevelView {
    pub width: u32,
    pub height: u32,
    pub format: GlEnum,
    pub kind: GlEnum,
}

/// The levels of all faces: that of a face and a level stands at the number of the face times 12, plus the level.
pub type LevelList = Seq<Option<LevelView>>;

/// A texture object (section 3.7.12).
#[derive(Debug, Drop)]
pub struct Texture {
    /// Whether it is a cube map.
    pub cube: bool,
    pub min: GlEnum,
    pub mag: GlEnum,
    pub wrap_s: GlEnum,
    pub wrap_t: GlEnum,
    pub levels: LevelList,
}

/// What a texture unit binds, by number: a flat texture and a cube map. 0 is the default texture of its target.
#[derive(Clone, Copy, Debug, Default, PartialEq, Eq)]
pub struct TextureUnit {
    pub flat: u64,
    pub cube: u64,
}

/// The texture units, and the active one.
#[derive(Clone, Copy, Debug, PartialEq, Eq)]
pub struct TextureUnits {
    units: [TextureUnit; 8],
    active: u32,
}

/// An image: the number of its texture, 0 for the default texture of the face's target, the face (TEXTURE_2D of a flat texture), and the level.
#[derive(Clone, Copy, Debug, PartialEq, Eq)]
pub struct ImagePlace {
    pub texture: u64,
    pub face: GlEnum,
    pub level: u32,
}

impl Texture {
    /// A texture as it opens: no images (table 6.8).
    pub fn new(alloc: Global, cube: bool) -> Result<Texture, AllocError>
        ensures { IfOk result (λ texture. texture ≡ new_texture cube) }
    {
        let count = if cube { 6 } else { 1 } * (LAST_LEVEL + 1) as usize;
        Ok(Texture {
            cube,
            min: NEAREST_MIPMAP_LINEAR,
            mag: LINEAR,
            wrap_s: REPEAT,
            wrap_t: REPEAT,
            levels: LevelList::from_vec(vec![in alloc; None; count]?),
        })
    }

    /// Puts an image at a level of a face.
    pub fn set_level(&mut self, face: GlEnum, level: u32, view: LevelView)
        requires face { is_image_target face ≡ true }
        requires level { level ≤ LAST_LEVEL }
        ensures done { self.new ≡ with_level self.old face level view }
    {
        self.levels.set(level_index(face, level), Some(view));
    }

    /// A parameter. Its name is one of the four.
    pub fn parameter(&self, pname: GlEnum) -> GlEnum
        ensures { result ≡ parameter_of self.now pname }
    {
        match pname {
            TEXTURE_MIN_FILTER => self.min,
            TEXTURE_MAG_FILTER => self.mag,
            TEXTURE_WRAP_S => self.wrap_s,
            _ => self.wrap_t,
        }
    }

    /// Sets a parameter. Its name is one of the four.
    pub fn set_parameter(&mut self, pname: GlEnum, value: GlEnum)
        ensures { self.new ≡ with_parameter self.old pname value }
    {
        match pname {
            TEXTURE_MIN_FILTER => self.min = value,
            TEXTURE_MAG_FILTER => self.mag = value,
            TEXTURE_WRAP_S => self.wrap_s = value,
            _ => self.wrap_t = value,
        }
    }
}

impl TextureUnit {
    /// The number that it binds: of a cube map, or of a flat texture.
    pub fn bound(self, cube: bool) -> u64
        ensures { result ≡ bound_in self cube }
    {
        if cube { self.cube } else { self.flat }
    }

    /// The unit with another binding.
    fn with_number(self, cube: bool, number: u64) -> TextureUnit
        ensures { result ≡ with_number self cube number }
    {
        if cube {
            TextureUnit {
                cube: number,
                ..self
            }
        } else {
            TextureUnit {
                flat: number,
                ..self
            }
        }
    }

    /// The unit once the texture of this number is gone.
    fn without(self, number: u64) -> TextureUnit
        ensures { result ≡ unit_unbound number self }
    {
        TextureUnit {
            flat: if self.flat == number { 0 } else { self.flat },
            cube: if self.cube == number { 0 } else { self.cube },
        }
    }
}

impl TextureUnits {
    /// All units bind the default textures, and the first is active.
    pub fn new() -> TextureUnits
        ensures { result ≡ no_bindings }
    {
        TextureUnits {
            units: [TextureUnit { flat: 0, cube: 0 }; 8],
            active: 0,
        }
    }

    /// A unit.
    pub fn unit(&self, unit: u32) -> TextureUnit
        ensures { result ≡ unit_at self.now unit }
    {
        match self.units.get(unit as usize) {
            Some(unit) => *unit,
            None => TextureUnit { flat: 0, cube: 0 },
        }
    }

    /// The number that the active unit binds.
    pub fn bound(&self, cube: bool) -> u64
        ensures { result ≡ bound_number self.now cube }
    {
        self.unit(self.active).bound(cube)
    }

    /// Has the active unit bind this number.
    #[tactic(auto, using(std::proofs::lemmas::List::set_past))]
    pub fn bind(&mut self, cube: bool, number: u64)
        ensures { self.new ≡ with_bound self.old cube number }
    {
        let active = self.active as usize;
        if active < self.units.len() {
            self.units[active] = self.units[active].with_number(cube, number);
        }
    }

    /// Leaves this number bound by no unit.
    pub fn unbind(&mut self, number: u64)
        ensures { self.new ≡ all_unbound self.old number }
    {
        for index in 0..self.units.len() {
            self.units[index] = self.units[index].without(number);
        }
    }

    /// The active unit.
    pub fn active(&self) -> u32
        ensures { result ≡ self.now.active }
    {
        self.active
    }

    /// Has this unit be the active one.
    pub fn set_active(&mut self, unit: u32)
        ensures { self.new ≡ record self.old { active = unit } }
    {
        self.active = unit;
    }
}
