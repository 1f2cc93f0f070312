//! The textures of the service by number, and the default textures of both targets (OpenGL ES 2.0.25, section 3.7.13).
ghost use Rattle.std.specs.Prelude.{◌≡◌, true, false, IfOk};
ghost use Rattle.std.specs.FinMap as map;
ghost use Rattle.std.specs.Option.{option_copied, option_copied_mut};
ghost use Rattle.std.specs.Borrow.{sem};
ghost use Rattle.gl_plain.specs.declared.textures.TextureUnits as units;
ghost use Rattle.gl_plain.specs.subjects.Levels.{new_texture};
ghost use Rattle.gl_plain.specs.subjects.Images.{no_covers};
ghost use Rattle.texture_mgr.specs.Objects.{texture_in, objects_of, covers_of};
ghost use Rattle.texture_mgr.specs.Lent.{lends_texture};

use crate::texture::Texture;
use gl_base::NumberMap;
use std::alloc::{AllocError, Global};

/// The textures by number, and the default textures, both of which have the number 0.
#[derive(Drop)]
pub struct Objects {
    pub(crate) by_number: NumberMap<Texture>,
    flat: Texture,
    cube: Texture,
}

impl Objects {
    /// The default textures alone.
    #[tactic(auto, using(crate::proofs::MappedValues::mapped))]
    pub fn new(alloc: Global) -> Result<Objects, AllocError>
        ensures tables { IfOk result (λ o. (u : units.TextureUnits) → objects_of o u ≡ record { by_number = map.empty; flat = new_texture false; cube = new_texture true; units = u }) }
        ensures covers { IfOk result (λ o. covers_of o ≡ no_covers) }
    {
        let flat = Texture::new(alloc, false)?;
        let cube = Texture::new(alloc, true)?;
        Ok(Objects {
            by_number: NumberMap::new(alloc),
            flat,
            cube,
        })
    }

    /// The texture of a number, or the default one of a target for 0.
    pub fn get(&self, number: u64, cube: bool) -> Option<&Texture>
        ensures { option_copied result ≡ texture_in self.now number cube }
    {
        if number != 0 {
            return self.by_number.get(number);
        }
        if cube {
            Some(&self.cube)
        } else {
            Some(&self.flat)
        }
    }

    /// That texture, to be written in place.
    pub fn get_mut(&mut self, number: u64, cube: bool) -> Option<&mut Texture>
        ensures* writes_back { sem 𝓛 (lends_texture self.entry number cube result) }
        ensures value { option_copied_mut result ≡ texture_in self.old number cube }
    {
        if number != 0 {
            return match self.by_number.get_mut(number) {
                Some(texture) => Some(texture),
                None => None,
            };
        }
        if cube {
            Some(&mut self.cube)
        } else {
            Some(&mut self.flat)
        }
    }
}
