//! What draws sample of textures (OpenGL ES 2.0.25, sections 3.7.10 and 3.8.2).
ghost use Rattle.std.specs.Prelude.{◌≡◌, ◌≤◌, ◌+◌, ◌&&◌};
ghost use Rattle.gl_base.specs.declared.limits.TheConstants.{LAST_LEVEL};
ghost use Rattle.gl_plain.specs.subjects.Completeness as plain;
ghost use Rattle.gl_plain.specs.subjects.Draws as draws;
ghost use Rattle.gl_plain.specs.subjects.Textures.{texture_at};
ghost use Rattle.texture_mgr.specs.Tables.{tables, levels_sampled};

use crate::textures::Textures;
use gl_plain::UnitView;

impl Textures {
    /// The number of the texture that a unit samples, as samplers name it, 0 for the default texture.
    pub fn sampled_number(&self, unit: u32, view: UnitView) -> u64
        ensures { result ≡ draws.sampled_number (tables self.now).objects unit view }
    {
        self.units.unit(unit).bound(view.samples_cube())
    }

    /// Whether the texture that a unit samples is complete (section 3.7.10).
    pub fn is_complete(&self, unit: u32, view: UnitView) -> bool
        ensures { result ≡ draws.is_complete_texture (draws.sampled_texture (tables self.now).objects unit view) }
    {
        match self
            .objects
            .get(self.sampled_number(unit, view), view.samples_cube())
        {
            Some(texture) => texture.is_complete(),
            None => false,
        }
    }

    /// A unit that samplers name so, with whether what they sample is complete.
    pub fn view(&self, unit: u32, view: UnitView) -> UnitView
        ensures { result ≡ record view { complete = draws.is_sampled view && draws.is_complete_texture (draws.sampled_texture (tables self.now).objects unit view) } }
    {
        UnitView {
            complete: (view.flat || view.cube) && self.is_complete(unit, view),
            ..view
        }
    }

    /// How many levels are sampled of each face of a texture with a level 0; 0 where it is not there.
    pub fn sampled_levels(&self, number: u64, cube: bool) -> u32
        ensures levels { result ≡ levels_sampled (texture_at (tables self.now).objects number cube) }
        ensures few { result ≤ LAST_LEVEL + 1 }
    {
        match self.objects.get(number, cube) {
            Some(texture) => texture.sampled_levels(),
            None => 0,
        }
    }
}
