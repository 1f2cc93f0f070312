//! GenerateMipmap: whether the levels of a texture can be halved, and the halves (OpenGL ES 2.0.25, section 3.7.11).
ghost use Rattle.std.specs.Prelude.{◌≡◌, ◌≤◌, ◌+◌, ◌*◌, true, length, map};
ghost use Rattle.gl_base.specs.declared.limits.TheConstants.{LAST_LEVEL};
ghost use Rattle.gl_plain.specs.subjects.Levels.{suits, face_count, is_cube_target};
ghost use Rattle.gl_plain.specs.subjects.Completeness as completeness;
ghost use Rattle.gl_plain.specs.subjects.Mipmaps as mipmaps;
ghost use Rattle.gl_plain.specs.subjects.Textures.{bound_texture};
ghost use Rattle.gl_plain.specs.Covers.{all_filled};
ghost use Rattle.texture_mgr.specs.Covered.{cover_of};
ghost use Rattle.texture_mgr.specs.Halves.{halves_written, all_halves_written, written_by_halves};
ghost use Rattle.texture_mgr.specs.Tables.{tables, covers, with_objects};

use crate::texture::Texture;
use crate::textures::Textures;
use gl_base::GlEnum;
use gl_base::limits::LAST_LEVEL;
use gl_base::texture_enums::{TEXTURE_2D, TEXTURE_CUBE_MAP_POSITIVE_X};
use gl_plain::{LevelView, is_cube_target, is_power_of_two};

/// How many faces a texture has: a cube map six, and a flat texture one.
fn face_count(cube: bool) -> u32
    ensures { result ≡ face_count cube }
{
    if cube { 6 } else { 1 }
}

/// The first face of a texture.
fn first_face(cube: bool) -> GlEnum
    ensures { result ≡ completeness.first_face cube }
{
    if cube {
        TEXTURE_CUBE_MAP_POSITIVE_X
    } else {
        TEXTURE_2D
    }
}

/// Whether a level has the sides, the format and the type of an image.
fn is_alike(view: LevelView, level: Option<LevelView>) -> bool
    ensures { result ≡ completeness.is_alike view level }
{
    match level {
        Some(other) => {
            other.width == view.width
                && other.height == view.height
                && other.format == view.format
                && other.kind == view.kind
        }
        None => false,
    }
}

/// Whether level 0 of a face is as that of the first face.
fn has_alike_base(base: LevelView, levels: &[Option<LevelView>]) -> bool
    ensures { result ≡ mipmaps.has_alike_base base levels.now }
{
    match levels.split_first() {
        Some((level, _)) => is_alike(base, *level),
        None => false,
    }
}

/// Whether it is so on that many faces, from the first on.
fn are_bases_alike(table: &gl_plain::Texture, base: LevelView, count: usize) -> bool
    requires { (count ≤ 6) × (count * (LAST_LEVEL + 1) ≤ length table.now.levels) }
    ensures { result ≡ mipmaps.are_bases_alike table.now base count }
{
    let all = table.levels.as_slice();
    let mut alike = true;
    for face in 0..count {
        let first = face * (LAST_LEVEL + 1) as usize;
        let levels = &all[first..first + (LAST_LEVEL + 1) as usize];
        alike = alike && has_alike_base(base, levels);
    }
    alike
}

impl Texture {
    /// Whether level 0 is there, its sides are powers of two, and that of each face is alike.
    pub fn can_halve(&self) -> bool
        ensures { result ≡ mipmaps.can_halve_by self.now.table (completeness.base_level self.now.table) }
    {
        let Some(Some(base)) = self.table.levels.get(0) else {
            return false;
        };
        is_power_of_two(base.width)
            && is_power_of_two(base.height)
            && are_bases_alike(&self.table, *base, face_count(self.table.cube) as usize)
    }

    /// Has the halves of an image stand behind it on a face, down to one pixel, each of which is whole.
    fn make_face_halves(&mut self, face: GlEnum, base: LevelView)
        requires { suits self.old.table.cube face ≡ true }
        ensures kind { self.new.table.cube ≡ self.old.table.cube }
        ensures table { self.new.table ≡ mipmaps.with_halves self.old.table face base 1 LAST_LEVEL }
        ensures covers { cover_of self.new ≡ halves_written (cover_of self.old) face base 1 LAST_LEVEL }
    {
        let mut last = base;
        for level in 1..LAST_LEVEL + 1 {
            if last.is_last() {
                return;
            }
            last = last.halved();
            self.set_level(face, level, last, true);
        }
    }

    /// Has them stand on all faces.
    fn make_all_halves(&mut self, base: LevelView)
        ensures kind { self.new.table.cube ≡ self.old.table.cube }
        ensures table { self.new.table ≡ mipmaps.halves_of self.old.table (Some base) }
        ensures covers { cover_of self.new ≡ written_by_halves (cover_of self.old) self.old.table.cube (Some base) }
    {
        let first = first_face(self.table.cube).0;
        let count = face_count(self.table.cube);
        for index in 0..count {
            self.make_face_halves(GlEnum(first + index), base);
        }
    }

    /// Has the halves of level 0 stand behind it, on each face those of the first face's, where that level is there. It takes no memory.
    pub fn make_halves(&mut self)
        ensures kind { self.new.table.cube ≡ self.old.table.cube }
        ensures table { self.new.table ≡ mipmaps.halves_of self.old.table (completeness.base_level self.old.table) }
        ensures covers { cover_of self.new ≡ written_by_halves (cover_of self.old) self.old.table.cube (completeness.base_level self.old.table) }
    {
        let Some(Some(base)) = self.table.levels.get(0) else {
            return;
        };
        let base = *base;
        self.make_all_halves(base);
    }
}

impl Textures {
    /// Whether the texture that the active unit binds to a target has a level 0 that can be halved.
    pub fn can_halve(&self, target: GlEnum) -> bool
        ensures { result ≡ mipmaps.can_halve (bound_texture (tables self.now).objects (is_cube_target target)) }
    {
        let cube = is_cube_target(target);
        match self.objects.get(self.units.bound(cube), cube) {
            Some(texture) => texture.can_halve(),
            None => false,
        }
    }

    /// Has the halves of level 0 of that texture stand behind it, down to one pixel, each of which is whole. It takes no memory.
    pub fn make_halves(&mut self, target: GlEnum)
        requires { mipmaps.can_halve (bound_texture (tables self.old).objects (is_cube_target target)) ≡ true }
        ensures tables { tables self.new ≡ with_objects (tables self.old) (mipmaps.generate_mipmap_effect (tables self.old).objects target) }
        ensures covers { covers self.new ≡ all_filled (mipmaps.generate_mipmap_effect (tables self.old).objects target) (covers self.old) (mipmaps.half_images (tables self.old).objects target) }
    {
        let cube = is_cube_target(target);
        let number = self.units.bound(cube);
        if let Some(texture) = self.objects.get_mut(number, cube) {
            texture.make_halves();
        }
    }
}
