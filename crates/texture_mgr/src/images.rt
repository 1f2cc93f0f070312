//! The images of the textures of the service, and what was written of each (OpenGL ES 2.0.25, sections 3.7.1, 3.7.2 and 3.7.4).
ghost use Rattle.std.specs.Prelude.{◌≡◌, ◌≤◌, true, is_some};
ghost use Rattle.std.specs.Bool.{OnTrue, OnFalse};
ghost use Rattle.gl_base.specs.declared.limits.TheConstants.{LAST_LEVEL};
ghost use Rattle.gl_base.specs.Rects.{union_of};
ghost use Rattle.gl_plain.specs.subjects.Levels as levels;
ghost use Rattle.gl_plain.specs.subjects.Textures as plain;
ghost use Rattle.gl_plain.specs.subjects.Images.{extended, tex_image_effect, with_cover};
ghost use Rattle.gl_plain.specs.Covers as zeroing;
ghost use Rattle.texture_mgr.specs.Kept.{first_written};
ghost use Rattle.texture_mgr.specs.Covered.{IsInLevel, IsWhole, has_all};
ghost use Rattle.texture_mgr.specs.Tables.{tables, covers, with_objects};

use crate::textures::Textures;
use arrayvec::ArrayVec;
use gl_base::{GlEnum, Rect};
use gl_plain::{ImagePlace, LevelView, is_cube_face, is_cube_target};

impl Textures {
    /// The place of an image of the texture that the active unit binds to the target of the face.
    pub fn place_bound(&self, face: GlEnum, level: u32) -> ImagePlace
        ensures { result ≡ plain.place_bound (tables self.now).objects face level }
    {
        ImagePlace {
            texture: self.units.bound(is_cube_face(face)),
            face,
            level,
        }
    }

    /// The image at a place, if it is there.
    pub fn level(&self, place: ImagePlace) -> Option<LevelView>
        ensures { result ≡ plain.level_at (tables self.now).objects place }
    {
        match self.objects.get(place.texture, is_cube_face(place.face)) {
            Some(texture) => texture.level(place.face, place.level),
            None => None,
        }
    }

    /// Puts an image at a level of the texture that the active unit binds, of which all is written or nothing (section 3.7.1). It takes no
    /// memory.
    pub fn set_image(&mut self, face: GlEnum, level: u32, view: LevelView, written: bool)
        requires face { levels.is_image_target face ≡ true }
        requires level { level ≤ LAST_LEVEL }
        requires bound { plain.IsOfKind (levels.is_cube_face face) (plain.bound_texture (tables self.old).objects (levels.is_cube_face face)) }
        ensures tables { tables self.new ≡ with_objects (tables self.old) (tex_image_effect (tables self.old).objects face level view) }
        ensures covers { covers self.new ≡ with_cover (covers self.old) (plain.place_bound (tables self.old).objects face level) (first_written written view) }
    {
        let cube = is_cube_face(face);
        let number = self.units.bound(cube);
        let Some(texture) = self.objects.get_mut(number, cube) else {
            unreachable!();
        };
        texture.set_level(face, level, view, written);
    }

    /// Adds the places of a rectangle inside an image that is there, which a command writes (section 3.7.2). False, and all is as before,
    /// where they and those written before make no rectangle: then the rest must be zeroed first. It takes no memory.
    pub fn extend(&mut self, place: ImagePlace, rect: Rect) -> bool
        requires { IsInLevel (plain.level_at (tables self.old).objects place) rect }
        ensures tables { tables self.new ≡ tables self.old }
        ensures added { result ≡ is_some (union_of (covers self.old place) rect) }
        ensures covers { covers self.new ≡ with_cover (covers self.old) place (extended (covers self.old place) rect) }
        ensures kept { OnFalse result (covers self.new ≡ covers self.old) }
    {
        let cube = is_cube_face(place.face);
        let Some(texture) = self.objects.get_mut(place.texture, cube) else {
            unreachable!();
        };
        texture.sub_level(place.face, place.level, rect)
    }

    /// Whether an image with positive sides is written whole, or there is no image. Then nothing is left to zero.
    pub fn is_whole(&self, place: ImagePlace) -> bool
        ensures told { result ≡ has_all (plain.level_at (tables self.now).objects place) (covers self.now place) }
        ensures whole { OnTrue result (IsWhole (plain.level_at (tables self.now).objects place) (covers self.now place)) }
    {
        match self.objects.get(place.texture, is_cube_face(place.face)) {
            Some(texture) => texture.is_whole(place.face, place.level),
            None => true,
        }
    }

    /// What was not written of an image, as rectangles that share no place; none where the image is not there.
    pub fn unwritten(&self, place: ImagePlace) -> ArrayVec<Rect, 4>
        ensures { result.items ≡ zeroing.unwritten (tables self.now).objects (covers self.now) place }
    {
        match self.objects.get(place.texture, is_cube_face(place.face)) {
            Some(texture) => texture.unwritten(place.face, place.level),
            None => ArrayVec::new(),
        }
    }

    /// Takes all places of an image that is there as written. It takes no memory.
    pub fn mark_whole(&mut self, place: ImagePlace)
        ensures tables { tables self.new ≡ tables self.old }
        ensures covers { covers self.new ≡ zeroing.filled (tables self.old).objects (covers self.old) place }
    {
        let cube = is_cube_face(place.face);
        if let Some(texture) = self.objects.get_mut(place.texture, cube) {
            texture.mark_whole(place.face, place.level);
        }
    }

    /// Sets a parameter of the texture that the active unit binds (section 3.7.4). It takes no memory.
    pub fn set_parameter(&mut self, target: GlEnum, pname: GlEnum, value: GlEnum)
        requires { plain.is_parameter pname value ≡ true }
        ensures tables { tables self.new ≡ with_objects (tables self.old) (plain.tex_parameter_effect (tables self.old).objects target pname value) }
        ensures covers { covers self.new ≡ covers self.old }
    {
        let cube = is_cube_target(target);
        let number = self.units.bound(cube);
        if let Some(texture) = self.objects.get_mut(number, cube) {
            let _taken = texture.set_param(pname, value);
        }
    }
}
