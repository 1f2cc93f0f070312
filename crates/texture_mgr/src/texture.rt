//! A texture object of the service (OpenGL ES 2.0.25, section 3.7.12).
ghost use Rattle.std.specs.Prelude.{◌≡◌, ◌≤◌, ◌+◌, true, is_some, IfOk, OnOk, OnErr, None, Some};
ghost use Rattle.gl_base.specs.declared.limits.TheConstants.{LAST_LEVEL};
ghost use Rattle.gl_base.specs.Rects.{union_of, whole};
ghost use Rattle.gl_plain.specs.subjects.Levels as plain;
ghost use Rattle.gl_plain.specs.subjects.Completeness as completeness;
ghost use Rattle.gl_plain.specs.subjects.Parameters.{parameter_of};
ghost use Rattle.gl_plain.specs.subjects.Textures.{with_parameter};
ghost use Rattle.gl_plain.specs.subjects.Images.{extended, rest_at};
ghost use Rattle.texture_mgr.specs.Kept.{HasCovers, first_written, item_at, is_cover_of, none_written, with_written};

use crate::chain::levels_behind;
use crate::enums::{is_parameter, suits};
use arrayvec::ArrayVec;
use gl_base::limits::LAST_LEVEL;
use gl_base::{GlEnum, Rect};
use gl_plain::{GlError, LevelView, Seq, TextureView, complete_of, level_index, uses_mipmaps};
use image_cover::Cover;
use std::alloc::{AllocError, Global};

/// A texture object: its parameters and its images as tables have them, and what was written of each image that is there.
#[derive(Debug, Drop)]
pub struct Texture {
    pub(crate) table: gl_plain::Texture,
    covers: Seq<Option<Cover>>,
    pub ghost kept: { HasCovers table.cube table.levels covers },
}

/// The item of a level on a face, where such a texture has that place and the item is there.
fn item<T: Copy>(cube: bool, items: &Seq<Option<T>>, face: GlEnum, level: u32) -> Option<T>
    ensures { result ≡ item_at cube items.now face level }
{
    if !suits(cube, face) || level > LAST_LEVEL {
        return None;
    }
    match items.get(level_index(face, level)) {
        Some(item) => *item,
        None => None,
    }
}

/// The cover of a new image, of which all is written or nothing.
fn new_cover(view: LevelView, written: bool) -> Cover
    ensures width { result.width ≡ view.width }
    ensures height { result.height ≡ view.height }
    ensures written { result.written ≡ first_written written view }
{
    let mut cover = Cover::new(view.width, view.height);
    if written {
        cover.fill();
    }
    cover
}

impl Texture {
    ghost use Rattle.std.specs.Bool.{OnTrue};
    ghost use Rattle.texture_mgr.specs.Covered.{cover_of, whole_written, IsInLevel, IsRestOf, IsWhole, has_all, parameter_answer};

    /// A texture as it opens, a cube map or a flat one: no images (table 6.8). It takes all memory that it will need.
    pub fn new(alloc: Global, cube: bool) -> Result<Texture, AllocError>
        ensures table { IfOk result (λ x. x.table ≡ plain.new_texture cube) }
        ensures covers { IfOk result (λ x. cover_of x ≡ none_written) }
    {
        let table = gl_plain::Texture::new(alloc, cube)?;
        let covers = vec![in alloc; None; table.levels.len()]?;
        Ok(Texture {
            table,
            covers: Seq::from_vec(covers),
        })
    }

    /// Whether it is a cube map.
    pub fn is_cube(&self) -> bool
        ensures { result ≡ self.now.table.cube }
    {
        self.table.cube
    }

    /// The image of a level on a face, if it is there (section 3.7.1).
    pub fn level(&self, face: GlEnum, level: u32) -> Option<LevelView>
        ensures { result ≡ plain.level_of self.now.table face level }
    {
        item(self.table.cube, &self.table.levels, face, level)
    }

    /// What was written of that image.
    fn cover(&self, face: GlEnum, level: u32) -> Option<Cover>
        ensures cover { result ≡ item_at self.now.table.cube self.now.covers face level }
        ensures sides { is_cover_of (plain.level_of self.now.table face level) result ≡ true }
    {
        item(self.table.cube, &self.covers, face, level)
    }

    /// Puts an image at a level of one of its faces, of which all is written or nothing (section 3.7.1). It takes no memory.
    pub fn set_level(&mut self, face: GlEnum, level: u32, view: LevelView, written: bool)
        requires face { plain.suits self.old.table.cube face ≡ true }
        requires level { level ≤ LAST_LEVEL }
        ensures table { self.new.table ≡ plain.with_level self.old.table face level view }
        ensures covers { cover_of self.new ≡ with_written (cover_of self.old) face level (first_written written view) }
    {
        let cover = new_cover(view, written);
        self.table.set_level(face, level, view);
        self.covers.set(level_index(face, level), Some(cover));
    }

    /// Puts another cover in place of that of an image.
    fn set_cover(&mut self, face: GlEnum, level: u32, cover: Cover)
        requires { is_cover_of (plain.level_of self.old.table face level) (Some cover) ≡ true }
        ensures table { self.new.table ≡ self.old.table }
        ensures covers { cover_of self.new ≡ with_written (cover_of self.old) face level cover.written }
    {
        if suits(self.table.cube, face) && level <= LAST_LEVEL {
            self.covers.set(level_index(face, level), Some(cover));
        }
    }

    /// Adds the places of a rectangle inside an image that is there, which a command writes (section 3.7.2). False, and all is as before,
    /// where they and those written before make no rectangle. It takes no memory.
    pub fn sub_level(&mut self, face: GlEnum, level: u32, rect: Rect) -> bool
        requires { IsInLevel (plain.level_of self.old.table face level) rect }
        ensures table { self.new.table ≡ self.old.table }
        ensures added { result ≡ is_some (union_of (cover_of self.old face level) rect) }
        ensures covers { cover_of self.new ≡ with_written (cover_of self.old) face level (extended (cover_of self.old face level) rect) }
    {
        let Some(mut cover) = self.cover(face, level) else {
            unreachable!();
        };
        let added = cover.add(rect);
        self.set_cover(face, level, cover);
        added
    }

    /// Takes all places of an image that is there as written. It takes no memory.
    pub fn mark_whole(&mut self, face: GlEnum, level: u32)
        ensures table { self.new.table ≡ self.old.table }
        ensures covers { cover_of self.new ≡ whole_written (cover_of self.old) face level (plain.level_of self.old.table face level) }
    {
        if let Some(mut cover) = self.cover(face, level) {
            cover.fill();
            self.set_cover(face, level, cover);
        }
    }

    /// Whether an image with positive sides is written whole, or there is no image. Then nothing is left to zero.
    pub fn is_whole(&self, face: GlEnum, level: u32) -> bool
        ensures told { result ≡ has_all (plain.level_of self.now.table face level) (cover_of self.now face level) }
        ensures whole { OnTrue result (IsWhole (plain.level_of self.now.table face level) (cover_of self.now face level)) }
    {
        let Some(cover) = self.cover(face, level) else {
            return true;
        };
        if cover.width() == 0 || cover.height() == 0 {
            return false;
        }
        cover.is_whole()
    }

    /// What was not written of an image, as rectangles that share no place; none where the image is not there.
    pub fn unwritten(&self, face: GlEnum, level: u32) -> ArrayVec<Rect, 4>
        ensures parts { result.items ≡ rest_at (plain.level_of self.now.table face level) (cover_of self.now face level) }
        ensures exact { IsRestOf (plain.level_of self.now.table face level) (cover_of self.now face level) result.items }
    {
        match self.cover(face, level) {
            Some(cover) => cover.rest(),
            None => ArrayVec::new(),
        }
    }

    /// A parameter (section 6.1.3). Its name is one of the four.
    pub fn parameter(&self, pname: GlEnum) -> GlEnum
        ensures { result ≡ parameter_of self.now.table pname }
    {
        self.table.parameter(pname)
    }

    /// Sets a parameter (section 3.7.4). What is no parameter, and what it does not take, is refused by INVALID_ENUM. It takes no memory.
    pub fn set_param(&mut self, pname: GlEnum, value: GlEnum) -> Result<(), GlError>
        ensures answer { result ≡ parameter_answer pname value }
        ensures ok { OnOk result (self.new.table ≡ with_parameter self.old.table pname value) }
        ensures err { OnErr result (self.new.table ≡ self.old.table) }
        ensures covers { cover_of self.new ≡ cover_of self.old }
    {
        if !is_parameter(pname, value) {
            return Err(GlError::InvalidEnum);
        }
        self.table.set_parameter(pname, value);
        Ok(())
    }

    /// Whether sampling it gives its images, and not black (section 3.7.10).
    pub fn is_complete(&self) -> bool
        ensures { result ≡ completeness.is_complete self.now.table }
    {
        let table = &self.table;
        complete_of(&TextureView {
            cube: table.cube,
            min: table.min,
            mag: table.mag,
            wrap_s: table.wrap_s,
            wrap_t: table.wrap_t,
            levels: table.levels.as_slice(),
        })
    }

    /// How many levels of each face are sampled, where level 0 of the first face is there: that level, and all behind it where they are
    /// used (section 3.7.7).
    pub fn sampled_levels(&self) -> u32
        ensures levels { result ≡ completeness.sampled_levels self.now.table (completeness.base_level self.now.table) }
        ensures few { result ≤ LAST_LEVEL + 1 }
    {
        let Some(Some(base)) = self.table.levels.get(0) else {
            return 0;
        };
        if uses_mipmaps(self.table.min) {
            1 + levels_behind(*base)
        } else {
            1
        }
    }
}
