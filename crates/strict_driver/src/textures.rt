//! The textures of a driver, without pixels: their names, their levels and parameters, the default textures, and the units (OpenGL ES 2.0.25,
//! section 3.7).
ghost use Rattle.std.specs.Prelude.{◌≡◌, OnOk, OnErr, true, false};
ghost use Rattle.std.specs.FinMap as map;
ghost use Rattle.std.specs.FinSet as set;
ghost use Rattle.gl_plain.specs.subjects.Levels as levels;
ghost use Rattle.gl_plain.specs.subjects.Names.{IsLive, named};
ghost use Rattle.gl_plain.specs.subjects.Textures.{active_texture_effect, bind_texture_effect, binding, default_texture, delete_textures_effect, no_textures, tex_parameter_effect, with_default};
ghost use Rattle.gl_plain.specs.subjects.Images.{tex_image_effect};
ghost use Rattle.gl_plain.specs.subjects.Mipmaps.{generate_mipmap_effect};
ghost use Rattle.strict_driver.specs.KeptTextures.{IsChange, bound_changed, changed, default_of, textures_of};

use crate::mipmaps::put_all_halves;
use crate::name_space::NameSpace;
use gl_base::GlEnum;
use gl_plain::{LevelView, Name, Texture, TextureUnits, is_cube_face, is_cube_target};
use std::alloc::{AllocError, Global};

/// A change of a texture.
#[derive(Clone, Copy)]
pub enum Change {
    /// It has an image at a level of a face.
    Level {
        face: GlEnum,
        level: u32,
        view: LevelView,
    },
    /// A parameter has a value.
    Parameter {
        pname: GlEnum,
        value: GlEnum,
    },
    /// Each face has the halves of level 0.
    Halves,
}

impl Change {
    /// Makes the change.
    fn make(self, texture: &mut Texture)
        requires { IsChange self }
        ensures { texture.new ≡ changed self texture.old }
    {
        match self {
            Change::Level { face, level, view } => texture.set_level(face, level, view),
            Change::Parameter { pname, value } => texture.set_parameter(pname, value),
            Change::Halves => put_all_halves(texture),
        }
    }
}

/// Makes a change of a default texture, which is kept from its first change on. Without memory for it it is as before.
fn change_default(
    alloc: Global,
    cube: bool,
    kept: &mut Option<Texture>,
    change: Change,
) -> Result<(), AllocError>
    requires { IsChange change }
    ensures { OnOk result (default_of cube kept.new ≡ changed change (default_of cube kept.old)) }
{
    if let Some(texture) = kept {
        change.make(texture);
        return Ok(());
    }
    let mut texture = Texture::new(alloc, cube)?;
    change.make(&mut texture);
    *kept = Some(texture);
    Ok(())
}

/// The textures of a driver by their names, the default textures, where they were changed, and the texture units.
#[derive(Drop)]
pub struct Textures {
    alloc: Global,
    names: NameSpace<Texture>,
    flat: Option<Texture>,
    cube: Option<Texture>,
    units: TextureUnits,
}

impl Textures {
    /// No texture but the default ones, which are bound. It takes no memory.
    pub fn new(alloc: Global) -> Textures
        ensures state { textures_of result ≡ no_textures }
        ensures given { result.names.given ≡ set.empty }
    {
        Textures {
            alloc,
            names: NameSpace::new(alloc),
            flat: None,
            cube: None,
            units: TextureUnits::new(),
        }
    }

    /// What is kept of a name in use.
    pub fn name(&self, name: u64) -> Option<Name>
        ensures { result ≡ map.get self.now.names.names name }
    {
        self.names.name(name)
    }

    /// Gives a name that was never given before. Without memory for it all is as before.
    pub fn give(&mut self, name: u64) -> Result<(), AllocError>
        requires { set.contains self.old.names.given name ≡ false }
        ensures ok { OnOk result (textures_of self.new ≡ record (textures_of self.old) { names = named (textures_of self.old).names name name }) }
        ensures given { OnOk result (self.new.names.given ≡ set.insert self.old.names.given name) }
        ensures err { OnErr result (self.new ≡ self.old) }
    {
        self.names.give(name)
    }

    /// Has the active unit bind a live name, whose object is there from now on, or the default texture by 0. Without memory for the object all
    /// is as before.
    pub fn bind(&mut self, target: GlEnum, name: u64) -> Result<(), AllocError>
        ensures ok { OnOk result (textures_of self.new ≡ bind_texture_effect (textures_of self.old) target name) }
        ensures given { self.new.names.given ≡ self.old.names.given }
        ensures err { OnErr result (self.new ≡ self.old) }
    {
        let cube = is_cube_target(target);
        let Some(found) = self.names.name(name) else {
            self.units.bind(cube, 0);
            return Ok(());
        };
        if !found.is_object {
            self.names.make(name, Texture::new(self.alloc, cube)?)?;
        }
        self.units.bind(cube, name);
        Ok(())
    }

    /// Takes a live name out of use, with its object and with what binds it.
    pub fn delete(&mut self, name: u64)
        requires { IsLive self.old.names.names name }
        ensures state { textures_of self.new ≡ delete_textures_effect (textures_of self.old) name }
        ensures given { self.new.names.given ≡ self.old.names.given }
    {
        self.names.remove(name);
        self.units.unbind(name);
    }

    /// Has the unit of this number be the active one.
    pub fn set_active(&mut self, unit: u32)
        ensures state { textures_of self.new ≡ record (textures_of self.old) { objects = active_texture_effect (textures_of self.old).objects unit } }
        ensures given { self.new.names.given ≡ self.old.names.given }
    {
        self.units.set_active(unit);
    }

    /// Puts an image at a level of a face, in the texture that the active unit binds.
    pub fn put_level(&mut self, face: GlEnum, level: u32, view: LevelView) -> Result<(), AllocError>
        requires { IsChange (Change.Level face level view) }
        ensures ok { OnOk result (textures_of self.new ≡ record (textures_of self.old) { objects = tex_image_effect (textures_of self.old).objects face level view }) }
        ensures given { self.new.names.given ≡ self.old.names.given }
    {
        self.change(is_cube_face(face), Change::Level { face, level, view })
    }

    /// Sets a parameter of the texture that the active unit binds.
    pub fn set_parameter(
        &mut self,
        target: GlEnum,
        pname: GlEnum,
        value: GlEnum,
    ) -> Result<(), AllocError>
        ensures ok { OnOk result (textures_of self.new ≡ record (textures_of self.old) { objects = tex_parameter_effect (textures_of self.old).objects target pname value }) }
        ensures given { self.new.names.given ≡ self.old.names.given }
    {
        self.change(is_cube_target(target), Change::Parameter { pname, value })
    }

    /// Gives the texture that the active unit binds the halves of its level 0.
    pub fn put_halves(&mut self, target: GlEnum) -> Result<(), AllocError>
        ensures ok { OnOk result (textures_of self.new ≡ record (textures_of self.old) { objects = generate_mipmap_effect (textures_of self.old).objects target }) }
        ensures given { self.new.names.given ≡ self.old.names.given }
    {
        self.change(is_cube_target(target), Change::Halves)
    }

    /// Makes a change of the texture that the active unit binds.
    fn change(&mut self, cube: bool, change: Change) -> Result<(), AllocError>
        requires { IsChange change }
        ensures ok { OnOk result (textures_of self.new ≡ record (textures_of self.old) { objects = bound_changed (textures_of self.old).objects cube change }) }
        ensures given { self.new.names.given ≡ self.old.names.given }
    {
        let number = self.units.bound(cube);
        if number == 0 {
            return self.change_default(cube, change);
        }
        if let Some(texture) = self.names.object_mut(number) {
            change.make(texture);
        }
        Ok(())
    }

    /// Makes a change of a default texture.
    fn change_default(&mut self, cube: bool, change: Change) -> Result<(), AllocError>
        requires { IsChange change }
        ensures ok { OnOk result (textures_of self.new ≡ record (textures_of self.old) { objects = with_default (textures_of self.old).objects cube (changed change (default_texture (textures_of self.old).objects cube)) }) }
        ensures given { self.new.names.given ≡ self.old.names.given }
    {
        if cube {
            change_default(self.alloc, true, &mut self.cube, change)
        } else {
            change_default(self.alloc, false, &mut self.flat, change)
        }
    }
}
