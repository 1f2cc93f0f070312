//! The textures of the service: their names, and what the texture units bind (OpenGL ES 2.0.25, section 3.7).
ghost use Rattle.std.specs.Prelude.{◌≡◌, ◌≢◌, ◌≤◌, OnOk, OnErr, IfOk, Some};
ghost use Rattle.std.specs.FinMap as map;
ghost use Rattle.gl_base.specs.Names as limits;
ghost use Rattle.gl_base.specs.declared.limits.TheConstants.{LAST_UNIT};
ghost use Rattle.gl_plain.specs.subjects.Names.{new_name};
ghost use Rattle.gl_plain.specs.subjects.Levels.{is_cube_target};
ghost use Rattle.gl_plain.specs.subjects.Parameters.{get_tex_parameter};
ghost use Rattle.gl_plain.specs.subjects.Textures as plain;
ghost use Rattle.gl_plain.specs.subjects.Values as values;
ghost use Rattle.gl_plain.specs.subjects.Images.{no_covers, without_covers};
ghost use Rattle.gl_plain.specs.object.Covers.{bound_covers, deleted_covers};
ghost use Rattle.gl_plain.specs.Oracle.{Oracle};
ghost use Rattle.svc_names.specs.Answers.{IsAnswer};
ghost use Rattle.texture_mgr.specs.Numbered.{AreNumbered};
ghost use Rattle.texture_mgr.specs.OfTargets.{AreOfTargets};

use crate::objects::Objects;
use crate::texture::Texture;
use gl_base::GlEnum;
use gl_plain::{Name, TextureUnits, is_cube_target, name_of};
use std::alloc::{AllocError, Global};
use svc_names::{NameRefusal, NameTable};

/// The textures of the service: the client's names, the textures by number with the default textures, and what the texture units bind.
#[derive(Drop)]
pub struct Textures {
    alloc: Global,
    names: NameTable<Name>,
    pub(crate) objects: Objects,
    pub(crate) units: TextureUnits,
    pub ghost numbered: { AreNumbered names },
    pub ghost of_targets: { AreOfTargets objects },
    pub ghost active: { units.active ≤ LAST_UNIT },
}

impl Textures {
    ghost use Rattle.texture_mgr.specs.Tables.{tables, covers, with_objects};

    /// No names, and all units bind the default textures.
    pub fn new(alloc: Global) -> Result<Textures, AllocError>
        ensures tables { IfOk result (λ t. tables t ≡ plain.no_textures) }
        ensures covers { IfOk result (λ t. covers t ≡ no_covers) }
    {
        let objects = Objects::new(alloc)?;
        Ok(Textures {
            alloc,
            names: NameTable::new(alloc),
            objects,
            units: TextureUnits::new(),
        })
    }

    /// What is kept of a name in use, or none.
    pub fn name(&self, id: u32) -> Option<Name>
        ensures { result ≡ map.get (tables self.now).names id }
    {
        self.names.find(id).copied()
    }

    /// Whether so many ordinary names more are too many.
    pub fn is_over_limit(&self, more: u32) -> bool
        ensures { result ≡ limits.is_over_limit (tables self.now).names more }
    {
        self.names.is_over_limit(more)
    }

    /// Brings a name into use, with the number of the object that it will have, which is not 0. It answers as `NameTable::add`.
    pub fn add_name(&mut self, id: u32, number: u64) -> Result<(), NameRefusal<Name>>
        requires { number ≢ 0 }
        ensures ok { OnOk result (tables self.new ≡ plain.gen_textures_effect (tables self.old) id number) }
        ensures err { OnErr result (tables self.new ≡ tables self.old) }
        ensures cause { IsAnswer (tables self.old).names id (new_name number) result }
        ensures covers { covers self.new ≡ covers self.old }
    {
        let name = Name {
            number,
            is_object: false,
        };
        self.names.add(id, name)
    }

    /// The name of the texture that the active unit binds, a cube map or a flat texture, or 0 (section 6.1.1). It looks at one name after the
    /// other.
    pub fn bound_name(&self, cube: bool) -> u32
        ensures { result ≡ values.bound_name (tables self.now) cube }
    {
        name_of(self.names.entries(), self.units.bound(cube))
    }

    /// The active unit, counted from 0.
    pub fn active(&self) -> u32
        ensures value { result ≡ (tables self.now).objects.units.active }
        ensures few { result ≤ LAST_UNIT }
    {
        self.units.active()
    }

    /// A parameter of the texture that the active unit binds to the target, which is always there (section 6.1.3). The name is one of the
    /// four.
    pub fn parameter(&self, target: GlEnum, pname: GlEnum) -> u32
        ensures { result ≡ get_tex_parameter (tables self.now).objects target pname }
    {
        let cube = is_cube_target(target);
        match self.objects.get(self.units.bound(cube), cube) {
            Some(texture) => texture.parameter(pname).0,
            None => 0,
        }
    }

    /// Whether a name's object was first bound to the other target: as a flat texture where a cube map is asked for, or the other way
    /// round (section 3.7.13).
    #[tactic(auto, using(crate::proofs::MappedValues::mapped))]
    pub fn is_of_other_target(&self, cube: bool, name: Option<Name>) -> bool
        ensures { result ≡ plain.is_of_other_target (tables self.now) cube name }
    {
        let Some(name) = name else {
            return false;
        };
        match self.objects.by_number.get(name.number) {
            Some(texture) => name.is_object && texture.is_cube() != cube,
            None => false,
        }
    }

    /// Makes the object of a name in use, which opens as a texture of this kind. Without memory for it all is as before.
    fn make(&mut self, id: u32, number: u64, cube: bool) -> Result<(), AllocError>
        requires { map.get (tables self.old).names id ≡ Some (new_name number) }
        ensures ok { OnOk result (tables self.new ≡ plain.with_object (tables self.old) id cube (new_name number)) }
        ensures made { OnOk result (covers self.new ≡ without_covers (covers self.old) number) }
        ensures err { OnErr result (tables self.new ≡ tables self.old) }
        ensures kept { OnErr result (covers self.new ≡ covers self.old) }
    {
        let texture = Texture::new(self.alloc, cube)?;
        match self.objects.by_number.insert(number, texture) {
            Ok(_) => {}
            Err(_) => return Err(AllocError),
        }
        let made = Name {
            number,
            is_object: true,
        };
        self.names.replace(id, made);
        Ok(())
    }

    /// Has the active unit bind a name in use, whose object is there from now on (section 3.7.13). Without memory for it all is as
    /// before.
    pub fn bind(&mut self, target: GlEnum, id: u32, name: Name) -> Result<(), AllocError>
        requires { map.get (tables self.old).names id ≡ Some name }
        ensures ok { OnOk result (tables self.new ≡ plain.bind_texture_effect (tables self.old) target id) }
        ensures made { OnOk result ((o : Oracle) → covers self.new ≡ bound_covers (covers self.old) id o (Some name)) }
        ensures err { OnErr result (tables self.new ≡ tables self.old) }
        ensures kept { OnErr result (covers self.new ≡ covers self.old) }
    {
        let cube = is_cube_target(target);
        if !name.is_object {
            self.make(id, name.number, cube)?;
        }
        self.units.bind(cube, name.number);
        Ok(())
    }

    /// Has the active unit bind the default texture of a target.
    pub fn unbind(&mut self, target: GlEnum)
        ensures tables { tables self.new ≡ plain.binding (tables self.old) (is_cube_target target) 0 }
        ensures covers { covers self.new ≡ covers self.old }
    {
        self.units.bind(is_cube_target(target), 0);
    }

    /// Deletes a name with its object. The units that bound it bind the default texture of its target from then on (section 3.7.13). A name
    /// that is not in use changes nothing. It takes no memory.
    pub fn delete(&mut self, id: u32)
        ensures tables { tables self.new ≡ plain.delete_textures_effect (tables self.old) id }
        ensures covers { covers self.new ≡ deleted_covers (covers self.old) (map.get (tables self.old).names id) }
    {
        let Some(name) = self.names.remove(id) else {
            return;
        };
        self.objects.by_number.remove(name.number);
        self.units.unbind(name.number);
    }

    /// Has this unit be the active one (section 3.7).
    pub fn set_active(&mut self, unit: u32)
        requires { unit ≤ LAST_UNIT }
        ensures tables { tables self.new ≡ with_objects (tables self.old) (plain.active_texture_effect (tables self.old).objects unit) }
        ensures covers { covers self.new ≡ covers self.old }
    {
        self.units.set_active(unit);
    }
}
