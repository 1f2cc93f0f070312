//! The renderbuffers and the framebuffers of a driver, without pixels: their names, their images and attachments, and what is bound (OpenGL ES
//! 2.0.25, section 4.4).
ghost use Rattle.std.specs.Prelude.{◌≡◌, ◌≢◌, OnOk, OnErr, false};
ghost use Rattle.std.specs.FinMap as map;
ghost use Rattle.std.specs.FinSet as set;
ghost use Rattle.gl_plain.specs.subjects.Names.{IsLive, named};
ghost use Rattle.gl_plain.specs.subjects.Names as plain;
ghost use Rattle.gl_plain.specs.subjects.Targets.{attach_effect, bind_effect, delete_effect, detach, new_framebuffer, new_renderbuffer, no_objects, renderbuffer_storage_effect};
ghost use Rattle.strict_driver.specs.RenderbufferSpace.{no_renderbuffers};
ghost use Rattle.strict_driver.specs.KeptTargets.{framebuffers_of};

use crate::name_space::NameSpace;
use gl_base::GlEnum;
use gl_plain::{Attached, Framebuffer, LevelView, Name, Renderbuffer};
use std::alloc::{AllocError, Global};
use std::marker::Model;

/// Nothing where this name was bound.
fn unbound(name: u64, bound: u64) -> u64
    ensures { result ≡ plain.unbound name bound }
{
    if bound == name { 0 } else { bound }
}

/// The renderbuffers of a driver by their names, and the number that is bound, which is that of an object or 0.
#[derive(Drop)]
pub struct Renderbuffers {
    names: NameSpace<Renderbuffer>,
    bound: u64,
}

impl Model for Renderbuffers {
    ghost use Rattle.strict_driver.specs.RenderbufferSpace.{RenderbufferSpace, renderbuffers_code};
    ghost use Rattle.strict_driver.specs.KeptTargets.{renderbuffer_space, IsBoundThere};

    ghost Value = { RenderbufferSpace };

    ghost coded = { renderbuffers_code };

    ghost view = { renderbuffer_space };

    ghost invariant = { λ a. IsBoundThere a.names.objects a.bound };
}

impl Renderbuffers {
    /// No renderbuffer, and nothing bound. It takes no memory.
    pub fn new(alloc: Global) -> Renderbuffers
        ensures { result ≡ no_renderbuffers }
    {
        Renderbuffers {
            names: NameSpace::new(alloc),
            bound: 0,
        }
    }

    /// What is kept of a name in use.
    pub fn name(&self, name: u64) -> Option<Name>
        ensures { result ≡ map.get self.now.tables.names name }
    {
        self.names.name(name)
    }

    /// Gives a name that was never given before. Without memory for it all is as before.
    pub fn give(&mut self, name: u64) -> Result<(), AllocError>
        requires { set.contains self.old.given name ≡ false }
        ensures ok { OnOk result (self.new ≡ record self.old { tables = record self.old.tables { names = named self.old.tables.names name name }; given = set.insert self.old.given name }) }
        ensures err { OnErr result (self.new ≡ self.old) }
    {
        self.names.give(name)
    }

    /// Binds a live name, whose object is there from now on, or nothing by 0. Without memory for the object all is as before.
    pub fn bind(&mut self, name: u64) -> Result<(), AllocError>
        ensures ok { OnOk result (self.new ≡ record self.old { tables = bind_effect new_renderbuffer self.old.tables name }) }
        ensures err { OnErr result (self.new ≡ self.old) }
    {
        let Some(found) = self.names.name(name) else {
            self.bound = 0;
            return Ok(());
        };
        if !found.is_object {
            self.names.make(name, Renderbuffer { image: None })?;
        }
        self.bound = name;
        Ok(())
    }

    /// Takes a live name out of use, with its object. It is not bound from then on.
    pub fn delete(&mut self, name: u64)
        requires { IsLive self.old.tables.names name }
        ensures { self.new ≡ record self.old { tables = delete_effect self.old.tables name } }
    {
        self.names.remove(name);
        self.bound = unbound(name, self.bound);
    }

    /// Gives the renderbuffer that is bound an image.
    pub fn put_image(&mut self, view: LevelView)
        requires { self.old.tables.bound ≢ 0 }
        ensures { self.new ≡ record self.old { tables = renderbuffer_storage_effect self.old.tables view } }
    {
        let bound = self.bound;
        if let Some(renderbuffer) = self.names.object_mut(bound) {
            *renderbuffer = Renderbuffer { image: Some(view) };
        }
    }
}

/// The framebuffers of a driver by their names, and the number that is bound, or 0.
#[derive(Drop)]
pub struct Framebuffers {
    names: NameSpace<Framebuffer>,
    bound: u64,
}

impl Framebuffers {
    /// No framebuffer but the default one, which is bound. It takes no memory.
    pub fn new(alloc: Global) -> Framebuffers
        ensures state { framebuffers_of result ≡ no_objects }
        ensures given { result.names.given ≡ set.empty }
    {
        Framebuffers {
            names: NameSpace::new(alloc),
            bound: 0,
        }
    }

    /// Gives a name that was never given before. Without memory for it all is as before.
    pub fn give(&mut self, name: u64) -> Result<(), AllocError>
        requires { set.contains self.old.names.given name ≡ false }
        ensures ok { OnOk result (framebuffers_of self.new ≡ record (framebuffers_of self.old) { names = named (framebuffers_of self.old).names name name }) }
        ensures given { OnOk result (self.new.names.given ≡ set.insert self.old.names.given name) }
        ensures err { OnErr result (self.new ≡ self.old) }
    {
        self.names.give(name)
    }

    /// Binds a live name, whose object is there from now on, or the default framebuffer by 0. Without memory for the object all is as before.
    pub fn bind(&mut self, name: u64) -> Result<(), AllocError>
        ensures ok { OnOk result (framebuffers_of self.new ≡ bind_effect new_framebuffer (framebuffers_of self.old) name) }
        ensures given { self.new.names.given ≡ self.old.names.given }
        ensures err { OnErr result (self.new ≡ self.old) }
    {
        let Some(found) = self.names.name(name) else {
            self.bound = 0;
            return Ok(());
        };
        if !found.is_object {
            self.names.make(name, Framebuffer::new())?;
        }
        self.bound = name;
        Ok(())
    }

    /// Takes a live name out of use, with its object. It is not bound from then on.
    pub fn delete(&mut self, name: u64)
        requires { IsLive self.old.names.names name }
        ensures state { framebuffers_of self.new ≡ delete_effect (framebuffers_of self.old) name }
        ensures given { self.new.names.given ≡ self.old.names.given }
    {
        self.names.remove(name);
        self.bound = unbound(name, self.bound);
    }

    /// Attaches this at a point of the framebuffer that is bound.
    pub fn attach(&mut self, point: GlEnum, image: Attached)
        ensures state { framebuffers_of self.new ≡ attach_effect (framebuffers_of self.old) point image }
        ensures given { self.new.names.given ≡ self.old.names.given }
    {
        if let Some(framebuffer) = self.names.object_mut(self.bound) {
            *framebuffer = framebuffer.with_attached(point, image);
        }
    }

    /// Detaches the texture, or else the renderbuffer, with this number from the framebuffer that is bound.
    pub fn detach(&mut self, texture: bool, number: u64)
        ensures state { framebuffers_of self.new ≡ detach (framebuffers_of self.old) texture number }
        ensures given { self.new.names.given ≡ self.old.names.given }
    {
        if let Some(framebuffer) = self.names.object_mut(self.bound) {
            *framebuffer = framebuffer.without(texture, number);
        }
    }
}
