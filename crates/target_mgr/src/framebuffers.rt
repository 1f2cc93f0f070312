//! The framebuffers of the service (OpenGL ES 2.0.25, sections 4.4.1 and 4.4.2).
ghost use Rattle.std.specs.Prelude.{◌≡◌, ◌≢◌, ◌⊎◌, OnOk, OnErr, IsSome, Some, true, is_some};
ghost use Rattle.std.specs.Bool.{OnFalse};
ghost use Rattle.std.specs.FinMap as map;
ghost use Rattle.gl_base.specs.Names as limits;
ghost use Rattle.gl_plain.specs.subjects.Names.{name_of, named, new_name};
ghost use Rattle.gl_plain.specs.subjects.Parameters.{attached_by};
ghost use Rattle.gl_plain.specs.subjects.Targets as plain;
ghost use Rattle.svc_names.specs.Answers.{IsAnswer};
ghost use Rattle.target_mgr.specs.Named as by_name;

use crate::objects::Objects;
use gl_base::GlEnum;
use gl_base::enums::FRAMEBUFFER_COMPLETE;
use gl_plain::{AttachView, Attached, Framebuffer, Name, Target, status_of};
use std::alloc::{AllocError, Global};
use svc_names::NameRefusal;

/// The framebuffers of the service: the client's names, the objects by number, and which is bound, 0 for the default framebuffer. What is
/// attached is known by its number, which is never used again, so that an attachment to an object that was deleted stays dead.
#[derive(Drop)]
pub struct Framebuffers {
    objects: Objects<Framebuffer>,
}

impl Framebuffers {
    ghost use Rattle.target_mgr.specs.Tables.{framebuffer_tables};

    /// No names, and the default framebuffer bound. It takes no memory.
    pub fn new(alloc: Global) -> Framebuffers
        ensures { framebuffer_tables result ≡ plain.no_objects }
    {
        Framebuffers {
            objects: Objects::new(alloc),
        }
    }

    /// What is kept of a name in use, or none.
    pub fn name(&self, id: u32) -> Option<Name>
        ensures { result ≡ map.get (framebuffer_tables self.now).names id }
    {
        self.objects.name(id)
    }

    /// Whether so many ordinary names more are too many.
    pub fn is_over_limit(&self, more: u32) -> bool
        ensures { result ≡ limits.is_over_limit (framebuffer_tables self.now).names more }
    {
        self.objects.is_over_limit(more)
    }

    /// Brings a name into use, with the number of the object that it will have, which is not 0. It answers as `NameTable::add`.
    pub fn add_name(&mut self, id: u32, number: u64) -> Result<(), NameRefusal<Name>>
        requires { number ≢ 0 }
        ensures ok { OnOk result (framebuffer_tables self.new ≡ record (framebuffer_tables self.old) { names = named (framebuffer_tables self.old).names id number }) }
        ensures err { OnErr result (framebuffer_tables self.new ≡ framebuffer_tables self.old) }
        ensures cause { IsAnswer (framebuffer_tables self.old).names id (new_name number) result }
    {
        self.objects.add_name(id, number)
    }

    /// Binds a name in use, whose object is there from now on, and opens with nothing attached. Without memory for it all is as before.
    pub fn bind(&mut self, id: u32, name: Name) -> Result<(), AllocError>
        requires { map.get (framebuffer_tables self.old).names id ≡ Some name }
        ensures ok { OnOk result (framebuffer_tables self.new ≡ plain.bind_effect plain.new_framebuffer (framebuffer_tables self.old) id) }
        ensures err { OnErr result (framebuffer_tables self.new ≡ framebuffer_tables self.old) }
    {
        self.objects.bind(id, name, Framebuffer::new())
    }

    /// Binds the default framebuffer.
    pub fn unbind(&mut self)
        ensures { framebuffer_tables self.new ≡ plain.binding (framebuffer_tables self.old) 0 }
    {
        self.objects.unbind();
    }

    /// The number that is bound, 0 for the default framebuffer.
    pub fn bound(&self) -> u64
        ensures { result ≡ (framebuffer_tables self.now).bound }
    {
        self.objects.bound()
    }

    /// Deletes a name with its object. Where that was bound the default framebuffer is. A name that is not in use changes nothing. It takes
    /// no memory.
    pub fn delete(&mut self, id: u32)
        ensures { framebuffer_tables self.new ≡ plain.delete_effect (framebuffer_tables self.old) id }
    {
        self.objects.delete(id);
    }

    /// Attaches at a point of the framebuffer of a number. False, and all is as before, where it is not there.
    fn attach_at(&mut self, number: u64, point: GlEnum, image: Attached) -> bool
        ensures found { result ≡ is_some (map.get (framebuffer_tables self.old).objects number) }
        ensures done { framebuffer_tables self.new ≡ by_name.changed_at (framebuffer_tables self.old) (λ f. plain.with_attached f point image) number }
    {
        let Some(framebuffer) = self.objects.get(number) else {
            return false;
        };
        self.objects
            .replace(number, framebuffer.with_attached(point, image));
        true
    }

    /// Detaches a texture, or else a renderbuffer, from the framebuffer of a number, if it is there.
    fn detach_at(&mut self, number: u64, texture: bool, object: u64)
        ensures { framebuffer_tables self.new ≡ by_name.changed_at (framebuffer_tables self.old) (plain.without_attached texture object) number }
    {
        if let Some(framebuffer) = self.objects.get(number) {
            self.objects
                .replace(number, framebuffer.without(texture, object));
        }
    }

    /// Attaches at a point of the framebuffer of a client's name (section 4.4.2). False, and all is as before, where it is not there. It takes
    /// no memory.
    pub fn attach(&mut self, id: u32, point: GlEnum, image: Attached) -> bool
        requires { plain.is_attachment point ≡ true }
        ensures found { result ≡ is_some (by_name.object_named (framebuffer_tables self.old) id) }
        ensures done { framebuffer_tables self.new ≡ by_name.attach_named (framebuffer_tables self.old) id point image }
        ensures absent { OnFalse result (framebuffer_tables self.new ≡ framebuffer_tables self.old) }
    {
        let number = self.objects.number(id);
        self.attach_at(number, point, image)
    }

    /// Detaches a texture, or else a renderbuffer, from the framebuffer of a client's name (section 4.4.3). 0, the default framebuffer, and a
    /// name of none change nothing. It takes no memory.
    pub fn detach_all(&mut self, bound: u32, texture: bool, object: u64)
        ensures { framebuffer_tables self.new ≡ by_name.detach_named (framebuffer_tables self.old) bound texture object }
    {
        if bound != 0 {
            let number = self.objects.number(bound);
            self.detach_at(number, texture, object);
        }
    }

    /// Attaches at a point of the framebuffer that is bound (section 4.4.2). It takes no memory.
    pub fn attach_bound(&mut self, point: GlEnum, image: Attached)
        requires { plain.is_attachment point ≡ true }
        ensures { framebuffer_tables self.new ≡ plain.attach_effect (framebuffer_tables self.old) point image }
    {
        let bound = self.objects.bound();
        let _attached = self.attach_at(bound, point, image);
    }

    /// Detaches a texture, or else a renderbuffer, that is deleted from the framebuffer that is bound (section 4.4.3). It takes no memory.
    pub fn detach_bound(&mut self, texture: bool, object: u64)
        ensures { framebuffer_tables self.new ≡ plain.detach (framebuffer_tables self.old) texture object }
    {
        let bound = self.objects.bound();
        self.detach_at(bound, texture, object);
    }

    /// The name in use that has this number, or 0. It looks at one name after the other.
    pub fn name_of(&self, number: u64) -> u32
        ensures { result ≡ name_of (framebuffer_tables self.now).names number }
    {
        self.objects.name_of(number)
    }

    /// What is attached to the framebuffer that is bound, at a point (section 4.4.2). Nothing is attached to the default framebuffer.
    pub fn attached(&self, point: GlEnum) -> Attached
        ensures { result ≡ attached_by (map.get (framebuffer_tables self.now).objects (framebuffer_tables self.now).bound) point }
    {
        match self.objects.get(self.objects.bound()) {
            Some(framebuffer) => framebuffer.attached(point),
            None => Attached::Nothing,
        }
    }

    /// What is drawn to (section 4.4.1).
    pub fn target(&self) -> Target
        ensures { result ≡ plain.target_of (framebuffer_tables self.now) }
    {
        match self.objects.get(self.objects.bound()) {
            Some(framebuffer) => framebuffer.target(),
            None => Target::Default,
        }
    }

    /// What is attached to the framebuffer of a client's name: colour, depth, stencil (section 4.4.2).
    pub fn images(&self, id: u32) -> [Attached; 3]
        requires { IsSome (by_name.object_named (framebuffer_tables self.now) id) }
        ensures { result ≡ by_name.attachments (by_name.object_named (framebuffer_tables self.now) id) }
    {
        match self.objects.get(self.objects.number(id)) {
            Some(framebuffer) => [framebuffer.colour, framebuffer.depth, framebuffer.stencil],
            None => [Attached::Nothing; 3],
        }
    }

    /// Whether the framebuffer of a client's name, 0 for the default one, can be drawn to, and else why not, by how completeness looks at what is
    /// attached: colour, depth, stencil (section 4.4.5). It answers as `status_of`, and the default framebuffer is complete.
    pub fn status(&self, id: u32, sizes: &[AttachView; 3]) -> u32
        requires { (id ≡ 0) ⊎ IsSome (by_name.object_named (framebuffer_tables self.now) id) }
        ensures { result ≡ by_name.status_by id sizes.now }
    {
        if id == 0 {
            return FRAMEBUFFER_COMPLETE;
        }
        status_of(&sizes[0], &sizes[1], &sizes[2])
    }
}
