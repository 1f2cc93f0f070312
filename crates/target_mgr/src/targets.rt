//! The renderbuffers and framebuffers of the service together (OpenGL ES 2.0.25, section 4.4).
ghost use Rattle.std.specs.Prelude.{◌≡◌, ◌≢◌, OnOk, OnErr, IsSome, Some, true, false};
ghost use Rattle.std.specs.FinMap as map;
ghost use Rattle.gl_base.specs.Names as limits;
ghost use Rattle.gl_plain.specs.subjects.Names.{name_of, named, new_name};
ghost use Rattle.gl_plain.specs.subjects.Parameters.{attached_by};
ghost use Rattle.gl_plain.specs.subjects.Targets as plain;
ghost use Rattle.gl_plain.specs.subjects.Images.{no_marks, with_mark};
ghost use Rattle.gl_plain.specs.object.Covers.{bound_marks, deleted_marks};
ghost use Rattle.gl_plain.specs.Oracle.{Oracle};
ghost use Rattle.svc_names.specs.Answers.{IsAnswer};
ghost use Rattle.target_mgr.specs.Tables.{renderbuffers, framebuffers, marks};

use crate::framebuffers::Framebuffers;
use crate::renderbuffers::Renderbuffers;
use gl_base::GlEnum;
use gl_plain::{AttachView, Attached, LevelView, Name, Target};
use std::alloc::{AllocError, Global};
use svc_names::NameRefusal;

/// The renderbuffers and the framebuffers of the service, and which of each is bound.
#[derive(Drop)]
pub struct Targets {
    renderbuffers: Renderbuffers,
    framebuffers: Framebuffers,
}

impl Targets {
    /// No names, and nothing bound but the default framebuffer. It takes no memory.
    pub fn new(alloc: Global) -> Targets
        ensures renderbuffers { renderbuffers result ≡ plain.no_objects }
        ensures framebuffers { framebuffers result ≡ plain.no_objects }
        ensures marks { marks result ≡ no_marks }
    {
        Targets {
            renderbuffers: Renderbuffers::new(alloc),
            framebuffers: Framebuffers::new(alloc),
        }
    }

    /// What is kept of a renderbuffer's name in use, or none.
    pub fn renderbuffer_name(&self, id: u32) -> Option<Name>
        ensures { result ≡ map.get (renderbuffers self.now).names id }
    {
        self.renderbuffers.name(id)
    }

    /// What is kept of a framebuffer's name in use, or none.
    pub fn framebuffer_name(&self, id: u32) -> Option<Name>
        ensures { result ≡ map.get (framebuffers self.now).names id }
    {
        self.framebuffers.name(id)
    }

    /// Whether so many ordinary names of renderbuffers more are too many.
    pub fn is_renderbuffer_over_limit(&self, more: u32) -> bool
        ensures { result ≡ limits.is_over_limit (renderbuffers self.now).names more }
    {
        self.renderbuffers.is_over_limit(more)
    }

    /// Whether so many ordinary names of framebuffers more are too many.
    pub fn is_framebuffer_over_limit(&self, more: u32) -> bool
        ensures { result ≡ limits.is_over_limit (framebuffers self.now).names more }
    {
        self.framebuffers.is_over_limit(more)
    }

    /// Brings a name of a renderbuffer into use, with the number of the object that it will have, which is not 0. It answers as
    /// `NameTable::add`.
    pub fn add_renderbuffer(&mut self, id: u32, number: u64) -> Result<(), NameRefusal<Name>>
        requires { number ≢ 0 }
        ensures ok { OnOk result (renderbuffers self.new ≡ record (renderbuffers self.old) { names = named (renderbuffers self.old).names id number }) }
        ensures err { OnErr result (renderbuffers self.new ≡ renderbuffers self.old) }
        ensures cause { IsAnswer (renderbuffers self.old).names id (new_name number) result }
        ensures framebuffers { framebuffers self.new ≡ framebuffers self.old }
        ensures marks { marks self.new ≡ marks self.old }
    {
        self.renderbuffers.add_name(id, number)
    }

    /// Brings a name of a framebuffer into use, with the number of the object that it will have, which is not 0. It answers as
    /// `NameTable::add`.
    pub fn add_framebuffer(&mut self, id: u32, number: u64) -> Result<(), NameRefusal<Name>>
        requires { number ≢ 0 }
        ensures ok { OnOk result (framebuffers self.new ≡ record (framebuffers self.old) { names = named (framebuffers self.old).names id number }) }
        ensures err { OnErr result (framebuffers self.new ≡ framebuffers self.old) }
        ensures cause { IsAnswer (framebuffers self.old).names id (new_name number) result }
        ensures renderbuffers { renderbuffers self.new ≡ renderbuffers self.old }
        ensures marks { marks self.new ≡ marks self.old }
    {
        self.framebuffers.add_name(id, number)
    }

    /// Binds a renderbuffer by its name in use. Its object is there from now on, and opens without storage (section 4.4.3). Without memory for
    /// it all is as before.
    pub fn bind_renderbuffer(&mut self, id: u32, name: Name) -> Result<(), AllocError>
        requires { map.get (renderbuffers self.old).names id ≡ Some name }
        ensures ok { OnOk result (renderbuffers self.new ≡ plain.bind_effect plain.new_renderbuffer (renderbuffers self.old) id) }
        ensures made { OnOk result ((o : Oracle) → marks self.new ≡ bound_marks (marks self.old) id o (Some name)) }
        ensures err { OnErr result (renderbuffers self.new ≡ renderbuffers self.old) }
        ensures kept { OnErr result (marks self.new ≡ marks self.old) }
        ensures framebuffers { framebuffers self.new ≡ framebuffers self.old }
    {
        self.renderbuffers.bind(id, name)
    }

    /// Binds a framebuffer by its name in use. Its object is there from now on, and opens with nothing attached (section 4.4.1). Without memory
    /// for it all is as before.
    pub fn bind_framebuffer(&mut self, id: u32, name: Name) -> Result<(), AllocError>
        requires { map.get (framebuffers self.old).names id ≡ Some name }
        ensures ok { OnOk result (framebuffers self.new ≡ plain.bind_effect plain.new_framebuffer (framebuffers self.old) id) }
        ensures err { OnErr result (framebuffers self.new ≡ framebuffers self.old) }
        ensures renderbuffers { renderbuffers self.new ≡ renderbuffers self.old }
        ensures marks { marks self.new ≡ marks self.old }
    {
        self.framebuffers.bind(id, name)
    }

    /// Leaves no renderbuffer bound.
    pub fn unbind_renderbuffer(&mut self)
        ensures renderbuffers { renderbuffers self.new ≡ plain.binding (renderbuffers self.old) 0 }
        ensures framebuffers { framebuffers self.new ≡ framebuffers self.old }
        ensures marks { marks self.new ≡ marks self.old }
    {
        self.renderbuffers.unbind();
    }

    /// Binds the default framebuffer.
    pub fn unbind_framebuffer(&mut self)
        ensures framebuffers { framebuffers self.new ≡ plain.binding (framebuffers self.old) 0 }
        ensures renderbuffers { renderbuffers self.new ≡ renderbuffers self.old }
        ensures marks { marks self.new ≡ marks self.old }
    {
        self.framebuffers.unbind();
    }

    /// Deletes a renderbuffer's name with its object, which is not bound from then on, nor attached to the framebuffer that is bound. To any other
    /// framebuffer it stays attached, and is dead there (section 4.4.3). A name that is not in use changes nothing. It takes no memory.
    pub fn delete_renderbuffer(&mut self, id: u32)
        ensures renderbuffers { renderbuffers self.new ≡ plain.delete_effect (renderbuffers self.old) id }
        ensures framebuffers { framebuffers self.new ≡ plain.detach_deleted (framebuffers self.old) false (map.get (renderbuffers self.old).names id) }
        ensures marks { marks self.new ≡ deleted_marks (marks self.old) (map.get (renderbuffers self.old).names id) }
    {
        if let Some(name) = self.renderbuffers.delete(id) {
            self.framebuffers.detach_bound(false, name.number);
        }
    }

    /// Deletes a framebuffer's name with its object. Where that was bound the default framebuffer is (section 4.4.1). A name that is not in use
    /// changes nothing. It takes no memory.
    pub fn delete_framebuffer(&mut self, id: u32)
        ensures framebuffers { framebuffers self.new ≡ plain.delete_effect (framebuffers self.old) id }
        ensures renderbuffers { renderbuffers self.new ≡ renderbuffers self.old }
        ensures marks { marks self.new ≡ marks self.old }
    {
        self.framebuffers.delete(id);
    }

    /// Detaches a texture that is deleted from the framebuffer that is bound. To any other one it stays attached, and is dead there
    /// (section 4.4.3). It takes no memory.
    pub fn detach_texture(&mut self, number: u64)
        ensures framebuffers { framebuffers self.new ≡ plain.detach (framebuffers self.old) true number }
        ensures renderbuffers { renderbuffers self.new ≡ renderbuffers self.old }
        ensures marks { marks self.new ≡ marks self.old }
    {
        self.framebuffers.detach_bound(true, number);
    }

    /// Attaches at a point of the framebuffer that is bound (section 4.4.3). It takes no memory.
    pub fn attach(&mut self, point: GlEnum, image: Attached)
        requires { plain.is_attachment point ≡ true }
        ensures framebuffers { framebuffers self.new ≡ plain.attach_effect (framebuffers self.old) point image }
        ensures renderbuffers { renderbuffers self.new ≡ renderbuffers self.old }
        ensures marks { marks self.new ≡ marks self.old }
    {
        self.framebuffers.attach_bound(point, image);
    }

    /// The number of the renderbuffer that is bound, or 0.
    pub fn renderbuffer_bound(&self) -> u64
        ensures { result ≡ (renderbuffers self.now).bound }
    {
        self.renderbuffers.bound()
    }

    /// The number of the framebuffer that is bound, 0 for the default framebuffer.
    pub fn framebuffer_bound(&self) -> u64
        ensures { result ≡ (framebuffers self.now).bound }
    {
        self.framebuffers.bound()
    }

    /// The name of the renderbuffer that is bound, or 0 (section 6.1.1). It looks at one name after the other.
    pub fn renderbuffer_bound_name(&self) -> u32
        ensures { result ≡ name_of (renderbuffers self.now).names (renderbuffers self.now).bound }
    {
        self.renderbuffers.name_of(self.renderbuffers.bound())
    }

    /// The name of the framebuffer that is bound, or 0 (section 6.1.1). It looks at one name after the other.
    pub fn framebuffer_bound_name(&self) -> u32
        ensures { result ≡ name_of (framebuffers self.now).names (framebuffers self.now).bound }
    {
        self.framebuffers.name_of(self.framebuffers.bound())
    }

    /// What is attached to the framebuffer that is bound, at a point (section 4.4.2). Nothing is attached to the default framebuffer.
    pub fn attached(&self, point: GlEnum) -> Attached
        ensures { result ≡ attached_by (map.get (framebuffers self.now).objects (framebuffers self.now).bound) point }
    {
        self.framebuffers.attached(point)
    }

    /// Gives the renderbuffer that is bound this storage, of which nothing is written (section 4.4.3). It takes no memory.
    pub fn set_storage(&mut self, view: LevelView)
        requires { IsSome (map.get (renderbuffers self.old).objects (renderbuffers self.old).bound) }
        ensures renderbuffers { renderbuffers self.new ≡ plain.renderbuffer_storage_effect (renderbuffers self.old) view }
        ensures framebuffers { framebuffers self.new ≡ framebuffers self.old }
        ensures marks { marks self.new ≡ with_mark (marks self.old) (renderbuffers self.old).bound false }
    {
        self.renderbuffers.set_storage(view);
    }

    /// The image of a renderbuffer, if it is there.
    pub fn storage(&self, number: u64) -> Option<LevelView>
        ensures { result ≡ plain.renderbuffer_at (renderbuffers self.now).objects number }
    {
        self.renderbuffers.storage(number)
    }

    /// Whether a renderbuffer was written.
    pub fn is_written(&self, number: u64) -> bool
        ensures { result ≡ marks self.now number }
    {
        self.renderbuffers.is_written(number)
    }

    /// Takes a renderbuffer that is there as written. It takes no memory.
    pub fn mark_written(&mut self, number: u64)
        requires { IsSome (map.get (renderbuffers self.old).objects number) }
        ensures renderbuffers { renderbuffers self.new ≡ renderbuffers self.old }
        ensures framebuffers { framebuffers self.new ≡ framebuffers self.old }
        ensures marks { marks self.new ≡ with_mark (marks self.old) number true }
    {
        self.renderbuffers.mark_written(number);
    }

    /// What is drawn to (section 4.4.1).
    pub fn target(&self) -> Target
        ensures { result ≡ plain.target_of (framebuffers self.now) }
    {
        self.framebuffers.target()
    }

    /// A renderbuffer as the completeness of a framebuffer looks at it (section 4.4.5).
    pub fn attach_view(&self, number: u64) -> AttachView
        ensures { result ≡ plain.renderbuffer_view (map.get (renderbuffers self.now).objects number) }
    {
        self.renderbuffers.attach_view(number)
    }
}
