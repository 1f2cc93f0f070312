//! The renderbuffers of the service (OpenGL ES 2.0.25, section 4.4.3).
ghost use Rattle.std.specs.Prelude.{◌≡◌, ◌≢◌, OnOk, OnErr, IsSome, Some, true, false};
ghost use Rattle.std.specs.FinMap as map;
ghost use Rattle.gl_base.specs.Names as limits;
ghost use Rattle.gl_plain.specs.subjects.Names.{name_of, named, new_name};
ghost use Rattle.gl_plain.specs.subjects.Targets as plain;
ghost use Rattle.gl_plain.specs.subjects.Images.{no_marks, with_mark};
ghost use Rattle.gl_plain.specs.object.Covers.{bound_marks, deleted_marks};
ghost use Rattle.gl_plain.specs.Oracle.{Oracle};
ghost use Rattle.svc_names.specs.Answers.{IsAnswer};

use crate::objects::Objects;
use gl_base::target_enums::RGBA4;
use gl_plain::{AttachView, LevelView, Name};
use std::alloc::{AllocError, Global};
use svc_names::NameRefusal;

/// A renderbuffer object: its image, once it was given storage, and whether that was written.
#[derive(Clone, Copy, Debug, PartialEq, Eq)]
pub(crate) struct Renderbuffer {
    image: Option<LevelView>,
    written: bool,
}

/// The renderbuffers of the service: the client's names, the objects by number with whether they were written, and which is bound.
#[derive(Drop)]
pub struct Renderbuffers {
    objects: Objects<Renderbuffer>,
}

impl Renderbuffers {
    ghost use Rattle.target_mgr.specs.Tables.{renderbuffer_tables, renderbuffer_marks};

    /// No names, and nothing bound. It takes no memory.
    pub fn new(alloc: Global) -> Renderbuffers
        ensures tables { renderbuffer_tables result ≡ plain.no_objects }
        ensures marks { renderbuffer_marks result ≡ no_marks }
    {
        Renderbuffers {
            objects: Objects::new(alloc),
        }
    }

    /// What is kept of a name in use, or none.
    pub fn name(&self, id: u32) -> Option<Name>
        ensures { result ≡ map.get (renderbuffer_tables self.now).names id }
    {
        self.objects.name(id)
    }

    /// Whether so many ordinary names more are too many.
    pub fn is_over_limit(&self, more: u32) -> bool
        ensures { result ≡ limits.is_over_limit (renderbuffer_tables self.now).names more }
    {
        self.objects.is_over_limit(more)
    }

    /// Brings a name into use, with the number of the object that it will have, which is not 0. It answers as `NameTable::add`.
    pub fn add_name(&mut self, id: u32, number: u64) -> Result<(), NameRefusal<Name>>
        requires { number ≢ 0 }
        ensures ok { OnOk result (renderbuffer_tables self.new ≡ record (renderbuffer_tables self.old) { names = named (renderbuffer_tables self.old).names id number }) }
        ensures err { OnErr result (renderbuffer_tables self.new ≡ renderbuffer_tables self.old) }
        ensures cause { IsAnswer (renderbuffer_tables self.old).names id (new_name number) result }
        ensures marks { renderbuffer_marks self.new ≡ renderbuffer_marks self.old }
    {
        self.objects.add_name(id, number)
    }

    /// Binds a name in use, whose object is there from now on, and opens without storage. Without memory for it all is as before.
    pub fn bind(&mut self, id: u32, name: Name) -> Result<(), AllocError>
        requires { map.get (renderbuffer_tables self.old).names id ≡ Some name }
        ensures ok { OnOk result (renderbuffer_tables self.new ≡ plain.bind_effect plain.new_renderbuffer (renderbuffer_tables self.old) id) }
        ensures made { OnOk result ((o : Oracle) → renderbuffer_marks self.new ≡ bound_marks (renderbuffer_marks self.old) id o (Some name)) }
        ensures err { OnErr result (renderbuffer_tables self.new ≡ renderbuffer_tables self.old) }
        ensures kept { OnErr result (renderbuffer_marks self.new ≡ renderbuffer_marks self.old) }
    {
        let opening = Renderbuffer {
            image: None,
            written: false,
        };
        self.objects.bind(id, name, opening)
    }

    /// Leaves nothing bound.
    pub fn unbind(&mut self)
        ensures tables { renderbuffer_tables self.new ≡ plain.binding (renderbuffer_tables self.old) 0 }
        ensures marks { renderbuffer_marks self.new ≡ renderbuffer_marks self.old }
    {
        self.objects.unbind();
    }

    /// The number that is bound, or 0.
    pub fn bound(&self) -> u64
        ensures { result ≡ (renderbuffer_tables self.now).bound }
    {
        self.objects.bound()
    }

    /// The name in use that has this number, or 0. It looks at one name after the other.
    pub fn name_of(&self, number: u64) -> u32
        ensures { result ≡ name_of (renderbuffer_tables self.now).names number }
    {
        self.objects.name_of(number)
    }

    /// Deletes a name with its object, which is not bound from then on, and gives what was kept of the name. A name that is not in use
    /// changes nothing. It takes no memory.
    pub fn delete(&mut self, id: u32) -> Option<Name>
        ensures value { result ≡ map.get (renderbuffer_tables self.old).names id }
        ensures tables { renderbuffer_tables self.new ≡ plain.delete_effect (renderbuffer_tables self.old) id }
        ensures marks { renderbuffer_marks self.new ≡ deleted_marks (renderbuffer_marks self.old) (map.get (renderbuffer_tables self.old).names id) }
    {
        self.objects.delete(id)
    }

    /// Gives the renderbuffer that is bound this storage, of which nothing is written. It takes no memory.
    pub fn set_storage(&mut self, view: LevelView)
        requires { IsSome (map.get (renderbuffer_tables self.old).objects (renderbuffer_tables self.old).bound) }
        ensures tables { renderbuffer_tables self.new ≡ plain.renderbuffer_storage_effect (renderbuffer_tables self.old) view }
        ensures marks { renderbuffer_marks self.new ≡ with_mark (renderbuffer_marks self.old) (renderbuffer_tables self.old).bound false }
    {
        let entry = Renderbuffer {
            image: Some(view),
            written: false,
        };
        let bound = self.objects.bound();
        self.objects.replace(bound, entry);
    }

    /// The image of a renderbuffer, if it is there.
    pub fn storage(&self, number: u64) -> Option<LevelView>
        ensures { result ≡ plain.renderbuffer_at (renderbuffer_tables self.now).objects number }
    {
        match self.objects.get(number) {
            Some(entry) => entry.image,
            None => None,
        }
    }

    /// Whether a renderbuffer was written.
    pub fn is_written(&self, number: u64) -> bool
        ensures { result ≡ renderbuffer_marks self.now number }
    {
        match self.objects.get(number) {
            Some(entry) => entry.written,
            None => false,
        }
    }

    /// Takes a renderbuffer that is there as written. It takes no memory.
    pub fn mark_written(&mut self, number: u64)
        requires { IsSome (map.get (renderbuffer_tables self.old).objects number) }
        ensures tables { renderbuffer_tables self.new ≡ renderbuffer_tables self.old }
        ensures marks { renderbuffer_marks self.new ≡ with_mark (renderbuffer_marks self.old) number true }
    {
        if let Some(entry) = self.objects.get(number) {
            let written = Renderbuffer {
                written: true,
                ..entry
            };
            self.objects.replace(number, written);
        }
    }

    /// A renderbuffer as the completeness of a framebuffer looks at it (section 4.4.5).
    pub fn attach_view(&self, number: u64) -> AttachView
        ensures { result ≡ plain.renderbuffer_view (map.get (renderbuffer_tables self.now).objects number) }
    {
        let Some(entry) = self.objects.get(number) else {
            return AttachView::Dead;
        };
        match entry.image {
            Some(view) => AttachView::Renderbuffer {
                format: view.format,
                width: view.width,
                height: view.height,
            },
            None => AttachView::Renderbuffer {
                format: RGBA4,
                width: 0,
                height: 0,
            },
        }
    }
}
