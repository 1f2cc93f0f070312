//! What was done to shaders and programs, as far as contracts alone read it: no query asks for it, so it takes no memory, and noting one
//! thing more does nothing at run time.
ghost use Rattle.std.specs.Prelude.{ℕ, List, Option};
ghost use Rattle.std.specs.Borrow.{ftrue};
ghost use Rattle.gl_plain.specs.declared.programs.BoundLocation.{BoundLocation};

use std::marker::Model;

/// What was done to a shader or a program so far.
#[derive(Drop)]
pub struct Past {
    /// A shader's source as it was compiled last.
    pub ghost compiled: { Option (List ℕ) },
    /// The locations that were asked for attributes of a program, in order.
    pub ghost bound: { List BoundLocation },
    /// The sources of the vertex and of the fragment shader that were linked, and what the linker said.
    pub ghost vertex: { List ℕ },
    pub ghost fragment: { List ℕ },
    pub ghost log: { List ℕ },
}

impl Model for Past {
    ghost also_owns = { λ _. ftrue };
}

/// A thing that is done to a shader or a program.
#[derive(Clone, Copy)]
pub enum Event<'a> {
    /// A shader was compiled from this source.
    Compiled {
        source: &'a [u8],
    },
    /// A location was asked for the attribute of this name.
    Asked {
        index: u32,
        name: &'a [u8],
    },
    /// A program was linked from these two shaders, and the linker said this.
    Linked {
        vertex: &'a Past,
        fragment: &'a Past,
        log: &'a [u8],
    },
}

impl Past {
    ghost use Rattle.std.specs.Prelude.{◌≡◌};
    ghost use Rattle.program_mgr.specs.Pasts.{no_past, with_event};

    /// The past of what is new.
    pub fn new() -> Past
        ensures { result ≡ no_past }
    {
        Past {}
    }

    /// The past with one thing more.
    #[inline(always)]
    pub fn and(&self, _event: &Event<'_>) -> Past
        ensures { result ≡ with_event self.now _event.now }
    {
        Past {}
    }
}
