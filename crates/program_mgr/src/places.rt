//! The elements of uniforms by their locations (OpenGL ES 2.0.25, section 2.10.4). The table is made once, at a link.
ghost use Rattle.std.specs.Prelude.{◌≡◌, ◌≤◌, ◌+◌, ◌*◌, ◌++◌, IfOk, length};
ghost use Rattle.gl_base.specs.declared.limits.TheConstants.{UNIFORM_LIMIT};
ghost use Rattle.gl_plain.specs.subjects.Links.{words_in, elements_in};

use crate::uniform_kinds::words_of;
use gl_plain::Uniform;
use std::alloc::{AllocError, Global};

/// An element of a uniform: the index of the uniform, the number of the element, and where its words begin.
#[derive(Clone, Copy, Debug, PartialEq, Eq)]
pub struct Place {
    pub uniform: usize,
    pub element: u32,
    pub word: usize,
}

ghost use Rattle.program_mgr.specs.Places.{IsTable, element_places, table_from};

/// Adds the elements of a uniform to the table.
fn add_elements(
    places: &mut Vec<Place>,
    uniform: usize,
    size: u32,
    step: usize,
    word: usize,
) -> Result<(), AllocError>
    requires { word + size * step ≤ 16 * UNIFORM_LIMIT }
    ensures { IfOk result (λ _. places.new.items ≡ places.old.items ++ element_places uniform step 0 word size) }
{
    let mut next = word;
    for element in 0..size {
        let place = Place {
            uniform,
            element,
            word: next,
        };
        places.push(place)?;
        next += step;
    }
    Ok(())
}

/// The elements of uniforms by their locations, and the words that they have together.
#[derive(Drop)]
pub struct Table {
    pub places: Vec<Place>,
    pub words: usize,
}

/// The table of these uniforms.
pub fn table_of(alloc: Global, uniforms: &[Uniform]) -> Result<Table, AllocError>
    requires { elements_in uniforms.now ≤ UNIFORM_LIMIT }
    ensures places { IfOk result (λ table. table.places.items ≡ table_from uniforms.now 0 0) }
    ensures words { IfOk result (λ table. table.words ≡ words_in uniforms.now) }
{
    let mut places = Vec::new(alloc);
    let mut words = 0;
    for (index, uniform) in uniforms.iter().enumerate() {
        let step = words_of(uniform.kind) as usize;
        add_elements(&mut places, index, uniform.size, step, words)?;
        words += uniform.size as usize * step;
    }
    Ok(Table { places, words })
}
