//! What a program is used by, once it was linked (OpenGL ES 2.0.25, section 2.10.3), with the values of its uniforms (section 2.10.4).
ghost use Rattle.std.specs.Prelude.{◌≡◌, ◌≤◌, ◌+◌, true, length, IfOk};
ghost use Rattle.gl_plain.specs.Bytes.{part};
ghost use Rattle.std.specs.Option.{option_copied, option_map};
ghost use Rattle.gl_base.specs.declared.limits.TheConstants.{UNIFORM_LIMIT};
ghost use Rattle.gl_plain.specs.subjects.Links.{elements_in, words_in};
ghost use Rattle.gl_plain.specs.subjects.ProgramQueries.{element_words};
ghost use Rattle.gl_plain.specs.subjects.Uniforms as plain;
ghost use Rattle.program_mgr.specs.Stores.{IsStored};

use crate::element::{Element, store_part};
use crate::past::Past;
use crate::places::{Place, Table, table_of};
use crate::uniform_kinds::words_of;
use gl_plain::{AttributeList, UniformList};
use std::alloc::{AllocError, Global};
use std::marker::Model;

/// An executable: its active attributes and uniforms, where the elements of the uniforms are by their locations, and their values.
#[derive(Drop)]
pub struct Executable {
    past: Past,
    attributes: AttributeList,
    uniforms: UniformList,
    places: Vec<Place>,
    values: Vec<u32>,
}

impl Model for Executable {
    ghost use Rattle.std.specs.Prelude.{◌≡◌, ◌≤◌, true, length};
    ghost use Rattle.gl_base.specs.declared.limits.TheConstants.{UNIFORM_LIMIT};
    ghost use Rattle.gl_plain.specs.declared.programs.Executable as tables;
    ghost use Rattle.gl_plain.specs.subjects.Links.{elements_in, words_in};
    ghost use Rattle.program_mgr.specs.Places.{IsTable};

    ghost Value = { tables.Executable };

    ghost view = { λ a. record { vertex = a.past.vertex; fragment = a.past.fragment; bound = a.past.bound; answer = record { ok = true; log = a.past.log; attributes = a.attributes; uniforms = a.uniforms }; values = a.values.items } };

    ghost invariant = { λ a. IsTable a.uniforms a.places.items × (length a.values.items ≡ words_in a.uniforms) × (elements_in a.uniforms ≤ UNIFORM_LIMIT) };
}

/// So many words from a place on.
fn words_from(values: &[u32], start: usize, count: usize) -> &[u32]
    requires { start + count ≤ length values.now }
    ensures { result.now ≡ part values.now start count }
{
    &values[start..start + count]
}

impl Executable {
    ghost use Rattle.program_mgr.specs.Elements.{element_of};
    ghost use Rattle.program_mgr.specs.Linked.{linked_from};

    /// What a link makes of what was done to a program, with the attributes and the uniforms that the linker says are active. All uniforms
    /// are zero.
    pub fn link(
        alloc: Global,
        past: Past,
        attributes: AttributeList,
        uniforms: UniformList,
    ) -> Result<Executable, AllocError>
        requires { elements_in uniforms ≤ UNIFORM_LIMIT }
        ensures { IfOk result (λ e. e ≡ linked_from past attributes uniforms) }
    {
        let Table { places, words } = table_of(alloc, uniforms.as_slice())?;
        let values = vec![in alloc; 0u32; words]?;
        Ok(Executable {
            past,
            attributes,
            uniforms,
            places,
            values,
        })
    }

    /// Its active attributes.
    pub fn attributes(&self) -> &AttributeList
        ensures { result.now ≡ self.now.answer.attributes }
    {
        &self.attributes
    }

    /// Its active uniforms, in the order of their locations.
    pub fn uniforms(&self) -> &UniformList
        ensures uniforms { result.now ≡ self.now.answer.uniforms }
        ensures few { elements_in result.now ≤ UNIFORM_LIMIT }
    {
        &self.uniforms
    }

    /// The words of all elements of all uniforms, in the order of their locations.
    pub fn values(&self) -> &[u32]
        ensures values { result.now ≡ self.now.values }
        ensures whole { length result.now ≡ words_in self.now.answer.uniforms }
    {
        self.values.as_slice()
    }

    /// The element at a location, if there is one.
    pub fn element(&self, location: i32) -> Option<Element<'_>>
        ensures { option_map element_of result ≡ plain.place_of self.now.answer.uniforms location }
    {
        if location < 0 {
            return None;
        }
        let place = self.places.get(location as usize)?;
        let uniform = self.uniforms.get(place.uniform)?;
        Some(Element {
            uniform,
            element: place.element,
            word: place.word,
        })
    }

    /// The words of an element of its own.
    pub fn words_at(&self, location: i32) -> Option<&[u32]>
        ensures { option_copied result ≡ option_map (element_words self.now.values) (plain.place_of self.now.answer.uniforms location) }
    {
        let element = self.element(location)?;
        let words = words_of(element.uniform.kind) as usize;
        Some(words_from(self.values.as_slice(), element.word, words))
    }

    /// Stores what is given for the element at a location and those behind it. Nowhere nothing is stored.
    pub fn store(&mut self, location: i32, kind: u32, count: i32, bytes: &[u8])
        requires size { length bytes.now ≡ plain.uniform_needed kind count }
        requires taken { IsStored self.old location kind count bytes.now }
        requires given { plain.is_given_kind kind ≡ true }
        ensures { self.new ≡ plain.with_uniform location kind count bytes.now self.old }
    {
        let Some(element) = self.element(location) else {
            return;
        };
        let uniform = element.uniform.kind;
        let start = element.word;
        let words = element.stored_words(kind, count);
        store_part(&mut self.values, start, words, uniform, kind, bytes);
    }
}
