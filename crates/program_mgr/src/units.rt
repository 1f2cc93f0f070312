//! What a draw takes from the executable that is in use (OpenGL ES 2.0.25, section 2.10.4).
ghost use Rattle.std.specs.Prelude.{◌≡◌, ◌==◌, ◌||◌, ◌+◌, Some, is_some, length};
ghost use Rattle.std.specs.List.{list_any};
ghost use Rattle.gl_base.specs.declared.limits.TheConstants.{LAST_UNIT};
ghost use Rattle.gl_plain.specs.subjects.Draws as d;
ghost use Rattle.gl_plain.specs.subjects.Links.{words_in};
ghost use Rattle.program_mgr.specs.Tables.{tables};
ghost use Rattle.program_mgr.specs.Units.{samplers_in, unit_use, uses_below};

use crate::executable::Executable;
use crate::programs::Programs;
use crate::uniform_kinds::{columns, words_of};
use arrayvec::ArrayVec;
use gl_base::GlEnum;
use gl_base::enums::{SAMPLER_2D, SAMPLER_CUBE};
use gl_base::limits::{LAST_ATTRIBUTE, LAST_UNIT};
use gl_plain::{Attribute, Uniform, UnitView};

/// Which samplers name a texture unit.
#[derive(Clone, Copy, Default, Debug, PartialEq, Eq)]
pub struct UnitUse {
    pub unit: u32,
    /// Whether a sampler of flat textures does (SAMPLER_2D).
    pub flat: bool,
    /// Whether a sampler of cube maps does (SAMPLER_CUBE).
    pub cube: bool,
}

/// Whether one of these attributes has the location. A matrix takes one for each column.
fn is_taken(attributes: &[Attribute], location: u32) -> bool
    ensures { result ≡ list_any (d.has_location location) attributes.now }
{
    attributes.iter().any(|attribute| {
        attribute.location <= location && location - attribute.location < columns(attribute.kind)
    })
}

/// A bit for each location that these attributes have.
fn locations(attributes: &[Attribute]) -> u16
    ensures { result ≡ d.used_bits attributes.now }
{
    let mut bits: u32 = 0;
    let mut bit = 1;
    for location in 0..LAST_ATTRIBUTE + 1 {
        if is_taken(attributes, location) {
            bits += bit;
        }
        bit *= 2;
    }
    bits as u16
}

/// Whether one of the words is this one.
fn has_word(words: &[u32], word: u32) -> bool
    ensures { result ≡ list_any (λ other. other == word) words.now }
{
    words.iter().any(|other| *other == word)
}

/// Whether an element of a uniform of this type has the number of the unit as its value.
fn is_named(kind: GlEnum, unit: u32, uniforms: &[Uniform], values: &[u32]) -> bool
    requires { length values.now ≡ words_in uniforms.now }
    ensures { result ≡ d.names_unit kind unit uniforms.now values.now }
{
    let mut rest = values;
    for uniform in uniforms {
        let words = uniform.size as usize * words_of(uniform.kind) as usize;
        let (own, others) = rest.split_at(words);
        if uniform.kind == kind && has_word(own, unit) {
            return true;
        }
        rest = others;
    }
    false
}

/// Which samplers of an executable name the unit.
fn use_of(executable: &Executable, unit: u32) -> UnitUse
    ensures { result ≡ unit_use executable.now unit }
{
    let uniforms = executable.uniforms().as_slice();
    let values = executable.values();
    UnitUse {
        unit,
        flat: is_named(SAMPLER_2D, unit, uniforms, values),
        cube: is_named(SAMPLER_CUBE, unit, uniforms, values),
    }
}

impl UnitUse {
    /// Whether a sampler names it.
    fn is_any(&self) -> bool
        ensures { result ≡ (self.now.flat || self.now.cube) }
    {
        self.flat || self.cube
    }
}

/// The units that the samplers of an executable name.
fn units(executable: &Executable) -> ArrayVec<UnitUse, 8>
    ensures { result.items ≡ uses_below executable.now (LAST_UNIT + 1) }
{
    let mut units = ArrayVec::new();
    for unit in 0..LAST_UNIT + 1 {
        let used = use_of(executable, unit);
        if used.is_any() {
            units.push(used);
        }
    }
    units
}

/// How the samplers of an executable name the unit.
fn view_of(executable: &Executable, unit: u32) -> UnitView
    ensures { result ≡ d.unit_view (Some executable.now) unit }
{
    let used = use_of(executable, unit);
    UnitView {
        flat: used.flat,
        cube: used.cube,
        complete: false,
        attached: false,
    }
}

/// How the samplers of an executable name each unit.
fn views_of(executable: &Executable) -> [UnitView; 8]
    ensures { result ≡ d.all_units (Some executable.now) }
{
    std::array::from_fn(|unit| view_of(executable, unit as u32))
}

impl Programs {
    /// The texture units that the samplers of the executable that is in use name, each once and in ascending order. Where none is in use
    /// there are none. It takes no memory.
    pub fn samplers(&self) -> ArrayVec<UnitUse, 8>
        ensures { result.items ≡ samplers_in (tables self.now).installed }
    {
        match self.installed() {
            Some(executable) => units(executable),
            None => ArrayVec::new(),
        }
    }

    /// A bit for each location of an active attribute of the executable that is in use: a matrix has one for each column. Where none is in
    /// use there is no bit. It takes no memory.
    pub fn used_attributes(&self) -> u16
        ensures { result ≡ d.used_bits (d.attributes_in (tables self.now).installed) }
    {
        match self.installed() {
            Some(executable) => locations(executable.attributes().as_slice()),
            None => 0,
        }
    }

    /// How the samplers of the executable that is in use name each texture unit; no texture is complete or attached yet. Where none is in use
    /// no unit is named. It takes no memory.
    pub fn unit_views(&self) -> [UnitView; 8]
        ensures { result ≡ d.all_units (tables self.now).installed }
    {
        match self.installed() {
            Some(executable) => views_of(executable),
            None => [UnitView::default(); 8],
        }
    }

    /// Whether an executable is in use.
    pub fn has_executable(&self) -> bool
        ensures { result ≡ is_some (tables self.now).installed }
    {
        self.installed().is_some()
    }
}
