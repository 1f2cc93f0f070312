//! The location that a name means (OpenGL ES 2.0.25, section 2.10.4).
ghost use Rattle.std.specs.Prelude.{◌≡◌, ◌≤◌, IfSome};
ghost use Rattle.gl_base.specs.declared.limits.TheConstants.{UNIFORM_LIMIT};
ghost use Rattle.gl_plain.specs.subjects.Links.{elements_in};
ghost use Rattle.program_mgr.specs.Names.{closed_number, decimal_in, element_behind, element_named, location_at, location_from};
ghost use Rattle.program_mgr.specs.Tables.{tables};

use crate::programs::Programs;
use gl_plain::Uniform;
use gl_plain::fields::number;

/// A number in decimal, without leading zeros.
fn decimal(text: &[u8]) -> Option<u32>
    ensures { result ≡ decimal_in text.now }
{
    match text {
        [b'0', _, ..] => None,
        _ => number(text),
    }
}

/// The number before a closing `]`.
fn closed(text: &[u8]) -> Option<u32>
    ensures { result ≡ closed_number text.now }
{
    match text.strip_suffix(b"]") {
        Some(digits) => decimal(digits),
        None => None,
    }
}

/// The element that is meant by what stands behind the name of an array: nothing means the first, and `[e]` means element e.
fn element(text: &[u8]) -> Option<u32>
    ensures { result ≡ element_behind text.now }
{
    match text {
        [] => Some(0),
        [b'[', rest @ ..] => closed(rest),
        _ => None,
    }
}

/// The element of a uniform that a name means, if it means one.
fn element_of(uniform: &Uniform, name: &[u8]) -> Option<u32>
    ensures { result ≡ element_named uniform.now name.now }
{
    let own = uniform.name.as_slice();
    if own == name {
        return Some(0);
    }
    let stem = own.strip_suffix(b"[0]")?;
    let behind = name.strip_prefix(stem)?;
    let element = element(behind)?;
    if element < uniform.size {
        Some(element)
    } else {
        None
    }
}

/// The location that a name means among these uniforms: the first that has an element of the name decides.
fn location_in(uniforms: &[Uniform], name: &[u8]) -> Option<u32>
    requires { elements_in uniforms.now ≤ UNIFORM_LIMIT }
    ensures location { result ≡ location_from uniforms.now name.now 0 }
    ensures few { IfSome result (λ location. location ≤ UNIFORM_LIMIT) }
{
    let mut first = 0;
    for uniform in uniforms {
        if let Some(element) = element_of(uniform, name) {
            return Some(first + element);
        }
        first += uniform.size;
    }
    None
}

impl Programs {
    /// The location that a name means in a program, by the client's name (GetUniformLocation): of a uniform, or of an element of an array.
    /// `None` where the program is none, is not linked, or has nothing of this name. It takes no memory.
    pub fn location(&self, program: u32, name: &[u8]) -> Option<i32>
        ensures { result ≡ location_at (tables self.now) program name.now }
    {
        let executable = self.program(program)?.executable()?;
        let location = location_in(executable.uniforms().as_slice(), name)?;
        Some(location as i32)
    }
}
