//! The life of a program, each call on its happy path.
ghost use Rattle.std.specs.Prelude.{◌≡◌, IfOk, IsTrue};
ghost use Rattle.gl_plain.specs.subjects.Links.{is_sound_link};

use crate::{ProgramRefusal, Programs, UnitUse, is_given_kind, uniform_needed};
use gl_base::GlEnum;
use gl_base::enums::{BOOL, FLOAT, FLOAT_MAT2, FRAGMENT_SHADER, SAMPLER_2D, VERTEX_SHADER};
use gl_plain::{Attribute, AttributeList, Bytes, GlError, LinkAnswer, Uniform, UniformList};
use std::alloc::{AllocError, Global};
use std::test::*;

fn uniform(alloc: Global, name: &[u8], kind: GlEnum, size: u32) -> Result<Uniform, AllocError>
    ensures { IfOk result (λ u. u ≡ record { name = name.now; kind = kind; size = size }) }
{
    let name = Bytes::from_slice(alloc, name)?;
    Ok(Uniform { name, kind, size })
}

fn attribute(
    alloc: Global,
    name: &[u8],
    kind: GlEnum,
    location: u32,
) -> Result<Attribute, AllocError>
    ensures { IfOk result (λ a. a ≡ record { name = name.now; kind = kind; location = location }) }
{
    let name = Bytes::from_slice(alloc, name)?;
    Ok(Attribute {
        name,
        kind,
        location,
    })
}

/// What a linker says of a matrix as attribute, three floats, a boolean and a sampler.
fn good_link(alloc: Global) -> Result<LinkAnswer, AllocError>
    ensures { IfOk result (λ answer. IsTrue (is_sound_link answer)) }
{
    let mut attributes = AttributeList::new(alloc);
    attributes.push(attribute(alloc, b"place", FLOAT_MAT2, 1)?)?;
    let mut uniforms = UniformList::new(alloc);
    uniforms.push(uniform(alloc, b"light[0]", FLOAT, 3)?)?;
    uniforms.push(uniform(alloc, b"flag", BOOL, 1)?)?;
    uniforms.push(uniform(alloc, b"image", SAMPLER_2D, 1)?)?;
    Ok(LinkAnswer {
        ok: true,
        log: Bytes::new(alloc),
        attributes,
        uniforms,
    })
}

/// What a linker says that found a fault.
fn failed_link(alloc: Global) -> LinkAnswer
    ensures { IsTrue (is_sound_link result) }
{
    LinkAnswer {
        ok: false,
        log: Bytes::new(alloc),
        attributes: AttributeList::new(alloc),
        uniforms: UniformList::new(alloc),
    }
}

/// The values of the uniforms in use.
fn values(programs: &Programs) -> &[u32] {
    match programs.installed() {
        Some(executable) => executable.values(),
        None => &[],
    }
}

#[test]
fn a_program_is_linked_used_and_deleted(rt: HostRuntime) -> Result<(), Fail> {
    let alloc = rt.alloc();
    let mut programs = Programs::new(alloc);
    assert!(rt; programs.create_shader_refusal(VERTEX_SHADER).is_none());
    assert!(rt; programs.create_shader(1, 11, VERTEX_SHADER).is_ok());
    assert!(rt; programs.create_shader(2, 12, FRAGMENT_SHADER).is_ok());
    assert!(rt; programs.create_program(3, 13).is_ok());
    assert!(rt; programs.create_program(3, 14).is_err());
    assert!(rt; !programs.is_over_limit(1) && programs.number(3) == 13);
    programs.set_source(11, Bytes::from_slice(alloc, b"void")?);
    assert_eq!(rt; programs.attach(3, 1), Ok(()));
    assert_eq!(rt;
        programs.attach(3, 1),
        Err(ProgramRefusal::Gl(GlError::InvalidOperation))
    );
    assert_eq!(rt; programs.attach(3, 2), Ok(()));
    assert!(rt; !programs.can_link(3));
    programs.set_compiled(11, true, Bytes::new(alloc));
    programs.set_compiled(12, true, Bytes::new(alloc));
    assert!(rt; programs.can_link(3));
    assert!(rt;
        programs
            .bind_attrib_location_refusal(3, 15, b"place")
            .is_none()
    );
    assert!(rt;
        programs
            .bind_attrib_location_refusal(3, 15, b"gl_")
            .is_some()
    );
    programs.bind_attrib_location(13, 15, b"place");
    assert_eq!(rt;
        programs.use_program_refusal(3),
        Some(GlError::InvalidOperation)
    );
    programs.set_invalid(13);
    assert_eq!(rt; programs.set_link(3, good_link(alloc)?), Ok(()));
    assert!(rt; programs.is_linked(3) && programs.use_program_refusal(3).is_none());
    programs.use_program(13);
    assert!(rt; is_given_kind(1) && uniform_needed(1, 2) == 8);
    // The second of two floats is behind the end of the array, and the float -0 is false.
    assert_eq!(rt;
        programs.set_uniform(2, 1, 2, &[1, 0, 0, 0, 2, 0, 0, 0]),
        Ok(())
    );
    assert_eq!(rt; programs.set_uniform(3, 1, 1, &[0, 0, 0, 1]), Ok(()));
    assert_eq!(rt; values(&programs), [0, 0, 1, 1, 0].as_slice());
    assert_eq!(rt; programs.set_uniform(3, 1, 1, &[0, 0, 0, 0x80]), Ok(()));
    assert_eq!(rt; programs.set_uniform(4, 5, 1, &[7, 0, 0, 0]), Ok(()));
    assert_eq!(rt;
        programs.set_uniform(4, 5, 1, &[8, 0, 0, 0]),
        Err(ProgramRefusal::Gl(GlError::InvalidValue))
    );
    assert_eq!(rt;
        programs.set_uniform(5, 5, 1, &[7, 0, 0, 0]),
        Err(ProgramRefusal::Gl(GlError::InvalidOperation))
    );
    assert_eq!(rt; programs.set_uniform(-1, 5, 1, &[7, 0, 0, 0]), Ok(()));
    programs.set_validation(13, true, Bytes::new(alloc));
    assert!(rt; programs.program(3).ok_or("no program")?.is_valid());
    // A failed link leaves what is in use.
    assert_eq!(rt; programs.set_link(3, failed_link(alloc)), Ok(()));
    assert!(rt; !programs.is_linked(3));
    assert_eq!(rt; values(&programs), [0, 0, 1, 0, 7].as_slice());
    assert_eq!(rt; programs.detach(3, 2), Ok(()));
    programs.delete_shader(11);
    programs.delete_program(13);
    assert!(rt; programs.name(1).is_some() && programs.name(3).is_some());
    programs.use_program(0);
    assert!(rt; programs.name(1).is_none() && programs.name(3).is_none());
    assert!(rt; programs.shader_refusal(2).is_none() && programs.program_refusal(2).is_some());
    Ok(())
}

#[test]
fn names_and_units_are_found(rt: HostRuntime) -> Result<(), Fail> {
    let alloc = rt.alloc();
    let mut programs = Programs::new(alloc);
    assert!(rt; programs.create_shader(1, 11, VERTEX_SHADER).is_ok());
    assert!(rt; programs.create_shader(2, 12, FRAGMENT_SHADER).is_ok());
    assert!(rt; programs.create_program(3, 13).is_ok());
    assert_eq!(rt; programs.attach(3, 1), Ok(()));
    assert_eq!(rt; programs.attach(3, 2), Ok(()));
    programs.set_compiled(11, true, Bytes::new(alloc));
    programs.set_compiled(12, true, Bytes::new(alloc));
    assert_eq!(rt; programs.location(3, b"image"), None);
    assert_eq!(rt; programs.set_link(3, good_link(alloc)?), Ok(()));
    assert_eq!(rt; programs.location(3, b"image"), Some(4));
    assert_eq!(rt; programs.location(3, b"light"), Some(0));
    assert_eq!(rt; programs.location(3, b"light[0]"), Some(0));
    assert_eq!(rt; programs.location(3, b"light[2]"), Some(2));
    assert_eq!(rt; programs.location(3, b"light[3]"), None);
    assert_eq!(rt; programs.location(3, b"light[02]"), None);
    assert_eq!(rt; programs.location(3, b"light[0x2]"), None);
    assert_eq!(rt; programs.location(3, b"image[0]"), None);
    assert!(rt; programs.samplers().is_empty() && programs.used_attributes() == 0);
    assert!(rt; !programs.has_executable() && !programs.unit_views()[7].flat);
    programs.use_program(13);
    assert_eq!(rt; programs.set_uniform(4, 5, 1, &[7, 0, 0, 0]), Ok(()));
    let used = UnitUse {
        unit: 7,
        flat: true,
        cube: false,
    };
    assert_eq!(rt; programs.samplers().as_slice(), [used].as_slice());
    assert_eq!(rt; programs.used_attributes(), 0b110);
    assert!(rt; programs.has_executable());
    let last = programs.unit_views()[7];
    assert!(rt; last.flat && !last.cube && !last.complete && !last.attached);
    Ok(())
}
