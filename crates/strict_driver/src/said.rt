//! Copies of the answers that a driver was loaded with. Where an answer runs out, or is of another kind, it went well, the log is empty,
//! there are no attributes and no uniforms, and pixels are zero.
ghost use Rattle.std.specs.Prelude.{◌≡◌, ◌≤◌, IfOk};
ghost use Rattle.std.specs.Option.{option_copied};
ghost use Rattle.gl_base.specs.declared.limits.TheConstants.{DATA_LIMIT};
ghost use Rattle.gl_plain.specs.Oracle.{compile_in, link_in, pixels_in, validate_in};
ghost use Rattle.gl_plain.specs.subjects.Copies as copies;
ghost use Rattle.gl_plain.specs.subjects.Links.{default_link, default_verdict};
ghost use Rattle.gl_plain.specs.driver.Answers.{stored_answer};
ghost use Rattle.gl_driver.specs.Payloads.{payload_given};

use gl_plain::{
    Answer, Attribute, AttributeList, Bytes, LinkAnswer, Payload, Stored, Uniform, UniformList,
    Verdict,
};
use std::alloc::{AllocError, Global};

/// It went well, and there is nothing to say. It takes no memory.
fn default_verdict(alloc: Global) -> Verdict
    ensures { result ≡ default_verdict }
{
    Verdict {
        ok: true,
        log: Bytes::new(alloc),
    }
}

/// It went well, and nothing is active. It takes no memory.
fn default_link(alloc: Global) -> LinkAnswer
    ensures { result ≡ default_link }
{
    LinkAnswer {
        ok: true,
        log: Bytes::new(alloc),
        attributes: AttributeList::new(alloc),
        uniforms: UniformList::new(alloc),
    }
}

/// What is said with this log.
fn verdict(alloc: Global, ok: bool, log: &Bytes) -> Result<Verdict, AllocError>
    ensures { IfOk result (λ said. said ≡ record { ok = ok; log = log.now }) }
{
    Ok(Verdict {
        ok,
        log: Bytes::from_slice(alloc, log.as_slice())?,
    })
}

/// What a compilation says by the answer that is given for it.
pub fn compile_said(alloc: Global, given: Option<&Answer>) -> Result<Verdict, AllocError>
    ensures { IfOk result (λ said. said ≡ compile_in (option_copied given.entry)) }
{
    match given {
        Some(Answer::Compile { ok, log }) => verdict(alloc, *ok, log),
        _ => Ok(default_verdict(alloc)),
    }
}

/// What a validation says by the answer that is given for it.
pub fn validation_said(alloc: Global, given: Option<&Answer>) -> Result<Verdict, AllocError>
    ensures { IfOk result (λ said. said ≡ validate_in (option_copied given.entry)) }
{
    match given {
        Some(Answer::Validate { ok, log }) => verdict(alloc, *ok, log),
        _ => Ok(default_verdict(alloc)),
    }
}

/// What a link says by the answer that is given for it.
pub fn link_said(alloc: Global, given: Option<&Answer>) -> Result<LinkAnswer, AllocError>
    ensures { IfOk result (λ said. said ≡ link_in (option_copied given.entry)) }
{
    match given {
        Some(Answer::Link(answer)) => copy_of_link(alloc, answer),
        _ => Ok(default_link(alloc)),
    }
}

/// How many bytes the pixels of a rectangle have.
pub fn read_count(width: u32, height: u32) -> usize
    requires { copies.read_count width height ≤ DATA_LIMIT }
    ensures { result ≡ copies.read_count width height }
{
    width as usize * height as usize * 4
}

/// Bytes cut or filled with zeros to this length.
fn fitted(alloc: Global, count: usize, bytes: &[u8]) -> Result<Bytes, AllocError>
    ensures { IfOk result (λ pixels. pixels ≡ copies.fitted count bytes.now) }
{
    let mut pixels = Bytes::zeros(alloc, count)?;
    let kept = count.min(bytes.len());
    pixels.overwrite(0, &bytes[..kept]);
    Ok(pixels)
}

/// The pixels of a read by the answer that is given for it, as so many bytes.
pub fn pixels_said(alloc: Global, count: usize, given: Option<&Answer>) -> Result<Bytes, AllocError>
    ensures { IfOk result (λ said. said ≡ copies.fitted count (pixels_in (option_copied given.entry))) }
{
    match given {
        Some(Answer::Pixels(bytes)) => fitted(alloc, count, bytes.as_slice()),
        _ => fitted(alloc, count, &[]),
    }
}

/// The answer of a call that asks for room.
pub fn stored_answer(room: Stored) -> Answer
    ensures { result ≡ stored_answer room }
{
    match room {
        Stored::Done => Answer::Done,
        Stored::Oom => Answer::Oom,
    }
}

/// A copy of the bytes that a call is given, or none.
pub fn payload(alloc: Global, bytes: Option<&[u8]>) -> Result<Payload, AllocError>
    ensures { IfOk result (λ payload. payload ≡ payload_given bytes.entry) }
{
    match bytes {
        Some(bytes) => Ok(Payload::Here(Bytes::from_slice(alloc, bytes)?)),
        None => Ok(Payload::Absent),
    }
}

/// A copy of what a linker says.
fn copy_of_link(alloc: Global, answer: &LinkAnswer) -> Result<LinkAnswer, AllocError>
    ensures { IfOk result (λ copy. copy ≡ answer.now) }
{
    Ok(LinkAnswer {
        ok: answer.ok,
        log: Bytes::from_slice(alloc, answer.log.as_slice())?,
        attributes: copy_of_attributes(alloc, &answer.attributes)?,
        uniforms: copy_of_uniforms(alloc, &answer.uniforms)?,
    })
}

fn copy_of_attributes(
    alloc: Global,
    attributes: &AttributeList,
) -> Result<AttributeList, AllocError>
    ensures { IfOk result (λ copy. copy ≡ attributes.now) }
{
    let mut copies = AttributeList::new(alloc);
    for attribute in attributes.as_slice() {
        copies.push(copy_of_attribute(alloc, attribute)?)?;
    }
    Ok(copies)
}

fn copy_of_attribute(alloc: Global, attribute: &Attribute) -> Result<Attribute, AllocError>
    ensures { IfOk result (λ copy. copy ≡ attribute.now) }
{
    Ok(Attribute {
        name: Bytes::from_slice(alloc, attribute.name.as_slice())?,
        kind: attribute.kind,
        location: attribute.location,
    })
}

fn copy_of_uniforms(alloc: Global, uniforms: &UniformList) -> Result<UniformList, AllocError>
    ensures { IfOk result (λ copy. copy ≡ uniforms.now) }
{
    let mut copies = UniformList::new(alloc);
    for uniform in uniforms.as_slice() {
        copies.push(copy_of_uniform(alloc, uniform)?)?;
    }
    Ok(copies)
}

fn copy_of_uniform(alloc: Global, uniform: &Uniform) -> Result<Uniform, AllocError>
    ensures { IfOk result (λ copy. copy ≡ uniform.now) }
{
    Ok(Uniform {
        name: Bytes::from_slice(alloc, uniform.name.as_slice())?,
        kind: uniform.kind,
        size: uniform.size,
    })
}
