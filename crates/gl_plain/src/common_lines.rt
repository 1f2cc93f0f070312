//! The lines that scripts and traces share: the sides of the default framebuffer, how many entries the ring has, and what the driver answers.
ghost use Rattle.std.specs.Prelude.{◌≡◌, ◌==◌, ◌&&◌, [], ◌∷◌, ◌++◌, length, if◌then◌else◌, IfOk, OnOk, OnErr};
ghost use Rattle.std.specs.Option.{option_map};
ghost use Rattle.gl_plain.specs.subjects.Links.{may_follow, may_follow_uniforms};
ghost use Rattle.gl_plain.specs.CommonLines.{answers_in, attribute_in, closed, common_by_word, compile_line_in, declaration_in, answer_by_word, booleans_named, floats_named, integers_named, is_word, kind_in, kind_named, link_line_in, matrix_named, sampler_named, lost_in, no_draft, oom_in, outcome_in, ring_in, surface_in, uniform_in, validate_line_in, pixels_line_in, verdict_in, with_attribute, with_compile, with_link, with_lost, with_oom, with_pixels, with_uniform, with_validate};

use crate::distinct::DistinctNumbers;
use crate::fields::{bytes, cut, number};
use crate::links::{is_log, may_follow, may_follow_uniforms};
use crate::{
    Answer, AnswerList, Answers, Attribute, AttributeList, Bytes, LinkAnswer, Uniform, UniformList,
    Verdict,
};
use gl_base::GlEnum;
use gl_base::enums::{
    BOOL, BOOL_VEC2, BOOL_VEC3, BOOL_VEC4, FLOAT, FLOAT_MAT2, FLOAT_MAT3, FLOAT_MAT4, FLOAT_VEC2,
    FLOAT_VEC3, FLOAT_VEC4, INT, INT_VEC2, INT_VEC3, INT_VEC4, SAMPLER_2D, SAMPLER_CUBE,
};
use std::alloc::{AllocError, Global};

/// A line that scripts and traces share.
#[derive(Debug, Drop)]
pub enum CommonLine {
    /// The sides of the default framebuffer.
    Surface { width: u32, height: u32 },
    /// How many entries the ring has.
    Ring(u32),
    /// A question whether there is room, counted from 0, that is answered with no.
    Oom(u32),
    /// The driver call, counted from 0, that is answered with the driver being lost.
    Lost(u32),
    /// What the next compilation says.
    Compile(Verdict),
    /// What the next link says.
    Link(Verdict),
    /// An attribute of the last link.
    OfAttribute(Attribute),
    /// A uniform of the last link.
    OfUniform(Uniform),
    /// What the next validation says.
    Validate(Verdict),
    /// The pixels that the next read gives.
    Pixels(Bytes),
}

#[tactic(auto, unfolding(crate::specs::CommonLines::surface_in))]
fn surface_line(text: &[u8]) -> Option<CommonLine>
    ensures { result ≡ surface_in text.now }
{
    let (width, height) = cut(text, b' ')?;
    let width = number(width)?;
    let height = number(height)?;
    Some(CommonLine::Surface { width, height })
}

#[tactic(auto, unfolding(crate::specs::CommonLines::ring_in))]
fn ring_line(text: &[u8]) -> Option<CommonLine>
    ensures { result ≡ ring_in text.now }
{
    let entries = number(text)?;
    Some(CommonLine::Ring(entries))
}

#[tactic(auto, unfolding(crate::specs::CommonLines::oom_in))]
fn oom_line(text: &[u8]) -> Option<CommonLine>
    ensures { result ≡ oom_in text.now }
{
    let question = number(text)?;
    Some(CommonLine::Oom(question))
}

#[tactic(auto, unfolding(crate::specs::CommonLines::lost_in))]
fn lost_line(text: &[u8]) -> Option<CommonLine>
    ensures { result ≡ lost_in text.now }
{
    let call = number(text)?;
    Some(CommonLine::Lost(call))
}

#[tactic(auto, unfolding(crate::specs::CommonLines::outcome_in))]
fn outcome(text: &[u8]) -> Option<bool>
    ensures { result ≡ outcome_in text.now }
{
    match text {
        b"ok" => Some(true),
        b"fail" => Some(false),
        _ => None,
    }
}

/// Whether it went well, and the log.
#[tactic(auto, unfolding(crate::specs::CommonLines::verdict_in))]
fn verdict(alloc: Global, text: &[u8]) -> Result<Option<Verdict>, AllocError>
    ensures { IfOk result (λ verdict. verdict ≡ verdict_in text.now) }
{
    let Some((word, hex)) = cut(text, b' ') else {
        return Ok(None);
    };
    let Some(ok) = outcome(word) else {
        return Ok(None);
    };
    match bytes(alloc, hex)? {
        Some(log) => Ok(Some(Verdict { ok, log })),
        None => Ok(None),
    }
}

#[tactic(auto, unfolding(crate::specs::CommonLines::compile_line_in))]
fn compile_line(alloc: Global, text: &[u8]) -> Result<Option<CommonLine>, AllocError>
    ensures { IfOk result (λ line. line ≡ compile_line_in text.now) }
{
    match verdict(alloc, text)? {
        Some(verdict) => Ok(Some(CommonLine::Compile(verdict))),
        None => Ok(None),
    }
}

#[tactic(auto, unfolding(crate::specs::CommonLines::link_line_in))]
fn link_line(alloc: Global, text: &[u8]) -> Result<Option<CommonLine>, AllocError>
    ensures { IfOk result (λ line. line ≡ link_line_in text.now) }
{
    match verdict(alloc, text)? {
        Some(verdict) => Ok(Some(CommonLine::Link(verdict))),
        None => Ok(None),
    }
}

#[tactic(auto, unfolding(crate::specs::CommonLines::validate_line_in))]
fn validate_line(alloc: Global, text: &[u8]) -> Result<Option<CommonLine>, AllocError>
    ensures { IfOk result (λ line. line ≡ validate_line_in text.now) }
{
    match verdict(alloc, text)? {
        Some(verdict) => Ok(Some(CommonLine::Validate(verdict))),
        None => Ok(None),
    }
}

#[tactic(auto, unfolding(crate::specs::CommonLines::pixels_line_in))]
fn pixels_line(alloc: Global, text: &[u8]) -> Result<Option<CommonLine>, AllocError>
    ensures { IfOk result (λ line. line ≡ pixels_line_in text.now) }
{
    match bytes(alloc, text)? {
        Some(pixels) => Ok(Some(CommonLine::Pixels(pixels))),
        None => Ok(None),
    }
}

/// Whether a text is this word.
fn is_word(text: &[u8], word: &[u8]) -> bool
    ensures { result ≡ is_word word.now text.now }
{
    text == word
}

/// Floats by their name.
#[tactic(auto, unfolding(crate::specs::CommonLines::floats_named))]
fn floats_named(text: &[u8]) -> Option<GlEnum>
    ensures { result ≡ floats_named text.now }
{
    if is_word(text, b"FLOAT") {
        return Some(FLOAT);
    }
    if is_word(text, b"FLOAT_VEC2") {
        return Some(FLOAT_VEC2);
    }
    if is_word(text, b"FLOAT_VEC3") {
        return Some(FLOAT_VEC3);
    }
    if is_word(text, b"FLOAT_VEC4") {
        return Some(FLOAT_VEC4);
    }
    None
}

/// A matrix by its name.
#[tactic(auto, unfolding(crate::specs::CommonLines::matrix_named))]
fn matrix_named(text: &[u8]) -> Option<GlEnum>
    ensures { result ≡ matrix_named text.now }
{
    if is_word(text, b"FLOAT_MAT2") {
        return Some(FLOAT_MAT2);
    }
    if is_word(text, b"FLOAT_MAT3") {
        return Some(FLOAT_MAT3);
    }
    if is_word(text, b"FLOAT_MAT4") {
        return Some(FLOAT_MAT4);
    }
    None
}

/// Signed numbers by their name.
#[tactic(auto, unfolding(crate::specs::CommonLines::integers_named))]
fn integers_named(text: &[u8]) -> Option<GlEnum>
    ensures { result ≡ integers_named text.now }
{
    if is_word(text, b"INT") {
        return Some(INT);
    }
    if is_word(text, b"INT_VEC2") {
        return Some(INT_VEC2);
    }
    if is_word(text, b"INT_VEC3") {
        return Some(INT_VEC3);
    }
    if is_word(text, b"INT_VEC4") {
        return Some(INT_VEC4);
    }
    None
}

/// Booleans by their name.
#[tactic(auto, unfolding(crate::specs::CommonLines::booleans_named))]
fn booleans_named(text: &[u8]) -> Option<GlEnum>
    ensures { result ≡ booleans_named text.now }
{
    if is_word(text, b"BOOL") {
        return Some(BOOL);
    }
    if is_word(text, b"BOOL_VEC2") {
        return Some(BOOL_VEC2);
    }
    if is_word(text, b"BOOL_VEC3") {
        return Some(BOOL_VEC3);
    }
    if is_word(text, b"BOOL_VEC4") {
        return Some(BOOL_VEC4);
    }
    None
}

/// A sampler by its name.
#[tactic(auto, unfolding(crate::specs::CommonLines::sampler_named))]
fn sampler_named(text: &[u8]) -> Option<GlEnum>
    ensures { result ≡ sampler_named text.now }
{
    if is_word(text, b"SAMPLER_2D") {
        return Some(SAMPLER_2D);
    }
    if is_word(text, b"SAMPLER_CUBE") {
        return Some(SAMPLER_CUBE);
    }
    None
}

/// The kind of attributes and uniforms that has this name.
fn kind_named(text: &[u8]) -> Option<GlEnum>
    ensures { result ≡ kind_named text.now }
{
    if let Some(kind) = floats_named(text) {
        return Some(kind);
    }
    if let Some(kind) = matrix_named(text) {
        return Some(kind);
    }
    if let Some(kind) = integers_named(text) {
        return Some(kind);
    }
    if let Some(kind) = booleans_named(text) {
        return Some(kind);
    }
    sampler_named(text)
}

/// The kind that a field names, or the enum of the number that it is.
#[tactic(auto, unfolding(crate::specs::CommonLines::kind_in))]
fn kind(text: &[u8]) -> Option<GlEnum>
    ensures { result ≡ kind_in text.now }
{
    match kind_named(text) {
        Some(kind) => Some(kind),
        None => match number(text) {
            Some(number) => Some(GlEnum(number)),
            None => None,
        },
    }
}

/// A name, a kind and a number.
#[tactic(auto, unfolding(crate::specs::CommonLines::declaration_in))]
fn declaration(text: &[u8]) -> Option<(&[u8], GlEnum, u32)>
    ensures { option_map (λ d. record { name = d.0.now; kind = d.1; number = d.2 }) result ≡ declaration_in text.now }
{
    let (name, rest) = cut(text, b' ')?;
    let (kind_field, number_field) = cut(rest, b' ')?;
    let kind = kind(kind_field)?;
    let number = number(number_field)?;
    Some((name, kind, number))
}

#[tactic(auto, unfolding(crate::specs::CommonLines::attribute_in))]
fn attribute_line(alloc: Global, text: &[u8]) -> Result<Option<CommonLine>, AllocError>
    ensures { IfOk result (λ line. line ≡ attribute_in text.now) }
{
    let Some((name, kind, location)) = declaration(text) else {
        return Ok(None);
    };
    let name = Bytes::from_slice(alloc, name)?;
    Ok(Some(CommonLine::OfAttribute(Attribute {
        name,
        kind,
        location,
    })))
}

#[tactic(auto, unfolding(crate::specs::CommonLines::uniform_in))]
fn uniform_line(alloc: Global, text: &[u8]) -> Result<Option<CommonLine>, AllocError>
    ensures { IfOk result (λ line. line ≡ uniform_in text.now) }
{
    let Some((name, kind, size)) = declaration(text) else {
        return Ok(None);
    };
    let name = Bytes::from_slice(alloc, name)?;
    Ok(Some(CommonLine::OfUniform(Uniform { name, kind, size })))
}

/// A line on what a compilation, a link or a validation says, by its word, and by what follows the space behind the word.
#[tactic(auto, unfolding(crate::specs::CommonLines::answer_by_word))]
fn answer_line(alloc: Global, word: &[u8], rest: &[u8]) -> Result<Option<CommonLine>, AllocError>
    ensures { IfOk result (λ line. line ≡ answer_by_word word.now rest.now) }
{
    if is_word(word, b"compile") {
        return compile_line(alloc, rest);
    }
    if is_word(word, b"link") {
        return link_line(alloc, rest);
    }
    if is_word(word, b"attr") {
        return attribute_line(alloc, rest);
    }
    if is_word(word, b"uniform") {
        return uniform_line(alloc, rest);
    }
    if is_word(word, b"validate") {
        return validate_line(alloc, rest);
    }
    if is_word(word, b"pixels") {
        return pixels_line(alloc, rest);
    }
    Ok(None)
}

/// A line by its word, and by what follows the space behind the word. None for the words of other lines, and where the line is not in the
/// grammar.
#[tactic(auto, unfolding(crate::specs::CommonLines::common_by_word))]
pub fn common_line(
    alloc: Global,
    word: &[u8],
    rest: &[u8],
) -> Result<Option<CommonLine>, AllocError>
    ensures { IfOk result (λ line. line ≡ common_by_word word.now rest.now) }
{
    if is_word(word, b"surface") {
        return Ok(surface_line(rest));
    }
    if is_word(word, b"ring") {
        return Ok(ring_line(rest));
    }
    if is_word(word, b"oom") {
        return Ok(oom_line(rest));
    }
    if is_word(word, b"lost") {
        return Ok(lost_line(rest));
    }
    answer_line(alloc, word, rest)
}

/// Adds an attribute to what a link said. The answer is whether it may stand there; else, and where there is no memory, all is as before.
fn add_attribute(answer: &mut LinkAnswer, attribute: Attribute) -> Result<bool, AllocError>
    ensures is_taken { IfOk result (λ taken. taken ≡ ((length answer.old.uniforms == 0) && may_follow answer.old.attributes attribute)) }
    ensures ok { IfOk result (λ taken. answer.new ≡ (if taken then record answer.old { attributes = answer.old.attributes ++ attribute ∷ [] } else answer.old)) }
    ensures err { OnErr result (answer.new ≡ answer.old) }
{
    if !answer.uniforms.is_empty() || !may_follow(answer.attributes.as_slice(), &attribute) {
        return Ok(false);
    }
    answer.attributes.push(attribute)?;
    Ok(true)
}

/// Adds a uniform to what a link said. The answer is whether it may stand there; else, and where there is no memory, all is as before.
fn add_uniform(answer: &mut LinkAnswer, uniform: Uniform) -> Result<bool, AllocError>
    ensures is_taken { IfOk result (λ taken. taken ≡ may_follow_uniforms answer.old.uniforms uniform) }
    ensures ok { IfOk result (λ taken. answer.new ≡ (if taken then record answer.old { uniforms = answer.old.uniforms ++ uniform ∷ [] } else answer.old)) }
    ensures err { OnErr result (answer.new ≡ answer.old) }
{
    if !may_follow_uniforms(answer.uniforms.as_slice(), &uniform) {
        return Ok(false);
    }
    answer.uniforms.push(uniform)?;
    Ok(true)
}

/// What the lines so far have said of the driver's answers.
#[derive(Drop)]
pub struct AnswersDraft {
    compile: AnswerList,
    link: AnswerList,
    /// The last link, while lines on its attributes and uniforms may follow.
    last: Option<LinkAnswer>,
    validate: AnswerList,
    pixels: AnswerList,
    oom: DistinctNumbers,
    lost: Option<u32>,
}

impl AnswersDraft {
    /// No line has said anything. It takes no memory.
    pub fn new(alloc: Global) -> AnswersDraft
        ensures { result ≡ no_draft }
    {
        AnswersDraft {
            compile: AnswerList::new(alloc),
            link: AnswerList::new(alloc),
            last: None,
            validate: AnswerList::new(alloc),
            pixels: AnswerList::new(alloc),
            oom: DistinctNumbers::new(alloc),
            lost: None,
        }
    }

    /// Takes a line `oom`. The answer is whether its question was not named before; else, and where there is no memory, all is as before.
    #[tactic(auto, unfolding(crate::specs::CommonLines::with_oom))]
    pub fn take_oom(&mut self, question: u32) -> Result<bool, AllocError>
        ensures taken { IfOk result (λ taken. with_oom self.old question ≡ (if taken then Some self.new else None)) }
        ensures err { OnErr result (self.new ≡ self.old) }
    {
        self.oom.add(question)
    }

    /// Takes a line `lost`. The answer is whether none was taken before; else all is as before.
    #[tactic(auto, unfolding(crate::specs::CommonLines::with_lost))]
    pub fn take_lost(&mut self, call: u32) -> bool
        ensures { with_lost self.old call ≡ (if result then Some self.new else None) }
    {
        let is_taken = self.lost.is_none();
        if is_taken {
            self.lost = Some(call);
        }
        is_taken
    }

    /// Takes a line `compile`. The answer is whether its log is short enough; else, and where there is no memory, all is as before.
    #[tactic(auto, unfolding(crate::specs::CommonLines::with_compile))]
    pub fn take_compile(&mut self, verdict: Verdict) -> Result<bool, AllocError>
        ensures taken { IfOk result (λ taken. with_compile self.old verdict ≡ (if taken then Some self.new else None)) }
        ensures err { OnErr result (self.new ≡ self.old) }
    {
        let Verdict { ok, log } = verdict;
        if !is_log(log.as_slice()) {
            return Ok(false);
        }
        self.compile.push(Answer::Compile { ok, log })?;
        Ok(true)
    }

    /// Takes a line `validate`. The answer is whether its log is short enough; else, and where there is no memory, all is as before.
    #[tactic(auto, unfolding(crate::specs::CommonLines::with_validate))]
    pub fn take_validate(&mut self, verdict: Verdict) -> Result<bool, AllocError>
        ensures taken { IfOk result (λ taken. with_validate self.old verdict ≡ (if taken then Some self.new else None)) }
        ensures err { OnErr result (self.new ≡ self.old) }
    {
        let Verdict { ok, log } = verdict;
        if !is_log(log.as_slice()) {
            return Ok(false);
        }
        self.validate.push(Answer::Validate { ok, log })?;
        Ok(true)
    }

    /// Takes a line `pixels`. Where there is no memory, all is as before.
    pub fn take_pixels(&mut self, bytes: Bytes) -> Result<(), AllocError>
        ensures ok { OnOk result (self.new ≡ with_pixels self.old bytes) }
        ensures err { OnErr result (self.new ≡ self.old) }
    {
        self.pixels.push(Answer::Pixels(bytes))?;
        Ok(())
    }

    /// Takes a line `link`, which ends the list of the link before. The answer is whether its log is short enough; else all is as before.
    #[tactic(auto, unfolding(crate::specs::CommonLines::with_link))]
    pub fn take_link(&mut self, alloc: Global, verdict: Verdict) -> Result<bool, AllocError>
        ensures { IfOk result (λ taken. with_link self.old verdict ≡ (if taken then Some self.new else None)) }
    {
        if !is_log(verdict.log.as_slice()) {
            return Ok(false);
        }
        self.close()?;
        let is_open = verdict.ok;
        let answer = LinkAnswer {
            ok: verdict.ok,
            log: verdict.log,
            attributes: AttributeList::new(alloc),
            uniforms: UniformList::new(alloc),
        };
        if is_open {
            self.last = Some(answer);
        } else {
            self.link.push(Answer::Link(answer))?;
        }
        Ok(true)
    }

    /// Takes a line `attr`. The answer is whether it may stand there: behind a link that went well or its attributes, and without a
    /// conflict with those (section 2.10.4). Else, and where there is no memory, all is as before.
    #[tactic(auto, unfolding(crate::specs::CommonLines::with_attribute))]
    pub fn take_attribute(&mut self, attribute: Attribute) -> Result<bool, AllocError>
        ensures taken { IfOk result (λ taken. with_attribute self.old attribute ≡ (if taken then Some self.new else None)) }
        ensures err { OnErr result (self.new ≡ self.old) }
    {
        match &mut self.last {
            Some(answer) => add_attribute(answer, attribute),
            None => Ok(false),
        }
    }

    /// Takes a line `uniform`. The answer is whether it may stand there: behind a link that went well or its lists, with a name of its own
    /// and no more than 1,024 elements together with the uniforms before it. Else, and where there is no memory, all is as before.
    #[tactic(auto, unfolding(crate::specs::CommonLines::with_uniform))]
    pub fn take_uniform(&mut self, uniform: Uniform) -> Result<bool, AllocError>
        ensures taken { IfOk result (λ taken. with_uniform self.old uniform ≡ (if taken then Some self.new else None)) }
        ensures err { OnErr result (self.new ≡ self.old) }
    {
        match &mut self.last {
            Some(answer) => add_uniform(answer, uniform),
            None => Ok(false),
        }
    }

    /// Ends the list of the last link, as any line does but those on its attributes and uniforms. Without memory for it all is as before.
    pub fn close(&mut self) -> Result<(), AllocError>
        ensures ok { OnOk result (self.new ≡ closed self.old) }
    {
        if let Some(answer) = self.last.take() {
            self.link.push(Answer::Link(answer))?;
        }
        Ok(())
    }

    /// The answers that the lines say.
    pub fn into_answers(mut self) -> Result<Answers, AllocError>
        ensures { IfOk result (λ answers. answers ≡ answers_in self) }
    {
        self.close()?;
        let AnswersDraft {
            compile,
            link,
            last: _,
            validate,
            pixels,
            oom,
            lost,
        } = self;
        Ok(Answers {
            compile,
            link,
            validate,
            pixels,
            oom: oom.into_words(),
            lost,
        })
    }
}
