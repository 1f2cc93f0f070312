//! The lines of a script, each kind by itself.
ghost use Rattle.std.specs.Prelude.{◌≡◌, IfOk};
ghost use Rattle.ring_script.specs.Lines.{at_in, common_in, line_by_word, line_in, opening_in, patch_in, put_in, region_in, words_in};
ghost use Rattle.gl_plain.specs.CommonLines.{common_by_word};

use gl_plain::fields::{bytes, cut, number};
use gl_plain::{CommonLine, Patch, Region, Timed, common_line};
use std::alloc::{AllocError, Global};

/// A line of the grammar.
#[derive(Debug, Drop)]
pub enum Line {
    /// An empty line or a comment.
    PassedOver,
    /// A region besides the ring.
    Region(Region),
    /// Bytes that stand in a region at first.
    Opening(Patch),
    /// Bytes that the client writes just before a copy.
    At(Timed),
    /// A value of put that the client publishes.
    Put(u32),
    /// A line that traces have as well.
    Common(CommonLine),
}

#[tactic(auto, unfolding(crate::specs::Lines::region_in))]
fn region_line(text: &[u8]) -> Option<Line>
    ensures { result ≡ region_in text.now }
{
    let (id, size) = cut(text, b' ')?;
    let id = number(id)?;
    let size = number(size)?;
    Some(Line::Region(Region { id, size }))
}

/// A region, an offset in it, and bytes.
#[tactic(auto, unfolding(crate::specs::Lines::patch_in))]
fn patch(alloc: Global, text: &[u8]) -> Result<Option<Patch>, AllocError>
    ensures { IfOk result (λ patch. patch ≡ patch_in text.now) }
{
    let Some((region, rest)) = cut(text, b' ') else {
        return Ok(None);
    };
    let Some((offset, hex)) = cut(rest, b' ') else {
        return Ok(None);
    };
    let Some(region) = number(region) else {
        return Ok(None);
    };
    let Some(offset) = number(offset) else {
        return Ok(None);
    };
    match bytes(alloc, hex)? {
        Some(bytes) => Ok(Some(Patch {
            region,
            offset,
            bytes,
        })),
        None => Ok(None),
    }
}

#[tactic(auto, unfolding(crate::specs::Lines::opening_in))]
fn opening_line(alloc: Global, text: &[u8]) -> Result<Option<Line>, AllocError>
    ensures { IfOk result (λ line. line ≡ opening_in text.now) }
{
    match patch(alloc, text)? {
        Some(patch) => Ok(Some(Line::Opening(patch))),
        None => Ok(None),
    }
}

#[tactic(auto, unfolding(crate::specs::Lines::at_in))]
fn at_line(alloc: Global, text: &[u8]) -> Result<Option<Line>, AllocError>
    ensures { IfOk result (λ line. line ≡ at_in text.now) }
{
    let Some((copy, rest)) = cut(text, b' ') else {
        return Ok(None);
    };
    let Some(copy) = number(copy) else {
        return Ok(None);
    };
    match patch(alloc, rest)? {
        Some(patch) => Ok(Some(Line::At(Timed {
            copy,
            region: patch.region,
            offset: patch.offset,
            bytes: patch.bytes,
        }))),
        None => Ok(None),
    }
}

#[tactic(auto, unfolding(crate::specs::Lines::put_in))]
fn put_line(text: &[u8]) -> Option<Line>
    ensures { result ≡ put_in text.now }
{
    let put = number(text)?;
    Some(Line::Put(put))
}

/// A line that traces have as well.
fn shared_line(alloc: Global, word: &[u8], rest: &[u8]) -> Result<Option<Line>, AllocError>
    ensures { IfOk result (λ line. line ≡ common_in (common_by_word word.now rest.now)) }
{
    match common_line(alloc, word, rest)? {
        Some(line) => Ok(Some(Line::Common(line))),
        None => Ok(None),
    }
}

#[tactic(auto, unfolding(crate::specs::Lines::line_by_word))]
fn line_with_word(alloc: Global, word: &[u8], rest: &[u8]) -> Result<Option<Line>, AllocError>
    ensures { IfOk result (λ line. line ≡ line_by_word word.now rest.now) }
{
    match word {
        b"region" => Ok(region_line(rest)),
        b"bytes" => opening_line(alloc, rest),
        b"at" => at_line(alloc, rest),
        b"put" => Ok(put_line(rest)),
        _ => shared_line(alloc, word, rest),
    }
}

#[tactic(auto, unfolding(crate::specs::Lines::words_in))]
fn line_of_words(alloc: Global, text: &[u8]) -> Result<Option<Line>, AllocError>
    ensures { IfOk result (λ line. line ≡ words_in text.now) }
{
    match cut(text, b' ') {
        Some((word, rest)) => line_with_word(alloc, word, rest),
        None => Ok(None),
    }
}

/// The line of the grammar that a text is, if it is one.
#[tactic(auto, unfolding(crate::specs::Lines::line_in))]
pub fn read_line(alloc: Global, text: &[u8]) -> Result<Option<Line>, AllocError>
    ensures { IfOk result (λ line. line ≡ line_in text.now) }
{
    match text {
        [] => Ok(Some(Line::PassedOver)),
        [b'#', ..] => Ok(Some(Line::PassedOver)),
        _ => line_of_words(alloc, text),
    }
}
