//! The fixed state of the service (OpenGL ES 2.0.25, sections 2.12.1, 3.4, 3.5, 3.6.1, 4.1, 4.2, 4.3.1 and 5.2).
ghost use Rattle.std.specs.Prelude.{◌≡◌, ◌≤◌, true, length, OnOk, OnErr};
ghost use Rattle.std.specs.Option.{option_map};
ghost use Rattle.gl_plain.specs.subjects.Raster as plain;
ghost use Rattle.svc_raster.specs.Aligned.{IsAligned, AreKept};
ghost use Rattle.svc_raster.specs.Refused.{code_in};

use crate::effects::{set_alignment, set_words};
use crate::rules::{kept_words, raster_refusal};
use crate::states::raster_state;
use arrayvec::ArrayVec;
use gl_plain::{Alignments, GlError, RasterWords};

/// The fixed state of the service. None of its calls takes memory, and a refused one changes nothing.
#[derive(Drop)]
pub struct Raster {
    words: RasterWords,
    alignments: Alignments,
    ghost aligned: { IsAligned alignments },
}

impl Raster {
    /// The opening words, for a default framebuffer of these sides.
    pub fn new(width: u32, height: u32) -> Raster
        ensures words { result.words ≡ plain.opening_raster width height }
        ensures alignments { result.alignments ≡ plain.opening_alignments }
    {
        Raster {
            words: RasterWords::new(width, height),
            alignments: Alignments::new(),
        }
    }

    /// Puts the words of a command that is not refused, as they are kept, in place of those that it sets.
    #[tactic(auto, using(crate::proofs::Aligned::length_of, crate::proofs::Aligned::aligned_again))]
    pub fn apply(&mut self, number: u32, kept: &[u32])
        requires { AreKept number kept.now }
        ensures words { self.new.words ≡ plain.raster_effect self.old.words number kept.now }
        ensures alignments { self.new.alignments ≡ plain.alignment_effect self.old.alignments number kept.now }
    {
        set_words(&mut self.words, number, kept);
        set_alignment(&mut self.alignments, number, kept);
    }

    /// Sets the words of a command. It is refused as `raster_refusal` says.
    #[tactic(auto, using(crate::proofs::Kept::length_kept))]
    pub fn set(&mut self, number: u32, words: &[u32]) -> Result<(), GlError>
        requires number { plain.is_raster number ≡ true }
        requires whole { length words.now ≡ length (plain.rules_of number) }
        ensures refusal { code_in result ≡ plain.raster_refusal number words.now }
        ensures words { OnOk result (self.new.words ≡ plain.raster_effect self.old.words number (plain.kept_words number words.now)) }
        ensures alignments { OnOk result (self.new.alignments ≡ plain.alignment_effect self.old.alignments number (plain.kept_words number words.now)) }
        ensures err { OnErr result (self.new ≡ self.old) }
    {
        if let Some(error) = raster_refusal(number, words) {
            return Err(error);
        }
        let kept = kept_words(number, words);
        self.apply(number, kept.as_slice());
        Ok(())
    }

    /// The alignment of rows that are read from client memory, in bytes (section 3.6.1).
    pub fn unpack_alignment(&self) -> u32
        ensures value { result ≡ self.now.alignments.unpack }
        ensures limits { (1 ≤ result) × (result ≤ 8) }
    {
        self.alignments.unpack
    }

    /// The alignment of rows that are written to client memory, in bytes (section 4.3.1).
    pub fn pack_alignment(&self) -> u32
        ensures value { result ≡ self.now.alignments.pack }
        ensures limits { (1 ≤ result) × (result ≤ 8) }
    {
        self.alignments.pack
    }

    /// The words of a state of this name, or None where it is none of the fixed state (section 6.1.1).
    pub fn get(&self, pname: u32) -> Option<ArrayVec<u32, 4>>
        ensures { option_map (λ words. words.items) result ≡ plain.raster_state self.now.words self.now.alignments pname }
    {
        raster_state(&self.words, &self.alignments, pname)
    }
}
