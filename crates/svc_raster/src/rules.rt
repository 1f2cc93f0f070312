//! What each command takes as its words, and what is kept of them (OpenGL ES 2.0.25, sections 2.12.1, 3.4, 3.5, 3.6.1, 4.1, 4.2, 4.3.1
//! and 5.2).
ghost use Rattle.std.specs.Prelude.{◌≡◌, ◌≤◌, length, slice_index};
ghost use Rattle.gl_plain.specs.subjects.Raster as plain;

use arrayvec::ArrayVec;
use gl_base::limits::{LAST_STENCIL, SIDE_LIMIT};
use gl_base::{FloatBits, GlEnum, raster_enums as enums};
use gl_plain::GlError;
use gl_plain::WordRule::{
    self, Alignment, AlignmentName, Any, BlendEquation, Capability, DestinationFactor, Face, Flag,
    Fraction, Function, HintMode, HintTarget, Reference, Side, SourceFactor, StencilOperation,
    ViewportSide, Width, Winding,
};
use gl_plain::numbers::{
    BLEND_COLOR, BLEND_EQUATION_SEPARATE, BLEND_FUNC_SEPARATE, CLEAR_COLOR, CLEAR_DEPTHF,
    CLEAR_STENCIL, COLOR_MASK, CULL_FACE, DEPTH_FUNC, DEPTH_MASK, DEPTH_RANGEF, DISABLE, ENABLE,
    FRONT_FACE, HINT, LINE_WIDTH, PIXEL_STOREI, POLYGON_OFFSET, SAMPLE_COVERAGE, SCISSOR,
    STENCIL_FUNC_SEPARATE, STENCIL_MASK_SEPARATE, STENCIL_OP_SEPARATE, VIEWPORT,
};

static CAPABILITIES: [GlEnum; 9] = [
    enums::CULL_FACE,
    enums::BLEND,
    enums::DITHER,
    enums::STENCIL_TEST,
    enums::DEPTH_TEST,
    enums::SCISSOR_TEST,
    enums::POLYGON_OFFSET_FILL,
    enums::SAMPLE_ALPHA_TO_COVERAGE,
    enums::SAMPLE_COVERAGE,
];

static EQUATIONS: [GlEnum; 3] = [
    enums::FUNC_ADD,
    enums::FUNC_SUBTRACT,
    enums::FUNC_REVERSE_SUBTRACT,
];

/// What both source and destination can be multiplied by.
static FACTORS: [GlEnum; 14] = [
    enums::ZERO,
    enums::ONE_FACTOR,
    enums::SRC_COLOR,
    enums::ONE_MINUS_SRC_COLOR,
    enums::SRC_ALPHA,
    enums::ONE_MINUS_SRC_ALPHA,
    enums::DST_ALPHA,
    enums::ONE_MINUS_DST_ALPHA,
    enums::DST_COLOR,
    enums::ONE_MINUS_DST_COLOR,
    enums::CONSTANT_COLOR,
    enums::ONE_MINUS_CONSTANT_COLOR,
    enums::CONSTANT_ALPHA,
    enums::ONE_MINUS_CONSTANT_ALPHA,
];

static FACES: [GlEnum; 3] = [enums::FRONT, enums::BACK, enums::FRONT_AND_BACK];

static FUNCTIONS: [GlEnum; 8] = [
    enums::NEVER,
    enums::LESS,
    enums::EQUAL,
    enums::LEQUAL,
    enums::GREATER,
    enums::NOTEQUAL,
    enums::GEQUAL,
    enums::ALWAYS,
];

static STENCIL_OPERATIONS: [GlEnum; 8] = [
    enums::KEEP,
    enums::ZERO,
    enums::REPLACE,
    enums::INCR,
    enums::DECR,
    enums::INVERT,
    enums::INCR_WRAP,
    enums::DECR_WRAP,
];

static HINT_MODES: [GlEnum; 3] = [enums::DONT_CARE, enums::FASTEST, enums::NICEST];

/// The rules of the words of a command, in order; none where the number is that of no such command.
fn rules_of(number: u32) -> &'static [WordRule]
    ensures rules { result.now ≡ plain.rules_of number }
    ensures few { length result.now ≤ 4 }
{
    match number {
        ENABLE => &[Capability],
        DISABLE => &[Capability],
        BLEND_COLOR => &[Fraction, Fraction, Fraction, Fraction],
        BLEND_EQUATION_SEPARATE => &[BlendEquation, BlendEquation],
        BLEND_FUNC_SEPARATE => &[
            SourceFactor,
            DestinationFactor,
            SourceFactor,
            DestinationFactor,
        ],
        CLEAR_COLOR => &[Fraction, Fraction, Fraction, Fraction],
        CLEAR_DEPTHF => &[Fraction],
        CLEAR_STENCIL => &[Any],
        COLOR_MASK => &[Flag, Flag, Flag, Flag],
        CULL_FACE => &[Face],
        DEPTH_FUNC => &[Function],
        DEPTH_MASK => &[Flag],
        DEPTH_RANGEF => &[Fraction, Fraction],
        FRONT_FACE => &[Winding],
        HINT => &[HintTarget, HintMode],
        LINE_WIDTH => &[Width],
        PIXEL_STOREI => &[AlignmentName, Alignment],
        POLYGON_OFFSET => &[Any, Any],
        SAMPLE_COVERAGE => &[Fraction, Flag],
        SCISSOR => &[Any, Any, Side, Side],
        STENCIL_FUNC_SEPARATE => &[Face, Function, Reference, Any],
        STENCIL_MASK_SEPARATE => &[Face, Any],
        STENCIL_OP_SEPARATE => &[Face, StencilOperation, StencilOperation, StencilOperation],
        VIEWPORT => &[Any, Any, ViewportSide, ViewportSide],
        _ => &[],
    }
}

/// Whether the word is none of these.
fn is_none_of(word: u32, enums: &[GlEnum]) -> bool
    ensures { result ≡ plain.is_none_of word enums.now }
{
    for one in enums {
        if word == one.0 {
            return false;
        }
    }
    true
}

/// Whether the word is an enum that the rule does not take.
fn is_wrong_enum(rule: WordRule, word: u32) -> bool
    ensures { result ≡ plain.is_wrong_enum rule word }
{
    match rule {
        Capability => is_none_of(word, &CAPABILITIES),
        BlendEquation => is_none_of(word, &EQUATIONS),
        SourceFactor => word != enums::SRC_ALPHA_SATURATE.0 && is_none_of(word, &FACTORS),
        DestinationFactor => is_none_of(word, &FACTORS),
        Face => is_none_of(word, &FACES),
        Function => is_none_of(word, &FUNCTIONS),
        StencilOperation => is_none_of(word, &STENCIL_OPERATIONS),
        Winding => word != enums::CW.0 && word != enums::CCW.0,
        HintTarget => word != enums::GENERATE_MIPMAP_HINT.0,
        HintMode => is_none_of(word, &HINT_MODES),
        AlignmentName => word != enums::UNPACK_ALIGNMENT.0 && word != enums::PACK_ALIGNMENT.0,
        Any | Flag | Fraction | Width | Alignment | Side | ViewportSide | Reference => false,
    }
}

/// Whether the word, as a signed number, is below 0.
fn is_below_zero(word: u32) -> bool
    ensures { result ≡ plain.is_below_zero word }
{
    word.cast_signed() < 0
}

/// Whether the word is a number that the rule does not take.
fn is_wrong_value(rule: WordRule, word: u32) -> bool
    ensures { result ≡ plain.is_wrong_value rule word }
{
    match rule {
        Width => FloatBits(word).is_negative_or_zero(),
        Alignment => !(word == 1 || word == 2 || word == 4 || word == 8),
        Side | ViewportSide => is_below_zero(word),
        Any
        | Flag
        | Fraction
        | Capability
        | BlendEquation
        | SourceFactor
        | DestinationFactor
        | Face
        | Function
        | StencilOperation
        | Winding
        | HintTarget
        | HintMode
        | AlignmentName
        | Reference => false,
    }
}

/// A signed number, kept from 0 to this one.
fn kept_within(most: u32, word: u32) -> u32
    ensures { result ≡ plain.kept_within most word }
{
    if is_below_zero(word) {
        return 0;
    }
    word.min(most)
}

/// The word as it is kept.
fn kept_word(rule: WordRule, word: u32) -> u32
    ensures { result ≡ plain.kept_word rule word }
{
    match rule {
        Flag => u32::from(word != 0),
        Fraction => FloatBits(word).clamp01().0,
        ViewportSide => kept_within(SIDE_LIMIT, word),
        Reference => kept_within(LAST_STENCIL, word),
        Any
        | Width
        | Capability
        | BlendEquation
        | SourceFactor
        | DestinationFactor
        | Face
        | Function
        | StencilOperation
        | Winding
        | HintTarget
        | HintMode
        | AlignmentName
        | Alignment
        | Side => word,
    }
}

/// The word at a place, or 0 behind the last.
fn word(words: &[u32], at: usize) -> u32
    ensures { result ≡ slice_index words.now at }
{
    match words.get(at) {
        Some(word) => *word,
        None => 0,
    }
}

/// Whether a word is an enum that the rule at its place does not take.
fn any_wrong_enum(rules: &[WordRule], words: &[u32]) -> bool
    ensures { result ≡ plain.any_word plain.is_wrong_enum rules.now words.now }
{
    for (at, rule) in rules.iter().enumerate() {
        if is_wrong_enum(*rule, word(words, at)) {
            return true;
        }
    }
    false
}

/// Whether a word is a number that the rule at its place does not take.
fn any_wrong_value(rules: &[WordRule], words: &[u32]) -> bool
    ensures { result ≡ plain.any_word plain.is_wrong_value rules.now words.now }
{
    for (at, rule) in rules.iter().enumerate() {
        if is_wrong_value(*rule, word(words, at)) {
            return true;
        }
    }
    false
}

/// The refusal of a command on the fixed state, if any: INVALID_ENUM for an enum that a rule does not take, and else INVALID_VALUE for a
/// number that a rule does not take. A word behind the last one is 0, and words behind those of the command count for nothing.
pub fn raster_refusal(number: u32, words: &[u32]) -> Option<GlError>
    ensures { result ≡ plain.raster_refusal number words.now }
{
    let rules = rules_of(number);
    if any_wrong_enum(rules, words) {
        return Some(GlError::InvalidEnum);
    }
    if any_wrong_value(rules, words) {
        return Some(GlError::InvalidValue);
    }
    None
}

/// The words of a command on the fixed state as they are kept: floats from 0 to 1, booleans as 0 or 1, and numbers within their limits
/// where the standard says so. A word behind the last one is 0, and words behind those of the command are left out.
pub fn kept_words(number: u32, words: &[u32]) -> ArrayVec<u32, 4>
    ensures { result.items ≡ plain.kept_words number words.now }
{
    let rules = rules_of(number);
    let mut kept = ArrayVec::new();
    for (at, rule) in rules.iter().enumerate() {
        kept.push(kept_word(*rule, word(words, at)));
    }
    kept
}
