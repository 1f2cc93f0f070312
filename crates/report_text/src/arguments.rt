//! The arguments of a call.

use gl_base::GlEnum;

/// An argument of a call, in the form in which it is printed.
#[derive(Clone, Copy)]
pub enum Argument<'a> {
    /// A number in decimal.
    Number(u64),
    /// A number in decimal, with a hyphen where it is negative.
    Signed(i32),
    /// An enum, as `0x` and at least four upper-case digits.
    Enum(GlEnum),
    /// 1 for what is so, 0 for what is not.
    Flag(bool),
    /// Floats by their patterns, or words of the fixed state, each as `0x` and eight upper-case digits.
    Patterns(&'a [u32]),
    /// How many bytes there are, and the first of them.
    Data(&'a [u8]),
    /// The same of data that may be absent.
    Given(Option<&'a [u8]>),
}
