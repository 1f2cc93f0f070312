//! The argument rules of the commands on images, other than those on data in a bucket.
ghost use Rattle.std.specs.Prelude.{◌≡◌, ◌≤◌};
ghost use Rattle.gl_plain.specs.State.{EsState};
ghost use Rattle.gl_plain.specs.subjects.Images as images;
ghost use Rattle.gl_plain.specs.image.Arguments.{image_is_bad};

use gl_base::GlEnum;
use gl_plain::{DataWords, ImageCommand, ImageWords, PartWords};
use image_cover::{image_bytes, pixel_bytes};

/// How many bytes an image in client memory needs: none for a negative side, for a format and a type that make no pair, and above the limit.
fn image_needed(width: i32, height: i32, format: GlEnum, kind: GlEnum, alignment: u32) -> u32
    requires { (1 ≤ alignment) × (alignment ≤ 8) }
    ensures { result ≡ images.image_needed width height format kind alignment }
{
    if width < 0 || height < 0 || pixel_bytes(format, kind).is_none() {
        return 0;
    }
    image_bytes(width as u32, height as u32, format, kind, alignment).unwrap_or(0)
}

/// Whether the words of TexImage2D are neither those of no data nor those of as many bytes as it needs.
fn tex_image_is_bad(alignment: u32, image: ImageWords, words: DataWords) -> bool
    requires { (1 ≤ alignment) × (alignment ≤ 8) }
    ensures { result ≡ images.tex_image_is_bad alignment image words }
{
    let needed = image_needed(
        image.width,
        image.height,
        image.format,
        image.kind,
        alignment,
    );
    !(words.has_no_data() || words.has_needed_data(needed))
}

/// Whether the words of TexSubImage2D are neither those of as many bytes as it needs nor, where it needs none, those of no data.
fn tex_sub_image_is_bad(alignment: u32, part: PartWords, words: DataWords) -> bool
    requires { (1 ≤ alignment) × (alignment ≤ 8) }
    ensures { result ≡ images.tex_sub_image_is_bad alignment part words }
{
    let needed = image_needed(part.width, part.height, part.format, part.kind, alignment);
    !words.has_just_needed_data(needed)
}

/// Whether an argument rule of the command is broken, with this alignment of rows in client memory.
pub fn is_malformed(alignment: u32, command: ImageCommand) -> bool
    requires { (1 ≤ alignment) × (alignment ≤ 8) }
    ensures { (s : EsState) → s.alignments.unpack ≡ alignment → result ≡ image_is_bad s command }
{
    match command {
        ImageCommand::TexImage2D { image, words } => tex_image_is_bad(alignment, image, words),
        ImageCommand::TexSubImage2D { part, words } => tex_sub_image_is_bad(alignment, part, words),
        ImageCommand::CopyTexImage2D { .. }
        | ImageCommand::CopyTexSubImage2D { .. }
        | ImageCommand::TexParameteri { .. }
        | ImageCommand::GenerateMipmap { .. }
        | ImageCommand::RenderbufferStorage { .. } => false,
    }
}
