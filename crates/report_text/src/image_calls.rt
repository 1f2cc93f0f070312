//! A driver call on an image, or one that reads pixels, as it is printed.
ghost use Rattle.std.specs.Prelude.{◌≡◌, ◌++◌, OnOk};
ghost use Rattle.gl_plain.specs.declared.driver_calls.ImageDriver.TheVariants.{CopyTexImage, CopyTexSubImage, ReadPixels, TexImage, TexSubImage, ZeroLevel};
ghost use Rattle.report_text.specs.Calls.{image_text};
ghost use Rattle.report_text.specs.Values.{given_text, payload_text};

use crate::arguments::Argument;
use crate::words::write_named;
use Argument::{Data, Enum, Given, Number, Signed};
use gl_base::{GlEnum, Rect};
use gl_plain::{CopyPartWords, ImageDriver, ImagePlace, PartWords, Payload};
use std::alloc::AllocError;

/// The bytes of data that may be absent.
#[tactic(auto, unfolding(crate::specs::Values::given_text, crate::specs::Values::payload_text))]
fn given(payload: &Payload) -> Option<&[u8]>
    ensures { given_text result ≡ payload_text payload.now }
{
    match payload {
        Payload::Absent => None,
        Payload::Here(bytes) => Some(bytes.as_slice()),
    }
}

#[tactic(auto, unfolding(crate::specs::Calls::image_text))]
fn write_tex_image(
    line: &mut Vec<u8>,
    target: GlEnum,
    level: i32,
    format: GlEnum,
    kind: GlEnum,
    width: i32,
    height: i32,
    payload: &Payload,
) -> Result<(), AllocError>
    ensures { OnOk result (line.new.items ≡ line.old.items ++ image_text (TexImage target level format kind width height payload.now)) }
{
    write_named(
        line,
        "tex_image",
        &[
            Enum(target),
            Signed(level),
            Enum(format),
            Enum(kind),
            Signed(width),
            Signed(height),
            Given(given(payload)),
        ],
    )
}

#[tactic(auto, unfolding(crate::specs::Calls::image_text))]
fn write_tex_sub_image(line: &mut Vec<u8>, part: PartWords, bytes: &[u8]) -> Result<(), AllocError>
    ensures { OnOk result (line.new.items ≡ line.old.items ++ image_text (TexSubImage part bytes.now)) }
{
    write_named(
        line,
        "tex_sub_image",
        &[
            Enum(part.target),
            Signed(part.level),
            Signed(part.x),
            Signed(part.y),
            Signed(part.width),
            Signed(part.height),
            Enum(part.format),
            Enum(part.kind),
            Data(bytes),
        ],
    )
}

#[tactic(auto, unfolding(crate::specs::Calls::image_text))]
fn write_zero_level(line: &mut Vec<u8>, place: ImagePlace, rect: Rect) -> Result<(), AllocError>
    ensures { OnOk result (line.new.items ≡ line.old.items ++ image_text (ZeroLevel place rect)) }
{
    write_named(
        line,
        "zero_level",
        &[
            Number(place.texture),
            Enum(place.face),
            Number(u64::from(place.level)),
            Number(u64::from(rect.x)),
            Number(u64::from(rect.y)),
            Number(u64::from(rect.width)),
            Number(u64::from(rect.height)),
        ],
    )
}

#[tactic(auto, unfolding(crate::specs::Calls::image_text))]
fn write_copy_tex_image(
    line: &mut Vec<u8>,
    target: GlEnum,
    level: i32,
    format: GlEnum,
    x: i32,
    y: i32,
    width: i32,
    height: i32,
) -> Result<(), AllocError>
    ensures { OnOk result (line.new.items ≡ line.old.items ++ image_text (CopyTexImage target level format x y width height)) }
{
    write_named(
        line,
        "copy_tex_image",
        &[
            Enum(target),
            Signed(level),
            Enum(format),
            Signed(x),
            Signed(y),
            Signed(width),
            Signed(height),
        ],
    )
}

#[tactic(auto, unfolding(crate::specs::Calls::image_text))]
fn write_copy_tex_sub_image(line: &mut Vec<u8>, copy: CopyPartWords) -> Result<(), AllocError>
    ensures { OnOk result (line.new.items ≡ line.old.items ++ image_text (CopyTexSubImage copy)) }
{
    write_named(
        line,
        "copy_tex_sub_image",
        &[
            Enum(copy.target),
            Signed(copy.level),
            Signed(copy.xoffset),
            Signed(copy.yoffset),
            Signed(copy.x),
            Signed(copy.y),
            Signed(copy.width),
            Signed(copy.height),
        ],
    )
}

#[tactic(auto, unfolding(crate::specs::Calls::image_text))]
fn write_read_pixels(
    line: &mut Vec<u8>,
    x: i32,
    y: i32,
    width: i32,
    height: i32,
) -> Result<(), AllocError>
    ensures { OnOk result (line.new.items ≡ line.old.items ++ image_text (ReadPixels x y width height)) }
{
    write_named(
        line,
        "read_pixels",
        &[Signed(x), Signed(y), Signed(width), Signed(height)],
    )
}

/// Writes the name of a call on an image, or of one that reads pixels, and its arguments.
#[tactic(auto, unfolding(crate::specs::Calls::image_text))]
pub fn write_image(line: &mut Vec<u8>, call: &ImageDriver) -> Result<(), AllocError>
    ensures { OnOk result (line.new.items ≡ line.old.items ++ image_text call.now) }
{
    match call {
        ImageDriver::TexImage {
            target,
            level,
            format,
            kind,
            width,
            height,
            payload,
        } => write_tex_image(
            line, *target, *level, *format, *kind, *width, *height, payload,
        ),
        ImageDriver::TexSubImage { part, bytes } => {
            write_tex_sub_image(line, *part, bytes.as_slice())
        }
        ImageDriver::ZeroLevel { place, rect } => write_zero_level(line, *place, *rect),
        ImageDriver::TexParameter {
            target,
            pname,
            value,
        } => write_named(
            line,
            "tex_parameter",
            &[Enum(*target), Enum(*pname), Enum(*value)],
        ),
        ImageDriver::CopyTexImage {
            target,
            level,
            format,
            x,
            y,
            width,
            height,
        } => write_copy_tex_image(line, *target, *level, *format, *x, *y, *width, *height),
        ImageDriver::CopyTexSubImage { copy } => write_copy_tex_sub_image(line, *copy),
        ImageDriver::GenerateMipmap { target } => {
            write_named(line, "generate_mipmap", &[Enum(*target)])
        }
        ImageDriver::RenderbufferStorage {
            format,
            width,
            height,
        } => write_named(
            line,
            "renderbuffer_storage",
            &[Enum(*format), Signed(*width), Signed(*height)],
        ),
        ImageDriver::ZeroRenderbuffer { name } => {
            write_named(line, "zero_renderbuffer", &[Number(*name)])
        }
        ImageDriver::ReadPixels {
            x,
            y,
            width,
            height,
        } => write_read_pixels(line, *x, *y, *width, *height),
    }
}
