//! The sizes of images in client memory (OpenGL ES 2.0.25, sections 3.6.1 and 3.6.2).
ghost use Rattle.std.specs.Prelude.{◌≡◌, ◌≤◌, ◌<◌, ◌+◌, ◌*◌, IsSome, IfSome};
ghost use Rattle.gl_base.specs.PixelSizes as sizes;
ghost use Rattle.gl_base.specs.declared.limits.TheConstants.{DATA_LIMIT, SIDE_LIMIT};

use gl_base::GlEnum;
use gl_base::enums::UNSIGNED_BYTE;
use gl_base::limits::DATA_LIMIT;
use gl_base::texture_enums::{
    ALPHA, LUMINANCE, LUMINANCE_ALPHA, RGB, RGBA, UNSIGNED_SHORT_4_4_4_4, UNSIGNED_SHORT_5_5_5_1,
    UNSIGNED_SHORT_5_6_5,
};

/// How the rows of an image lie in client memory: how many bytes each has, and how many lie from the beginning of one to that of the next
/// (section 3.6.1).
#[derive(Debug, Clone, Copy)]
pub struct Rows {
    pub row: u32,
    pub step: u32,
}

/// The bytes of a pixel, where the format and the type make a pair (table 3.4).
pub fn pixel_bytes(format: GlEnum, kind: GlEnum) -> Option<u32>
    ensures bytes { result ≡ sizes.pixel_bytes format kind }
    ensures few { IfSome result (λ bytes. bytes ≤ 4) }
{
    match (format, kind) {
        (ALPHA | LUMINANCE, UNSIGNED_BYTE) => Some(1),
        (LUMINANCE_ALPHA, UNSIGNED_BYTE) => Some(2),
        (RGB, UNSIGNED_BYTE) => Some(3),
        (RGB, UNSIGNED_SHORT_5_6_5) => Some(2),
        (RGBA, UNSIGNED_BYTE) => Some(4),
        (RGBA, UNSIGNED_SHORT_4_4_4_4 | UNSIGNED_SHORT_5_5_5_1) => Some(2),
        _ => None,
    }
}

/// The bytes of a pixel of a pair.
fn pixel_size(format: GlEnum, kind: GlEnum) -> u64
    requires { IsSome (sizes.pixel_bytes format kind) }
    ensures size { result ≡ sizes.pixel_size format kind }
    ensures few { result ≤ 4 }
{
    u64::from(pixel_bytes(format, kind).unwrap())
}

/// The least multiple of the alignment that is not below a row's bytes.
#[tactic(auto, using(gl_base::proofs::Rows::row_within))]
fn row_step(row: u64, alignment: u64) -> u64
    requires row { row ≤ DATA_LIMIT }
    requires alignment { (1 ≤ alignment) × (alignment ≤ 8) }
    ensures step { result ≡ sizes.row_step row alignment }
    ensures padding { result < row + alignment }
    ensures order { row ≤ result }
{
    (row + (alignment - 1)) / alignment * alignment
}

/// The bytes of an image of these sides in client memory, whose rows begin at multiples of the alignment, which is 1, 2, 4 or 8 (section
/// 3.6.1). `None` where it has more than the limit of data. The format and the type are a pair.
pub fn image_bytes(
    width: u32,
    height: u32,
    format: GlEnum,
    kind: GlEnum,
    alignment: u32,
) -> Option<u32>
    requires pair { IsSome (sizes.pixel_bytes format kind) }
    requires alignment { (1 ≤ alignment) × (alignment ≤ 8) }
    ensures { result ≡ sizes.within_limit (sizes.image_size width height (sizes.pixel_size format kind) alignment) }
{
    if width == 0 || height == 0 {
        return Some(0);
    }
    let limit = u64::from(DATA_LIMIT);
    let row = u64::from(width) * pixel_size(format, kind);
    // A row above the limit is refused before it is multiplied.
    if row > limit {
        return None;
    }
    let size = row_step(row, u64::from(alignment)) * u64::from(height - 1) + row;
    if size > limit {
        return None;
    }
    Some(size as u32)
}

/// How the rows of an image of this width lie in client memory, where rows begin at multiples of the alignment, which is 1, 2, 4 or 8
/// (section 3.6.1). The format and the type are a pair.
pub fn image_rows(width: u32, format: GlEnum, kind: GlEnum, alignment: u32) -> Rows
    requires width { width ≤ SIDE_LIMIT }
    requires pair { IsSome (sizes.pixel_bytes format kind) }
    requires alignment { (1 ≤ alignment) × (alignment ≤ 8) }
    ensures row { result.row ≡ width * sizes.pixel_size format kind }
    ensures step { result.step ≡ sizes.row_step (width * sizes.pixel_size format kind) alignment }
    ensures order { result.row ≤ result.step }
{
    let row = u64::from(width) * pixel_size(format, kind);
    Rows {
        row: row as u32,
        step: row_step(row, u64::from(alignment)) as u32,
    }
}
