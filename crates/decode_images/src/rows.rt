//! Rows of pixels in client memory (OpenGL ES 2.0.25, section 3.6.1), which a driver is given without padding.
ghost use Rattle.std.specs.Prelude.{◌≡◌, ◌≤◌, ◌*◌, length, IfOk, Ok, None};
ghost use Rattle.gl_base.specs.declared.limits.TheConstants.{SIDE_LIMIT};
ghost use Rattle.gl_base.specs.PixelSizes as sizes;
ghost use Rattle.decode_images.specs.Unpadded.{bytes_or, IsLongEnough};

use gl_base::GlEnum;
use gl_plain::Bytes;
use image_cover::{Rows, image_rows, pixel_bytes};
use std::alloc::{AllocError, Global};

/// The rows of an image, one behind the other, where something lies between them; or none where they lie so already, and nothing has to be
/// copied. The bytes have all rows, the last one without padding.
#[tactic(auto, using(crate::proofs::Packed::rows_packed))]
fn unpadded(
    alloc: Global,
    height: usize,
    rows: Rows,
    bytes: &[u8],
) -> Result<Option<Bytes>, AllocError>
    requires whole { IsLongEnough height rows.row rows.step (length bytes.now) }
    requires order { rows.row ≤ rows.step }
    ensures rows { IfOk result (λ copied. bytes_or copied bytes.now ≡ sizes.rows_of height rows.row rows.step bytes.now) }
    ensures uncopied { rows.row ≡ rows.step → result ≡ Ok None }
{
    if rows.row == rows.step {
        return Ok(None);
    }
    let row = rows.row as usize;
    let step = rows.step as usize;
    let mut all = Vec::new(alloc);
    for y in 0..height {
        all.extend_from_slice(&bytes[y * step..y * step + row])?;
    }
    Ok(Some(Bytes::from_vec(all)))
}

/// The rows of an image in client memory, as `unpadded` gives them. Where rows have no padding, nothing is copied and no memory is asked for.
#[tactic(auto, using(crate::proofs::Packed::long_enough))]
pub fn client_rows(
    alloc: Global,
    alignment: u32,
    width: u32,
    height: u32,
    format: GlEnum,
    kind: GlEnum,
    bytes: &[u8],
) -> Result<Option<Bytes>, AllocError>
    requires aligned { (1 ≤ alignment) × (alignment ≤ 8) }
    requires side { width ≤ SIDE_LIMIT }
    requires whole { length bytes.now ≡ sizes.image_size width height (sizes.pixel_size format kind) alignment }
    ensures rows { IfOk result (λ copied. bytes_or copied bytes.now ≡ sizes.unpadded width height (sizes.pixel_size format kind) alignment bytes.now) }
    ensures uncopied { width * sizes.pixel_size format kind ≡ sizes.row_step (width * sizes.pixel_size format kind) alignment → result ≡ Ok None }
{
    if pixel_bytes(format, kind).is_none() {
        // Pixels of no pair have no bytes, so there are no rows.
        return Ok(None);
    }
    let rows = image_rows(width, format, kind, alignment);
    unpadded(alloc, height as usize, rows, bytes)
}

/// The rows that were copied, or the bytes that need no copy.
pub fn rows_or<'a>(copied: &'a Option<Bytes>, bytes: &'a [u8]) -> &'a [u8]
    ensures { result.now ≡ bytes_or copied.now bytes.now }
{
    match copied {
        Some(copied) => copied.as_slice(),
        None => bytes,
    }
}
