//! Rows of pixels as client memory has them (OpenGL ES 2.0.25, section 4.3.1).
ghost use Rattle.std.specs.Prelude.{◌≡◌, ◌≤◌, ◌*◌, length, IfOk};
ghost use Rattle.gl_base.specs.PixelSizes as sizes;

use gl_plain::Bytes;
use std::alloc::{AllocError, Global};

/// The bytes of a pixel that is read.
const PIXEL: usize = 4;

/// Rows of so many bytes, which follow one another, with so many zeros between them.
fn with_padding(
    alloc: Global,
    height: usize,
    row: usize,
    gap: u32,
    bytes: &[u8],
) -> Result<Bytes, AllocError>
    requires whole { length bytes.now ≡ height * row }
    ensures { IfOk result (λ padded. padded ≡ sizes.with_padding height row gap bytes.now) }
{
    let mut all = Vec::new(alloc);
    for y in 0..height {
        if y > 0 {
            all.resize(all.len() + gap as usize, 0)?;
        }
        all.extend_from_slice(&bytes[y * row..y * row + row])?;
    }
    Ok(Bytes::from_vec(all))
}

/// The pixels of an image with this alignment of rows. Where rows need no padding, nothing is copied and no memory is asked for.
pub fn padded(
    alloc: Global,
    alignment: u32,
    width: u32,
    height: u32,
    bytes: Bytes,
) -> Result<Bytes, AllocError>
    requires aligned { (1 ≤ alignment) × (alignment ≤ 8) }
    requires whole { length bytes ≡ width * height * 4 }
    ensures { IfOk result (λ padded. padded ≡ sizes.padded width height 4 alignment bytes) }
{
    let row = width as usize * PIXEL;
    let alignment = alignment as usize;
    let step = (row + (alignment - 1)) / alignment * alignment;
    if step == row {
        return Ok(bytes);
    }
    with_padding(
        alloc,
        height as usize,
        row,
        (step - row) as u32,
        bytes.as_slice(),
    )
}
