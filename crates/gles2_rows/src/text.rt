//! Texts that grow: what a line of a file of rows adds to a script or to an output.
ghost use Rattle.std.specs.Prelude.{◌≡◌, ◌++◌, OnOk};
ghost use Rattle.percent_encoding.specs.Percent.{percent_decode};
ghost use Rattle.gles2_rows.specs.Texts.{line_text, copies};

use percent_encoding::percent_decode;
use std::alloc::{AllocError, Global};

/// Adds a text, in which `%` and two digits stand for a byte.
pub fn add_text(out: &mut Vec<u8>, text: &str) -> Result<(), AllocError>
    ensures { OnOk result (out.new.items ≡ out.old.items ++ percent_decode text.now) }
{
    percent_decode(text.as_bytes()).append_to(out)
}

/// Adds a text and a line feed.
pub fn add_line(out: &mut Vec<u8>, text: &str) -> Result<(), AllocError>
    ensures { OnOk result (out.new.items ≡ out.old.items ++ line_text text.now) }
{
    add_text(out, text)?;
    out.push(b'\n')?;
    Ok(())
}

/// Adds a text so many times.
pub fn add_copies(
    alloc: Global,
    out: &mut Vec<u8>,
    times: u32,
    text: &str,
) -> Result<(), AllocError>
    ensures { OnOk result (out.new.items ≡ out.old.items ++ copies times (percent_decode text.now)) }
{
    let mut one = Vec::new(alloc);
    add_text(&mut one, text)?;
    for _ in 0..times {
        out.extend_from_slice(&one)?;
    }
    Ok(())
}
