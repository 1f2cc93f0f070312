//! How many levels stand behind an image (OpenGL ES 2.0.25, section 3.7.7).
ghost use Rattle.std.specs.Prelude.{◌≡◌, ◌≤◌};
ghost use Rattle.gl_base.specs.declared.limits.TheConstants.{LAST_LEVEL};
ghost use Rattle.gl_plain.specs.subjects.Completeness as plain;

use gl_base::limits::LAST_LEVEL;
use gl_plain::LevelView;

/// How many levels stand behind an image, each of half the sides of the one before, down to one pixel.
pub fn levels_behind(view: LevelView) -> u32
    ensures levels { result ≡ plain.levels_behind view LAST_LEVEL }
    ensures few { result ≤ LAST_LEVEL }
{
    let mut last = view;
    for level in 0..LAST_LEVEL {
        if last.is_last() {
            return level;
        }
        last = last.halved();
    }
    LAST_LEVEL
}
