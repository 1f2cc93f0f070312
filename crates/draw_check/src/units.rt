//! The texture units of a draw (OpenGL ES 2.0.25, sections 2.10.4, 3.8.2 and 4.4.3).
ghost use Rattle.std.specs.Prelude.{◌≡◌};
ghost use Rattle.std.specs.List.{list_any};
ghost use Rattle.gl_plain.specs.subjects.Draws as d;

use gl_plain::UnitView;

/// Whether a sampler names the unit.
fn is_sampled(unit: &UnitView) -> bool
    ensures { result ≡ d.is_sampled unit.now }
{
    unit.flat || unit.cube
}

/// Whether two kinds of samplers name the unit, or it samples what is drawn to.
fn unit_fails(unit: &UnitView) -> bool
    ensures { result ≡ d.unit_fails unit.now }
{
    (unit.flat && unit.cube) || (is_sampled(unit) && unit.complete && unit.attached)
}

/// Whether one of the units fails.
pub fn any_unit_fails(units: &[UnitView]) -> bool
    ensures { result ≡ list_any d.unit_fails units.now }
{
    units.iter().any(unit_fails)
}

/// Whether the texture of the unit is sampled and not complete, and so reads as black.
fn is_black(unit: &UnitView) -> bool
    ensures { result ≡ d.is_black unit.now }
{
    is_sampled(unit) && !unit.complete
}

/// A bit for each unit that reads as black.
pub fn black_bits(units: &[UnitView; 8]) -> u8
    ensures { result ≡ d.black_bits 1 units.now }
{
    let mut black: u32 = 0;
    let mut bit = 1;
    for unit in units {
        if is_black(unit) {
            black += bit;
        }
        bit *= 2;
    }
    black as u8
}
