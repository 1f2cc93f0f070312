//! Names of objects by their numbers.
ghost use Rattle.std.specs.Prelude.{◌≡◌};
ghost use Rattle.gl_base.specs.Names.{AreWords};
ghost use Rattle.gl_plain.specs.subjects.Names as d;

use crate::Name;
use gl_base::NumberMap;

/// The name in use that has this number, or 0. It looks at one name after the other: only queries of what is bound need it.
pub fn name_of(names: &NumberMap<Name>, number: u64) -> u32
    requires { AreWords names.now }
    ensures { result ≡ d.name_of names.now number }
{
    for (id, name) in names.iter() {
        if name.number == number {
            return *id as u32;
        }
    }
    0
}
