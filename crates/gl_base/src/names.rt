//! Which words may name an object.
ghost use Rattle.std.specs.Prelude.{◌≡◌};
ghost use Rattle.gl_base.specs.Names as names;

use crate::limits::{FIRST_RESERVED_NAME, LAST_ORDINARY_NAME, LAST_RESERVED_NAME};

/// Whether the word is a name that Gen and Create may give: 1 to 0xFFFFFEFF.
pub fn is_ordinary(id: u32) -> bool
    ensures { result ≡ names.is_ordinary id }
{
    1 <= id && id <= LAST_ORDINARY_NAME
}

/// Whether the word is a buffer name that is kept for client arrays: 0xFFFFFF00 to 0xFFFFFF10.
pub fn is_reserved(id: u32) -> bool
    ensures { result ≡ names.is_reserved id }
{
    FIRST_RESERVED_NAME <= id && id <= LAST_RESERVED_NAME
}

#[cfg(test)]
mod tests {
    use super::*;

    #[test]
    fn ordinary_and_reserved_names_have_limits(rt: HostRuntime) {
        let rows = [
            (0, false, false),
            (1, true, false),
            (0xFFFF_FEFF, true, false),
            (0xFFFF_FF00, false, true),
            (0xFFFF_FF10, false, true),
            (0xFFFF_FF11, false, false),
            (u32::MAX, false, false),
        ];
        for (id, ordinary, reserved) in rows {
            assert_eq!(rt; is_ordinary(id), ordinary, "at {id}");
            assert_eq!(rt; is_reserved(id), reserved, "at {id}");
        }
    }
}
