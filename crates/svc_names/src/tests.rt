//! Values by name, and the limit on ordinary names.
use crate::{NameRefusal, NameTable};
use gl_base::limits::{FIRST_RESERVED_NAME, NAME_LIMIT};
use std::test::*;

#[test]
fn only_ordinary_names_fill_a_table(rt: HostRuntime) {
    let mut table = NameTable::<u32>::new(rt.alloc());
    for id in 1..=NAME_LIMIT {
        assert_eq!(rt; table.add(id, id), Ok(()), "at {id}");
    }
    assert!(rt; table.is_over_limit(1) && !table.is_over_limit(0));
    assert_eq!(rt; table.add(5, 9), Err(NameRefusal::InUse(9)));
    assert_eq!(rt; table.add(NAME_LIMIT + 1, 9), Err(NameRefusal::Full(9)));
    assert_eq!(rt; table.add(FIRST_RESERVED_NAME, 9), Ok(()));
    assert_eq!(rt; table.remove(FIRST_RESERVED_NAME), Some(9));
    assert!(rt; table.is_over_limit(1));
    if let Some(value) = table.find_mut(5) {
        *value = 8;
    }
    assert_eq!(rt; table.find(5).copied(), Some(8));
    assert!(rt; table.replace(5, 4) && !table.replace(0, 4));
    assert_eq!(rt; table.remove(5), Some(4));
    assert_eq!(rt; table.remove(5), None);
    assert_eq!(rt; table.add(NAME_LIMIT + 1, 7), Ok(()));
    assert_eq!(rt; table.find(NAME_LIMIT + 1).copied(), Some(7));
}
