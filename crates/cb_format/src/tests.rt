//! Worked rows: the tables' edges, each shape of a layout, plans by their source, and one command as bytes.
use crate::{Command, Header, Layout, Plan, layout, plan};
use arrayvec::ArrayVec;
use std::test::*;

/// A layout of so many words and nothing in shared memory.
fn words_alone(words: u32) -> Option<Layout> {
    Some(Layout {
        words,
        any_size: false,
        payload_at: None,
        result_at: None,
        result_words: 0,
    })
}

#[test]
fn tables_end_where_they_do(rt: HostRuntime) {
    assert_eq!(rt; layout(5), words_alone(5));
    assert_eq!(rt; layout(6), None);
    assert_eq!(rt; layout(255), None);
    assert_eq!(rt; layout(256), words_alone(1));
    assert!(rt; layout(344).is_some());
    assert_eq!(rt; layout(345), None);
    assert_eq!(rt; layout(u32::MAX), None);
}

#[test]
fn each_shape_has_its_words(rt: HostRuntime) {
    let noop = Layout {
        words: 0,
        any_size: true,
        payload_at: None,
        result_at: None,
        result_words: 0,
    };
    assert_eq!(rt; layout(0), Some(noop));
    let buffer_data = Layout {
        words: 7,
        any_size: false,
        payload_at: Some(3),
        result_at: None,
        result_words: 0,
    };
    assert_eq!(rt; layout(259), Some(buffer_data));
    let get_uniform = Layout {
        words: 5,
        any_size: false,
        payload_at: None,
        result_at: Some(3),
        result_words: 16,
    };
    assert_eq!(rt; layout(341), Some(get_uniform));
    assert_eq!(rt; layout(325), words_alone(0));
    assert_eq!(rt; layout(324), words_alone(7));
}

#[test]
#[tactic(auto, unfolding(crate::specs::Layouts::layout_of))]
fn data_is_read_from_shared_memory_alone(rt: HostRuntime) {
    let shared = Plan::Read {
        region: 9,
        offset: 64,
        count: 16,
    };
    assert_eq!(rt; plan(259, &[0x8892, 16, 0x88E4, 0, 0, 0, 0]), Plan::Nothing);
    assert_eq!(rt; plan(259, &[0x8892, 16, 0x88E4, 1, 16, 9, 64]), shared);
    assert_eq!(rt;
        plan(259, &[0x8892, 16, 0x88E4, 2, 16, 3, 0]),
        Plan::Nothing
    );
    assert_eq!(rt;
        plan(
            265,
            &[0x0DE1, 0, 0x1908, 2, 2, 0, 0x1908, 0x1401, 1, 16, 9, 64]
        ),
        shared
    );
    assert_eq!(rt;
        plan(259, &[0x8892, 16, 0x88E4, 3, 16, 9, 64]),
        Plan::Nothing
    );
}

#[test]
#[tactic(auto, unfolding(crate::specs::Layouts::layout_of))]
fn replies_and_bucket_bytes_are_written(rt: HostRuntime) {
    let error = Plan::Write {
        region: 2,
        offset: 8,
        count: 8,
    };
    assert_eq!(rt; plan(327, &[2, 8]), error);
    let uniform = Plan::Write {
        region: 2,
        offset: 12,
        count: 68,
    };
    assert_eq!(rt; plan(341, &[1, 0, 2, 2, 12]), uniform);
    let bucket = Plan::Write {
        region: 2,
        offset: 24,
        count: 100,
    };
    assert_eq!(rt; plan(5, &[1, 40, 100, 2, 24]), bucket);
    assert_eq!(rt; plan(0, &[]), Plan::Nothing);
}

#[test]
fn a_command_is_its_words_lowest_byte_first(rt: HostRuntime) {
    let mut words = ArrayVec::new();
    words.push(0x8892);
    words.push(0x0403_0201);
    let bind = Command { number: 258, words };
    let mut out = [0; 12];
    bind.write(&mut out);
    assert_eq!(rt; out, [3, 0, 0x40, 0x20, 0x92, 0x88, 0, 0, 1, 2, 3, 4]);
    let header = Header::read(0x2040_0003);
    assert_eq!(rt;
        header,
        Header {
            size: 3,
            number: 258
        }
    );
    assert_eq!(rt; header.word(), 0x2040_0003);
}
