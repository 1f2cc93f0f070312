//! The range that a command plans to read or to write.
ghost use Rattle.std.specs.Prelude.{◌≡◌, ◌≤◌, ◌+◌, length, Some};
ghost use Rattle.cb_format.specs.Layouts.{IsFitting, layout_of};
ghost use Rattle.cb_format.specs.Plans.{IsLaidOut, bucket_plan, data_plan, plan_of, reply_plan};

use crate::layouts::{Layout, Plan};
use crate::tables::layout;
use gl_plain::numbers::GET_BUCKET_DATA;

/// The source of data in shared memory.
const SHARED_MEMORY: u32 = 1;

/// The range of a command's data, whose four words begin at an index.
fn data_range(words: &[u32], at: usize) -> Plan
    requires { at + 4 ≤ length words.now }
    ensures { result ≡ data_plan at words.now }
{
    if words[at] == SHARED_MEMORY {
        Plan::Read {
            region: words[at + 2],
            offset: words[at + 3],
            count: words[at + 1],
        }
    } else {
        Plan::Nothing
    }
}

/// The range of a reply of at most so many words, whose two words begin at an index: 4 bytes for their number, and 4 for each.
fn reply_range(words: &[u32], at: usize, most: u32) -> Plan
    requires words { at + 2 ≤ length words.now }
    requires most { most ≤ 16 }
    ensures { result ≡ reply_plan at most words.now }
{
    Plan::Write {
        region: words[at],
        offset: words[at + 1],
        count: 4 + 4 * most,
    }
}

/// The range where the bytes of GetBucketData go.
fn bucket_range(words: &[u32]) -> Plan
    requires { length words.now ≡ 5 }
    ensures { result ≡ bucket_plan words.now }
{
    Plan::Write {
        region: words[3],
        offset: words[4],
        count: words[2],
    }
}

/// The range of shared memory that the words of a command name, which are as many as its layout says. No command has both data and a
/// reply there.
pub fn plan(number: u32, words: &[u32]) -> Plan
    requires { IsLaidOut number words.now }
    ensures { result ≡ plan_of number words.now }
{
    match layout(number) {
        Some(found) => laid_out_plan(number, found, words),
        None => unreachable!(),
    }
}

/// The same for a command whose layout was looked up before.
pub fn laid_out_plan(number: u32, found: Layout, words: &[u32]) -> Plan
    requires found { layout_of number ≡ Some found }
    requires fitting { IsFitting found }
    requires words { length words.now ≡ found.words }
    ensures { result ≡ plan_of number words.now }
{
    if number == GET_BUCKET_DATA {
        return bucket_range(words);
    }
    if let Some(at) = found.payload_at {
        return data_range(words, at as usize);
    }
    if let Some(at) = found.result_at {
        return reply_range(words, at as usize, found.result_words);
    }
    Plan::Nothing
}
