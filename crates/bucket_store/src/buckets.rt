//! Four lists of bytes.
ghost use Rattle.std.specs.Prelude.{◌≡◌, ◌≤◌, ℕ, OnOk, OnErr, length, not, replicate};
ghost use Rattle.std.specs.Bool.{OnTrue, OnFalse};
ghost use Rattle.gl_base.specs.declared.limits.TheConstants.{LAST_BUCKET};
ghost use Rattle.gl_plain.specs.Bytes.{overwritten};
ghost use Rattle.gl_plain.specs.subjects.Buckets.{bucket_at, empty_buckets, is_past_bucket, with_bucket};

use gl_plain::Bytes;
use std::alloc::{AllocError, Global};
use std::marker::Model;

/// The buckets 0 to 3. Contracts see the list of their bytes.
#[derive(Debug, Drop)]
pub struct Buckets {
    alloc: Global,
    buckets: [Bytes; 4],
}

impl Model for Buckets {
    ghost use Rattle.gl_plain.specs.subjects.Buckets as subject;

    ghost Value = { subject.Buckets };

    ghost view = { λ a. a.buckets };
}

impl Buckets {
    /// The buckets as they open, without bytes. It takes no memory.
    pub fn new(alloc: Global) -> Buckets
        ensures { result ≡ empty_buckets }
    {
        Buckets {
            alloc,
            buckets: [
                Bytes::new(alloc),
                Bytes::new(alloc),
                Bytes::new(alloc),
                Bytes::new(alloc),
            ],
        }
    }

    /// Makes a bucket so many zeros, whatever it had. Without memory for them all is as before.
    pub fn size(&mut self, bucket: u32, size: u32) -> Result<(), AllocError>
        requires { bucket ≤ LAST_BUCKET }
        ensures ok { OnOk result (self.new ≡ with_bucket self.old bucket (replicate size 0)) }
        ensures err { OnErr result (self.new ≡ self.old) }
    {
        let zeros = Bytes::zeros(self.alloc, size as usize)?;
        self.buckets[bucket as usize] = zeros;
        Ok(())
    }

    /// Writes bytes into a bucket, from an offset on. False, and all is as before, where the range leaves the bucket. It takes no memory.
    pub fn write(&mut self, bucket: u32, offset: u32, bytes: &[u8]) -> bool
        requires { bucket ≤ LAST_BUCKET }
        ensures inside { result ≡ not (is_past_bucket self.old bucket offset (length bytes.now)) }
        ensures done { OnTrue result (self.new ≡ with_bucket self.old bucket (overwritten (bucket_at self.old bucket) offset bytes.now)) }
        ensures refused { OnFalse result (self.new ≡ self.old) }
    {
        let place = &mut self.buckets[bucket as usize];
        let offset = offset as usize;
        let len = place.len();
        if offset > len || bytes.len() > len - offset {
            return false;
        }
        place.overwrite(offset, bytes);
        true
    }

    /// Gives a bucket these bytes in place of its own. It takes no memory.
    pub fn give(&mut self, bucket: u32, bytes: Bytes)
        requires { bucket ≤ LAST_BUCKET }
        ensures { self.new ≡ with_bucket self.old bucket bytes }
    {
        self.buckets[bucket as usize] = bytes;
    }

    /// The bytes of a bucket.
    pub fn read(&self, bucket: u32) -> &[u8]
        requires { bucket ≤ LAST_BUCKET }
        ensures { result.now ≡ bucket_at self.now bucket }
    {
        self.buckets[bucket as usize].as_slice()
    }
}
