//! The tables of the service, and the execution of one command by them.
ghost use Rattle.std.specs.Prelude.{◌≡◌, ℕ, List, false, Some, IfOk, IfSome, OnOk, is_none};
ghost use Rattle.gl_plain.specs.declared.commands.Command.TheVariants.{Bucket, Query, SetToken};
ghost use Rattle.gl_plain.specs.declared.commands.BucketCommand.TheVariants as buckets;
ghost use Rattle.gl_plain.specs.declared.commands.Fetched as fetched;
ghost use Rattle.gl_plain.specs.Commands.{command_of};
ghost use Rattle.gl_plain.specs.subjects.Buckets as buckets_of;
ghost use Rattle.gl_plain.specs.subjects.Buckets.{IsBucketData, breaks_bucket_rule, data_given, is_no_bucket, with_reply};

use attrib_mgr::Attribs;
use bucket_store::Buckets;
use buffer_mgr::Buffers;
use decode_draw::execute_draw;
use decode_images::execute_image;
use decode_objects::execute_object;
use decode_query::execute_query;
use gl_base::limits::{DATA_LIMIT, LAST_BUCKET, LAST_TOKEN};
use gl_driver::Driver;
use gl_plain::{
    BucketCommand, Bytes, Command, DataWords, Errors, ExecStop, Fetched, Malformed, QueryCommand,
    Reply,
};
use program_mgr::Programs;
use std::alloc::{AllocError, Global};
use svc_raster::Raster;
use target_mgr::Targets;
use texture_mgr::Textures;

/// The source of data in shared memory.
const IN_MEMORY: u32 = 1;

/// The source of data in a bucket.
const IN_BUCKET: u32 = 2;

/// How many words of 32 bits there are.
const WORDS: usize = 1 << 32;

/// The tables of the service.
#[derive(Drop)]
pub struct Tables {
    alloc: Global,
    surface: (u32, u32),
    buffers: Buffers,
    textures: Textures,
    targets: Targets,
    programs: Programs,
    attribs: Attribs,
    raster: Raster,
    errors: Errors,
    buckets: Buckets,
    token: u32,
}

/// The data of a command on objects or images: what its bucket has, or else the bytes that came beside it. None where its words name a bucket and break a
/// rule of it: there is none of this number, the last word is not 0, or the bucket has other than so many bytes.
fn data_of<'a>(
    buckets: &'a Buckets,
    words: Option<DataWords>,
    payload: &'a [u8],
) -> Option<&'a [u8]>
    ensures broken { is_none result ≡ breaks_bucket_rule buckets.now words }
    ensures given { IfSome result (λ bytes. bytes.now ≡ data_given buckets.now words payload.now) }
{
    let Some(words) = words else {
        return Some(payload);
    };
    if words.source != IN_BUCKET {
        return Some(payload);
    }
    if words.a > LAST_BUCKET || words.b != 0 {
        return None;
    }
    let bytes = buckets.read(words.a);
    if bytes.len() != words.count as usize {
        return None;
    }
    Some(bytes)
}

/// Whether a reply goes into a bucket, and there is none of this number.
fn names_no_bucket(bucket: Option<u32>) -> bool
    ensures { result ≡ buckets_of.names_no_bucket bucket }
{
    match bucket {
        Some(bucket) => bucket > LAST_BUCKET,
        None => false,
    }
}

impl Tables {
    ghost use Rattle.gl_plain.specs.State.{opening_wire};
    ghost use Rattle.gl_plain.specs.Agreement.{Agrees};
    ghost use Rattle.cb_fetch.specs.Readable.{IsReadable};
    ghost use Rattle.decoder_core.specs.Execution.{state_of, ActsAlone, Performs};

    /// The opening tables, for a default framebuffer of this width and height. The default textures take memory.
    pub fn new(alloc: Global, surface: (u32, u32)) -> Result<Tables, AllocError>
        ensures { IfOk result (λ tables. state_of tables ≡ opening_wire surface) }
    {
        Ok(Tables {
            alloc,
            surface,
            buffers: Buffers::new(alloc),
            textures: Textures::new(alloc)?,
            targets: Targets::new(alloc),
            programs: Programs::new(alloc),
            attribs: Attribs::new(),
            raster: Raster::new(surface.0, surface.1),
            errors: Errors::new(),
            buckets: Buckets::new(alloc),
            token: 0,
        })
    }

    /// Where memory comes from.
    pub fn alloc(&self) -> Global {
        self.alloc
    }

    /// The token that was set last, or 0.
    pub fn token(&self) -> u32
        ensures { result ≡ (state_of self.now).token }
    {
        self.token
    }

    /// SetToken.
    fn set_token(&mut self, token: u32) -> Result<Reply, ExecStop>
        ensures { (payload : List ℕ) → ActsAlone (SetToken token) payload (state_of self.old) (state_of self.new) result }
    {
        if token > LAST_TOKEN {
            return Err(ExecStop::Bad(Malformed::InvalidArguments));
        }
        self.token = token;
        Ok(Reply::None)
    }

    /// SetBucketSize: the bucket becomes so many zeros.
    fn set_bucket_size(&mut self, bucket: u32, size: u32) -> Result<Reply, ExecStop>
        ensures { (payload : List ℕ) → ActsAlone (Bucket (buckets.SetSize bucket size)) payload (state_of self.old) (state_of self.new) result }
    {
        if bucket > LAST_BUCKET || size > DATA_LIMIT {
            return Err(ExecStop::Bad(Malformed::InvalidArguments));
        }
        self.buckets.size(bucket, size)?;
        Ok(Reply::None)
    }

    /// SetBucketData: the data, which is in shared memory, is written into the bucket.
    fn set_bucket_data(
        &mut self,
        bucket: u32,
        offset: u32,
        words: DataWords,
        payload: &[u8],
    ) -> Result<Reply, ExecStop>
        requires { IsBucketData (buckets.SetData bucket offset words) payload.now }
        ensures { ActsAlone (Bucket (buckets.SetData bucket offset words)) payload.now (state_of self.old) (state_of self.new) result }
    {
        if bucket > LAST_BUCKET
            || words.source != IN_MEMORY
            || !self.buckets.write(bucket, offset, payload)
        {
            return Err(ExecStop::Bad(Malformed::InvalidArguments));
        }
        Ok(Reply::None)
    }

    /// GetBucketStart: the reply is the bucket's size.
    fn get_bucket_start(&mut self, bucket: u32) -> Result<Reply, ExecStop>
        ensures { (payload : List ℕ) → ActsAlone (Bucket (buckets.GetStart bucket)) payload (state_of self.old) (state_of self.new) result }
    {
        if bucket > LAST_BUCKET {
            return Err(ExecStop::Bad(Malformed::InvalidArguments));
        }
        let size = self.buckets.read(bucket).len();
        Ok(Reply::Word((size % WORDS) as u32))
    }

    /// GetBucketData: the reply is so many of the bucket's bytes.
    fn get_bucket_data(&mut self, bucket: u32, offset: u32, count: u32) -> Result<Reply, ExecStop>
        ensures { (payload : List ℕ) → ActsAlone (Bucket (buckets.GetData bucket offset count)) payload (state_of self.old) (state_of self.new) result }
    {
        if bucket > LAST_BUCKET {
            return Err(ExecStop::Bad(Malformed::InvalidArguments));
        }
        let bytes = self.buckets.read(bucket);
        let first = offset as usize;
        let count = count as usize;
        if first > bytes.len() || count > bytes.len() - first {
            return Err(ExecStop::Bad(Malformed::InvalidArguments));
        }
        let bytes = Bytes::from_slice(self.alloc, &bytes[first..first + count])?;
        Ok(Reply::Bytes(bytes))
    }

    /// A command on a bucket.
    fn bucket(&mut self, command: BucketCommand, payload: &[u8]) -> Result<Reply, ExecStop>
        requires { IsBucketData command payload.now }
        ensures { ActsAlone (Bucket command) payload.now (state_of self.old) (state_of self.new) result }
    {
        match command {
            BucketCommand::SetSize { bucket, size } => self.set_bucket_size(bucket, size),
            BucketCommand::SetData {
                bucket,
                offset,
                words,
            } => self.set_bucket_data(bucket, offset, words, payload),
            BucketCommand::GetStart { bucket } => self.get_bucket_start(bucket),
            BucketCommand::GetData {
                bucket,
                offset,
                count,
            } => self.get_bucket_data(bucket, offset, count),
        }
    }

    /// Gives a bucket the bytes of a reply. A refused command has none.
    fn deliver(&mut self, bucket: u32, reply: &Reply) -> Result<(), AllocError>
        requires { is_no_bucket bucket ≡ false }
        ensures ok { OnOk result (state_of self.new ≡ record (state_of self.old) { buckets = with_reply (state_of self.old).buckets (Some bucket) reply.now }) }
    {
        let bytes = match reply {
            Reply::Bytes(bytes) => Bytes::from_slice(self.alloc, bytes.as_slice())?,
            Reply::None | Reply::Word(_) | Reply::Words(_) | Reply::Names(_) | Reply::Error(_) =>
                Bytes::new(self.alloc),
        };
        self.buckets.give(bucket, bytes);
        Ok(())
    }

    /// A command that asks for state or for pixels. Its reply goes into the bucket that it names, if it names one.
    fn query<D: Driver>(&mut self, command: QueryCommand, driver: &mut D) -> Result<Reply, ExecStop>
        requires agrees { Agrees (state_of self.old) (D.history driver.old).state }
        ensures { (f : fetched.Fetched) → command_of f ≡ Some (Query command) → Performs D.history D.grown f (state_of self.old) driver.old (state_of self.new) driver.new result }
    {
        let bucket = Command::Query(command).reply_bucket();
        if names_no_bucket(bucket) {
            return Err(ExecStop::Bad(Malformed::InvalidArguments));
        }
        let reply = execute_query(
            self.alloc,
            &self.buffers,
            &mut self.textures,
            &mut self.targets,
            &self.programs,
            &self.attribs,
            &self.raster,
            &mut self.errors,
            command,
            driver,
        )?;
        if let Some(bucket) = bucket {
            self.deliver(bucket, &reply)?;
        }
        Ok(reply)
    }

    /// Executes a command as it was read.
    pub fn execute<D: Driver>(
        &mut self,
        command: &Fetched,
        driver: &mut D,
    ) -> Result<Reply, ExecStop>
        requires readable { IsReadable command.now }
        requires agrees { Agrees (state_of self.old) (D.history driver.old).state }
        ensures { Performs D.history D.grown command.now (state_of self.old) driver.old (state_of self.new) driver.new result }
    {
        match command.command() {
            Some(Command::Noop) => Ok(Reply::None),
            Some(Command::SetToken { token }) => self.set_token(token),
            Some(Command::Bucket(bucket)) => self.bucket(bucket, command.payload.as_slice()),
            Some(Command::Query(query)) => self.query(query, driver),
            Some(Command::Object(object)) => {
                let beside = command.payload.as_slice();
                let Some(payload) = data_of(&self.buckets, object.data_words(), beside) else {
                    return Err(ExecStop::Bad(Malformed::InvalidArguments));
                };
                execute_object(
                    self.alloc,
                    &mut self.buffers,
                    &mut self.textures,
                    &mut self.targets,
                    &mut self.programs,
                    &mut self.attribs,
                    &mut self.errors,
                    payload,
                    object,
                    driver,
                )
            }
            Some(Command::Image(image)) => {
                let beside = command.payload.as_slice();
                let Some(payload) = data_of(&self.buckets, image.data_words(), beside) else {
                    return Err(ExecStop::Bad(Malformed::InvalidArguments));
                };
                execute_image(
                    self.alloc,
                    &mut self.textures,
                    &mut self.targets,
                    &self.raster,
                    &mut self.errors,
                    payload,
                    image,
                    driver,
                )
            }
            Some(Command::Draw(drawing)) => execute_draw(
                &self.buffers,
                &mut self.textures,
                &mut self.targets,
                &self.programs,
                &self.attribs,
                &mut self.raster,
                &mut self.errors,
                drawing,
                driver,
            ),
            None => Err(ExecStop::Bad(Malformed::InvalidArguments)),
        }
    }
}
