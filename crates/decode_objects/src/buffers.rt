//! The commands on buffers (OpenGL ES 2.0.25, section 2.9). Each relies on its argument rule and its refusal having been tested.
ghost use Rattle.std.specs.Prelude.{◌≡◌, ◌≢◌, ℕ, ℤ, List, [], Some, None, IsSome, false, length, IfOk, OnOk, OnErr};
ghost use Rattle.std.specs.FinMap as map;
ghost use Rattle.buffer_mgr.specs.Tables.{tables};
ghost use Rattle.svc_names.specs.Answers.{is_full_for};
ghost use Rattle.gl_plain.specs.Words.{is_negative, natural};
ghost use Rattle.gl_plain.specs.subjects.Data.{bytes_of, payload_of};
ghost use Rattle.gl_plain.specs.subjects.Buffers as plain;
ghost use Rattle.gl_plain.specs.driver.Allowed.{IsAllowed};
ghost use Rattle.gl_plain.specs.declared.commands.DataWords as words_of;
ghost use Rattle.gl_plain.specs.declared.commands.ObjectCommand.TheVariants as command;
ghost use Rattle.gl_plain.specs.declared.driver_calls.DriverCall.TheVariants.{Object};
ghost use Rattle.gl_plain.specs.declared.driver_calls.ObjectDriver.TheVariants as calls;
ghost use Rattle.gl_plain.specs.Spaces as spaces;
ghost use Rattle.gl_plain.specs.object.Calls.{bind_buffer_call, bind_calls};
ghost use Rattle.gl_driver.specs.Performed.{Acts};
ghost use Rattle.decode_objects.specs.States.{attribs_in, buffers_in, errors_in, own_part};
ghost use Rattle.decode_objects.specs.Ready.{MayMake};

use attrib_mgr::Attribs;
use buffer_mgr::Buffers;
use gl_base::GlEnum;
use gl_driver::{Driver, Stored};
use gl_plain::{Bytes, DataWords, Errors, ExecStop, GlError, Name, Reply};
use std::alloc::{AllocError, Global};
use svc_names::NameRefusal;

/// Brings an id into use that is free, and for which there is room.
fn add_name(buffers: &mut Buffers, id: u32, number: u64) -> Result<(), AllocError>
    requires free { map.get (tables buffers.old).names id ≡ None }
    requires room { is_full_for (tables buffers.old).names id ≡ false }
    ensures ok { OnOk result (tables buffers.new ≡ plain.gen_buffers_effect (tables buffers.old) id number) }
{
    match buffers.add_name(id, number) {
        Ok(()) => Ok(()),
        Err(NameRefusal::NoMemory(_)) => Err(AllocError),
        Err(NameRefusal::InUse(_) | NameRefusal::Full(_)) => unreachable!(),
    }
}

/// GenBuffers, for one id that the client gives: it comes into use with a new name of the driver's.
pub fn gen_buffers<D: Driver>(
    buffers: &mut Buffers,
    id: u32,
    driver: &mut D,
) -> Result<Reply, ExecStop>
    requires fair { plain.gen_buffers_is_bad (tables buffers.old).names id ≡ false }
    requires taken { plain.gen_buffers_refusal (tables buffers.old) id ≡ None }
    ensures { Acts D.history D.grown (own_part (command.GenBuffers id) []) (buffers_in buffers.old) (buffers_in buffers.new) driver.old driver.new result }
{
    let number = driver.gen_buffer()?;
    add_name(buffers, id, number)?;
    Ok(Reply::None)
}

/// Leaves nothing bound.
fn unbind<D: Driver>(
    buffers: &mut Buffers,
    target: GlEnum,
    driver: &mut D,
) -> Result<Reply, ExecStop>
    requires unknown { map.get (tables buffers.old).names 0 ≡ None }
    requires allowed { IsAllowed (D.history driver.old).state (bind_buffer_call target 0) }
    ensures { Acts D.history D.grown (own_part (command.BindBuffer target 0) []) (buffers_in buffers.old) (buffers_in buffers.new) driver.old driver.new result }
{
    driver.bind_buffer(target, 0)?;
    buffers.unbind(target);
    Ok(Reply::None)
}

/// Binds a name in use.
fn bind_known<D: Driver>(
    buffers: &mut Buffers,
    target: GlEnum,
    id: u32,
    name: Name,
    driver: &mut D,
) -> Result<Reply, ExecStop>
    requires known { map.get (tables buffers.old).names id ≡ Some name }
    requires allowed { IsAllowed (D.history driver.old).state (bind_buffer_call target name.number) }
    ensures { Acts D.history D.grown (own_part (command.BindBuffer target id) []) (buffers_in buffers.old) (buffers_in buffers.new) driver.old driver.new result }
{
    driver.bind_buffer(target, name.number)?;
    buffers.bind(target, id, name)?;
    Ok(Reply::None)
}

/// Binds a name that is not in use, which the driver first gives a number.
fn bind_new<D: Driver>(
    buffers: &mut Buffers,
    target: GlEnum,
    id: u32,
    driver: &mut D,
) -> Result<Reply, ExecStop>
    requires unknown { map.get (tables buffers.old).names id ≡ None }
    requires positive { id ≢ 0 }
    requires room { is_full_for (tables buffers.old).names id ≡ false }
    requires may { MayMake (D.history driver.old).state (λ o. bind_calls spaces.Buffers (bind_buffer_call target) id o None) }
    ensures { Acts D.history D.grown (own_part (command.BindBuffer target id) []) (buffers_in buffers.old) (buffers_in buffers.new) driver.old driver.new result }
{
    let number = driver.gen_buffer()?;
    add_name(buffers, id, number)?;
    let name = Name {
        number,
        is_object: false,
    };
    bind_known(buffers, target, id, name, driver)
}

/// BindBuffer: the id 0 binds nothing, and any other comes into use where it is not yet. The object is there from its first bind on.
pub fn bind_buffer<D: Driver>(
    buffers: &mut Buffers,
    target: GlEnum,
    id: u32,
    driver: &mut D,
) -> Result<Reply, ExecStop>
    requires taken { plain.bind_buffer_refusal (tables buffers.old) target id ≡ None }
    requires may { MayMake (D.history driver.old).state (λ o. bind_calls spaces.Buffers (bind_buffer_call target) id o (map.get (tables buffers.old).names id)) }
    ensures { Acts D.history D.grown (own_part (command.BindBuffer target id) []) (buffers_in buffers.old) (buffers_in buffers.new) driver.old driver.new result }
{
    match buffers.name(id) {
        Some(name) => bind_known(buffers, target, id, name, driver),
        None if id == 0 => unbind(buffers, target, driver),
        None => bind_new(buffers, target, id, driver),
    }
}

/// The bytes that BufferData stores: zeros where the words name no source, or else the command's data.
pub fn data_bytes(
    alloc: Global,
    size: i32,
    words: DataWords,
    payload: &[u8],
) -> Result<Bytes, AllocError>
    requires { is_negative size ≡ false }
    ensures { IfOk result (λ bytes. bytes ≡ bytes_of (payload_of words payload.now) size) }
{
    if words.source == 0 {
        return Bytes::zeros(alloc, size as usize);
    }
    Bytes::from_slice(alloc, payload)
}

/// BufferData: the bound buffer gets these bytes, whatever words named them. Where the driver has no room, OUT_OF_MEMORY is recorded and
/// the buffer stays as it was.
pub fn buffer_data<D: Driver>(
    buffers: &mut Buffers,
    errors: &mut Errors,
    target: GlEnum,
    bytes: Bytes,
    usage: GlEnum,
    driver: &mut D,
) -> Result<Reply, ExecStop>
    requires bound { IsSome (plain.bound (tables buffers.old) target) }
    requires allowed { IsAllowed (D.history driver.old).state (Object (calls.BufferData target bytes usage)) }
    ensures { (size : ℤ) (words : words_of.DataWords) (payload : List ℕ) → bytes ≡ bytes_of (payload_of words payload) size → Acts D.history D.grown (own_part (command.BufferData target size usage words) payload) (λ w. buffers_in buffers.old (errors_in errors.old w)) (λ w. buffers_in buffers.new (errors_in errors.new w)) driver.old driver.new result }
{
    match driver.buffer_data(target, bytes.as_slice(), usage)? {
        Stored::Oom => errors.note(GlError::OutOfMemory),
        Stored::Done => buffers.store(target, bytes, usage)?,
    }
    Ok(Reply::None)
}

/// BufferSubData: the bound buffer gets the command's data in place of its bytes from an offset on.
pub fn buffer_sub_data<D: Driver>(
    buffers: &mut Buffers,
    target: GlEnum,
    offset: i32,
    payload: &[u8],
    driver: &mut D,
) -> Result<Reply, ExecStop>
    requires positive { is_negative offset ≡ false }
    requires inside { plain.range_refusal (plain.bound (tables buffers.old) target) (natural offset) (length payload.now) ≡ None }
    requires allowed { IsAllowed (D.history driver.old).state (Object (calls.BufferSubData target offset payload.now)) }
    ensures { (size : ℤ) (words : words_of.DataWords) → Acts D.history D.grown (own_part (command.BufferSubData target offset size words) payload.now) (buffers_in buffers.old) (buffers_in buffers.new) driver.old driver.new result }
{
    driver.buffer_sub_data(target, offset, payload)?;
    buffers.change(target, offset.cast_unsigned(), payload);
    Ok(Reply::None)
}

/// DeleteBuffers, for one id: the name, its object, and what binds it or has its array in it go. 0 and an id that is not in use change
/// nothing, and make no driver call.
pub fn delete_buffers<D: Driver>(
    buffers: &mut Buffers,
    attribs: &mut Attribs,
    id: u32,
    driver: &mut D,
) -> Result<Reply, ExecStop>
    requires may { MayMake (D.history driver.old).state (λ o. plain.delete_buffers_calls (map.get (tables buffers.old).names id)) }
    ensures { Acts D.history D.grown (own_part (command.DeleteBuffers id) []) (λ w. buffers_in buffers.old (attribs_in attribs.old w)) (λ w. buffers_in buffers.new (attribs_in attribs.new w)) driver.old driver.new result }
{
    let Some(name) = buffers.name(id) else {
        return Ok(Reply::None);
    };
    driver.delete_buffer(name.number)?;
    buffers.delete(id);
    attribs.unbind_buffer(name.number);
    Ok(Reply::None)
}
