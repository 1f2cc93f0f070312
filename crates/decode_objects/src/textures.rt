//! The commands on the names of textures (OpenGL ES 2.0.25, section 3.7.13). Each relies on its argument rule and its refusal having been tested.
ghost use Rattle.std.specs.Prelude.{◌≡◌, ◌≢◌, [], Some, None, false, OnOk};
ghost use Rattle.std.specs.FinMap as map;
ghost use Rattle.texture_mgr.specs.Tables.{tables, covers};
ghost use Rattle.svc_names.specs.Answers.{is_full_for};
ghost use Rattle.gl_plain.specs.subjects.Textures as plain;
ghost use Rattle.gl_plain.specs.driver.Allowed.{IsAllowed};
ghost use Rattle.gl_plain.specs.declared.commands.ObjectCommand.TheVariants as command;
ghost use Rattle.gl_plain.specs.Spaces as spaces;
ghost use Rattle.gl_plain.specs.object.Calls.{bind_texture_call, bind_calls};
ghost use Rattle.gl_driver.specs.Performed.{Acts};
ghost use Rattle.gl_plain.specs.subjects.Names.{gen_is_bad};
ghost use Rattle.decode_objects.specs.States.{attached_in, textures_in, own_part};
ghost use Rattle.decode_objects.specs.Ready.{MayMake};

use gl_base::GlEnum;
use gl_driver::Driver;
use gl_plain::{ExecStop, Name, Reply};
use std::alloc::AllocError;
use svc_names::NameRefusal;
use target_mgr::Targets;
use texture_mgr::Textures;

/// Brings an id into use that is free, and for which there is room. 0 is the number of the default textures alone.
fn add_name(textures: &mut Textures, id: u32, number: u64) -> Result<(), AllocError>
    requires free { map.get (tables textures.old).names id ≡ None }
    requires room { is_full_for (tables textures.old).names id ≡ false }
    requires positive { number ≢ 0 }
    ensures ok { OnOk result (tables textures.new ≡ plain.gen_textures_effect (tables textures.old) id number) }
    ensures covers { OnOk result (covers textures.new ≡ covers textures.old) }
{
    match textures.add_name(id, number) {
        Ok(()) => Ok(()),
        Err(NameRefusal::NoMemory(_)) => Err(AllocError),
        Err(NameRefusal::InUse(_) | NameRefusal::Full(_)) => unreachable!(),
    }
}

/// GenTextures, for one id that the client gives: it comes into use with a new name of the driver's.
pub fn gen_textures<D: Driver>(
    textures: &mut Textures,
    id: u32,
    driver: &mut D,
) -> Result<Reply, ExecStop>
    requires fair { gen_is_bad (tables textures.old).names id ≡ false }
    requires taken { plain.gen_textures_refusal (tables textures.old) ≡ None }
    ensures { Acts D.history D.grown (own_part (command.GenTextures id) []) (textures_in textures.old) (textures_in textures.new) driver.old driver.new result }
{
    let number = driver.gen_texture()?;
    add_name(textures, id, number)?;
    Ok(Reply::None)
}

/// Binds the default texture.
fn unbind<D: Driver>(
    textures: &mut Textures,
    target: GlEnum,
    driver: &mut D,
) -> Result<Reply, ExecStop>
    requires unknown { map.get (tables textures.old).names 0 ≡ None }
    requires allowed { IsAllowed (D.history driver.old).state (bind_texture_call target 0) }
    ensures { Acts D.history D.grown (own_part (command.BindTexture target 0) []) (textures_in textures.old) (textures_in textures.new) driver.old driver.new result }
{
    driver.bind_texture(target, 0)?;
    textures.unbind(target);
    Ok(Reply::None)
}

/// Binds a name in use.
fn bind_known<D: Driver>(
    textures: &mut Textures,
    target: GlEnum,
    id: u32,
    name: Name,
    driver: &mut D,
) -> Result<Reply, ExecStop>
    requires known { map.get (tables textures.old).names id ≡ Some name }
    requires allowed { IsAllowed (D.history driver.old).state (bind_texture_call target name.number) }
    ensures { Acts D.history D.grown (own_part (command.BindTexture target id) []) (textures_in textures.old) (textures_in textures.new) driver.old driver.new result }
{
    driver.bind_texture(target, name.number)?;
    textures.bind(target, id, name)?;
    Ok(Reply::None)
}

/// Binds a name that is not in use, which the driver first gives a number.
fn bind_new<D: Driver>(
    textures: &mut Textures,
    target: GlEnum,
    id: u32,
    driver: &mut D,
) -> Result<Reply, ExecStop>
    requires unknown { map.get (tables textures.old).names id ≡ None }
    requires positive { id ≢ 0 }
    requires room { is_full_for (tables textures.old).names id ≡ false }
    requires may { MayMake (D.history driver.old).state (λ o. bind_calls spaces.Textures (bind_texture_call target) id o None) }
    ensures { Acts D.history D.grown (own_part (command.BindTexture target id) []) (textures_in textures.old) (textures_in textures.new) driver.old driver.new result }
{
    let number = driver.gen_texture()?;
    add_name(textures, id, number)?;
    let name = Name {
        number,
        is_object: false,
    };
    bind_known(textures, target, id, name, driver)
}

/// BindTexture: the id 0 binds the default texture, and any other comes into use where it is not yet. The object is there from its first bind on.
pub fn bind_texture<D: Driver>(
    textures: &mut Textures,
    target: GlEnum,
    id: u32,
    driver: &mut D,
) -> Result<Reply, ExecStop>
    requires taken { plain.bind_texture_refusal (tables textures.old) target id ≡ None }
    requires may { MayMake (D.history driver.old).state (λ o. bind_calls spaces.Textures (bind_texture_call target) id o (map.get (tables textures.old).names id)) }
    ensures { Acts D.history D.grown (own_part (command.BindTexture target id) []) (textures_in textures.old) (textures_in textures.new) driver.old driver.new result }
{
    match textures.name(id) {
        Some(name) => bind_known(textures, target, id, name, driver),
        None if id == 0 => unbind(textures, target, driver),
        None => bind_new(textures, target, id, driver),
    }
}

/// DeleteTextures, for one id: the name and its object go, units that bound it bind the default texture, and it is detached from the framebuffer
/// that is bound. 0 and an id that is not in use change nothing, and make no driver call.
pub fn delete_textures<D: Driver>(
    textures: &mut Textures,
    targets: &mut Targets,
    id: u32,
    driver: &mut D,
) -> Result<Reply, ExecStop>
    requires may { MayMake (D.history driver.old).state (λ o. plain.delete_textures_calls (map.get (tables textures.old).names id)) }
    ensures { Acts D.history D.grown (own_part (command.DeleteTextures id) []) (attached_in textures.old targets.old) (attached_in textures.new targets.new) driver.old driver.new result }
{
    let Some(name) = textures.name(id) else {
        return Ok(Reply::None);
    };
    driver.delete_texture(name.number)?;
    textures.delete(id);
    targets.detach_texture(name.number);
    Ok(Reply::None)
}
