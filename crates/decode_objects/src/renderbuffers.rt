//! The commands on the names of renderbuffers (OpenGL ES 2.0.25, section 4.4.3). Each relies on its argument rule and its refusal having been tested.
ghost use Rattle.std.specs.Prelude.{◌≡◌, ◌≢◌, [], pos, Some, None, false, OnOk};
ghost use Rattle.std.specs.FinMap as map;
ghost use Rattle.svc_names.specs.Answers.{is_full_for};
ghost use Rattle.gl_plain.specs.subjects.Names.{gen_is_bad, gen_refusal, named};
ghost use Rattle.gl_plain.specs.subjects.Targets as plain;
ghost use Rattle.gl_plain.specs.driver.Allowed.{IsAllowed};
ghost use Rattle.gl_plain.specs.declared.commands.ObjectCommand.TheVariants as command;
ghost use Rattle.gl_plain.specs.declared.driver_calls.DriverCall.TheVariants.{Object};
ghost use Rattle.gl_plain.specs.declared.driver_calls.ObjectDriver.TheVariants as calls;
ghost use Rattle.gl_plain.specs.Spaces as spaces;
ghost use Rattle.gl_plain.specs.object.Calls.{bind_renderbuffer_call, bind_calls};
ghost use Rattle.gl_base.specs.declared.target_enums.TheConstants.{RENDERBUFFER};
ghost use Rattle.gl_driver.specs.Performed.{Acts};
ghost use Rattle.target_mgr.specs.Tables.{renderbuffers, framebuffers, marks};
ghost use Rattle.decode_objects.specs.States.{targets_in, own_part};
ghost use Rattle.decode_objects.specs.Ready.{MayMake};

use gl_base::GlEnum;
use gl_driver::Driver;
use gl_plain::{ExecStop, Name, Reply};
use std::alloc::AllocError;
use svc_names::NameRefusal;
use target_mgr::Targets;

/// Brings an id into use that is free, and for which there is room. 0 is the number of no renderbuffer.
fn add_name(targets: &mut Targets, id: u32, number: u64) -> Result<(), AllocError>
    requires free { map.get (renderbuffers targets.old).names id ≡ None }
    requires room { is_full_for (renderbuffers targets.old).names id ≡ false }
    requires positive { number ≢ 0 }
    ensures ok { OnOk result (renderbuffers targets.new ≡ record (renderbuffers targets.old) { names = named (renderbuffers targets.old).names id number }) }
    ensures others { OnOk result (framebuffers targets.new ≡ framebuffers targets.old) }
    ensures marks { OnOk result (marks targets.new ≡ marks targets.old) }
{
    match targets.add_renderbuffer(id, number) {
        Ok(()) => Ok(()),
        Err(NameRefusal::NoMemory(_)) => Err(AllocError),
        Err(NameRefusal::InUse(_) | NameRefusal::Full(_)) => unreachable!(),
    }
}

/// GenRenderbuffers, for one id that the client gives: it comes into use with a new name of the driver's.
pub fn gen_renderbuffers<D: Driver>(
    targets: &mut Targets,
    id: u32,
    driver: &mut D,
) -> Result<Reply, ExecStop>
    requires fair { gen_is_bad (renderbuffers targets.old).names id ≡ false }
    requires taken { gen_refusal (renderbuffers targets.old).names (pos 1) ≡ None }
    ensures { Acts D.history D.grown (own_part (command.GenRenderbuffers id) []) (targets_in targets.old) (targets_in targets.new) driver.old driver.new result }
{
    let number = driver.gen_renderbuffer()?;
    add_name(targets, id, number)?;
    Ok(Reply::None)
}

/// Binds nothing.
fn unbind<D: Driver>(
    targets: &mut Targets,
    target: GlEnum,
    driver: &mut D,
) -> Result<Reply, ExecStop>
    requires unknown { map.get (renderbuffers targets.old).names 0 ≡ None }
    requires allowed { IsAllowed (D.history driver.old).state (bind_renderbuffer_call 0) }
    ensures { Acts D.history D.grown (own_part (command.BindRenderbuffer target 0) []) (targets_in targets.old) (targets_in targets.new) driver.old driver.new result }
{
    driver.bind_renderbuffer(0)?;
    targets.unbind_renderbuffer();
    Ok(Reply::None)
}

/// Binds a name in use.
fn bind_known<D: Driver>(
    targets: &mut Targets,
    target: GlEnum,
    id: u32,
    name: Name,
    driver: &mut D,
) -> Result<Reply, ExecStop>
    requires known { map.get (renderbuffers targets.old).names id ≡ Some name }
    requires allowed { IsAllowed (D.history driver.old).state (bind_renderbuffer_call name.number) }
    ensures { Acts D.history D.grown (own_part (command.BindRenderbuffer target id) []) (targets_in targets.old) (targets_in targets.new) driver.old driver.new result }
{
    driver.bind_renderbuffer(name.number)?;
    targets.bind_renderbuffer(id, name)?;
    Ok(Reply::None)
}

/// Binds a name that is not in use, which the driver first gives a number.
fn bind_new<D: Driver>(
    targets: &mut Targets,
    target: GlEnum,
    id: u32,
    driver: &mut D,
) -> Result<Reply, ExecStop>
    requires unknown { map.get (renderbuffers targets.old).names id ≡ None }
    requires positive { id ≢ 0 }
    requires room { is_full_for (renderbuffers targets.old).names id ≡ false }
    requires may { MayMake (D.history driver.old).state (λ o. bind_calls spaces.Renderbuffers bind_renderbuffer_call id o None) }
    ensures { Acts D.history D.grown (own_part (command.BindRenderbuffer target id) []) (targets_in targets.old) (targets_in targets.new) driver.old driver.new result }
{
    let number = driver.gen_renderbuffer()?;
    add_name(targets, id, number)?;
    let name = Name {
        number,
        is_object: false,
    };
    bind_known(targets, target, id, name, driver)
}

/// BindRenderbuffer: the id 0 binds nothing, and any other comes into use where it is not yet. The object is there from its first bind on.
pub fn bind_renderbuffer<D: Driver>(
    targets: &mut Targets,
    target: GlEnum,
    id: u32,
    driver: &mut D,
) -> Result<Reply, ExecStop>
    requires taken { plain.bind_refusal RENDERBUFFER (renderbuffers targets.old) target id ≡ None }
    requires may { MayMake (D.history driver.old).state (λ o. bind_calls spaces.Renderbuffers bind_renderbuffer_call id o (map.get (renderbuffers targets.old).names id)) }
    ensures { Acts D.history D.grown (own_part (command.BindRenderbuffer target id) []) (targets_in targets.old) (targets_in targets.new) driver.old driver.new result }
{
    match targets.renderbuffer_name(id) {
        Some(name) => bind_known(targets, target, id, name, driver),
        None if id == 0 => unbind(targets, target, driver),
        None => bind_new(targets, target, id, driver),
    }
}

/// DeleteRenderbuffers, for one id: the name and its object go, it is bound no more, and it is detached from the framebuffer that is bound. 0 and
/// an id that is not in use change nothing, and make no driver call.
pub fn delete_renderbuffers<D: Driver>(
    targets: &mut Targets,
    id: u32,
    driver: &mut D,
) -> Result<Reply, ExecStop>
    requires may { MayMake (D.history driver.old).state (λ o. plain.delete_calls (λ n. Object (calls.DeleteRenderbuffer n)) (map.get (renderbuffers targets.old).names id)) }
    ensures { Acts D.history D.grown (own_part (command.DeleteRenderbuffers id) []) (targets_in targets.old) (targets_in targets.new) driver.old driver.new result }
{
    let Some(name) = targets.renderbuffer_name(id) else {
        return Ok(Reply::None);
    };
    driver.delete_renderbuffer(name.number)?;
    targets.delete_renderbuffer(id);
    Ok(Reply::None)
}
