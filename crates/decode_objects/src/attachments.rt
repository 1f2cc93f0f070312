//! The commands that attach images to the framebuffer that is bound (OpenGL ES 2.0.25, section 4.4.2). Each relies on its refusal having been
//! tested.
ghost use Rattle.std.specs.Prelude.{◌≡◌, ℤ, true, []};
ghost use Rattle.gl_base.specs.declared.gl_enum.GlEnum as enums;
ghost use Rattle.std.specs.FinMap as map;
ghost use Rattle.gl_plain.specs.subjects.Names.{number_named};
ghost use Rattle.gl_plain.specs.subjects.Targets as plain;
ghost use Rattle.gl_plain.specs.driver.Allowed.{IsAllowed};
ghost use Rattle.gl_plain.specs.declared.commands.ObjectCommand.TheVariants as command;
ghost use Rattle.gl_plain.specs.declared.driver_calls.DriverCall.TheVariants.{Object};
ghost use Rattle.gl_plain.specs.declared.driver_calls.ObjectDriver.TheVariants as calls;
ghost use Rattle.gl_driver.specs.Performed.{Acts};
ghost use Rattle.texture_mgr.specs.Tables.{tables};
ghost use Rattle.target_mgr.specs.Tables.{renderbuffers};
ghost use Rattle.decode_objects.specs.States.{attached_in, targets_in, own_part};

use gl_base::GlEnum;
use gl_driver::Driver;
use gl_plain::{Attached, ExecStop, Name, Reply};
use target_mgr::Targets;
use texture_mgr::Textures;

/// The number of what a name stands for, or 0.
fn number_named(name: Option<Name>) -> u64
    ensures { result ≡ number_named name }
{
    match name {
        Some(name) => name.number,
        None => 0,
    }
}

/// The attachment of a texture under its id, by what the table has of it; 0 is never in use, and detaches.
fn texture_attached(id: u32, face: GlEnum, name: Option<Name>) -> Attached
    ensures { result ≡ plain.texture_attached id face name }
{
    match name {
        Some(name) => Attached::Texture {
            object: name.number,
            name: id,
            face,
        },
        None => Attached::Nothing,
    }
}

/// The attachment of a renderbuffer under its id, by what the table has of it; 0 is never in use, and detaches.
fn renderbuffer_attached(id: u32, name: Option<Name>) -> Attached
    ensures { result ≡ plain.renderbuffer_attached id name }
{
    match name {
        Some(name) => Attached::Renderbuffer {
            object: name.number,
            name: id,
        },
        None => Attached::Nothing,
    }
}

/// FramebufferTexture2D, where it is not refused.
pub fn framebuffer_texture_2d<D: Driver>(
    textures: &Textures,
    targets: &mut Targets,
    attachment: GlEnum,
    textarget: GlEnum,
    texture: u32,
    driver: &mut D,
) -> Result<Reply, ExecStop>
    requires point { plain.is_attachment attachment ≡ true }
    requires allowed { IsAllowed (D.history driver.old).state (Object (calls.FramebufferTexture attachment textarget (number_named (map.get (tables textures.now).names texture)))) }
    ensures { (target : enums.GlEnum) (level : ℤ) → Acts D.history D.grown (own_part (command.FramebufferTexture2D target attachment textarget texture level) []) (attached_in textures.now targets.old) (attached_in textures.now targets.new) driver.old driver.new result }
{
    let name = textures.name(texture);
    driver.framebuffer_texture(attachment, textarget, number_named(name))?;
    targets.attach(attachment, texture_attached(texture, textarget, name));
    Ok(Reply::None)
}

/// FramebufferRenderbuffer, where it is not refused.
pub fn framebuffer_renderbuffer<D: Driver>(
    targets: &mut Targets,
    attachment: GlEnum,
    renderbuffer: u32,
    driver: &mut D,
) -> Result<Reply, ExecStop>
    requires point { plain.is_attachment attachment ≡ true }
    requires allowed { IsAllowed (D.history driver.old).state (Object (calls.FramebufferRenderbuffer attachment (number_named (map.get (renderbuffers targets.old).names renderbuffer)))) }
    ensures { (target rbtarget : enums.GlEnum) → Acts D.history D.grown (own_part (command.FramebufferRenderbuffer target attachment rbtarget renderbuffer) []) (targets_in targets.old) (targets_in targets.new) driver.old driver.new result }
{
    let name = targets.renderbuffer_name(renderbuffer);
    driver.framebuffer_renderbuffer(attachment, number_named(name))?;
    targets.attach(attachment, renderbuffer_attached(renderbuffer, name));
    Ok(Reply::None)
}
