//! The commands on vertex attributes (OpenGL ES 2.0.25, sections 2.7 and 2.8). Each relies on its refusal having been tested.
ghost use Rattle.std.specs.Prelude.{◌≡◌, [], None};
ghost use Rattle.gl_plain.specs.subjects.Attributes.{attribute_refusal, vertex_attrib_pointer_refusal};
ghost use Rattle.gl_plain.specs.declared.commands.ObjectCommand.TheVariants as command;
ghost use Rattle.gl_driver.specs.Performed.{Acts};
ghost use Rattle.decode_objects.specs.States.{attribs_in, buffers_in, own_part};

use crate::refusals::array_spec;
use attrib_mgr::Attribs;
use buffer_mgr::Buffers;
use gl_base::FloatBits;
use gl_driver::Driver;
use gl_plain::{ArrayWords, ExecStop, Reply};

/// VertexAttrib4f.
pub fn vertex_attrib_4f<D: Driver>(
    attribs: &mut Attribs,
    index: u32,
    x: FloatBits,
    y: FloatBits,
    z: FloatBits,
    w: FloatBits,
    driver: &mut D,
) -> Result<Reply, ExecStop>
    requires { attribute_refusal index ≡ None }
    ensures { Acts D.history D.grown (own_part (command.VertexAttrib4f index x y z w) []) (attribs_in attribs.old) (attribs_in attribs.new) driver.old driver.new result }
{
    let values = [x.0, y.0, z.0, w.0];
    driver.vertex_attrib_4(index, values)?;
    let Ok(()) = attribs.constant(index, values) else {
        unreachable!();
    };
    Ok(Reply::None)
}

/// VertexAttribPointer: the array lies in the buffer that ARRAY_BUFFER binds, or in none.
pub fn vertex_attrib_pointer<D: Driver>(
    buffers: &Buffers,
    attribs: &mut Attribs,
    index: u32,
    array: ArrayWords,
    driver: &mut D,
) -> Result<Reply, ExecStop>
    requires { vertex_attrib_pointer_refusal index array.size array.kind array.stride ≡ None }
    ensures { Acts D.history D.grown (own_part (command.VertexAttribPointer index array) []) (λ w. buffers_in buffers.now (attribs_in attribs.old w)) (λ w. buffers_in buffers.now (attribs_in attribs.new w)) driver.old driver.new result }
{
    driver.vertex_attrib_pointer(
        index,
        array.size,
        array.kind,
        array.normalized,
        array.stride,
        array.offset,
    )?;
    let Ok(()) = attribs.pointer(index, array_spec(buffers, array)) else {
        unreachable!();
    };
    Ok(Reply::None)
}

/// EnableVertexAttribArray.
pub fn enable_vertex_attrib_array<D: Driver>(
    attribs: &mut Attribs,
    index: u32,
    driver: &mut D,
) -> Result<Reply, ExecStop>
    requires { attribute_refusal index ≡ None }
    ensures { Acts D.history D.grown (own_part (command.EnableVertexAttribArray index) []) (attribs_in attribs.old) (attribs_in attribs.new) driver.old driver.new result }
{
    driver.set_array(index, true)?;
    let Ok(()) = attribs.enable(index, true) else {
        unreachable!();
    };
    Ok(Reply::None)
}

/// DisableVertexAttribArray.
pub fn disable_vertex_attrib_array<D: Driver>(
    attribs: &mut Attribs,
    index: u32,
    driver: &mut D,
) -> Result<Reply, ExecStop>
    requires { attribute_refusal index ≡ None }
    ensures { Acts D.history D.grown (own_part (command.DisableVertexAttribArray index) []) (attribs_in attribs.old) (attribs_in attribs.new) driver.old driver.new result }
{
    driver.set_array(index, false)?;
    let Ok(()) = attribs.enable(index, false) else {
        unreachable!();
    };
    Ok(Reply::None)
}
