//! What the rules of draws look at, taken from the tables of the service (OpenGL ES 2.0.25, sections 2.8 and 2.9.2).
ghost use Rattle.std.specs.Prelude.{◌≡◌, length, map, None, Some};
ghost use Rattle.gl_plain.specs.Words.{natural};
ghost use Rattle.gl_plain.specs.subjects.Draws as draws;
ghost use Rattle.buffer_mgr.specs.Tables.{tables};
ghost use Rattle.program_mgr.specs.Tables as programs_as;
ghost use Rattle.texture_mgr.specs.Tables as textures_as;
ghost use Rattle.gl_plain.specs.State.{Surface};
ghost use Rattle.gl_plain.specs.subjects.Targets.{target_of};
ghost use Rattle.target_mgr.specs.Tables.{framebuffers};
ghost use Rattle.decode_draw.specs.States.{sources};
ghost use Rattle.decode_draw.specs.Judged.{with_units};

use crate::judged::Judged;
use attrib_mgr::Attribs;
use buffer_mgr::Buffers;
use draw_check::check;
use gl_base::GlEnum;
use gl_base::enums::{ELEMENT_ARRAY_BUFFER, FLOAT};
use gl_plain::{
    ArraySpec, ArrayView, DrawView, GlError, IndexView, Target, UnitView, VertexAttribute,
    is_index_kind,
};
use program_mgr::Programs;
use target_mgr::Targets;
use texture_mgr::Textures;
use whole_images::target_status;

/// How many bytes an object has: none where there is none.
fn object_size(buffers: &Buffers, object: Option<u64>) -> u32
    ensures { result ≡ length (draws.object_bytes (tables buffers.now).objects object) }
{
    let Some(number) = object else {
        return 0;
    };
    match buffers.object(number) {
        Some(buffer) => buffer.size(),
        None => 0,
    }
}

/// The array of an attribute.
fn array_view(buffers: &Buffers, attribute: VertexAttribute) -> ArrayView
    ensures { result ≡ draws.array_view (tables buffers.now).objects attribute }
{
    let bytes = if attribute.enabled {
        object_size(buffers, attribute.array.object)
    } else {
        0
    };
    ArrayView {
        on: attribute.enabled,
        spec: attribute.array,
        bytes,
    }
}

/// An array that is not enabled.
const NO_ARRAY: ArrayView = ArrayView {
    on: false,
    spec: ArraySpec {
        object: None,
        size: 4,
        kind: FLOAT,
        normalized: false,
        stride: 0,
        offset: 0,
    },
    bytes: 0,
};

/// The arrays of all attributes.
#[tactic(auto, using(std::proofs::lemmas::List::map_more, std::proofs::lemmas::List::take_more_set))]
fn array_views(buffers: &Buffers, attribs: &Attribs) -> [ArrayView; 16]
    ensures { result ≡ map (draws.array_view (tables buffers.now).objects) attribs.now.attributes.attributes }
{
    let attributes = attribs.all();
    let mut views = [NO_ARRAY; 16];
    for index in 0..views.len() {
        views[index] = array_view(buffers, attributes[index]);
    }
    views
}

/// The indices of a draw of so many elements. Those of a kind that is none are not read.
fn index_view(buffers: &Buffers, count: i32, kind: GlEnum, offset: u32) -> IndexView
    ensures { (s : draws.Sources) → s.buffers ≡ (tables buffers.now).objects → s.element ≡ (tables buffers.now).element → result ≡ draws.index_view s (natural count) (draws.index_words kind offset) }
{
    let count = u32::try_from(count).unwrap_or(0);
    let last = match buffers.bound(ELEMENT_ARRAY_BUFFER) {
        Some(buffer) if is_index_kind(kind) => buffer.max_index(offset, count, kind),
        _ => None,
    };
    IndexView { kind, last }
}

/// A texture unit: how samplers name it, whether what it samples is complete, and whether an image of that is drawn to (sections 2.10.4, 3.7.10
/// and 4.4.4).
fn unit_viewed(textures: &Textures, target: Target, unit: u32, view: UnitView) -> UnitView
    ensures { result ≡ draws.with_texture (textures_as.tables textures.now).objects target unit view }
{
    if !(view.flat || view.cube) {
        return UnitView {
            complete: false,
            attached: false,
            ..view
        };
    }
    UnitView {
        attached: target.is_texture_attached(textures.sampled_number(unit, view)),
        ..textures.view(unit, view)
    }
}

/// All texture units.
fn units_viewed(textures: &Textures, target: Target, programs: &Programs) -> [UnitView; 8]
    ensures { result ≡ draws.with_textures (textures_as.tables textures.now).objects target 0 (draws.all_units (programs_as.tables programs.now).installed) }
{
    let mut units = programs.unit_views();
    for unit in 0..units.len() {
        units[unit] = unit_viewed(textures, target, unit as u32, units[unit]);
    }
    units
}

/// All that the rules look at.
fn draw_view(
    buffers: &Buffers,
    textures: &Textures,
    targets: &Targets,
    programs: &Programs,
    attribs: &Attribs,
    mode: GlEnum,
    indexed: Option<IndexView>,
) -> DrawView
    ensures { (surface : Surface) → result ≡ record (draws.draw_view (sources surface buffers.now textures.now targets.now programs.now attribs.now) mode None 0) { indexed = indexed } }
{
    let target = targets.target();
    DrawView {
        mode,
        indexed,
        arrays: array_views(buffers, attribs),
        used: programs.used_attributes(),
        units: units_viewed(textures, target, programs),
        status: target_status(textures, targets, target),
        program: programs.has_executable(),
    }
}

/// Judges a draw by what the rules look at.
fn judge_view(view: &DrawView, target: Target, first: i32, count: i32) -> Result<Judged, GlError>
    ensures { result ≡ with_units view.now.units target (draws.check_of view.now first count) }
{
    let plan = check(view, first, count)?;
    Ok(Judged {
        plan,
        units: view.units,
        target: if plan.draw { target } else { Target::Default },
    })
}

/// Judges DrawArrays.
pub fn check_arrays(
    buffers: &Buffers,
    textures: &Textures,
    targets: &Targets,
    programs: &Programs,
    attribs: &Attribs,
    mode: GlEnum,
    first: i32,
    count: i32,
) -> Result<Judged, GlError>
    ensures { (surface : Surface) → result ≡ with_units (draws.units_viewed (sources surface buffers.now textures.now targets.now programs.now attribs.now)) (target_of (framebuffers targets.now)) (draws.check_arrays (sources surface buffers.now textures.now targets.now programs.now attribs.now) mode first count) }
{
    let view = draw_view(buffers, textures, targets, programs, attribs, mode, None);
    judge_view(&view, targets.target(), first, count)
}

/// Judges DrawElements.
pub fn check_indexed(
    buffers: &Buffers,
    textures: &Textures,
    targets: &Targets,
    programs: &Programs,
    attribs: &Attribs,
    mode: GlEnum,
    count: i32,
    kind: GlEnum,
    offset: u32,
) -> Result<Judged, GlError>
    ensures { (surface : Surface) → result ≡ with_units (draws.units_viewed (sources surface buffers.now textures.now targets.now programs.now attribs.now)) (target_of (framebuffers targets.now)) (draws.check_indexed (sources surface buffers.now textures.now targets.now programs.now attribs.now) mode count kind offset) }
{
    let indices = index_view(buffers, count, kind, offset);
    let view = draw_view(
        buffers,
        textures,
        targets,
        programs,
        attribs,
        mode,
        Some(indices),
    );
    judge_view(&view, targets.target(), 0, count)
}
