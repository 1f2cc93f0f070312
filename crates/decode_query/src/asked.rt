//! The tables that queries read.

use attrib_mgr::Attribs;
use buffer_mgr::Buffers;
use program_mgr::Programs;
use svc_raster::Raster;
use target_mgr::Targets;
use texture_mgr::Textures;

/// The tables that queries read.
#[derive(Clone, Copy)]
pub struct Asked<'a> {
    pub buffers: &'a Buffers,
    pub textures: &'a Textures,
    pub targets: &'a Targets,
    pub programs: &'a Programs,
    pub attribs: &'a Attribs,
    pub raster: &'a Raster,
}
