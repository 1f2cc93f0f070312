//! The fixed state of rasterization and of fragments, as tables have it (OpenGL ES 2.0.25, sections 2.12, 3.4, 3.5, 4.1, 4.2 and 5.2).
ghost use Rattle.std.specs.Prelude.{◌≡◌};
ghost use Rattle.gl_plain.specs.subjects.Raster.{opening_alignments, opening_raster};

use gl_base::enums::ONE;
use gl_base::raster_enums::{ALWAYS, BACK, CCW, DONT_CARE, FUNC_ADD, KEEP, LESS, ONE_FACTOR, ZERO};

/// What a command takes as one of its words.
#[derive(Clone, Copy, Debug, PartialEq, Eq)]
pub enum WordRule {
    /// Any word.
    Any,
    /// A boolean, which is kept as 0 or 1.
    Flag,
    /// A float, which is kept within 0 and 1.
    Fraction,
    /// A float above 0.
    Width,
    /// One of the nine capabilities.
    Capability,
    BlendEquation,
    SourceFactor,
    DestinationFactor,
    /// FRONT, BACK or FRONT_AND_BACK.
    Face,
    /// NEVER to ALWAYS.
    Function,
    StencilOperation,
    /// CW or CCW.
    Winding,
    HintTarget,
    HintMode,
    /// UNPACK_ALIGNMENT or PACK_ALIGNMENT.
    AlignmentName,
    /// 1, 2, 4 or 8.
    Alignment,
    /// A signed number that is not negative.
    Side,
    /// The same, which is kept up to the greatest side of a viewport.
    ViewportSide,
    /// A signed number, which is kept within the values of a stencil buffer.
    Reference,
}

/// Whether each capability is enabled, as 0 or 1.
#[derive(Clone, Copy, Debug, PartialEq, Eq)]
pub struct Capabilities {
    pub cull_face: u32,
    pub blend: u32,
    pub dither: u32,
    pub stencil_test: u32,
    pub depth_test: u32,
    pub scissor_test: u32,
    pub polygon_offset_fill: u32,
    pub sample_alpha_to_coverage: u32,
    pub sample_coverage: u32,
}

/// The words of the stencil test for one kind of faces (section 4.1.4).
#[derive(Clone, Copy, Debug, PartialEq, Eq)]
pub struct StencilSide {
    pub function: u32,
    pub reference: u32,
    /// Which bits are compared.
    pub value_mask: u32,
    /// Which bits are written.
    pub write_mask: u32,
    /// What is done where the stencil test fails.
    pub fail: u32,
    /// What is done where the depth test fails.
    pub depth_fail: u32,
    /// What is done where both pass.
    pub depth_pass: u32,
}

/// The words of the fixed state, as they were set.
#[derive(Clone, Copy, Debug, PartialEq, Eq)]
pub struct RasterWords {
    pub capabilities: Capabilities,
    /// Red, green, blue, alpha, as float patterns; so with all colours.
    pub blend_color: [u32; 4],
    /// Of colours, and of alphas.
    pub blend_equation: [u32; 2],
    /// Source and destination of colours, and then of alphas.
    pub blend_factors: [u32; 4],
    pub clear_color: [u32; 4],
    pub clear_depth: u32,
    pub clear_stencil: u32,
    /// Whether red, green, blue and alpha are written.
    pub color_mask: [u32; 4],
    pub cull_face_mode: u32,
    pub depth_function: u32,
    pub depth_mask: u32,
    /// Near and far, as float patterns.
    pub depth_range: [u32; 2],
    pub front_face: u32,
    pub mipmap_hint: u32,
    pub line_width: u32,
    /// Factor and units, as float patterns.
    pub polygon_offset: [u32; 2],
    /// A float pattern, and whether the coverage is inverted.
    pub sample_coverage: [u32; 2],
    /// First column and row, and sides; so with the viewport.
    pub scissor: [u32; 4],
    pub stencil_front: StencilSide,
    pub stencil_back: StencilSide,
    pub viewport: [u32; 4],
}

/// Where rows of pixels begin in memory: at multiples of 1, 2, 4 or 8 bytes (sections 3.6.1 and 4.3.1).
#[derive(Clone, Copy, Debug, PartialEq, Eq)]
pub struct Alignments {
    /// Of pixels that are given.
    pub unpack: u32,
    /// Of pixels that are read.
    pub pack: u32,
}

impl StencilSide {
    /// The opening words: every value passes and stays.
    const OPENING: StencilSide = StencilSide {
        function: ALWAYS.0,
        reference: 0,
        value_mask: u32::MAX,
        write_mask: u32::MAX,
        fail: KEEP.0,
        depth_fail: KEEP.0,
        depth_pass: KEEP.0,
    };
}

impl Capabilities {
    /// At the opening colours are dithered, and nothing else is enabled.
    const OPENING: Capabilities = Capabilities {
        cull_face: 0,
        blend: 0,
        dither: 1,
        stencil_test: 0,
        depth_test: 0,
        scissor_test: 0,
        polygon_offset_fill: 0,
        sample_alpha_to_coverage: 0,
        sample_coverage: 0,
    };
}

impl RasterWords {
    /// The opening words, for a default framebuffer of these sides.
    pub fn new(width: u32, height: u32) -> RasterWords
        ensures { result ≡ opening_raster width height }
    {
        RasterWords {
            capabilities: Capabilities::OPENING,
            blend_color: [0; 4],
            blend_equation: [FUNC_ADD.0; 2],
            blend_factors: [ONE_FACTOR.0, ZERO.0, ONE_FACTOR.0, ZERO.0],
            clear_color: [0; 4],
            clear_depth: ONE,
            clear_stencil: 0,
            color_mask: [1; 4],
            cull_face_mode: BACK.0,
            depth_function: LESS.0,
            depth_mask: 1,
            depth_range: [0, ONE],
            front_face: CCW.0,
            mipmap_hint: DONT_CARE.0,
            line_width: ONE,
            polygon_offset: [0; 2],
            sample_coverage: [ONE, 0],
            scissor: [0, 0, width, height],
            stencil_front: StencilSide::OPENING,
            stencil_back: StencilSide::OPENING,
            viewport: [0, 0, width, height],
        }
    }
}

impl Alignments {
    /// The opening alignments, 4 bytes each.
    pub fn new() -> Alignments
        ensures { result ≡ opening_alignments }
    {
        Alignments { unpack: 4, pack: 4 }
    }
}
