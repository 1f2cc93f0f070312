//! Renderbuffers and framebuffers (OpenGL ES 2.0.25, section 4.4), as tables have them, and what is drawn to.
ghost use Rattle.std.specs.Prelude.{◌≡◌, Some};
ghost use Rattle.gl_plain.specs.subjects.Parameters.{attached_at};
ghost use Rattle.gl_plain.specs.subjects.Targets as d;

use crate::{ImagePlace, LevelView};
use gl_base::GlEnum;
use gl_base::enums::FRAMEBUFFER_COMPLETE;
use gl_base::target_enums::{
    COLOR_ATTACHMENT0, DEPTH_ATTACHMENT, DEPTH_COMPONENT16, FRAMEBUFFER_INCOMPLETE_ATTACHMENT,
    FRAMEBUFFER_INCOMPLETE_DIMENSIONS, FRAMEBUFFER_INCOMPLETE_MISSING_ATTACHMENT, RGB5_A1, RGB565,
    RGBA4, STENCIL_ATTACHMENT, STENCIL_INDEX8,
};
use gl_base::texture_enums::{ALPHA, LUMINANCE_ALPHA, RGB, RGBA};

/// A renderbuffer object (section 4.4.3): its image, once it was given storage. Its pixels have a format and no type, for which NONE stands.
#[derive(Clone, Copy, Debug, PartialEq, Eq)]
pub struct Renderbuffer {
    pub image: Option<LevelView>,
}

/// What is attached to a framebuffer at a point (section 4.4.2): nothing, level 0 of a texture, or a renderbuffer. An object is known by its
/// number, which is never used again, so that an attachment to one that was deleted stays dead; the name is the one that it was attached by.
#[derive(Clone, Copy, Debug, PartialEq, Eq)]
pub enum Attached {
    Nothing,
    Texture {
        object: u64,
        name: u32,
        /// TEXTURE_2D, or a face of a cube map.
        face: GlEnum,
    },
    Renderbuffer {
        object: u64,
        name: u32,
    },
}

/// A framebuffer object (section 4.4.1): what is attached at its three points.
#[derive(Clone, Copy, Debug, PartialEq, Eq)]
pub struct Framebuffer {
    pub colour: Attached,
    pub depth: Attached,
    pub stencil: Attached,
}

/// An image that a driver keeps: a level of a texture, or that of the renderbuffer with this number.
#[derive(Clone, Copy, Debug, PartialEq, Eq)]
pub enum AnyImage {
    Level(ImagePlace),
    Renderbuffer(u64),
}

/// What is drawn to: the default framebuffer, or the images that are attached to the framebuffer that is bound.
#[derive(Clone, Copy, Debug, PartialEq, Eq)]
pub enum Target {
    Default,
    Bound {
        colour: Option<AnyImage>,
        depth: Option<AnyImage>,
        stencil: Option<AnyImage>,
    },
}

/// What the completeness of a framebuffer looks at of an attachment (section 4.4.5). A renderbuffer without storage has the sides 0.
#[derive(Clone, Copy, Debug, PartialEq, Eq)]
pub enum AttachView {
    Nothing,
    /// The object was deleted.
    Dead,
    /// The image of a texture, if it is there.
    Texture(Option<LevelView>),
    Renderbuffer {
        format: GlEnum,
        width: u32,
        height: u32,
    },
}

impl Attached {
    /// Whether it is an attachment to the texture, or else to the renderbuffer, with this number.
    pub fn is_to(self, texture: bool, number: u64) -> bool
        ensures { result ≡ d.is_to texture number self }
    {
        match self {
            Attached::Nothing => false,
            Attached::Texture { object, .. } => texture && object == number,
            Attached::Renderbuffer { object, .. } => !texture && object == number,
        }
    }

    /// The attachment without that object.
    fn without(self, texture: bool, number: u64) -> Attached
        ensures { result ≡ d.detached texture number self }
    {
        if self.is_to(texture, number) {
            Attached::Nothing
        } else {
            self
        }
    }

    /// The image that it names, if any.
    pub fn image(self) -> Option<AnyImage>
        ensures { result ≡ d.image_attached self }
    {
        match self {
            Attached::Nothing => None,
            Attached::Texture { object, face, .. } => Some(AnyImage::Level(ImagePlace {
                texture: object,
                face,
                level: 0,
            })),
            Attached::Renderbuffer { object, .. } => Some(AnyImage::Renderbuffer(object)),
        }
    }
}

impl Framebuffer {
    /// Nothing is attached to a framebuffer as it opens.
    pub fn new() -> Framebuffer
        ensures { result ≡ d.new_framebuffer }
    {
        Framebuffer {
            colour: Attached::Nothing,
            depth: Attached::Nothing,
            stencil: Attached::Nothing,
        }
    }

    /// What is attached at a point, which is one of the three.
    pub fn attached(self, point: GlEnum) -> Attached
        ensures { result ≡ attached_at self point }
    {
        match point {
            COLOR_ATTACHMENT0 => self.colour,
            DEPTH_ATTACHMENT => self.depth,
            _ => self.stencil,
        }
    }

    /// The framebuffer with this at a point, which is one of the three.
    pub fn with_attached(self, point: GlEnum, image: Attached) -> Framebuffer
        ensures { result ≡ d.with_attached self point image }
    {
        match point {
            COLOR_ATTACHMENT0 => Framebuffer {
                colour: image,
                ..self
            },
            DEPTH_ATTACHMENT => Framebuffer {
                depth: image,
                ..self
            },
            _ => Framebuffer {
                stencil: image,
                ..self
            },
        }
    }

    /// The framebuffer without what is attached of the texture, or else of the renderbuffer, with this number.
    pub fn without(self, texture: bool, number: u64) -> Framebuffer
        ensures { result ≡ d.without_attached texture number self }
    {
        Framebuffer {
            colour: self.colour.without(texture, number),
            depth: self.depth.without(texture, number),
            stencil: self.stencil.without(texture, number),
        }
    }

    /// What is drawn to while it is bound.
    pub fn target(self) -> Target
        ensures { result ≡ d.target_by (Some self) }
    {
        Target::Bound {
            colour: self.colour.image(),
            depth: self.depth.image(),
            stencil: self.stencil.image(),
        }
    }
}

/// Whether the enum is one of the three points at which an image is attached (section 4.4.2).
pub fn is_attachment(point: GlEnum) -> bool
    ensures { result ≡ d.is_attachment point }
{
    point == COLOR_ATTACHMENT0 || point == DEPTH_ATTACHMENT || point == STENCIL_ATTACHMENT
}

/// Whether the image is of the texture with this number.
fn is_of_texture(number: u64, image: Option<AnyImage>) -> bool
    ensures { result ≡ d.is_of_texture number image }
{
    match image {
        Some(AnyImage::Level(place)) => place.texture == number,
        Some(AnyImage::Renderbuffer(_)) | None => false,
    }
}

impl Target {
    /// Whether an image of the texture with this number is attached (section 4.4.4).
    pub fn is_texture_attached(self, number: u64) -> bool
        ensures { result ≡ d.is_texture_attached self number }
    {
        match self {
            Target::Default => false,
            Target::Bound {
                colour,
                depth,
                stencil,
            } => {
                is_of_texture(number, colour)
                    || is_of_texture(number, depth)
                    || is_of_texture(number, stencil)
            }
        }
    }

    /// Whether colours go to an image of the texture with this number (section 4.4.4).
    pub fn is_colour_of(self, number: u64) -> bool
        ensures { result ≡ d.is_colour_of self number }
    {
        match self {
            Target::Default => false,
            Target::Bound { colour, .. } => is_of_texture(number, colour),
        }
    }
}

/// Whether a renderbuffer of this format takes colours (section 4.4.3).
pub fn is_colour_storage(format: GlEnum) -> bool
    ensures { result ≡ d.is_colour_storage format }
{
    format == RGBA4 || format == RGB5_A1 || format == RGB565
}

/// Whether the enum is a format of renderbuffers (section 4.4.3).
pub fn is_storage(format: GlEnum) -> bool
    ensures { result ≡ d.is_storage format }
{
    is_colour_storage(format) || format == DEPTH_COMPONENT16 || format == STENCIL_INDEX8
}

/// Whether pixels of the format have an alpha (tables 3.3 and 4.5).
pub fn has_alpha(format: GlEnum) -> bool
    ensures { result ≡ d.has_alpha format }
{
    format == ALPHA
        || format == LUMINANCE_ALPHA
        || format == RGBA
        || format == RGBA4
        || format == RGB5_A1
}

/// A point of a framebuffer, by what it takes (section 4.4.5).
#[derive(Clone, Copy, Debug, PartialEq, Eq)]
enum Point {
    Colour,
    Depth,
    Stencil,
}

impl Point {
    ghost use Rattle.gl_plain.specs.subjects.Points.{takes_texture, takes_storage};

    /// Whether a texture of this format suits it.
    fn takes_texture(self, format: GlEnum) -> bool
        ensures { result ≡ takes_texture self format }
    {
        match self {
            Point::Colour => format == RGB || format == RGBA,
            Point::Depth | Point::Stencil => false,
        }
    }

    /// Whether a renderbuffer of this format suits it.
    fn takes_storage(self, format: GlEnum) -> bool
        ensures { result ≡ takes_storage self format }
    {
        match self {
            Point::Colour => is_colour_storage(format),
            Point::Depth => format == DEPTH_COMPONENT16,
            Point::Stencil => format == STENCIL_INDEX8,
        }
    }
}

impl AttachView {
    ghost use Rattle.gl_plain.specs.subjects.Points.{takes_texture, takes_storage};

    /// Whether it can't be drawn to at a point: it is dead or not there, has no pixels, or has a format that does not suit the point.
    fn fails_at(&self, point: Point) -> bool
        ensures { result ≡ d.fails_at (takes_texture point) (takes_storage point) self.now }
    {
        match *self {
            AttachView::Nothing => false,
            AttachView::Dead | AttachView::Texture(None) => true,
            AttachView::Texture(Some(view)) => {
                view.width == 0 || view.height == 0 || !point.takes_texture(view.format)
            }
            AttachView::Renderbuffer {
                format,
                width,
                height,
            } => width == 0 || height == 0 || !point.takes_storage(format),
        }
    }

    /// Whether nothing is attached.
    fn is_nothing(&self) -> bool
        ensures { result ≡ d.is_nothing self.now }
    {
        match self {
            AttachView::Nothing => true,
            AttachView::Dead | AttachView::Texture(_) | AttachView::Renderbuffer { .. } => false,
        }
    }

    /// The sides of the image, if there are any to compare.
    fn sides(&self) -> Option<(u32, u32)>
        ensures { result ≡ d.sides_of self.now }
    {
        match *self {
            AttachView::Nothing | AttachView::Dead | AttachView::Texture(None) => None,
            AttachView::Texture(Some(view)) => Some((view.width, view.height)),
            AttachView::Renderbuffer { width, height, .. } => Some((width, height)),
        }
    }
}

/// Whether two images have other sides.
fn differ(one: Option<(u32, u32)>, other: Option<(u32, u32)>) -> bool
    ensures { result ≡ d.differ one other }
{
    match (one, other) {
        (Some(one), Some(other)) => !(one.0 == other.0 && one.1 == other.1),
        _ => false,
    }
}

/// Whether a framebuffer with these attachments can be drawn to, and else why not (section 4.4.5): the first of these that holds. An attachment
/// fails: FRAMEBUFFER_INCOMPLETE_ATTACHMENT. Nothing is attached: FRAMEBUFFER_INCOMPLETE_MISSING_ATTACHMENT. Sides differ:
/// FRAMEBUFFER_INCOMPLETE_DIMENSIONS. Else it is FRAMEBUFFER_COMPLETE.
pub fn status_of(colour: &AttachView, depth: &AttachView, stencil: &AttachView) -> u32
    ensures { result ≡ d.status_of colour.now depth.now stencil.now }
{
    if colour.fails_at(Point::Colour)
        || depth.fails_at(Point::Depth)
        || stencil.fails_at(Point::Stencil)
    {
        return FRAMEBUFFER_INCOMPLETE_ATTACHMENT;
    }
    if colour.is_nothing() && depth.is_nothing() && stencil.is_nothing() {
        return FRAMEBUFFER_INCOMPLETE_MISSING_ATTACHMENT;
    }
    if differ(colour.sides(), depth.sides())
        || differ(colour.sides(), stencil.sides())
        || differ(depth.sides(), stencil.sides())
    {
        return FRAMEBUFFER_INCOMPLETE_DIMENSIONS;
    }
    FRAMEBUFFER_COMPLETE
}
