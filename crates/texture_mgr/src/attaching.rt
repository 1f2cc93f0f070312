//! Textures whose images are attached to framebuffers (OpenGL ES 2.0.25, sections 4.4.2 and 4.4.5).
ghost use Rattle.std.specs.Prelude.{◌≡◌};
ghost use Rattle.std.specs.FinMap as map;
ghost use Rattle.gl_plain.specs.subjects.Targets as plain;
ghost use Rattle.texture_mgr.specs.Tables.{tables};

use crate::enums::suits;
use crate::textures::Textures;
use gl_base::GlEnum;
use gl_plain::{AttachView, ImagePlace, Name};

impl Textures {
    /// An image that is attached, as completeness looks at it (section 4.4.5). It is dead where its texture was deleted.
    #[tactic(auto, using(crate::proofs::MappedValues::mapped))]
    pub fn attach_view(&self, place: ImagePlace) -> AttachView
        ensures { result ≡ plain.texture_view (map.get (tables self.now).objects.by_number place.texture) place }
    {
        match self.objects.by_number.get(place.texture) {
            Some(texture) => AttachView::Texture(texture.level(place.face, place.level)),
            None => AttachView::Dead,
        }
    }

    /// Whether a name is that of a texture object that has images on this face, TEXTURE_2D or one of a cube map (section 4.4.2).
    #[tactic(auto, using(crate::proofs::MappedValues::mapped))]
    pub fn is_attachable(&self, face: GlEnum, name: Option<Name>) -> bool
        ensures { result ≡ plain.is_attachable (tables self.now) face name }
    {
        let Some(name) = name else {
            return false;
        };
        match self.objects.by_number.get(name.number) {
            Some(texture) => name.is_object && suits(texture.is_cube(), face),
            None => false,
        }
    }
}
