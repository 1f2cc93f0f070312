//! What comes of judging a command.
ghost use Rattle.std.specs.Prelude.{◌≡◌};
ghost use Rattle.decode_draw.specs.Judged.{nothing};

use gl_plain::{DrawPlan, Target, UnitView};

/// A command that is not refused: what it draws, the texture units as they were looked at, and what it draws to.
#[derive(Clone, Copy)]
pub struct Judged {
    pub plan: DrawPlan,
    pub units: [UnitView; 8],
    /// What is drawn to; the default framebuffer where nothing is.
    pub target: Target,
}

impl Judged {
    /// A command that draws nothing, which looked at no unit.
    pub fn nothing() -> Judged
        ensures { result ≡ nothing }
    {
        Judged {
            plan: DrawPlan::none(),
            units: [UnitView::default(); 8],
            target: Target::Default,
        }
    }
}
