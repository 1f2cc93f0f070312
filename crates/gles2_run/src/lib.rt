//! The program as one call: words and a source in, texts to a sink, a status out.
#![tactic(auto)]

mod closing;
mod desk;
mod puts;
mod top;
mod working;

pub use desk::Desk;
pub use report_text::End;
pub use top::run;
