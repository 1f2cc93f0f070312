//! What a run prints: its replies, the driver calls it made, and how it ended.
#![tactic(auto)]

mod arguments;
mod calls;
mod end;
mod image_calls;
mod journal;
mod replies;
pub mod statuses;
#[cfg(test)]
mod tests;
mod text;
mod values;
mod words;

pub use end::{End, end_line};
pub use journal::journal_line;
pub use replies::reply_line;
pub use text::{Line, Text};
