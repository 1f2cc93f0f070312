//! The commands on the fixed state, and those that clear and draw: each is one step of OpenGL ES, with its driver calls.
#![tactic(auto)]

mod command;
mod drawing;
mod judged;
mod judging;
mod sampled;
mod units;
mod views;

pub use command::{draw_command, execute_draw};
