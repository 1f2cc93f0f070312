//! A driver in memory that answers in order and keeps the journal of its calls, each of which met its condition.
#![tactic(auto)]

mod buffers;
mod counts;
mod mipmaps;
mod name_space;
mod ordered;
mod said;
mod strict;
mod tables;
mod targets;
mod textures;

pub use strict::StrictDriver;
