//! The exit statuses of the program.

/// Everything was done.
pub const DONE: u8 = 0;

/// The words of the command line are not such as the program takes.
pub const USAGE: u8 = 2;

/// A line of the input is outside its grammar.
pub const BAD_LINE: u8 = 3;

/// The input could not be read.
pub const READ_FAULT: u8 = 4;

/// The output could not be written.
pub const WRITE_FAULT: u8 = 5;

/// A command was malformed.
pub const STOPPED: u8 = 6;

/// There was no memory for what had to be kept.
pub const NO_MEMORY: u8 = 7;

/// The driver was lost.
pub const LOST: u8 = 8;

/// The input is longer than the program takes.
pub const TOO_LONG: u8 = 9;
