//! The lines that the program prints, and the numbers that it reads from lines.
//!
//! A line is made in a [`LineBuf`], which has room for 256 bytes and takes no memory: start reading there. The calls
//! `plain_line` to `lost_line` each make one whole line; a longer line is made of pieces by the calls of the buffer.
//! The bytes of each line stand in `specs/Lines.antt`.
#![tactic(auto)]

mod buffer;
mod lines;
mod reading;
#[cfg(test)]
mod tests;

pub use buffer::LineBuf;
pub use lines::{
    beyond_line, changed_line, done_line, filled_line, lost_line, number_line, plain_line,
    plan_line, point_line, point1_line, point3_line, salvaged_line, stop_line, votes_line,
};
pub use reading::{line_end, numbers_are_read_back, read_number};
