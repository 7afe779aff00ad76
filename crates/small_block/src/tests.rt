//! Streams over the small code. The texts are worked by hand. Cases are tables, and all cases of a table share a room, so that
//! a room is seen to serve again after any answer.

mod decoding;
mod encoding;
mod salvaging;
mod short_files;
