// Lines of text, given as bytes: gathered byte by byte, read field by field; numbers and hexadecimal digits in them.
#![tactic(auto)]

mod buffer;
mod command;
mod decimal;
mod hexadecimal;
mod line;
#[cfg(test)]
mod tests;

pub use buffer::LineBuffer;
pub use command::{Commands, FromWords, Misread, NoCommand, integer};
pub use decimal::{number, number_up_to, signed};
pub use hexadecimal::{hex, hex_bytes, hex_text};
pub use line::Fields;

/// Bytes of a line that the programs read: the longest message in hexadecimal, and room for the rest.
pub const LONGEST_LINE: usize = 4096;
