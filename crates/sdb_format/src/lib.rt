//! Byte formats: what it means that a reader is exact, formats built of smaller ones, and the readers of
//! numbers and texts that more than one format shares. Numbers stand with their highest byte first.
#![tactic(auto)]

mod fault;
mod laws;
mod letters;
mod numbers;
mod place;
mod text;

pub use fault::FormatFault;
pub use laws::{letters_are_a_format, numbers_are_formats, texts_are_a_format};
pub use letters::read_letters;
pub use numbers::{read_byte, read_u16, read_u32};
pub use text::read_text;
