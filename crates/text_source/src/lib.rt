//! A token source over the bytes of a text.
//!
//! Lines and columns start at 1, columns count bytes, and byte 10 ends a line. Blanks and comments are skipped. A text
//! has at most 16,777,215 bytes, and a token's text at most 1,023. A fault stands where its token or comment begins, and
//! the end just past the last byte.

#![tactic(auto)]

mod class;
mod cursor;
mod examples;
mod front;
mod lexer;
mod numeral;
mod scan;
mod source;

pub use examples::text_examples_stand;
pub use source::TextSource;
