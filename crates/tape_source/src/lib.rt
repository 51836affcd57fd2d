//! A token source over a tape of 32-bit words.

#![tactic(auto)]

mod examples;
mod front;
mod judge;
mod kind;
mod tape;
mod text;
mod words;

pub use examples::tape_examples_stand;
pub use tape::TapeSource;
