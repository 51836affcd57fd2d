//! Where a reader keeps what it reads: a table of records linked by index, a table of text and a stack, in fixed memory without a
//! heap.

#![tactic(auto)]

mod parts;
mod stack;
mod table;
mod theorems;

pub use parts::{Item, Key, Record, Shape, Span, Value};
pub use stack::{Full, Stack};
pub use table::Store;
pub use theorems::parts_stand_after;
