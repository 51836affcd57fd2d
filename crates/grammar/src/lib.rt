//! What a description file means: the definitions of the reader, the model, printing, places, find and the ledger, and the small
//! kinds that the other crates share.

#![tactic(auto)]

mod fault;
mod kinds;
mod theorems;

pub use fault::{CatalogueFault, ParserError, ReadFault, ReaderFault};
pub use kinds::{ImportVis, Rule, Scalar, Syntax};
pub use theorems::{examples_stand, reading_goes_on};
