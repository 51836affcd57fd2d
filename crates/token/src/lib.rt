//! What a token source is: the answers that it gives, the trait that every source keeps, and the texts of tokens.

#![tactic(auto)]

mod answer;
mod feed;
mod limit;
mod literal;

pub use answer::{Fault, Kind, Look, Place, SourceFault};
pub use feed::Source;
pub use limit::{LONGEST_INPUT, LONGEST_TEXT};
pub use literal::{digits_len, is_float, is_ident, is_symbol};
