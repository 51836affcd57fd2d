// The parser: what it reads from, and where it keeps what it reads.
ghost use Rattle.std.specs.Prelude.{◌≡◌};
ghost use Rattle.store.specs.Held.{held};

use store::Store;
use token::Source;

mod constants;
mod keys;
mod names;
mod nesting;
mod option_names;
mod options;
mod ranges;
mod reserved;
mod separated;
mod strings;
mod types;

/// Reads productions of the grammar from a source, and appends their texts and records to a store.
#[derive(Drop)]
pub struct Parser<'s, 'o, S: Source> {
    source: &'s mut S,
    out: &'o mut Store,
}

impl<'s, 'o, S: Source> Parser<'s, 'o, S> {
    /// A parser of what is ahead of the source, which keeps what it reads in the store.
    pub fn new(source: &'s mut S, out: &'o mut Store) -> Parser<'s, 'o, S>
        ensures ahead { S.ahead result.source.now ≡ S.ahead source.old }
        ensures kept { held result.out.now ≡ held out.old }
        ensures same_source { result.source.ghost_name ≡ source.entry.ghost_name }
        ensures same_store { result.out.ghost_name ≡ out.entry.ghost_name }
    {
        Parser { source, out }
    }
}
