// A source over a tape of words.
ghost use Rattle.std.specs.Prelude.{◌≡◌, ◌+◌, ◌≤◌, T, true, length};
ghost use Rattle.token.specs.Law.{lawful};
ghost use Rattle.tape_source.specs.Tape.{most_words};
ghost use Rattle.tape_source.specs.Front.{found, holds};

use crate::front::Span;
use token::Fault;

mod calls;

/// A source of the tokens of a tape.
// It has no Model: the law of `Source` speaks of every value of the type, and a model's value carries no proof.
#[derive(Drop)]
pub struct TapeSource<'a> {
    rest: &'a [u32],
    at: usize,
    next: Result<Option<Span>, Fault>,
    ghost near: { at + length rest.now ≤ most_words },
    ghost whole: { holds next (length rest.now) ≡ true },
    ghost law: { T (lawful (found at rest.now next)) },
}
