// A text that is being read.
ghost use Rattle.std.specs.Prelude.{◌≡◌, true, length};
ghost use Rattle.token.specs.Law.{lawful};
ghost use Rattle.text_source.specs.Found.{holds, found};

use crate::cursor::Cursor;
use crate::front::Span;
use token::Fault;

mod calls;

/// A source over the bytes of a text.
// It has no Model: the law of `Source` speaks of every value of the type, and a model's value carries no proof.
#[derive(Drop)]
pub struct TextSource<'a> {
    cursor: Cursor<'a>,
    next: Result<Option<Span>, Fault>,
    ghost whole: { holds next (length cursor.rest.now) ≡ true },
    ghost law: { lawful (found cursor.place cursor.rest.now next) ≡ true },
}
