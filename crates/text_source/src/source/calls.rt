ghost use Rattle.std.specs.Prelude.{◌≡◌};
ghost use Rattle.text_source.specs.Text.{stream, text};
ghost use Rattle.text_source.specs.Meaning.{means, all_formed};

use super::TextSource;
use crate::cursor::Cursor;
use crate::front::Front;
use crate::lexer::Begun;
use token::{Fault, LONGEST_INPUT, Look, Place, Source, SourceFault};

impl<'a> TextSource<'a> {
    /// The source of the tokens of a text.
    #[tactic(auto, using(crate::proofs::Streams::too_long, crate::proofs::Streams::not_too_long))]
    pub fn new(bytes: &'a [u8]) -> TextSource<'a>
        ensures { means result ≡ text bytes.now }
    {
        if bytes.len() > LONGEST_INPUT {
            let cursor = Cursor {
                rest: &bytes[..0],
                place: Place { line: 0, column: 0 },
            };
            return TextSource {
                cursor,
                next: Err(Fault::InputTooLong),
            };
        }
        TextSource::seek(Cursor {
            rest: bytes,
            place: Place { line: 1, column: 1 },
        })
    }

    // From the cursor on, where gaps may come first.
    fn seek(from: Cursor<'a>) -> TextSource<'a>
        ensures { means result ≡ stream 0 from.entry.place from.entry.rest.now }
    {
        let mut cursor = from.past_blanks();
        while let Some(text) = Begun::new(cursor.rest) {
            match text.front() {
                Ok(Front::Gap(more)) => cursor = cursor.skip(more + 1).past_blanks(),
                Ok(Front::Token(span)) => return TextSource {
                    cursor,
                    next: Ok(Some(span)),
                },
                Err(fault) => return TextSource {
                    cursor,
                    next: Err(fault),
                },
            }
        }
        TextSource {
            cursor,
            next: Ok(None),
        }
    }
}

// The answers are matches like the tape's: a trait for the two spans, with its law, would be longer than they are.
impl<'a> Source for TextSource<'a> {
    ghost ahead = { means };

    ghost formed = { all_formed };

    fn look(&self) -> Result<Look, SourceFault> {
        let place = self.cursor.place;
        match self.next {
            Ok(Some(span)) => Ok(Look {
                kind: span.kind(),
                len: span.text(self.cursor.rest).len(),
                place,
            }),
            Ok(None) => Ok(Look::end(place)),
            Err(fault) => Err(SourceFault { fault, place }),
        }
    }

    fn number(&self) -> u64 {
        match self.next {
            Ok(Some(span)) => span.value(),
            Ok(None) | Err(_) => 0,
        }
    }

    fn byte(&self, k: usize) -> u8 {
        match self.next {
            Ok(Some(span)) => span.text(self.cursor.rest).get(k).copied().unwrap_or(0),
            Ok(None) | Err(_) => 0,
        }
    }

    fn take(&mut self) {
        if let Ok(Some(span)) = self.next {
            *self = TextSource::seek(self.cursor.skip(span.width()));
        }
    }
}
