// What can be asked of a source over a tape.
ghost use Rattle.std.specs.Prelude.{◌≡◌, ◌+◌, ◌≤◌, length};
ghost use Rattle.tape_source.specs.Tape.{most_words, scan, tape};
ghost use Rattle.tape_source.specs.Means.{means, keeps_law};

use super::TapeSource;
use crate::judge::judge;
use token::{Fault, LONGEST_INPUT, Look, Place, Source, SourceFault};

impl<'a> TapeSource<'a> {
    /// A source of all tokens of the tape.
    pub fn new(words: &'a [u32]) -> TapeSource<'a>
        ensures { means result ≡ tape words.now }
    {
        if words.len() > LONGEST_INPUT {
            return TapeSource {
                rest: &words[..0],
                at: 0,
                next: Err(Fault::InputTooLong),
            };
        }
        TapeSource::read(words, 0)
    }

    // From word `at` on, where `rest` stands.
    fn read(rest: &'a [u32], at: usize) -> TapeSource<'a>
        requires { at + length rest.now ≤ most_words }
        ensures { means result ≡ scan 0 at rest.now }
    {
        TapeSource {
            rest,
            at,
            next: judge(rest),
        }
    }
}

// The answers are matches like the text's: a trait for the two spans, with its law, would be longer than they are.
impl<'a> Source for TapeSource<'a> {
    ghost ahead = { means };

    ghost formed = { keeps_law };

    fn look(&self) -> Result<Look, SourceFault> {
        let place = Place {
            line: 0,
            column: self.at as u32,
        };
        match self.next {
            Ok(Some(span)) => Ok(Look {
                kind: span.kind(),
                len: span.len(),
                place,
            }),
            Ok(None) => Ok(Look::end(place)),
            Err(fault) => Err(SourceFault { fault, place }),
        }
    }

    fn number(&self) -> u64 {
        match self.next {
            Ok(Some(span)) => span.value(),
            Ok(None) | Err(_) => 0,
        }
    }

    fn byte(&self, k: usize) -> u8 {
        match self.next {
            Ok(Some(span)) => span.byte(&self.rest[1..], k),
            Ok(None) | Err(_) => 0,
        }
    }

    fn take(&mut self) {
        if let Ok(Some(span)) = self.next {
            let width = span.width();
            *self = TapeSource::read(&self.rest[width..], self.at + width);
        }
    }
}
