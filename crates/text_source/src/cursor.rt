// How far a text has been read.
ghost use Rattle.std.specs.Prelude.{◌≡◌, ◌+◌, ◌^◌, ◌<◌, ◌≤◌, length, take, drop};
ghost use Rattle.token.specs.Runs.{run};
ghost use Rattle.text_source.specs.Classes.{is_blank};
ghost use Rattle.text_source.specs.Text.{past, past_all, most_bytes};

use crate::scan::blank_len;
use token::Place;

/// What is left of a text, and the place where it begins. Neither number of the place outgrows the bytes before it.
#[derive(Debug, Clone, Copy, PartialEq, Eq)]
pub(crate) struct Cursor<'a> {
    pub(crate) rest: &'a [u8],
    pub(crate) place: Place,
    ghost line: { place.line + length rest.now ≤ most_bytes + 1 },
    ghost column: { place.column + length rest.now ≤ most_bytes + 1 },
}

fn step(p: Place, b: u8) -> Place
    requires { (p.line + 1 < 2 ^ 32) × (p.column + 1 < 2 ^ 32) }
    ensures value { result ≡ past p b }
    ensures line { result.line ≤ p.line + 1 }
    ensures column { result.column ≤ p.column + 1 }
{
    if b == b'\n' {
        Place {
            line: p.line + 1,
            column: 1,
        }
    } else {
        Place {
            line: p.line,
            column: p.column + 1,
        }
    }
}

impl<'a> Cursor<'a> {
    /// Past the first `n` bytes.
    pub(crate) fn skip(&self, n: usize) -> Cursor<'a>
        requires { n ≤ length self.now.rest.now }
        ensures rest { result.rest.now ≡ drop n self.now.rest.now }
        ensures place { result.place ≡ past_all self.now.place (take n self.now.rest.now) }
    {
        let (skipped, rest) = self.rest.split_at(n);
        let mut place = self.place;
        for b in skipped {
            place = step(place, *b);
        }
        Cursor { rest, place }
    }

    /// Past the blanks at the front, all at once: one after the other, each would wait for the class of the one before.
    pub(crate) fn past_blanks(&self) -> Cursor<'a>
        ensures rest { result.rest.now ≡ drop (run is_blank self.now.rest.now) self.now.rest.now }
        ensures place { result.place ≡ past_all self.now.place (take (run is_blank self.now.rest.now) self.now.rest.now) }
    {
        self.skip(blank_len(self.rest))
    }
}
