// Strings with their escapes decoded, byte by byte.
mod digits;
mod escapes;
mod utf8;

use self::escapes::{Turn, Within};
use self::utf8::Utf8;
use store::Store;

/// Where a decoder of a string stands, in an escape and in a character.
#[derive(Debug, Clone, Copy, PartialEq, Eq)]
pub struct Decoder {
    pub within: Within,
    pub utf8: Utf8,
}

impl Utf8 {
    ghost use Rattle.store.specs.Held.{held};
    ghost use Rattle.reader.specs.Escapes.{listed};
    ghost use Rattle.reader.specs.Decoding.{Appends};

    // Keeps a decoded byte, if there is one, unless it is refused.
    fn append(self, byte: Option<u8>, out: &mut Store) -> Option<Utf8>
        ensures { Appends (held out.old) (held out.new) result self (listed byte) }
    {
        let Some(b) = byte else {
            return Some(self);
        };
        let after = self.next(b)?;
        out.push(b);
        Some(after)
    }
}

// The store goes beside the decoder, which is a value: in a struct that holds both, each clause would have to say that the store
// which is lent to it is still the same one.
impl Decoder {
    ghost use Rattle.std.specs.Prelude.{◌≡◌};
    ghost use Rattle.store.specs.Held.{held};
    ghost use Rattle.reader.specs.Escapes.{within_of, completed};
    ghost use Rattle.reader.specs.Decoding.{whole, passed, decode_step, decode_end, Steps, Decodes};

    // Before the first byte.
    pub fn new() -> Decoder
        ensures { result ≡ record { within = Within.Plain; utf8 = whole } }
    {
        Decoder {
            within: Within::Plain,
            utf8: Utf8::WHOLE,
        }
    }

    // Keeps the bytes that are complete, unless they are refused.
    fn keep(self, turn: Turn, out: &mut Store) -> Option<Decoder>
        ensures { Steps (held out.old) (held out.new) result (passed self.utf8 (completed turn) (within_of turn.within)) }
    {
        let middle = self.utf8.append(turn.first, out)?;
        let utf8 = middle.append(turn.second, out)?;
        Some(Decoder {
            within: turn.within,
            utf8,
        })
    }

    // Decodes one byte more, unless it is refused.
    pub fn next(self, c: u8, out: &mut Store) -> Option<Decoder>
        ensures { Steps (held out.old) (held out.new) result (decode_step (within_of self.within) self.utf8 c) }
    {
        let turn = self.within.turn(c)?;
        self.keep(turn, out)
    }

    // Keeps what is complete at the end of the string, unless the end is refused.
    pub fn finish(self, out: &mut Store) -> Option<()>
        ensures { Decodes (held out.old) (held out.new) result (decode_end (within_of self.within) self.utf8) }
    {
        let last = self.within.finish()?;
        let end = self.keep(last, out)?;
        end.utf8.is_whole().then_some(())
    }
}
