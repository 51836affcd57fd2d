// Escapes: where a reader of an undecoded string stands, and what one byte more of it gives.
use super::digits::Below;

/// Where a reader of an undecoded string stands: outside any escape, after a backslash, after `\x`, or after digits of this value.
#[derive(Debug, Clone, Copy, PartialEq, Eq)]
pub enum Within {
    Plain,
    Backslash,
    HexDue,
    HexOne(Below<16>),
    OctalOne(Below<8>),
    OctalTwo(Below<64>),
}

/// What one byte of an undecoded string gives: at most two bytes, and where the reader stands then.
#[derive(Debug, Clone, Copy, PartialEq, Eq)]
pub struct Turn {
    pub first: Option<u8>,
    pub second: Option<u8>,
    pub within: Within,
}

// A turn that completes no byte.
impl From<Within> for Turn {
    ghost use Rattle.std.specs.Prelude.{◌≡◌, None};

    ghost from_gives = { λ w t. t ≡ record { first = None; second = None; within = w } };

    fn from(within: Within) -> Turn {
        Turn {
            first: None,
            second: None,
            within,
        }
    }
}

impl Turn {
    ghost use Rattle.std.specs.Prelude.{◌≡◌, [], ◌∷◌, Some};
    ghost use Rattle.grammar.specs.Decode as d;
    ghost use Rattle.grammar.specs.Decode.{plain_step};
    ghost use Rattle.reader.specs.Escapes.{listed, turned};

    // A byte that is complete: the reader is outside any escape then.
    fn complete(b: u8) -> Turn
        ensures { turned (Some result) ≡ Some (b ∷ [], d.plain) }
    {
        Turn {
            first: Some(b),
            second: None,
            within: Within::Plain,
        }
    }

    // A byte outside any escape, after one that is complete.
    fn plain(first: Option<u8>, c: u8) -> Turn
        ensures { turned (Some result) ≡ plain_step c (listed first) }
    {
        if c == b'\\' {
            return Turn {
                first,
                second: None,
                within: Within::Backslash,
            };
        }
        Turn {
            first,
            second: Some(c),
            within: Within::Plain,
        }
    }
}

impl Within {
    ghost use Rattle.std.specs.Prelude.{◌≡◌, Some};
    ghost use Rattle.grammar.specs.Decode.{letters, lookup, backslash_step, hex_due, hex_one, octal_one, octal_two, step, finish};
    ghost use Rattle.reader.specs.Escapes.{within_of, turned, finished};

    // The byte that a letter stands for after a backslash.
    // A `char`, matched on char literals: the form that this project keeps.
    fn escape(letter: char) -> Option<u8>
        ensures { result ≡ lookup letter letters }
    {
        match letter {
            'a' => Some(7),
            'b' => Some(8),
            'f' => Some(12),
            'n' => Some(10),
            'r' => Some(13),
            't' => Some(9),
            'v' => Some(11),
            '\\' => Some(b'\\'),
            '\'' => Some(b'\''),
            '"' => Some(b'"'),
            _ => None,
        }
    }

    // A byte after a backslash.
    fn after_backslash(c: u8) -> Option<Turn>
        ensures { turned result ≡ backslash_step c }
    {
        if let Some(b) = Within::escape(c as char) {
            return Some(Turn::complete(b));
        }
        match c {
            b'x' | b'X' => Some(Within::HexDue.into()),
            _ => Some(Within::OctalOne(Below::digit(c)?).into()),
        }
    }

    // A byte after `\x`.
    fn after_x(c: u8) -> Option<Turn>
        ensures { turned result ≡ step hex_due c }
    {
        Some(Within::HexOne(Below::digit(c)?).into())
    }

    // A byte after `\x` and one digit.
    fn after_hex(v: Below<16>, c: u8) -> Turn
        ensures { turned (Some result) ≡ step (hex_one v.value) c }
    {
        match Below::<16>::digit(c) {
            Some(d) => Turn::complete(v.value * 16 + d.value),
            None => Turn::plain(Some(v.value), c),
        }
    }

    // A byte after one octal digit.
    fn after_octal(v: Below<8>, c: u8) -> Turn
        ensures { turned (Some result) ≡ step (octal_one v.value) c }
    {
        match Below::<8>::digit(c) {
            Some(d) => Within::OctalTwo(Below {
                value: v.value * 8 + d.value,
            })
            .into(),
            None => Turn::plain(Some(v.value), c),
        }
    }

    // A byte after two octal digits.
    fn after_two_octal(v: Below<64>, c: u8) -> Option<Turn>
        ensures { turned result ≡ step (octal_two v.value) c }
    {
        match Below::<8>::digit(c) {
            Some(d) => Some(Turn::complete(v.value.checked_mul(8)?.checked_add(d.value)?)),
            None => Some(Turn::plain(Some(v.value), c)),
        }
    }

    // One byte more of an undecoded string, unless it is refused.
    pub fn turn(self, c: u8) -> Option<Turn>
        ensures { turned result ≡ step (within_of self) c }
    {
        match self {
            Within::Plain => Some(Turn::plain(None, c)),
            Within::Backslash => Within::after_backslash(c),
            Within::HexDue => Within::after_x(c),
            Within::HexOne(v) => Some(Within::after_hex(v, c)),
            Within::OctalOne(v) => Some(Within::after_octal(v, c)),
            Within::OctalTwo(v) => Within::after_two_octal(v, c),
        }
    }

    // The byte that is complete at the end of the string, if there is one, unless the end is refused.
    // Three arms for numbers, since the limit of each is part of its type.
    pub fn finish(self) -> Option<Turn>
        ensures { finished result ≡ finish (within_of self) }
    {
        match self {
            Within::Plain => Some(Within::Plain.into()),
            Within::HexOne(v) => Some(Turn::complete(v.value)),
            Within::OctalOne(v) => Some(Turn::complete(v.value)),
            Within::OctalTwo(v) => Some(Turn::complete(v.value)),
            Within::Backslash | Within::HexDue => None,
        }
    }
}
