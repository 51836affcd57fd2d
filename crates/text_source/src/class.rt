// What each byte is.
ghost use Rattle.std.specs.Prelude.{◌≡◌};
ghost use Rattle.text_source.specs.Classes.{class_of};

use Class::{Blank as B, Digit as D, Letter as L, Other as O, Quote as Q, Symbol as S};

/// The class of a byte; an underscore is a letter.
#[derive(Debug, Clone, Copy, PartialEq, Eq)]
pub(crate) enum Class {
    Blank,
    Letter,
    Digit,
    Quote,
    Symbol,
    Other,
}

// A table in fixed memory, which this project keeps to.
// The classes of the 256 bytes: byte `b` stands in row `b / 16`, column `b % 16`.
static CLASSES: [[Class; 16]; 16] = [
    [O, O, O, O, O, O, O, O, O, B, B, B, B, B, O, O],
    [O, O, O, O, O, O, O, O, O, O, O, O, O, O, O, O],
    [B, O, Q, O, O, O, O, Q, S, S, O, S, S, S, S, S],
    [D, D, D, D, D, D, D, D, D, D, S, S, S, S, S, O],
    [O, L, L, L, L, L, L, L, L, L, L, L, L, L, L, L],
    [L, L, L, L, L, L, L, L, L, L, L, S, O, S, O, L],
    [O, L, L, L, L, L, L, L, L, L, L, L, L, L, L, L],
    [L, L, L, L, L, L, L, L, L, L, L, S, O, S, O, O],
    [O, O, O, O, O, O, O, O, O, O, O, O, O, O, O, O],
    [O, O, O, O, O, O, O, O, O, O, O, O, O, O, O, O],
    [O, O, O, O, O, O, O, O, O, O, O, O, O, O, O, O],
    [O, O, O, O, O, O, O, O, O, O, O, O, O, O, O, O],
    [O, O, O, O, O, O, O, O, O, O, O, O, O, O, O, O],
    [O, O, O, O, O, O, O, O, O, O, O, O, O, O, O, O],
    [O, O, O, O, O, O, O, O, O, O, O, O, O, O, O, O],
    [O, O, O, O, O, O, O, O, O, O, O, O, O, O, O, O],
];

pub(crate) fn class_of(b: u8) -> Class
    ensures { result ≡ class_of b }
{
    CLASSES[b as usize / 16][b as usize % 16]
}
