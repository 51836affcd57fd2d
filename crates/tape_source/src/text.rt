// Judges the texts of a tape.
ghost use Rattle.std.specs.Prelude.{◌≡◌, ◌+◌, ◌/◌, ◌≤◌, length};
ghost use Rattle.token.specs.Token.{Bytes, kind};
ghost use Rattle.token.specs.Law.{longest, well};
ghost use Rattle.tape_source.specs.Tape.{byte_in, tab};
ghost use Rattle.tape_source.specs.Front.{made};

use crate::words::unpack;
use token::{Kind, LONGEST_TEXT, is_float, is_ident};

/// The three kinds of token that have a text of many bytes.
#[derive(Debug, Clone, Copy, PartialEq, Eq)]
pub(crate) enum Text {
    Ident,
    Float,
    Str,
}

impl Text {
    /// The kind of its token.
    pub(crate) fn kind(self) -> Kind
        ensures { (w : Bytes) → result ≡ kind (made self w) }
    {
        match self {
            Text::Ident => Kind::Ident,
            Text::Float => Kind::FloatLit,
            Text::Str => Kind::StrLit,
        }
    }

    /// Are the first `n` bytes of the words such a text?
    pub(crate) fn accepts(self, words: &[u32], n: usize) -> bool
        requires { (n ≤ longest) × ((n + 3) / 4 ≤ length words.now) }
        ensures { result ≡ well (made self (tab (byte_in words.now) n)) }
    {
        // A buffer of fixed size: a source has no heap.
        let mut text = [0; LONGEST_TEXT];
        match self {
            Text::Ident => is_ident(unpack(words, &mut text[..n])),
            Text::Float => is_float(unpack(words, &mut text[..n])),
            Text::Str => true,
        }
    }
}
