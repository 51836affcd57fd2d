// What stands at the front of a tape.
ghost use Rattle.std.specs.Prelude.{◌≡◌, ◌+◌, ◌≤◌, ℕ, List, length, slice_index};
ghost use Rattle.token.specs.Token.{bytes as bytes_of, kind as kind_of, value as value_of};
ghost use Rattle.tape_source.specs.Front.{token_of, extent};

use crate::text::Text;
use crate::words::byte_at;
use token::Kind;

/// A token at the front of a tape: a symbol with its byte, an integer with its value, or a text with the number of its
/// bytes, which stand in the words after the first.
#[derive(Debug, Clone, Copy, PartialEq, Eq)]
pub(crate) enum Span {
    Symbol(u8),
    Number(u64),
    Text(Text, usize),
}

impl Span {
    pub(crate) fn kind(self) -> Kind
        ensures { (rest : List ℕ) → result ≡ kind_of (token_of rest self) }
    {
        match self {
            Span::Symbol(_) => Kind::Symbol,
            Span::Number(_) => Kind::IntLit,
            Span::Text(text, _) => text.kind(),
        }
    }

    // 0 for a token without a number, as a source answers; `len` and `byte` alike.
    pub(crate) fn value(self) -> u64
        ensures { (rest : List ℕ) → result ≡ value_of (token_of rest self) }
    {
        match self {
            Span::Number(value) => value,
            Span::Symbol(_) | Span::Text(_, _) => 0,
        }
    }

    /// How many words the token takes up.
    pub(crate) fn width(self) -> usize
        ensures { result ≡ extent self + 1 }
    {
        match self {
            Span::Symbol(_) => 1,
            Span::Number(_) => 3,
            Span::Text(_, len) => len.div_ceil(4) + 1,
        }
    }

    /// How many bytes its text has.
    #[tactic(auto, using(crate::proofs::Spans::text_len))]
    pub(crate) fn len(self) -> usize
        ensures { (rest : List ℕ) → result ≡ length (bytes_of (token_of rest self)) }
    {
        match self {
            Span::Symbol(_) => 1,
            Span::Number(_) => 0,
            Span::Text(_, len) => len,
        }
    }

    /// Byte `k` of its text, or 0 beyond it, where `rest` is what stands behind its first word.
    #[tactic(auto, using(crate::proofs::Spans::text_byte, crate::proofs::Spans::text_beyond))]
    pub(crate) fn byte(self, rest: &[u32], k: usize) -> u8
        requires { extent self ≤ length rest.now }
        ensures { result ≡ slice_index (bytes_of (token_of rest.now self)) k }
    {
        match self {
            Span::Symbol(byte) if k == 0 => byte,
            Span::Text(_, len) if k < len => byte_at(rest, k),
            _ => 0,
        }
    }
}
