// What stands at the front of a text.
ghost use Rattle.std.specs.Prelude.{◌≡◌, ◌+◌, ◌^◌, ◌<◌, length};
ghost use Rattle.token.specs.Token.{Bytes, bytes as bytes_of, kind as kind_of, value as value_of};
ghost use Rattle.text_source.specs.Fronts.{token_of, extent};

use token::Kind;

/// A token at the front of a text. A count is of the bytes after the first, and that of `Quoted` leaves the closing
/// quote out.
#[derive(Debug, Clone, Copy, PartialEq, Eq)]
pub(crate) enum Span {
    Symbol,
    Number(u64, usize),
    Ident(usize),
    Float(usize),
    Quoted(usize),
}

/// What stands at the front of a text: a blank or a comment, with how many bytes follow its first; or a token.
#[derive(Debug, Clone, Copy, PartialEq, Eq)]
pub(crate) enum Front {
    Gap(usize),
    Token(Span),
}

impl Span {
    pub(crate) fn kind(self) -> Kind
        ensures { (s : Bytes) → result ≡ kind_of (token_of s self) }
    {
        match self {
            Span::Symbol => Kind::Symbol,
            Span::Number(_, _) => Kind::IntLit,
            Span::Ident(_) => Kind::Ident,
            Span::Float(_) => Kind::FloatLit,
            Span::Quoted(_) => Kind::StrLit,
        }
    }

    // 0 for a token without a number, as a source answers.
    pub(crate) fn value(self) -> u64
        ensures { (s : Bytes) → result ≡ value_of (token_of s self) }
    {
        match self {
            Span::Number(value, _) => value,
            _ => 0,
        }
    }

    /// How many bytes the token takes up.
    pub(crate) fn width(self) -> usize
        requires { extent self + 1 < 2 ^ 64 }
        ensures { result ≡ extent self + 1 }
    {
        match self {
            Span::Symbol => 1,
            Span::Number(_, more) | Span::Ident(more) | Span::Float(more) => more + 1,
            Span::Quoted(inner) => inner + 2,
        }
    }

    /// The text of the token at the front of `s`: a string's stands between the quotes, and a number has none.
    pub(crate) fn text(self, s: &[u8]) -> &[u8]
        requires { extent self < length s.now }
        ensures { result.now ≡ bytes_of (token_of s.now self) }
    {
        match self {
            Span::Symbol => &s[..1],
            Span::Number(_, _) => &s[..0],
            Span::Ident(more) | Span::Float(more) => &s[..more + 1],
            Span::Quoted(inner) => &s[1..inner + 1],
        }
    }
}
