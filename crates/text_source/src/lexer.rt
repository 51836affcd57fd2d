// Finds what stands at the front of a text.
ghost use Rattle.std.specs.Prelude.{◌≡◌, ◌+◌, ◌<◌, ◌≤◌, length, MatchOption, MatchResult};
ghost use Rattle.token.specs.declared.answer.Fault.TheVariants.{TokenTooLong};
ghost use Rattle.token.specs.Token.{Bytes};
ghost use Rattle.token.specs.Law.{longest};
ghost use Rattle.text_source.specs.Lexemes.{lexeme, is_hex, word, numeral, quoted, comment, mark};
ghost use Rattle.text_source.specs.Fronts.{head, tail, meant, reach};

use crate::class::{Class, class_of};
use crate::front::{Front, Span};
use crate::numeral::int_lit;
use crate::scan::{is_in_number, is_in_string, line_len, name_len, run_len};
use token::{Fault, LONGEST_TEXT, is_float};

/// A text that has a first byte.
#[derive(Debug, Clone, Copy, PartialEq, Eq)]
pub(crate) struct Begun<'a> {
    bytes: &'a [u8],
    ghost some: { 0 < length bytes.now },
}

fn check_len(len: usize) -> Result<(), Fault>
    ensures { MatchResult result (λ _. len ≤ longest) (λ fault. (fault ≡ TokenTooLong) × (longest < len)) }
{
    if len > LONGEST_TEXT {
        Err(Fault::TokenTooLong)
    } else {
        Ok(())
    }
}

// After `/*`.
#[tactic(auto, using(crate::proofs::Fronts::comments))]
fn read_comment(s: &[u8]) -> Result<Front, Fault>
    ensures meaning { (t : Bytes) → meant t result ≡ comment s.now }
    ensures within { reach result < 2 + length s.now }
{
    let inner = run_len(s, 0, |last, b| last != b'*' || b != b'/', |_, b| b);
    if inner < s.len() {
        Ok(Front::Gap(inner + 2))
    } else {
        Err(Fault::UnclosedComment)
    }
}

impl<'a> Begun<'a> {
    pub(crate) fn new(bytes: &'a [u8]) -> Option<Begun<'a>>
        ensures { MatchOption result (length bytes.now ≡ 0) (λ text. text.bytes.now ≡ bytes.now) }
    {
        if bytes.is_empty() {
            None
        } else {
            Some(Begun { bytes })
        }
    }

    fn first(&self) -> u8
        ensures { result ≡ head self.now.bytes.now }
    {
        self.bytes[0]
    }

    fn rest(&self) -> &'a [u8]
        ensures { result.now ≡ tail self.now.bytes.now }
    {
        &self.bytes[1..]
    }

    #[tactic(auto, using(crate::proofs::Fronts::words))]
    fn read_word(&self) -> Result<Front, Fault>
        ensures meaning { meant self.now.bytes.now result ≡ word (head self.now.bytes.now) (tail self.now.bytes.now) }
        ensures within { reach result < length self.now.bytes.now }
    {
        let more = name_len(self.rest());
        check_len(more + 1)?;
        Ok(Front::Token(Span::Ident(more)))
    }

    fn begins_hex(&self) -> bool
        ensures { result ≡ is_hex (head self.now.bytes.now) (tail self.now.bytes.now) }
    {
        matches!(self.bytes, [b'0', b'x' | b'X', ..])
    }

    fn read_number(&self) -> Result<Front, Fault>
        ensures meaning { meant self.now.bytes.now result ≡ numeral (head self.now.bytes.now) (tail self.now.bytes.now) }
        ensures within { reach result < length self.now.bytes.now }
    {
        let hex = self.begins_hex();
        let more = run_len(
            self.rest(),
            self.first(),
            |last, b| is_in_number(hex, last, b),
            |_, b| b,
        );
        let text = &self.bytes[..more + 1];
        check_len(text.len())?;
        match int_lit(text) {
            Some(value) => Ok(Front::Token(Span::Number(value, more))),
            None if is_float(text) => Ok(Front::Token(Span::Float(more))),
            None => Err(Fault::BadNumber),
        }
    }

    #[tactic(auto, using(crate::proofs::Fronts::quotes))]
    fn read_string(&self) -> Result<Front, Fault>
        ensures meaning { meant self.now.bytes.now result ≡ quoted (head self.now.bytes.now) (tail self.now.bytes.now) }
        ensures within { reach result < length self.now.bytes.now }
    {
        let quote = self.first();
        let rest = self.rest();
        let inner = run_len(
            rest,
            false,
            |escaped, b| is_in_string(quote, escaped, b),
            |escaped, b| !escaped && b == b'\\',
        );
        if rest.get(inner) != Some(&quote) {
            return Err(Fault::UnclosedString);
        }
        check_len(inner)?;
        Ok(Front::Token(Span::Quoted(inner)))
    }

    #[tactic(auto, using(crate::proofs::Fronts::marks))]
    fn read_mark(&self) -> Result<Front, Fault>
        ensures meaning { meant self.now.bytes.now result ≡ mark (head self.now.bytes.now) (tail self.now.bytes.now) }
        ensures within { reach result < length self.now.bytes.now }
    {
        match self.bytes {
            [b'/', b'/', ..] => Ok(Front::Gap(line_len(self.rest()))),
            [b'/', b'*', rest @ ..] => read_comment(rest),
            [b'.', b'0'..=b'9', ..] => self.read_number(),
            _ => Ok(Front::Token(Span::Symbol)),
        }
    }

    /// What stands at the front.
    #[tactic(auto, unfolding(crate::specs::Lexemes::lexeme))]
    pub(crate) fn front(&self) -> Result<Front, Fault>
        ensures meaning { meant self.now.bytes.now result ≡ lexeme (head self.now.bytes.now) (tail self.now.bytes.now) }
        ensures within { reach result < length self.now.bytes.now }
    {
        match class_of(self.first()) {
            Class::Blank => Ok(Front::Gap(0)),
            Class::Letter => self.read_word(),
            Class::Digit => self.read_number(),
            Class::Quote => self.read_string(),
            Class::Symbol => self.read_mark(),
            Class::Other => Err(Fault::BadByte),
        }
    }
}
