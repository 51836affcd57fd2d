// Strings with their escapes decoded.
#![tactic(auto, unfolding(grammar::specs::Parse::opened, grammar::specs::Grammar::decoded_string))]

ghost use Rattle.std.specs.Prelude.{◌≡◌};
ghost use Rattle.token.specs.Token.{spelled};
ghost use Rattle.grammar.specs.Decode.{decode};
ghost use Rattle.grammar.specs.Grammar.{decoded_string};
ghost use Rattle.reader.specs.Decoding.{Decodes};
ghost use Rattle.reader.specs.Replies.{KeepsLoans, kept, ReadsText};

use super::Parser;
use crate::decode::Decoder;
use crate::tokenizer::{refusal, text_len, unexpected};
use grammar::{ParserError, ReadFault};
use store::Span;
use token::{Kind, Source};

impl<'s, 'o, S: Source> Parser<'s, 'o, S> {
    // Decodes the text that comes next to the end of the store's text, unless it is malformed.
    fn decode(&mut self) -> Option<()>
        ensures text { Decodes (kept self.old) (kept self.new) result (decode (spelled (S.ahead self.old.source.now))) }
        ensures rest { S.ahead self.new.source.now ≡ S.ahead self.old.source.now }
        ensures same { KeepsLoans self.old self.new }
    {
        let mut decoder = Decoder::new();
        // An index, since a source gives byte k of a token and no slice to go over: the form that this project keeps.
        for k in 0..text_len(self.source) {
            decoder = decoder.next(self.source.byte(k), self.out)?;
        }
        decoder.finish(self.out)
    }

    // Takes a string and keeps it decoded, or refuses.
    pub fn next_str_lit_decoded(&mut self) -> Result<Span, ReadFault>
        ensures reads { ReadsText S.ahead self.old self.new result decoded_string }
        ensures same { KeepsLoans self.old self.new }
    {
        match self.source.look()?.kind {
            Kind::StrLit => {
                let from = self.out.used();
                let decoded = self.decode();
                self.source.take();
                decoded.ok_or_else(|| refusal(self.source, ParserError::StrLitDecodeError))?;
                Ok(self.text_since(from))
            }
            _ => Err(unexpected(self.source, ParserError::ExpectString)),
        }
    }
}
