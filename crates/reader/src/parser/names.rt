// Names and undecoded strings: the text of a token goes into the store.
#![tactic(auto, unfolding(grammar::specs::Parse::opened, grammar::specs::Grammar::group_name, grammar::specs::Grammar::dotted, grammar::specs::Grammar::full_ident))]

ghost use Rattle.std.specs.Prelude.{◌≡◌};
ghost use Rattle.token.specs.Token.{spelled};
ghost use Rattle.grammar.specs.Parse.{ident_due, string_due};
ghost use Rattle.grammar.specs.Grammar.{capital, dotted, full_ident, group_name};
ghost use Rattle.reader.specs.Replies.{KeepsLoans, kept, Copies, TakesText, ReadsText};

use super::Parser;
use crate::tokenizer::{next_symbol_if_eq, refusal, text_len, unexpected};
use grammar::{ParserError, ReadFault};
use store::Span;
use token::{Kind, Source};

impl<'s, 'o, S: Source> Parser<'s, 'o, S> {
    // Puts the text of what comes next at the end of the store's text.
    pub fn copy(&mut self)
        ensures { Copies S.ahead self.old self.new }
    {
        // The source gives byte k of a token, and no slice to go over.
        for k in 0..text_len(self.source) {
            self.out.push(self.source.byte(k));
        }
    }

    // Where the text stands that was appended since the store had `from` bytes.
    pub fn text_since(&self, from: usize) -> Span
        ensures { result ≡ record { from = from; to = (kept self.now).used } }
    {
        Span {
            from,
            to: self.out.used(),
        }
    }

    // Takes a token, keeps its text and answers where it stands.
    pub fn take_text(&mut self) -> Span
        ensures { TakesText S.ahead self.old self.new result }
    {
        let from = self.out.used();
        self.copy();
        self.source.take();
        self.text_since(from)
    }

    // Takes an identifier, or refuses. This and the next are each a match on the token that is looked at, the form that this project
    // keeps; what they share is `take_text` and `unexpected`.
    pub fn next_ident(&mut self) -> Result<Span, ReadFault>
        ensures reads { ReadsText S.ahead self.old self.new result ident_due }
        ensures same { KeepsLoans self.old self.new }
    {
        match self.source.look()?.kind {
            Kind::Ident => Ok(self.take_text()),
            _ => Err(unexpected(self.source, ParserError::ExpectIdent)),
        }
    }

    // Takes a string as it is written, or refuses.
    pub fn next_str_lit(&mut self) -> Result<Span, ReadFault>
        ensures reads { ReadsText S.ahead self.old self.new result string_due }
        ensures same { KeepsLoans self.old self.new }
    {
        match self.source.look()?.kind {
            Kind::StrLit => Ok(self.take_text()),
            _ => Err(unexpected(self.source, ParserError::ExpectString)),
        }
    }

    // Whether the text that comes next begins with a capital letter.
    fn is_capital(&self) -> bool
        ensures { result ≡ capital (spelled (S.ahead self.now.source.now)) }
    {
        self.source.byte(0).is_ascii_uppercase()
    }

    // Takes the name of a group, or refuses.
    pub fn next_group_name(&mut self) -> Result<Span, ReadFault>
        ensures reads { ReadsText S.ahead self.old self.new result group_name }
        ensures same { KeepsLoans self.old self.new }
    {
        match self.source.look()?.kind {
            Kind::Ident if self.is_capital() => Ok(self.take_text()),
            Kind::Ident => Err(refusal(
                self.source,
                ParserError::GroupNameShouldStartWithUpperCase,
            )),
            _ => Err(unexpected(self.source, ParserError::ExpectIdent)),
        }
    }

    // ident { "." ident }
    pub fn next_full_ident_rel(&mut self) -> Result<Span, ReadFault>
        ensures reads { ReadsText S.ahead self.old self.new result dotted }
        ensures same { KeepsLoans self.old self.new }
    {
        let from = self.out.used();
        let _ = self.next_ident()?;
        // No `next_separated`: the parts are bytes of one text, and no records.
        'parts: while next_symbol_if_eq(self.source, b'.')? {
            self.out.push(b'.');
            let _ = self.next_ident()?;
        }
        Ok(self.text_since(from))
    }

    // [ "." ] ident { "." ident }
    pub fn next_full_ident(&mut self) -> Result<Span, ReadFault>
        ensures reads { ReadsText S.ahead self.old self.new result full_ident }
        ensures same { KeepsLoans self.old self.new }
    {
        if !next_symbol_if_eq(self.source, b'.')? {
            return self.next_full_ident_rel();
        }
        let from = self.out.used();
        self.out.push(b'.');
        let _ = self.next_full_ident_rel()?;
        Ok(self.text_since(from))
    }
}
