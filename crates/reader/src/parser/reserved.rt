// Reserved names and numbers.
#![tactic(auto, unfolding(grammar::specs::Parse::opened, grammar::specs::Grammar::reserved))]

ghost use Rattle.grammar.specs.Parse.{due};
ghost use Rattle.grammar.specs.Grammar.{reserved};
ghost use Rattle.reader.specs.Replies.{KeepsLoans, ReadsForest};
ghost use Rattle.reader.specs.ReservedName.{reserved_name, reserved_at};

use super::Parser;
use super::ranges::{NumberRange, RangeKind};
use super::separated::Part;
use crate::tokenizer::{next_symbol_expect_eq, refusal};
use grammar::{ParserError, ReadFault};
use store::Item;
use token::{Kind, Source};

// strLit
#[derive(Debug, Clone, Copy, PartialEq, Eq)]
struct ReservedName;

impl Part for ReservedName {
    ghost use Rattle.grammar.specs.Grammar.{decoded_string};
    ghost use Rattle.grammar.proofs.Progress.{takes-map};
    ghost use Rattle.grammar.proofs.GrammarProgress.{decoded_string-takes};
    ghost use Rattle.reader.specs.ReservedName.{reserved_name};

    ghost production = { λ _. reserved_name };

    fn next<S: Source>(&self, parser: &mut Parser<'_, '_, S>) -> Result<(), ReadFault> {
        parser.next_reserved_name()
    }

    ghost takes = { λ _. takes-map _ decoded_string decoded_string-takes };
}

impl<'s, 'o, S: Source> Parser<'s, 'o, S> {
    // strLit
    pub fn next_reserved_name(&mut self) -> Result<(), ReadFault>
        ensures reads { ReadsForest S.ahead self.old self.new result reserved_name }
        ensures same { KeepsLoans self.old self.new }
    {
        let name = self.next_str_lit_decoded()?;
        self.out.put(Item::ReservedName(name));
        Ok(())
    }

    // strLit { "," strLit } | range { "," range }
    fn next_reserved_items(&mut self, max: u32) -> Result<(), ReadFault>
        ensures reads { ReadsForest S.ahead self.old self.new result (due (reserved_at max)) }
        ensures same { KeepsLoans self.old self.new }
    {
        match self.source.look()?.kind {
            Kind::StrLit => self.next_separated(b',', &ReservedName),
            // An arm of its own, as in the definition: without it the refusal at the end would hang on how a range begins.
            Kind::End => Err(refusal(self.source, ParserError::EndOfFile)),
            _ => self.next_ranges(NumberRange {
                kind: RangeKind::Reserved,
                max,
            }),
        }
    }

    // ( strLit { "," strLit } | range { "," range } ) ";" after "reserved"
    pub fn next_reserved(&mut self, max: u32) -> Result<(), ReadFault>
        ensures reads { ReadsForest S.ahead self.old self.new result (reserved max) }
        ensures same { KeepsLoans self.old self.new }
    {
        self.next_reserved_items(max)?;
        next_symbol_expect_eq(self.source, b';')
    }
}
