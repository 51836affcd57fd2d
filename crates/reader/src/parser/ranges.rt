// Ranges of field numbers.
#![tactic(auto, unfolding(grammar::specs::Parse::opened, grammar::specs::Grammar::range, grammar::specs::Grammar::extensions, crate::specs::Ranges::range_end))]

ghost use Rattle.grammar.specs.Grammar.{comma, separated, range, extensions};
ghost use Rattle.reader.specs.Ranges.{range_item};
ghost use Rattle.reader.specs.Replies.{KeepsLoans, ReadsForest};

use super::Parser;
use super::separated::Part;
use crate::tokenizer::next_symbol_expect_eq;
use crate::tokenizer::numbers::{next_field_number, next_range_end};
use grammar::ReadFault;
use store::Item;
use token::Source;

// The largest number of a field that `max` stands for.
const MAX_FIELD_NUMBER: u32 = 536_870_911;

/// Whose numbers a range holds.
#[derive(Debug, Clone, Copy, PartialEq, Eq)]
pub enum RangeKind {
    Extension,
    Reserved,
}

/// A range of such numbers, where the word `max` stands for `max`.
#[derive(Debug, Clone, Copy, PartialEq, Eq)]
pub struct NumberRange {
    pub kind: RangeKind,
    pub max: u32,
}

impl Part for NumberRange {
    ghost use Rattle.grammar.specs.Grammar.{range};
    ghost use Rattle.grammar.proofs.GrammarProgress.{range-takes};
    ghost use Rattle.reader.specs.Ranges.{range_item};

    ghost production = { λ r. range (range_item r.kind) r.max };

    fn next<S: Source>(&self, parser: &mut Parser<'_, '_, S>) -> Result<(), ReadFault> {
        parser.next_range(*self)
    }

    ghost takes = { λ r. range-takes (range_item r.kind) r.max };
}

impl<'s, 'o, S: Source> Parser<'s, 'o, S> {
    // intLit [ "to" ( intLit | "max" ) ]
    pub fn next_range(&mut self, numbers: NumberRange) -> Result<(), ReadFault>
        ensures reads { ReadsForest S.ahead self.old self.new result (range (range_item numbers.kind) numbers.max) }
        ensures same { KeepsLoans self.old self.new }
    {
        let from = next_field_number(self.source)?;
        let to = next_range_end(self.source, from, numbers.max)?;
        // A closure that makes the item would be no plainer than two arms.
        match numbers.kind {
            RangeKind::Extension => self.out.put(Item::ExtensionRange(from, to)),
            RangeKind::Reserved => self.out.put(Item::ReservedRange(from, to)),
        }
        Ok(())
    }

    // range { "," range }
    pub fn next_ranges(&mut self, numbers: NumberRange) -> Result<(), ReadFault>
        ensures reads { ReadsForest S.ahead self.old self.new result (separated comma (range (range_item numbers.kind) numbers.max)) }
        ensures same { KeepsLoans self.old self.new }
    {
        self.next_separated(b',', &numbers)
    }

    // range { "," range } ";" after "extensions"
    pub fn next_extensions(&mut self) -> Result<(), ReadFault>
        ensures reads { ReadsForest S.ahead self.old self.new result extensions }
        ensures same { KeepsLoans self.old self.new }
    {
        self.next_ranges(NumberRange {
            kind: RangeKind::Extension,
            max: MAX_FIELD_NUMBER,
        })?;
        next_symbol_expect_eq(self.source, b';')
    }
}
