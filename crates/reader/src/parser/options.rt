// Options: a name and a constant.
#![tactic(auto, unfolding(grammar::specs::Parse::opened, grammar::specs::Grammar::option, grammar::specs::Grammar::option_statement, grammar::specs::Grammar::bracketed_options))]

ghost use Rattle.grammar.specs.Grammar.{comma, separated, option, option_statement, bracketed_options};
ghost use Rattle.reader.specs.Nesting.{inner};
ghost use Rattle.reader.specs.Replies.{KeepsLoans, ReadsForest};

use super::Parser;
use super::separated::Part;
use crate::nesting::Nesting;
use crate::tokenizer::{next_symbol_expect_eq, next_symbol_if_eq};
use grammar::ReadFault;
use store::Item;
use token::Source;

// An option whose constant nests so.
#[derive(Debug, Clone, Copy, PartialEq, Eq)]
struct FieldOption(Nesting);

impl Part for FieldOption {
    ghost use Rattle.grammar.specs.Grammar.{option};
    ghost use Rattle.grammar.proofs.GrammarProgress.{nested-takes, option-takes};
    ghost use Rattle.reader.specs.Nesting.{inner};

    ghost production = { λ o. option (inner o.0) };

    fn next<S: Source>(&self, parser: &mut Parser<'_, '_, S>) -> Result<(), ReadFault> {
        parser.next_field_option(self.0)
    }

    ghost takes = { λ o. option-takes (inner o.0) (nested-takes o.0.syntax o.0.left) };
}

impl<'s, 'o, S: Source> Parser<'s, 'o, S> {
    // part { "." part } "=" constant
    fn next_field_option(&mut self, nesting: Nesting) -> Result<(), ReadFault>
        ensures reads { ReadsForest S.ahead self.old self.new result (option (inner nesting)) }
        ensures same { KeepsLoans self.old self.new }
    {
        self.out.open(Item::Setting);
        self.next_option_name()?;
        next_symbol_expect_eq(self.source, b'=')?;
        self.next_constant(nesting)?;
        self.out.close();
        Ok(())
    }

    // option ";" after "option"
    pub fn next_option(&mut self, nesting: Nesting) -> Result<(), ReadFault>
        ensures reads { ReadsForest S.ahead self.old self.new result (option_statement (inner nesting)) }
        ensures same { KeepsLoans self.old self.new }
    {
        self.next_field_option(nesting)?;
        next_symbol_expect_eq(self.source, b';')
    }

    // [ "[" option { "," option } "]" ]
    pub fn next_field_options(&mut self, nesting: Nesting) -> Result<(), ReadFault>
        ensures reads { ReadsForest S.ahead self.old self.new result (bracketed_options (inner nesting)) }
        ensures same { KeepsLoans self.old self.new }
    {
        if !next_symbol_if_eq(self.source, b'[')? {
            return Ok(());
        }
        self.next_separated(b',', &FieldOption(nesting))?;
        next_symbol_expect_eq(self.source, b']')
    }
}
