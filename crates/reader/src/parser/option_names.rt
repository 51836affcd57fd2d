// The names of options.
#![tactic(auto, unfolding(grammar::specs::Parse::opened, grammar::specs::Grammar::option_part))]

ghost use Rattle.grammar.specs.Grammar.{dot, separated, option_part};
ghost use Rattle.reader.specs.Replies.{KeepsLoans, ReadsForest};

use super::Parser;
use super::separated::Part;
use crate::tokenizer::{next_symbol_expect_eq, next_symbol_if_eq};
use grammar::ReadFault;
use store::Item;
use token::Source;

// ident | "(" fullIdent ")"
#[derive(Debug, Clone, Copy, PartialEq, Eq)]
struct OptionNameComponent;

impl Part for OptionNameComponent {
    ghost use Rattle.grammar.proofs.GrammarProgress.{option_part-takes};

    ghost production = { λ _. option_part };

    fn next<S: Source>(&self, parser: &mut Parser<'_, '_, S>) -> Result<(), ReadFault> {
        parser.next_option_name_component()
    }

    ghost takes = { λ _. option_part-takes };
}

impl<'s, 'o, S: Source> Parser<'s, 'o, S> {
    // ident | "(" fullIdent ")"
    pub fn next_option_name_component(&mut self) -> Result<(), ReadFault>
        ensures reads { ReadsForest S.ahead self.old self.new result option_part }
        ensures same { KeepsLoans self.old self.new }
    {
        if next_symbol_if_eq(self.source, b'(')? {
            let name = self.next_full_ident()?;
            next_symbol_expect_eq(self.source, b')')?;
            self.out.put(Item::ExtensionPart(name));
            return Ok(());
        }
        let name = self.next_ident()?;
        self.out.put(Item::DirectPart(name));
        Ok(())
    }

    // part { "." part }
    pub fn next_option_name(&mut self) -> Result<(), ReadFault>
        ensures reads { ReadsForest S.ahead self.old self.new result (separated dot option_part) }
        ensures same { KeepsLoans self.old self.new }
    {
        self.next_separated(b'.', &OptionNameComponent)
    }
}
