// Lists of parts with a symbol between two of them.
#![tactic(auto, unfolding(grammar::specs::Parse::opened, grammar::specs::Grammar::separated))]

ghost use Rattle.grammar.specs.Grammar.{separated};
ghost use Rattle.grammar.specs.Parse as grammar;
ghost use Rattle.grammar.specs.Progress.{Takes};
ghost use Rattle.grammar.specs.Tree.{Forest};
ghost use Rattle.reader.specs.Replies.{KeepsLoans, ReadsForest};

use super::Parser;
use crate::tokenizer::next_symbol_if_eq;
use grammar::ReadFault;
use token::Source;

/// What can stand in a list: a reader of one part.
// A trait and no closure: only what says its production, with the law, can be read over and over.
pub trait Part {
    // What it reads.
    ghost production: { Self → grammar.Parser Forest };

    fn next<S: Source>(&self, parser: &mut Parser<'_, '_, S>) -> Result<(), ReadFault>
        ensures reads { ReadsForest S.ahead parser.old parser.new result (production self.now) }
        ensures same { KeepsLoans parser.old parser.new };

    // The law: where it succeeds, it has taken a token.
    ghost takes: { (part : Self) → Takes (production part) };
}

impl<'s, 'o, S: Source> Parser<'s, 'o, S> {
    // part { separator part }
    pub fn next_separated<P: Part>(&mut self, separator: u8, part: &P) -> Result<(), ReadFault>
        ensures reads { ReadsForest S.ahead self.old self.new result (separated separator (P.production part.now)) }
        ensures same { KeepsLoans self.old self.new }
    {
        part.next(self)?;
        'parts: while next_symbol_if_eq(self.source, separator)? {
            part.next(self)?;
        }
        Ok(())
    }
}
