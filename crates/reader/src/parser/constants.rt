// Constants of one token, and names that stand for constants.
#![tactic(auto, unfolding(grammar::specs::Parse::opened, grammar::specs::Grammar::signed_number))]

ghost use Rattle.grammar.specs.Grammar.{signed_number};
ghost use Rattle.reader.specs.Replies.{KeepsLoans, ReadsForest};
ghost use Rattle.reader.specs.WordConstant.{word_constant};

use super::Parser;
use crate::tokenizer::{next_ident_if_eq, refusal, unexpected};
use grammar::{ParserError, ReadFault};
use store::{Item, Value};
use token::{Kind, Source};

// How far below 0 an integer can be.
const MOST_BELOW_ZERO: u64 = 9_223_372_036_854_775_808;

impl<'s, 'o, S: Source> Parser<'s, 'o, S> {
    // A number after its sign.
    pub fn next_signed_number(&mut self, negative: bool) -> Result<(), ReadFault>
        ensures reads { ReadsForest S.ahead self.old self.new result (signed_number negative) }
        ensures same { KeepsLoans self.old self.new }
    {
        match self.source.look()?.kind {
            Kind::IntLit => {
                let n = self.source.number();
                self.source.take();
                if !negative {
                    self.out.put(Item::Constant(Value::Unsigned(n)));
                    return Ok(());
                }
                if n > MOST_BELOW_ZERO {
                    return Err(refusal(self.source, ParserError::IntegerOverflow));
                }
                self.out.put(Item::Constant(Value::Minus(n)));
                Ok(())
            }
            Kind::FloatLit => {
                let text = self.take_text();
                self.out.put(Item::Constant(Value::Float(negative, text)));
                Ok(())
            }
            _ => Err(unexpected(self.source, ParserError::IncorrectInput)),
        }
    }

    // "true" | "false" | fullIdent
    // Two words, each with a value: a table of them would be no plainer.
    pub fn next_word_constant(&mut self) -> Result<(), ReadFault>
        ensures reads { ReadsForest S.ahead self.old self.new result word_constant }
        ensures same { KeepsLoans self.old self.new }
    {
        if next_ident_if_eq(self.source, b"true")? {
            self.out.put(Item::Constant(Value::Truth(true)));
            return Ok(());
        }
        if next_ident_if_eq(self.source, b"false")? {
            self.out.put(Item::Constant(Value::Truth(false)));
            return Ok(());
        }
        let path = self.next_full_ident()?;
        self.out.put(Item::Constant(Value::Path(path)));
        Ok(())
    }
}
