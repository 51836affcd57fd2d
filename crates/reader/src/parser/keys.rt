// The names in message constants.
#![tactic(auto, unfolding(grammar::specs::Parse::opened, grammar::specs::Grammar::key, grammar::specs::Grammar::key_end))]

ghost use Rattle.grammar.specs.Grammar.{key};
ghost use Rattle.reader.specs.Replies.{KeepsLoans, ReadsKey};

use super::Parser;
use crate::tokenizer::{next_symbol_expect_eq, next_symbol_if_eq};
use grammar::ReadFault;
use store::Key;
use token::Source;

impl<'s, 'o, S: Source> Parser<'s, 'o, S> {
    // ident | "[" fullIdent [ "/" fullIdent ] "]"
    pub fn next_message_constant_field_name(&mut self) -> Result<Key, ReadFault>
        ensures reads { ReadsKey S.ahead self.old self.new result key }
        ensures same { KeepsLoans self.old self.new }
    {
        if next_symbol_if_eq(self.source, b'[')? {
            let name = self.next_full_ident()?;
            if next_symbol_if_eq(self.source, b'/')? {
                let full = self.next_full_ident()?;
                next_symbol_expect_eq(self.source, b']')?;
                return Ok(Key::AnyType(name, full));
            }
            next_symbol_expect_eq(self.source, b']')?;
            return Ok(Key::Extension(name));
        }
        let name = self.next_ident()?;
        Ok(Key::Plain(name))
    }
}
