// Types that are no maps.
ghost use Rattle.reader.specs.Replies.{KeepsLoans};
ghost use Rattle.reader.specs.Turns.{BeginsType};

use super::Parser;
use crate::frames::Due;
use crate::tokenizer::next_ident_if_eq;
use crate::tokenizer::scalars::next_scalar_opt;
use grammar::ReadFault;
use store::{Item, Shape};
use token::Source;

impl<'s, 'o, S: Source> Parser<'s, 'o, S> {
    // A scalar type or the name of one, or that the types of a map come.
    pub fn next_plain_type(&mut self) -> Result<Due, ReadFault>
        ensures begins { BeginsType S.ahead self.old self.new result }
        ensures same { KeepsLoans self.old self.new }
    {
        if let Some(scalar) = next_scalar_opt(self.source)? {
            self.out.put(Item::Type(Shape::Scalar(scalar)));
            return Ok(Due::Nothing);
        }
        if next_ident_if_eq(self.source, b"map")? {
            return Ok(Due::Map);
        }
        let name = self.next_full_ident()?;
        self.out.put(Item::Type(Shape::Named(name)));
        Ok(Due::Nothing)
    }
}
