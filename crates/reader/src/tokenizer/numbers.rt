// The readers of numbers: each a match on the token that is looked at, which is the form that this project keeps.
#![tactic(auto, unfolding(grammar::specs::Parse::opened, grammar::specs::Grammar::field_number, grammar::specs::Grammar::enum_number, crate::specs::Ranges::range_end))]

ghost use Rattle.std.specs.Prelude.{◌≡◌};
ghost use Rattle.grammar.specs.declared.fault.ParserError.TheVariants.{IncorrectInput};
ghost use Rattle.grammar.specs.Parse.{expect, integer_of};
ghost use Rattle.grammar.specs.Grammar.{field_number, enum_number};
ghost use Rattle.reader.specs.Ranges.{range_end};
ghost use Rattle.reader.specs.Replies.{gave};

use super::{next_ident_if_eq, next_symbol_if_eq, refusal, unexpected};
use grammar::{ParserError, ReadFault};
use token::{Kind, Source};

// Takes an integer, or refuses.
pub fn next_int_lit<S: Source>(s: &mut S) -> Result<u64, ReadFault>
    ensures { gave result (S.ahead s.new) ≡ expect IncorrectInput integer_of (S.ahead s.old) }
{
    match s.look()?.kind {
        Kind::IntLit => {
            let n = s.number();
            s.take();
            Ok(n)
        }
        _ => Err(unexpected(s, ParserError::IncorrectInput)),
    }
}

// Takes the number of a field if it is in range, or refuses.
pub fn next_field_number<S: Source>(s: &mut S) -> Result<u32, ReadFault>
    ensures { gave result (S.ahead s.new) ≡ field_number (S.ahead s.old) }
{
    match s.look()?.kind {
        Kind::IntLit => {
            // A test, since the number is a u32 whose limit is that of an i32: `i32::try_from` would need a cast back.
            let n = s.number();
            if n > i32::MAX as u64 {
                return Err(refusal(s, ParserError::IntegerOverflow));
            }
            s.take();
            Ok(n as u32)
        }
        _ => Err(unexpected(s, ParserError::IncorrectInput)),
    }
}

// Takes the number of an enum's value, or refuses.
pub fn next_enum_value<S: Source>(s: &mut S) -> Result<i32, ReadFault>
    ensures { gave result (S.ahead s.new) ≡ enum_number (S.ahead s.old) }
{
    let minus = next_symbol_if_eq(s, b'-')?;
    let n = i128::from(next_int_lit(s)?);
    let Ok(value) = i32::try_from(if minus { -n } else { n }) else {
        return Err(refusal(s, ParserError::IntegerOverflow));
    };
    Ok(value)
}

// [ "to" ( intLit | "max" ) ]: without it a range ends where it begins.
pub fn next_range_end<S: Source>(s: &mut S, from: u32, max: u32) -> Result<u32, ReadFault>
    ensures { gave result (S.ahead s.new) ≡ range_end from max (S.ahead s.old) }
{
    if !next_ident_if_eq(s, b"to")? {
        return Ok(from);
    }
    if next_ident_if_eq(s, b"max")? {
        return Ok(max);
    }
    next_field_number(s)
}
