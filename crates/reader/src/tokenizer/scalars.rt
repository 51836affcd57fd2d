// The scalar types of fields.
ghost use Rattle.std.specs.Prelude.{◌≡◌};
ghost use Rattle.grammar.specs.Kinds.{scalar_word, scalars};
ghost use Rattle.grammar.specs.Parse.{word_if};
ghost use Rattle.reader.specs.Scalars.{scalar_in};
ghost use Rattle.reader.specs.Replies.{gave};

use super::next_ident_if_eq;
use grammar::{ReadFault, Scalar};
use token::Source;

// The scalar types, in the order in which they are tried.
static SCALARS: [Scalar; 15] = [
    Scalar::Int32,
    Scalar::Int64,
    Scalar::Uint32,
    Scalar::Uint64,
    Scalar::Sint32,
    Scalar::Sint64,
    Scalar::Fixed32,
    Scalar::Sfixed32,
    Scalar::Fixed64,
    Scalar::Sfixed64,
    Scalar::Bool,
    Scalar::String,
    Scalar::Bytes,
    Scalar::Float,
    Scalar::Double,
];

// Takes the word of this scalar type, if it comes next.
fn next_scalar_if_eq<S: Source>(s: &mut S, scalar: Scalar) -> Result<bool, ReadFault>
    ensures { gave result (S.ahead s.new) ≡ word_if (scalar_word scalar) (S.ahead s.old) }
{
    next_ident_if_eq(s, scalar.as_str().as_bytes())
}

// Takes the word of a scalar type, if one comes next.
#[tactic(auto, unfolding(grammar::specs::Parse::opened, crate::specs::Scalars::scalar_in))]
pub fn next_scalar_opt<S: Source>(s: &mut S) -> Result<Option<Scalar>, ReadFault>
    ensures { gave result (S.ahead s.new) ≡ scalar_in scalars (S.ahead s.old) }
{
    for scalar in &SCALARS {
        if next_scalar_if_eq(s, *scalar)? {
            return Ok(Some(*scalar));
        }
    }
    Ok(None)
}
