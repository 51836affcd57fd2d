// The kinds of a token's first word.
ghost use Rattle.std.specs.Prelude.{◌≡◌};

use crate::text::Text;
use token::Fault;

/// The end, a symbol, an integer, or a text of one of three kinds.
#[derive(Debug, Clone, Copy, PartialEq, Eq)]
pub(crate) enum WordKind {
    // The end has a word of its own, at a place of its own: so it is a kind, and no `None` beside the kinds.
    End,
    Symbol,
    Integer,
    Text(Text),
}

impl TryFrom<u32> for WordKind {
    ghost use Rattle.tape_source.specs.WordKind.{kind_in};

    type Error = Fault;

    ghost try_from_gives = { λ code outcome. outcome ≡ kind_in code };

    fn try_from(code: u32) -> Result<WordKind, Fault> {
        match code {
            0 => Ok(WordKind::End),
            1 => Ok(WordKind::Symbol),
            2 => Ok(WordKind::Integer),
            3 => Ok(WordKind::Text(Text::Ident)),
            4 => Ok(WordKind::Text(Text::Float)),
            5 => Ok(WordKind::Text(Text::Str)),
            _ => Err(Fault::BadWord),
        }
    }
}
