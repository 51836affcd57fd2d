// Judges the token at the front of a tape: its first word, then the words that are missing, then its content.
ghost use Rattle.std.specs.Prelude.{◌≡◌, IsTrue, drop};
ghost use Rattle.std.specs.Option.{SomeIff};
ghost use Rattle.token.specs.Law.{is_mark};
ghost use Rattle.tape_source.specs.Tape.{long, by_kind, step};
ghost use Rattle.tape_source.specs.Front.{made, meant};

use crate::front::Span;
use crate::kind::WordKind;
use crate::text::Text;
use crate::words::is_padded;
use token::{Fault, LONGEST_TEXT, is_symbol};

// The symbol that the number is the byte of, if it is one.
fn symbol_in(low: u32) -> Option<u8>
    ensures { SomeIff result (IsTrue (is_mark low)) low }
{
    u8::try_from(low).ok().filter(|b| is_symbol(*b))
}

fn judge_integer(rest: &[u32]) -> Result<Option<Span>, Fault>
    ensures { meant rest.now result ≡ by_kind 2 0 rest.now }
{
    match rest {
        [low, high, ..] => Ok(Some(Span::Number(u64::from(*low) + (u64::from(*high) << 32)))),
        _ => Err(Fault::CutTape),
    }
}

fn judge_text(text: Text, len: usize, rest: &[u32]) -> Result<Option<Span>, Fault>
    ensures { meant rest.now result ≡ long (made text) len rest.now }
{
    if len > LONGEST_TEXT {
        return Err(Fault::BadWord);
    }
    let more = len.div_ceil(4);
    if rest.len() < more {
        return Err(Fault::CutTape);
    }
    if !is_padded(rest, len) || !text.accepts(rest, len) {
        return Err(Fault::BadWord);
    }
    Ok(Some(Span::Text(text, len)))
}

/// What stands at the front of the words. The kind of the first is in its three highest bits.
pub(crate) fn judge(words: &[u32]) -> Result<Option<Span>, Fault>
    ensures { meant (drop 1 words.now) result ≡ step words.now }
{
    let [first, rest @ ..] = words else {
        return Err(Fault::CutTape);
    };
    let low = *first & 0x1fff_ffff;
    match WordKind::try_from(*first >> 29)? {
        WordKind::End if low == 0 => Ok(None),
        WordKind::Symbol => Ok(Some(Span::Symbol(symbol_in(low).ok_or(Fault::BadWord)?))),
        WordKind::Integer if low == 0 => judge_integer(rest),
        WordKind::Text(text) => judge_text(text, low as usize, rest),
        _ => Err(Fault::BadWord),
    }
}
