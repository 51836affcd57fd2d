// The readers of one token: what is looked at decides, and is then taken.
// Clauses are over `S.ahead s`: a struct over the source with a `Model` was tried, and the source that it was lent was lost to its
// caller.
#![tactic(auto, unfolding(grammar::specs::Parse::opened, grammar::specs::Grammar::no_room))]

ghost use Rattle.std.specs.Prelude.{◌≡◌, ◌||◌, length};
ghost use Rattle.token.specs.Token.{spelled, place};
ghost use Rattle.grammar.specs.declared.fault.ReadFault.TheVariants.{Reader};
ghost use Rattle.grammar.specs.Grammar.{no_room};
ghost use Rattle.grammar.specs.Parse.{refused, is_symbol, accept, next_is, next_is_word, symbol_if, symbol_due, word_if, word_due, word_forbidden, same};
ghost use Rattle.reader.specs.Replies.{gave, missing};

use grammar::{ParserError, ReadFault, ReaderFault};
use token::{Kind, Source};

pub mod labels;
pub mod numbers;
pub mod scalars;

// How many bytes the text of what comes next has.
// No Option: at a fault no text comes, and a text that does not come has no byte to read.
pub fn text_len<S: Source>(s: &S) -> usize
    ensures { result ≡ length (spelled (S.ahead s.now)) }
{
    s.look().map_or(0, |look| look.len)
}

// A refusal at the place of what comes next.
pub fn refusal<S: Source>(s: &S, error: ParserError) -> ReadFault
    ensures { result ≡ Reader (record { error = error; place = place (S.ahead s.now) }) }
{
    let place = match s.look() {
        Ok(look) => look.place,
        Err(fault) => fault.place,
    };
    ReadFault::Reader(ReaderFault { error, place })
}

// The refusal where another token was due: `error`, but at the end that the file ends there.
pub fn unexpected<S: Source>(s: &S, error: ParserError) -> ReadFault
    ensures { result ≡ Reader (record { error = missing error (S.ahead s.now); place = place (S.ahead s.now) }) }
{
    match s.look() {
        Ok(look) if look.kind == Kind::End => refusal(s, ParserError::EndOfFile),
        _ => refusal(s, error),
    }
}

// Whether the symbol `c` comes next.
pub fn lookahead_is_symbol<S: Source>(s: &S, c: u8) -> Result<bool, ReadFault>
    ensures { gave result (S.ahead s.now) ≡ next_is c (S.ahead s.now) }
{
    match s.look()?.kind {
        Kind::Symbol => Ok(s.byte(0) == c),
        _ => Ok(false),
    }
}

// Takes the symbol `c` if it comes next.
pub fn next_symbol_if_eq<S: Source>(s: &mut S, c: u8) -> Result<bool, ReadFault>
    ensures { gave result (S.ahead s.new) ≡ symbol_if c (S.ahead s.old) }
{
    if lookahead_is_symbol(s, c)? {
        s.take();
        return Ok(true);
    }
    Ok(false)
}

// Takes the symbol `c` or `d` if one of them comes next.
pub fn next_symbol_if_in<S: Source>(s: &mut S, c: u8, d: u8) -> Result<bool, ReadFault>
    ensures { gave result (S.ahead s.new) ≡ accept (λ t. is_symbol c t || is_symbol d t) (S.ahead s.old) }
{
    Ok(next_symbol_if_eq(s, c)? || next_symbol_if_eq(s, d)?)
}

// Takes the symbol `c`, or refuses.
pub fn next_symbol_expect_eq<S: Source>(s: &mut S, c: u8) -> Result<(), ReadFault>
    ensures { gave result (S.ahead s.new) ≡ symbol_due c (S.ahead s.old) }
{
    if next_symbol_if_eq(s, c)? {
        return Ok(());
    }
    Err(unexpected(s, ParserError::ExpectSymbol))
}

// Whether the text that comes next is `word`.
fn spells<S: Source>(s: &S, word: &[u8]) -> bool
    ensures { result ≡ same (spelled (S.ahead s.now)) word.now }
{
    text_len(s) == word.len() && word.iter().enumerate().all(|(k, b)| s.byte(k) == *b)
}

// Whether the identifier `word` comes next.
pub fn lookahead_is_ident<S: Source>(s: &S, word: &[u8]) -> Result<bool, ReadFault>
    ensures { gave result (S.ahead s.now) ≡ next_is_word word.now (S.ahead s.now) }
{
    match s.look()?.kind {
        Kind::Ident => Ok(spells(s, word)),
        _ => Ok(false),
    }
}

// Takes the identifier `word` if it comes next.
// It and `next_symbol_if_eq` are a test each, and a take, and so are their neighbours for a symbol and a word: one function over a
// test would be no plainer.
pub fn next_ident_if_eq<S: Source>(s: &mut S, word: &[u8]) -> Result<bool, ReadFault>
    ensures { gave result (S.ahead s.new) ≡ word_if word.now (S.ahead s.old) }
{
    if lookahead_is_ident(s, word)? {
        s.take();
        return Ok(true);
    }
    Ok(false)
}

// Takes the identifier `word`, or refuses.
pub fn next_ident_expect_eq<S: Source>(s: &mut S, word: &[u8]) -> Result<(), ReadFault>
    ensures { gave result (S.ahead s.new) ≡ word_due word.now (S.ahead s.old) }
{
    if next_ident_if_eq(s, word)? {
        return Ok(());
    }
    Err(unexpected(s, ParserError::ExpectWord))
}

// Refuses the identifier `word` where it comes next.
pub fn next_ident_if_eq_error<S: Source>(s: &S, word: &[u8]) -> Result<(), ReadFault>
    ensures { gave result (S.ahead s.now) ≡ word_forbidden word.now (S.ahead s.now) }
{
    if !lookahead_is_ident(s, word)? {
        return Ok(());
    }
    Err(refusal(s, ParserError::ForbiddenWord))
}

// The refusal where the bracket `c` is due and no more may be opened.
pub fn no_room<S: Source>(s: &S, c: u8) -> ReadFault
    ensures { no_room c (S.ahead s.now) ≡ refused result (S.ahead s.now) }
{
    match lookahead_is_symbol(s, c) {
        Ok(true) => refusal(s, ParserError::NestingTooDeep),
        Ok(false) => unexpected(s, ParserError::ExpectSymbol),
        Err(fault) => fault,
    }
}
