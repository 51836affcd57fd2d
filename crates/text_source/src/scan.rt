// How many bytes at the front of a text belong together.
ghost use Rattle.std.specs.Prelude.{◌≡◌, ◌≤◌, ℕ, Bool, length};
ghost use Rattle.token.specs.Runs.{runs, run};
ghost use Rattle.token.specs.Law.{is_name_byte};
ghost use Rattle.text_source.specs.Classes.{is_blank};
ghost use Rattle.text_source.specs.Computing.{Computes};
ghost use Rattle.text_source.specs.Lexemes.{in_line, in_number, in_string};

use crate::class::{Class, class_of};

/// How many bytes pass a test that looks at a state, which each byte moves on.
pub(crate) fn run_len<S: Copy, P: Fn(S, u8) -> bool, N: Fn(S, u8) -> S>(
    s: &[u8],
    start: S,
    passes: P,
    next: N,
) -> usize
    requires tests { P.IsAlwaysCallable passes }
    requires moves { N.IsAlwaysCallable next }
    ensures within { result ≤ length s.now }
    ensures counts { (ok : S → ℕ → Bool) (to : S → ℕ → S) → Computes (P.post passes) ok → Computes (N.post next) to → result ≡ runs ok to start s.now }
{
    // A loop: the library's lemmas on `take_while` are for a closure that changes nothing, and this test moves a state on.
    let mut state = start;
    for (i, b) in s.iter().enumerate() {
        if !passes(state, *b) {
            return i;
        }
        state = next(state, *b);
    }
    s.len()
}

// By the table of classes, which the lexer goes by; crate `token` judges the bytes of a whole text, and has no such table.
#[tactic(auto, using(crate::proofs::Classes::name_byte, crate::proofs::Classes::no_name_byte))]
fn is_name_byte(b: u8) -> bool
    ensures { result ≡ is_name_byte b }
{
    matches!(class_of(b), Class::Letter | Class::Digit)
}

// By the bytes of the class themselves: a look into the table of classes would make a run of blanks slower.
fn is_blank(b: u8) -> bool
    ensures { result ≡ is_blank b }
{
    matches!(b, b'\t'..=b'\r' | b' ')
}

/// The blanks at the front.
pub(crate) fn blank_len(s: &[u8]) -> usize
    ensures within { result ≤ length s.now }
    ensures counts { result ≡ run is_blank s.now }
{
    s.iter().take_while(|b| is_blank(**b)).count()
}

/// Letters, digits and underscores.
pub(crate) fn name_len(s: &[u8]) -> usize
    ensures within { result ≤ length s.now }
    ensures counts { result ≡ run is_name_byte s.now }
{
    s.iter().take_while(|b| is_name_byte(**b)).count()
}

/// Up to the end of the line.
pub(crate) fn line_len(s: &[u8]) -> usize
    ensures within { result ≤ length s.now }
    ensures counts { result ≡ run in_line s.now }
{
    s.iter().take_while(|b| **b != b'\n').count()
}

/// Does the byte belong to a number, after the byte `last` of it?
pub(crate) fn is_in_number(hex: bool, last: u8, b: u8) -> bool
    ensures { result ≡ in_number hex last b }
{
    is_name_byte(b)
        || b == b'.'
        || (!hex && matches!(last, b'e' | b'E') && matches!(b, b'+' | b'-'))
}

/// Does the byte belong to a string, where a backslash may have taken it along?
pub(crate) fn is_in_string(quote: u8, escaped: bool, b: u8) -> bool
    ensures { result ≡ in_string quote escaped b }
{
    b != 0 && b != b'\n' && (escaped || b != quote)
}
