// The texts of tokens, judged byte by byte.
ghost use Rattle.std.specs.Prelude.{◌≡◌, ◌<◌, ◌≤◌, length, drop, MatchOption};
ghost use Rattle.token.specs.Runs.{run};
ghost use Rattle.token.specs.Law.{is_mark, is_digit, is_letter, is_name_byte, every, is_name, after_decimals, nothing_more, is_power, is_exponent, exponent_or_nothing, is_fraction, is_float};

/// Is the byte one of the sixteen symbols?
pub fn is_symbol(b: u8) -> bool
    ensures { result ≡ is_mark b }
{
    matches!(
        b,
        b';' | b'{'
            | b'}'
            | b'['
            | b']'
            | b'('
            | b')'
            | b'<'
            | b'>'
            | b'='
            | b','
            | b'.'
            | b':'
            | b'/'
            | b'+'
            | b'-'
    )
}

fn is_digit(b: u8) -> bool
    ensures { result ≡ is_digit b }
{
    b.is_ascii_digit()
}

fn is_letter(b: u8) -> bool
    ensures { result ≡ is_letter b }
{
    b.is_ascii_alphabetic() || b == b'_'
}

fn is_name_byte(b: u8) -> bool
    ensures { result ≡ is_name_byte b }
{
    b.is_ascii_alphanumeric() || b == b'_'
}

fn are_name_bytes(s: &[u8]) -> bool
    ensures { result ≡ every is_name_byte s.now }
{
    s.iter().all(|b| is_name_byte(*b))
}

/// Is the text an identifier: a letter or underscore, then letters, digits and underscores?
pub fn is_ident(s: &[u8]) -> bool
    ensures { result ≡ is_name s.now }
{
    match s {
        [first, rest @ ..] => is_letter(*first) && are_name_bytes(rest),
        [] => false,
    }
}

/// How many digits stand at the front of the text.
pub fn digits_len(s: &[u8]) -> usize
    ensures within { result ≤ length s.now }
    ensures counts { result ≡ run is_digit s.now }
{
    s.iter().take_while(|b| is_digit(**b)).count()
}

// What stands after the digits at the front, one at least.
fn after_decimals(s: &[u8]) -> Option<&[u8]>
    ensures { MatchOption result (run is_digit s.now ≡ 0) (λ rest. (0 < run is_digit s.now) × (rest.now ≡ drop (run is_digit s.now) s.now)) }
{
    match digits_len(s) {
        0 => None,
        n => Some(&s[n..]),
    }
}

// One digit or more, and nothing else.
fn is_decimals(s: &[u8]) -> bool
    ensures { result ≡ after_decimals nothing_more s.now }
{
    after_decimals(s).is_some_and(|rest| rest.is_empty())
}

fn is_power(s: &[u8]) -> bool
    ensures { result ≡ is_power s.now }
{
    match s {
        [b'+' | b'-', rest @ ..] => is_decimals(rest),
        _ => is_decimals(s),
    }
}

fn is_exponent(s: &[u8]) -> bool
    ensures { result ≡ is_exponent s.now }
{
    match s {
        [b'e' | b'E', rest @ ..] => is_power(rest),
        _ => false,
    }
}

fn is_exponent_or_nothing(s: &[u8]) -> bool
    ensures { result ≡ exponent_or_nothing s.now }
{
    s.is_empty() || is_exponent(s)
}

// What stands after the first decimals.
fn is_fraction(s: &[u8]) -> bool
    ensures { result ≡ is_fraction s.now }
{
    match s {
        [b'.', rest @ ..] => is_exponent_or_nothing(&rest[digits_len(rest)..]),
        _ => is_exponent(s),
    }
}

/// Is the text a floating point literal, other than `inf` and `nan`?
pub fn is_float(s: &[u8]) -> bool
    ensures { result ≡ is_float s.now }
{
    match s {
        [b'.', rest @ ..] => after_decimals(rest).is_some_and(is_exponent_or_nothing),
        _ => after_decimals(s).is_some_and(is_fraction),
    }
}
