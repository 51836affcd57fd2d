// The literals of integers.
ghost use Rattle.std.specs.Prelude.{◌≡◌, ◌+◌, ◌*◌, ◌^◌, ◌<◌, ◌≤◌};
ghost use Rattle.std.specs.Option.{SomeIff};
ghost use Rattle.text_source.specs.Base.{radix};
ghost use Rattle.text_source.specs.Numerals.{digit_in, read_in, int_lit};

/// The base of a numeral.
#[derive(Debug, Clone, Copy, PartialEq, Eq)]
pub(crate) enum Base {
    Octal = 8,
    Decimal = 10,
    Hexadecimal = 16,
}

impl Base {
    ghost use Rattle.text_source.specs.Base.{radix};

    fn radix(self) -> u32
        ensures is { result ≡ radix self }
        ensures within { (2 ≤ result) × (result ≤ 16) }
    {
        self as u32
    }
}

fn digit_in(base: Base, b: u8) -> Option<u32>
    ensures { result ≡ digit_in (radix base) b }
{
    char::from(b).to_digit(base.radix())
}

fn appended(value: u64, base: Base, digit: u32) -> Option<u64>
    ensures { SomeIff result (value * radix base + digit < 2 ^ 64) (value * radix base + digit) }
{
    value
        .checked_mul(u64::from(base.radix()))?
        .checked_add(u64::from(digit))
}

// Not `u64::from_str_radix`: it reads a `&str`, and takes a `+` before the digits, which no literal has.
fn read_in(base: Base, s: &[u8]) -> Option<u64>
    ensures { result ≡ read_in (radix base) 0 s.now }
{
    let mut value = 0;
    for b in s {
        value = appended(value, base, digit_in(base, *b)?)?;
    }
    Some(value)
}

/// The number that a whole text is the literal of.
#[tactic(auto, using(crate::proofs::Digits::literals))]
pub(crate) fn int_lit(s: &[u8]) -> Option<u64>
    ensures { result ≡ int_lit s.now }
{
    match s {
        [] => None,
        [b'0'] => Some(0),
        [b'0', b'x' | b'X'] => None,
        [b'0', b'x' | b'X', hex @ ..] => read_in(Base::Hexadecimal, hex),
        [b'0', octal @ ..] => read_in(Base::Octal, octal),
        _ => read_in(Base::Decimal, s),
    }
}
