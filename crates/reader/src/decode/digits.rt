// The digits of numeric escapes.
ghost use Rattle.std.specs.Prelude.{◌<◌};

/// A number below a limit, as a digit is below its radix.
#[derive(Debug, Clone, Copy, PartialEq, Eq)]
pub struct Below<const LIMIT: u8> {
    pub value: u8,
    pub ghost below: { value < LIMIT },
}

impl<const LIMIT: u8> Below<LIMIT> {
    ghost use Rattle.std.specs.Prelude.{◌≡◌, ◌≤◌};
    ghost use Rattle.reader.specs.Digits.{value_in, digit_below};

    // The digit that a byte writes, where the limit is the radix.
    pub(super) fn digit(c: u8) -> Option<Self>
        requires least { 2 ≤ LIMIT }
        requires most { LIMIT ≤ 36 }
        ensures { value_in result ≡ digit_below LIMIT c }
    {
        let value = (c as char).to_digit(LIMIT as u32)?;
        Some(Below { value: value as u8 })
    }
}
