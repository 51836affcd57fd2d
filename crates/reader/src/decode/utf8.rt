// UTF-8, byte by byte.
// Not by `str::from_utf8`: memory is fixed, so a byte that the text table has no room for is not held, and there is no slice to test.

// No Option where no byte is due: a first byte has a range, too, and the definitions say it so.
/// How many bytes of a character are still due, and the range of the next of them.
#[derive(Debug, Clone, Copy, PartialEq, Eq)]
pub struct Utf8 {
    pub due: u8,
    pub low: u8,
    pub high: u8,
}

impl Utf8 {
    ghost use Rattle.std.specs.Prelude.{◌≡◌, ◌==◌};
    ghost use Rattle.grammar.specs.Decode.{row_of, rows};
    ghost use Rattle.reader.specs.Utf8.{row_state, utf8_step};

    // Between two characters: no byte is due.
    pub const WHOLE: Utf8 = Utf8 {
        due: 0,
        low: 128,
        high: 191,
    };

    // Whether no byte of a character is due.
    pub fn is_whole(self) -> bool
        ensures { result ≡ (self.due == 0) }
    {
        self.due == 0
    }

    // So many bytes more of a character, the next of them in this range.
    pub fn rest(due: u8, low: u8, high: u8) -> Utf8
        ensures { result ≡ record { due = due; low = low; high = high } }
    {
        Utf8 { due, low, high }
    }

    // The first byte of a character: an arm for each row of the table of well-formed characters.
    fn first(b: u8) -> Option<Utf8>
        ensures { result ≡ row_state (row_of b rows) }
    {
        match b {
            0..=127 => Some(Utf8::WHOLE),
            194..=223 => Some(Utf8::rest(1, 128, 191)),
            224 => Some(Utf8::rest(2, 160, 191)),
            225..=236 => Some(Utf8::rest(2, 128, 191)),
            237 => Some(Utf8::rest(2, 128, 159)),
            238..=239 => Some(Utf8::rest(2, 128, 191)),
            240 => Some(Utf8::rest(3, 144, 191)),
            241..=243 => Some(Utf8::rest(3, 128, 191)),
            244 => Some(Utf8::rest(3, 128, 143)),
            _ => None,
        }
    }

    // Where the reader of characters stands after one byte more, unless it is refused.
    pub fn next(self, b: u8) -> Option<Utf8>
        ensures { result ≡ utf8_step self b }
    {
        if self.is_whole() {
            return Utf8::first(b);
        }
        if !(self.low..=self.high).contains(&b) {
            return None;
        }
        Some(Utf8::rest(self.due - 1, 128, 191))
    }
}
