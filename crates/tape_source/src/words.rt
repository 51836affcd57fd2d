// Bytes in words, four a word, the first in the lowest bits.
ghost use Rattle.std.specs.Prelude.{◌≡◌, ◌+◌, ◌/◌, ◌<◌, ◌≤◌, length};
ghost use Rattle.tape_source.specs.Tape.{byte_in, tab, padded};

/// Byte `k` of the words.
pub(crate) fn byte_at(words: &[u32], k: usize) -> u8
    requires { k / 4 < length words.now }
    ensures { result ≡ byte_in words.now k }
{
    words[k / 4].to_le_bytes()[k % 4]
}

/// Fills the text with the first bytes of the words.
pub(crate) fn unpack<'t>(words: &[u32], text: &'t mut [u8]) -> &'t [u8]
    requires { (length text.old + 3) / 4 ≤ length words.now }
    ensures { result.now ≡ tab (byte_in words.now) (length text.old) }
{
    // Byte by byte; tried: `chunks_mut(4)` with the words. After its loop a proof knows the text's length alone, and none of its bytes.
    for (k, byte) in text.iter_mut().enumerate() {
        *byte = byte_at(words, k);
    }
    text
}

/// Are the bytes of the last word that stand behind `n` bytes all zero?
pub(crate) fn is_padded(words: &[u32], n: usize) -> bool
    requires { (n + 3) / 4 ≤ length words.now }
    ensures { result ≡ padded words.now n }
{
    n % 4 == 0 || words[n / 4] < 1 << (8 * (n % 4))
}
