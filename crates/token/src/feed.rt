// The trait of a token source.
ghost use Rattle.std.specs.Prelude.{◌≡◌, T};
ghost use Rattle.token.specs.Token.{Ahead, looked, numbered, byted, taken};
ghost use Rattle.token.specs.Law.{lawful};

use crate::answer::{Look, SourceFault};

/// A source of tokens. It means the tokens still to come, each with its place, and then a clean end or one fault.
pub trait Source {
    // The meaning: what is still to come.
    ghost ahead: { Self → Ahead };

    // The law: every token is well formed, and every place has 32-bit numbers.
    ghost formed: { (s : Self) → T (lawful (ahead s)) };

    /// The kind of what comes next, the length of its text and its place; or the fault, with its place.
    fn look(&self) -> Result<Look, SourceFault>
        ensures { result ≡ looked (ahead self.now) };

    // 0 where there is none, here and in `byte`: the form of a source's answers that this project keeps.
    /// The integer that comes next, or 0 for any other kind.
    fn number(&self) -> u64
        ensures { result ≡ numbered (ahead self.now) };

    /// Byte `k`, from 0, of the text of what comes next, or 0 beyond it.
    fn byte(&self, k: usize) -> u8
        ensures { result ≡ byted (ahead self.now) k };

    /// Removes the next token; at an end or a fault it does nothing.
    fn take(&mut self)
        ensures { ahead self.new ≡ taken (ahead self.old) };
}
