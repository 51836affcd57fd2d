// What is left of the brackets.
ghost use Rattle.std.specs.Prelude.{◌≡◌, ◌-◌};

use super::{MOST_BRACKETS, Nesting};
use grammar::Syntax;

impl Nesting {
    /// How constants nest where `opened` brackets are open.
    pub fn beside(syntax: Syntax, opened: usize) -> Nesting
        ensures syntax { result.syntax ≡ syntax }
        ensures left { result.left ≡ 32 - opened }
    {
        Nesting {
            syntax,
            left: MOST_BRACKETS.saturating_sub(opened),
        }
    }

    /// How many more may be opened.
    pub fn left(self) -> usize
        ensures { result ≡ self.left }
    {
        self.left
    }
}
