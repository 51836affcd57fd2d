// How constants nest.
ghost use Rattle.std.specs.Prelude.{◌≤◌};

use grammar::Syntax;

mod calls;

/// The most brackets that are open together.
pub const MOST_BRACKETS: usize = 32;

/// The syntax of the file, and how many more brackets may be opened: at most 32 are open together.
#[derive(Debug, Clone, Copy, PartialEq, Eq)]
pub struct Nesting {
    syntax: Syntax,
    left: usize,
    ghost few: { left ≤ 32 },
}
