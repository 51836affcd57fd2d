// What a source answers: places, kinds and faults.
ghost use Rattle.std.specs.Prelude.{◌≡◌, Some};
ghost use Rattle.token.specs.Place.{place_text};
ghost use Rattle.token.specs.Fault.{fault_number, fault_name, fault_text};
ghost use Rattle.token.specs.Token.{look_at};
ghost use Rattle.token.specs.declared.answer.Kind.TheVariants.{End};

use std::fmt;

/// Where a token, an end or a fault stands: line and column in a text, 0 and the first word's index on a tape.
#[derive(Debug, Clone, Copy, PartialEq, Eq)]
pub struct Place {
    pub line: u32,
    pub column: u32,
}

/// Printed as `line:column`.
impl fmt::Display for Place {
    ghost output = { λ p. Some (place_text p) };

    fn fmt<W: fmt::Write>(&self, f: &mut fmt::Formatter<W>) -> fmt::Result {
        write!(f, "{}:{}", self.line, self.column)
    }
}

/// What can be wrong with a source's input, with the number under which it is reported.
#[derive(Debug, Clone, Copy, PartialEq, Eq)]
pub enum Fault {
    BadByte = 1,
    BadNumber = 2,
    UnclosedString = 3,
    UnclosedComment = 4,
    TokenTooLong = 5,
    CutTape = 6,
    BadWord = 7,
    InputTooLong = 8,
}

impl Fault {
    /// The number under which the fault is reported.
    pub fn number(self) -> u8
        ensures { result ≡ fault_number self }
    {
        self as u8
    }

    /// The name under which the fault is reported.
    pub fn name(self) -> &'static str
        ensures { result.now ≡ fault_name self }
    {
        // Written out: what a derived `Debug` prints is nothing that a clause can name.
        match self {
            Fault::BadByte => "BadByte",
            Fault::BadNumber => "BadNumber",
            Fault::UnclosedString => "UnclosedString",
            Fault::UnclosedComment => "UnclosedComment",
            Fault::TokenTooLong => "TokenTooLong",
            Fault::CutTape => "CutTape",
            Fault::BadWord => "BadWord",
            Fault::InputTooLong => "InputTooLong",
        }
    }
}

/// Printed as its number and its name.
impl fmt::Display for Fault {
    ghost output = { λ f. Some (fault_text f) };

    fn fmt<W: fmt::Write>(&self, f: &mut fmt::Formatter<W>) -> fmt::Result {
        write!(f, "{} {}", self.number(), self.name())
    }
}

/// A fault with its place.
#[derive(Debug, Clone, Copy, PartialEq, Eq)]
pub struct SourceFault {
    pub fault: Fault,
    pub place: Place,
}

/// The kind of what comes next: one of the five kinds of token, or the clean end.
#[derive(Debug, Clone, Copy, PartialEq, Eq)]
pub enum Kind {
    Symbol,
    Ident,
    IntLit,
    FloatLit,
    StrLit,
    // An end has a place of its own, which a look answers: so it is a kind, and no `None` beside the kinds.
    End,
}

/// The kind of what comes next, the length of its text, and its place.
#[derive(Debug, Clone, Copy, PartialEq, Eq)]
pub struct Look {
    pub kind: Kind,
    pub len: usize,
    pub place: Place,
}

impl Look {
    /// What a source answers at the end, which has no text.
    pub fn end(place: Place) -> Look
        ensures { result ≡ look_at End 0 place }
    {
        Look {
            kind: Kind::End,
            len: 0,
            place,
        }
    }
}
