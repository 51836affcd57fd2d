// Why a file is refused: by its source, by the reader, or by the catalogue.
ghost use Rattle.std.specs.Prelude.{◌≡◌};
ghost use Rattle.grammar.specs.declared.fault.ReadFault.TheVariants.{Source};
ghost use Rattle.grammar.specs.Refusals.{error_number, read_layer, read_number, read_place, catalogue_number};

use token::{Place, SourceFault};

/// What the reader refuses.
#[derive(Debug, Clone, Copy, PartialEq, Eq)]
pub enum ParserError {
    EndOfFile = 10,
    ExpectSymbol = 11,
    ExpectIdent = 12,
    ExpectWord = 13,
    ExpectString = 14,
    ForbiddenWord = 15,
    IncorrectInput = 20,
    ExpectConstant = 21,
    UnknownSyntax = 22,
    IntegerOverflow = 23,
    LabelNotAllowed = 24,
    LabelRequired = 25,
    GroupNameShouldStartWithUpperCase = 26,
    MapFieldNotAllowed = 27,
    StrLitDecodeError = 28,
    OneOfInGroup = 29,
    PathEmpty = 30,
    PathBackslashes = 31,
    ComponentEmpty = 32,
    ComponentDot = 33,
    ComponentDotDot = 34,
    NestingTooDeep = 35,
}

impl ParserError {
    /// The number under which the refusal is reported.
    pub fn number(self) -> u8
        ensures { result ≡ error_number self }
    {
        self as u8
    }
}

/// A refusal of the reader's, with its place.
// No generic with a source's fault: only the place is common, and each is named for the enum that it holds.
#[derive(Debug, Clone, Copy, PartialEq, Eq)]
pub struct ReaderFault {
    pub error: ParserError,
    pub place: Place,
}

/// Why reading stopped: the source's fault, whole, or the reader's own.
#[derive(Debug, Clone, Copy, PartialEq, Eq)]
pub enum ReadFault {
    Source(SourceFault),
    Reader(ReaderFault),
}

impl ReadFault {
    /// The layer that refused: 1 the source, 2 the reader.
    // By cases: `as` takes no variant that has fields.
    pub fn layer(self) -> u8
        ensures { result ≡ read_layer self }
    {
        match self {
            ReadFault::Source(_) => 1,
            ReadFault::Reader(_) => 2,
        }
    }

    /// The number under which the refusal is reported.
    pub fn number(self) -> u8
        ensures { result ≡ read_number self }
    {
        match self {
            ReadFault::Source(f) => f.fault.number(),
            ReadFault::Reader(f) => f.error.number(),
        }
    }

    /// Where it refused.
    pub fn place(self) -> Place
        ensures { result ≡ read_place self }
    {
        match self {
            ReadFault::Source(f) => f.place,
            ReadFault::Reader(f) => f.place,
        }
    }
}

/// What the catalogue refuses, at no place of the input.
#[derive(Debug, Clone, Copy, PartialEq, Eq)]
pub enum CatalogueFault {
    NoFile = 40,
    NoRecords = 41,
    NoText = 42,
    NoSlot = 43,
    BufferShort = 44,
}

impl CatalogueFault {
    /// The number under which the refusal is reported.
    pub fn number(self) -> u8
        ensures { result ≡ catalogue_number self }
    {
        self as u8
    }
}

// A source's fault travels whole inside the reader's.
impl From<SourceFault> for ReadFault {
    ghost from_gives = { λ f r. r ≡ Source f };

    fn from(fault: SourceFault) -> ReadFault {
        ReadFault::Source(fault)
    }
}
