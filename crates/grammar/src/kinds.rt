// The small kinds that every layer shares, in the original's order.
ghost use Rattle.std.specs.Prelude.{◌≡◌};
ghost use Rattle.grammar.specs.Kinds.{rule_word, scalar_word, scalar_code};

/// The language version of a file.
#[derive(Debug, Clone, Copy, PartialEq, Eq)]
pub enum Syntax {
    Proto2,
    Proto3,
}

/// How an imported file is seen.
#[derive(Debug, Clone, Copy, PartialEq, Eq)]
pub enum ImportVis {
    Default,
    Public,
    Weak,
}

/// The label of a field.
#[derive(Debug, Clone, Copy, PartialEq, Eq)]
pub enum Rule {
    Optional,
    Repeated,
    Required,
}

impl Rule {
    /// The word that stands for the label.
    // A text and no `Display`: readers compare its bytes, without a buffer, and nothing prints it.
    pub fn as_str(self) -> &'static str
        ensures { result.now ≡ rule_word self }
    {
        match self {
            Rule::Optional => "optional",
            Rule::Repeated => "repeated",
            Rule::Required => "required",
        }
    }
}

/// The first fifteen field types; the other three are a named type, a map and a group.
#[derive(Debug, Clone, Copy, PartialEq, Eq)]
pub enum Scalar {
    Int32 = 1,
    Int64 = 2,
    Uint32 = 3,
    Uint64 = 4,
    Sint32 = 5,
    Sint64 = 6,
    Bool = 7,
    Fixed64 = 8,
    Sfixed64 = 9,
    Double = 10,
    String = 11,
    Bytes = 12,
    Fixed32 = 13,
    Sfixed32 = 14,
    Float = 15,
}

impl Scalar {
    /// The word that stands for the type.
    // A text and no `Display`, as the word of a label.
    pub fn as_str(self) -> &'static str
        ensures { result.now ≡ scalar_word self }
    {
        match self {
            Scalar::Int32 => "int32",
            Scalar::Int64 => "int64",
            Scalar::Uint32 => "uint32",
            Scalar::Uint64 => "uint64",
            Scalar::Sint32 => "sint32",
            Scalar::Sint64 => "sint64",
            Scalar::Bool => "bool",
            Scalar::Fixed64 => "fixed64",
            Scalar::Sfixed64 => "sfixed64",
            Scalar::Double => "double",
            Scalar::String => "string",
            Scalar::Bytes => "bytes",
            Scalar::Fixed32 => "fixed32",
            Scalar::Sfixed32 => "sfixed32",
            Scalar::Float => "float",
        }
    }

    /// The number of the field type, from 1.
    pub fn number(self) -> u8
        ensures { result ≡ scalar_code self }
    {
        self as u8
    }
}
