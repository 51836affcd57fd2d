// What one record holds: an item with its texts as spans, and its links.
ghost use Rattle.std.specs.Prelude.{◌≡◌};

use grammar::{ImportVis, Rule, Scalar};
use token::Place;

/// A text: the bytes from `from` up to `to` of the text table.
// No `Range<usize>`, since that is not `Copy`, as a record is; no `&str`, since the text table is written while spans of it are held.
#[derive(Debug, Clone, Copy, PartialEq, Eq)]
pub struct Span {
    pub from: usize,
    pub to: usize,
}

/// A constant but for what a message or a list holds.
// A float's sign says something at either value, so it is no Option; names for two fields of two types would say no more.
#[derive(Debug, Clone, Copy, PartialEq, Eq)]
pub enum Value {
    Unsigned(u64),
    Minus(u64),
    Float(bool, Span),
    Truth(bool),
    Path(Span),
    Text(Span),
    Message,
    List,
}

/// A name in a message constant: `a`, `[a.b]`, `[a.b/c.d]`.
#[derive(Debug, Clone, Copy, PartialEq, Eq)]
pub enum Key {
    Plain(Span),
    Extension(Span),
    // The two names in the order in which they are written: names for the fields would say no more.
    AnyType(Span, Span),
}

/// A type but for what a map or a group holds.
#[derive(Debug, Clone, Copy, PartialEq, Eq)]
pub enum Shape {
    Scalar(Scalar),
    Named(Span),
    Map,
    Group(Span),
}

/// One record, without its parts.
// A name and its place stand side by side, as in the items of the definitions, whose cases have them in this order.
// Names where fields of one type stand apart; without them the two ends of a range, in the order of the source, read no worse.
#[derive(Debug, Clone, Copy, PartialEq, Eq)]
pub enum Item {
    Import(ImportVis, Span),
    Setting,
    DirectPart(Span),
    ExtensionPart(Span),
    Constant(Value),
    Name(Key),
    ReservedRange(u32, u32),
    ExtensionRange(u32, u32),
    ReservedName(Span),
    Message(Span, Place),
    Field {
        label: Option<Rule>,
        name: Span,
        number: u32,
        place: Place,
    },
    Type(Shape),
    OneOf(Span, Place),
    Extension(Span),
    Enum(Span, Place),
    EnumValue(Span, i32),
    Service(Span, Place),
    Method {
        name: Span,
        from_client: bool,
        input: Span,
        from_server: bool,
        output: Span,
    },
}

/// An item, the record that it is a part of, its own first part, and the next part of the same record.
// Links are indices and no boxes: the memory is fixed, without a heap.
#[derive(Debug, Clone, Copy, PartialEq, Eq)]
pub struct Record {
    pub item: Item,
    pub parent: Option<usize>,
    pub first: Option<usize>,
    pub next: Option<usize>,
}

impl Record {
    ghost use Rattle.store.specs.Held.{leaf as leaf_of};

    /// What stands where nothing was put.
    pub(crate) const EMPTY: Record = Record {
        item: Item::Setting,
        parent: None,
        first: None,
        next: None,
    };

    /// A record with no parts yet, and nothing beside it.
    pub(crate) fn leaf(item: Item, parent: Option<usize>) -> Record
        ensures { result ≡ leaf_of item parent }
    {
        Record {
            item,
            parent,
            ..Record::EMPTY
        }
    }
}
