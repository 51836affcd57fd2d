// Where the reader of nested brackets stands.

/// A bracket that is open: its kind says what is read after the part in hand. In a map that is its key, and then its value.
#[derive(Debug, Clone, Copy, PartialEq, Eq)]
pub enum Frame {
    MessageConstant,
    ListConstant,
    MapKey,
    MapValue,
}

// The states of one loop, which every step of it answers: `Nothing` has a step of its own, and is no lack of one.
/// What comes next in a constant or a type: a constant, a message, a list, an entry of the innermost message or its end, what
/// follows a constant or a type that is complete, a type, or the types of a map.
#[derive(Debug, Clone, Copy, PartialEq, Eq)]
pub enum Due {
    Constant,
    Message,
    List,
    Entry,
    Nothing,
    Type,
    Map,
}
