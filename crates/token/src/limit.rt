// The limits that every source keeps.

/// The most bytes that a token's text may have.
pub const LONGEST_TEXT: usize = 1023;

/// The most bytes of a text, and the most words of a tape.
pub const LONGEST_INPUT: usize = 16_777_215;
