// The tables of records and of text.
ghost use Rattle.std.specs.Prelude.{◌≡◌, ◌-◌, ◌^◌, ◌≤◌, length};
ghost use Rattle.store.specs.declared.table.TheConstants.{MOST_RECORDS, MOST_TEXT};

use crate::parts::Record;

mod calls;

/// How many records a table holds.
pub(crate) const MOST_RECORDS: usize = 1024;

/// How many bytes of text a table holds.
pub(crate) const MOST_TEXT: usize = 8192;

/// The tables of a catalogue: 1,024 records and 8,192 bytes of text. Both counts go on past full tables.
// Arrays with counts beside them: the memory is fixed, and the counts go on where a list would end.
// Ghost fields and no `Model`, which would hide `counted` and `measured` from the readers' proofs that take them from the type.
#[derive(Drop)]
pub struct Store {
    slots: [Record; MOST_RECORDS],
    bytes: [u8; MOST_TEXT],
    count: usize,
    used: usize,
    base: usize,
    open: Option<usize>,
    last: Option<usize>,
    ghost slotted: { length slots ≡ MOST_RECORDS },
    ghost sized: { length bytes ≡ MOST_TEXT },
    ghost counted: { count ≤ 2 ^ 64 - 1 },
    ghost measured: { used ≤ 2 ^ 64 - 1 },
}
