// A stack over a lent slice, right for every kind of entry.
ghost use Rattle.std.specs.Prelude.{◌≤◌, length};

mod calls;

/// A stack that holds no memory of its own: its entries stand in a slice that is lent to it.
// A length beside the slice: the memory is fixed, and the caller's. A ghost field and no `Model`, which would hide `sound` from the
// readers' proofs that take it from the type.
#[derive(Drop)]
pub struct Stack<'a, T> {
    slots: &'a mut [T],
    len: usize,
    ghost sound: { len ≤ length slots.now },
}

/// There was no slot left.
#[derive(Debug, Clone, Copy, PartialEq, Eq)]
pub struct Full;
