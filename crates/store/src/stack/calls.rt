// The operations of a stack are those of a list, at its end.
ghost use Rattle.std.specs.Prelude.{◌≡◌, ◌↔◌, ◌-◌, [], ◌∷◌, ◌++◌, length, take, IsTrue, is_some, is_ok, if◌then◌else◌, nat_lt};
ghost use Rattle.std.specs.Option.{option_to_list};
ghost use Rattle.store.specs.Stacks.{items, room};

use super::{Full, Stack};

impl<'a, T: Copy> Stack<'a, T> {
    /// An empty stack, with room for as many entries as the slice has.
    pub fn new(slots: &'a mut [T]) -> Stack<'a, T>
        ensures items { items result ≡ [] }
        ensures room { room result ≡ length slots.old }
    {
        Stack { slots, len: 0 }
    }

    /// How many entries it holds.
    pub fn len(&self) -> usize
        ensures { result ≡ length (items self.now) }
    {
        self.len
    }

    /// Whether it holds none.
    pub fn is_empty(&self) -> bool
        ensures { IsTrue result ↔ (items self.now ≡ []) }
    {
        self.len == 0
    }

    /// One entry more on top, or a refusal where every slot is taken.
    // By index: after a write through `get_mut` a proof knows no element of the slice.
    pub fn push(&mut self, entry: T) -> Result<(), Full>
        ensures items { items self.new ≡ (if is_ok result then items self.old ++ entry ∷ [] else items self.old) }
        ensures fits { is_ok result ≡ nat_lt (length (items self.old)) (room self.old) }
        ensures room { room self.new ≡ room self.old }
    {
        if self.len == self.slots.len() {
            return Err(Full);
        }
        self.slots[self.len] = entry;
        self.len += 1;
        Ok(())
    }

    /// The top entry, taken off; none where there is none.
    pub fn pop(&mut self) -> Option<T>
        ensures items { items self.old ≡ items self.new ++ option_to_list result }
        ensures some { is_some result ≡ nat_lt 0 (length (items self.old)) }
        ensures room { room self.new ≡ room self.old }
    {
        let top = self.top()?;
        self.len -= 1;
        Some(top)
    }

    /// The top entry; none where there is none.
    pub fn top(&self) -> Option<T>
        ensures items { items self.now ≡ take (length (items self.now) - 1) (items self.now) ++ option_to_list result }
        ensures some { is_some result ≡ nat_lt 0 (length (items self.now)) }
    {
        self.slots[..self.len].last().copied()
    }

    /// Puts another entry in the place of the top one, and says whether there was one.
    // A `bool`, as a set's `insert` answers: there is nothing to say beside it.
    // By index: after a write through `last_mut` of the part in use a proof knows that part's length only.
    pub fn set_top(&mut self, entry: T) -> bool
        ensures items { items self.new ≡ (if result then take (length (items self.old) - 1) (items self.old) ++ entry ∷ [] else items self.old) }
        ensures some { result ≡ nat_lt 0 (length (items self.old)) }
        ensures room { room self.new ≡ room self.old }
    {
        let Some(i) = self.len.checked_sub(1) else {
            return false;
        };
        self.slots[i] = entry;
        true
    }
}
