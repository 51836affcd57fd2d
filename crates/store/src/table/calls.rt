// The calls on a store: each makes of it what its contract says.
ghost use Rattle.std.specs.Prelude.{◌≡◌, ◌≤◌, ◌<◌, ◌↔◌, IsTrue, slice_index};
ghost use Rattle.store.specs.Held.{held, with_slots, record_at, record_in, linked, emptied, pushed, put as put_in, put_open, close as close_in, fill as fill_in, begun, truncated, retracted, claimed, most_records};
ghost use Rattle.store.specs.Items.{text_in};
ghost use Rattle.store.specs.Means.{Puts, Opens, Closes, Fills, Pushes};

use super::{MOST_RECORDS, MOST_TEXT, Store};
use crate::parts::{Item, Record, Span};

impl Store {
    /// Tables with nothing in them.
    #[tactic(auto, unfolding(crate::specs::Held::emptied))]
    pub fn new() -> Store
        ensures { held result ≡ emptied }
    {
        Store {
            slots: [Record::EMPTY; MOST_RECORDS],
            bytes: [0; MOST_TEXT],
            count: 0,
            used: 0,
            base: 0,
            open: None,
            last: None,
        }
    }

    /// A new file begins: what stands is complete.
    #[tactic(auto, unfolding(crate::specs::Held::begun))]
    pub fn begin(&mut self)
        ensures { held self.new ≡ begun (held self.old) }
    {
        self.base = self.count;
        self.open = None;
        self.last = None;
    }

    /// How many records there are, stored or not.
    pub fn count(&self) -> usize
        ensures { result ≡ (held self.now).count }
    {
        self.count
    }

    /// How many bytes of text there are, stored or not.
    pub fn used(&self) -> usize
        ensures { result ≡ (held self.now).used }
    {
        self.used
    }

    /// The first record of the file in hand.
    pub fn base(&self) -> usize
        ensures { result ≡ (held self.now).base }
    {
        self.base
    }

    /// The record at `i`, if it is stored.
    pub fn record(&self, i: usize) -> Option<Record>
        ensures { result ≡ record_in (held self.now) i }
    {
        if i < self.count {
            self.slots.get(i).copied()
        } else {
            None
        }
    }

    /// The byte of text at `i`: 0 past the table.
    // As a source answers for a byte that is not there, and no Option: what it promised to its callers stays.
    pub fn byte(&self, i: usize) -> u8
        ensures { result ≡ slice_index (held self.now).bytes i }
    {
        self.bytes.get(i).copied().unwrap_or(0)
    }

    /// The bytes of a text, where it lies within the table; else none.
    // As for `byte`: what it promised to its callers stays.
    pub fn text(&self, span: Span) -> &[u8]
        ensures { result.now ≡ text_in (held self.now).bytes span }
    {
        self.bytes.get(span.from..span.to).unwrap_or(&[])
    }

    /// One byte of text more, stored if it fits.
    // By index: after a write through `get_mut` a proof knows no element of the array.
    pub fn push(&mut self, b: u8)
        ensures does { held self.new ≡ pushed (held self.old) b }
        ensures means { Pushes (held self.old) (held self.new) }
    {
        let at = self.used;
        if at < MOST_TEXT {
            self.bytes[at] = b;
        }
        self.used = at.saturating_add(1);
    }

    /// The record at `at`: an empty one past the table.
    // No Option: no open record lies past the table, so what its parent would be does not matter.
    fn slot(&self, at: usize) -> Record
        ensures { result ≡ record_at (held self.now).slots at }
    {
        self.slots.get(at).copied().unwrap_or(Record::EMPTY)
    }

    /// Whether the record at `at` may change: it is within the table, and not one of an earlier file.
    fn may_change(&self, at: usize) -> bool
        ensures { IsTrue result ↔ ((held self.now).base ≤ at × at < most_records) }
    {
        self.base <= at && at < MOST_RECORDS
    }

    /// Links the record at `to` to the one before it at the innermost level, or to the one that it is the first part of.
    // One field is written in its place: a whole record copied out and back takes several times as long. By index, as in `push`.
    fn link(&mut self, to: usize)
        ensures { held self.new ≡ with_slots (held self.old) (linked (held self.old).base (held self.old).last_record (held self.old).open_record to (held self.old).slots) }
    {
        if let Some(last) = self.last {
            if self.may_change(last) {
                self.slots[last].next = Some(to);
            }
        } else if let Some(open) = self.open {
            if self.may_change(open) {
                self.slots[open].first = Some(to);
            }
        }
    }

    /// Whether one record more fits.
    fn has_room(&self) -> bool
        ensures { IsTrue result ↔ ((held self.now).count < most_records) }
    {
        self.count < MOST_RECORDS
    }

    /// One record more at the innermost level, stored if it fits.
    // By index, as in `push`.
    pub fn put(&mut self, item: Item)
        ensures does { held self.new ≡ put_in (held self.old) item }
        ensures means { Puts (held self.old) item (held self.new) }
    {
        let new = self.count;
        if self.has_room() {
            self.link(new);
            self.slots[new] = Record::leaf(item, self.open);
            self.last = Some(new);
        }
        self.count = new.saturating_add(1);
    }

    /// One record more, whose parts come next.
    pub fn open(&mut self, item: Item)
        ensures does { held self.new ≡ put_open (held self.old) item }
        ensures means { Opens (held self.old) item (held self.new) }
    {
        let opened = self.count;
        let stored = self.has_room();
        self.put(item);
        if stored {
            self.open = Some(opened);
            self.last = None;
        }
    }

    /// The innermost open record is complete: what comes next follows it.
    pub fn close(&mut self)
        ensures does { held self.new ≡ close_in (held self.old) }
        ensures means { Closes (held self.old) (held self.new) }
    {
        if let Some(open) = self.open {
            self.open = self.slot(open).parent;
            self.last = Some(open);
        }
    }

    /// Another item in the place of the innermost open one.
    // One field alone, as in `link`.
    pub fn fill(&mut self, item: Item)
        ensures does { held self.new ≡ fill_in (held self.old) item }
        ensures means { Fills (held self.old) item (held self.new) }
    {
        if let Some(open) = self.open {
            if self.may_change(open) {
                self.slots[open].item = item;
            }
        }
    }

    /// The text ends at `text`, if it is longer.
    #[tactic(auto, unfolding(crate::specs::Held::retracted))]
    pub fn retract(&mut self, text: usize)
        ensures does { held self.new ≡ retracted (held self.old) text }
    {
        self.used = self.used.min(text);
    }

    /// `n` bytes that stand past the end of the text are text again.
    #[tactic(auto, unfolding(crate::specs::Held::claimed))]
    pub fn claim(&mut self, n: usize)
        ensures does { held self.new ≡ claimed (held self.old) n }
    {
        self.used = self.used.saturating_add(n);
    }

    /// Back to so many records and bytes: what was read since is forgotten.
    #[tactic(auto, unfolding(crate::specs::Held::truncated, crate::specs::Held::retracted, crate::specs::Held::begun))]
    pub fn truncate(&mut self, records: usize, text: usize)
        ensures does { held self.new ≡ truncated (held self.old) records text }
    {
        self.count = self.count.min(records);
        self.retract(text);
        self.begin();
    }
}

impl Default for Store {
    ghost is_default = { λ s. held s ≡ emptied };

    fn default() -> Store {
        Store::new()
    }
}
