// A list over a caller's slice.
ghost use Rattle.std.specs.Prelude.{◌≡◌, ◌+◌, ◌^◌, ◌<◌};
ghost use Rattle.list.specs.Contents.{contents_of, empty, records, push_answer, pushed, got, free};

use source::refusal::{Reason, Refusal};

// A slice and a count beside it: the caller lends the memory, and the design names this form.
#[derive(Drop)]
pub struct List<'a, T> {
    slots: &'a mut [T],
    count: usize,
}

impl<'a, T: Copy> List<'a, T> {
    // An empty list; the slots keep what they hold until a push takes them.
    pub fn new(slots: &'a mut [T]) -> List<'a, T>
        ensures contents { contents_of result ≡ empty slots.entry.now }
        ensures owner { result.slots.ghost_name ≡ slots.entry.ghost_name }
    {
        List { slots, count: 0 }
    }

    // Adds a record at the end; refused at `place`, and nothing changed, when no slot is free.
    pub fn push(&mut self, x: T, place: u64) -> Result<(), Refusal>
        ensures answer { result ≡ push_answer (contents_of self.old) place }
        ensures contents { contents_of self.new ≡ pushed (contents_of self.old) x }
        ensures owner { self.new.slots.ghost_name ≡ self.old.slots.ghost_name }
    {
        if self.count < self.slots.len() {
            self.slots[self.count] = x;
            self.count += 1;
            Ok(())
        } else {
            Err(Reason::ListFull.at(place))
        }
    }

    // The records, in order.
    pub fn records(&self) -> &[T]
        ensures { result.now ≡ records (contents_of self.now) }
    {
        &self.slots[..self.count.min(self.slots.len())]
    }

    // The record at position i, counted from 0.
    pub fn get(&self, i: usize) -> Option<T>
        ensures { result ≡ got (contents_of self.now) i }
    {
        self.records().get(i).copied()
    }

    // How many records there are.
    pub fn count(&self) -> usize
        ensures { result ≡ self.now.count }
    {
        let List { count, .. } = self;
        *count
    }

    // How many more records there is room for.
    pub fn free(&self) -> usize
        ensures value { result ≡ free (contents_of self.now) }
        ensures bound { self.now.count + result < 2 ^ 64 }
    {
        self.slots.len().saturating_sub(self.count)
    }
}
