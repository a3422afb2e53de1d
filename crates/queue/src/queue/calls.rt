//! What a queue does.
ghost use Rattle.std.specs.Prelude.{◌≡◌, ◌≤◌, [], length, ◌==◌};
ghost use Rattle.queue.specs.Contents.{contents, capacity, Pushed, Popped, FirstOut, Refused};

use crate::order::Ranked;
use crate::queue::Queue;
use crate::sift::{replace_first, sift_up};

impl<'a, T: Ranked> Queue<'a, T> {
    /// An empty queue, with room for as many elements as there are slots.
    pub fn new(slots: &'a mut [T]) -> Queue<'a, T>
        ensures empty { contents result ≡ [] }
        ensures room { capacity result ≡ length slots.old }
    {
        Queue { slots, len: 0 }
    }

    /// How many elements the queue holds.
    pub fn len(&self) -> usize
        ensures count { result ≡ length (contents self.now) }
        ensures within { result ≤ capacity self.now }
    {
        self.len
    }

    /// Whether it holds none.
    pub fn is_empty(&self) -> bool
        ensures { result ≡ (length (contents self.now) == 0) }
    {
        self.len() == 0
    }

    /// Adds `x`; a full queue gives it back and stays as it is.
    pub fn push(&mut self, x: T) -> Result<(), T>
        ensures pushed { Pushed (capacity self.old) (contents self.old) x result (contents self.new) }
        ensures refused { Refused result self.old self.new }
        ensures room { capacity self.new ≡ capacity self.old }
    {
        let len = self.len;
        if len >= self.slots.len() {
            return Err(x);
        }
        self.slots[len] = x;
        sift_up(self.slots, len);
        self.len = len + 1;
        Ok(())
    }

    /// Takes the least element out, or gives none where there is none.
    pub fn pop(&mut self) -> Option<T>
        ensures popped { Popped (contents self.old) result (contents self.new) }
        ensures least { FirstOut T.before result (contents self.old) }
        ensures room { capacity self.new ≡ capacity self.old }
    {
        let last = self.len.checked_sub(1)?;
        let least = self.slots[0];
        self.len = last;
        replace_first(self.slots, last);
        Some(least)
    }
}
