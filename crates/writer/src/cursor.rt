//! The place of an output that is written next.
ghost use Rattle.std.specs.Prelude.{◌≡◌, ◌+◌, ◌^◌, ◌≤◌, ◌++◌, length};
ghost use Rattle.wire.specs.Numbers.{encode};
ghost use Rattle.writer.specs.Emission.{Appends, Emits, outside};

use model::Refusal;
use wire::{encoded_len, put};

/// The least and the most that a number may be, and why another is refused.
#[derive(Clone, Copy, Drop)]
pub(crate) struct Limits {
    pub(crate) low: usize,
    pub(crate) high: usize,
    pub(crate) refusal: Refusal,
    ghost fits: { high ≤ 86400 },
}

/// An output and a place in it. What is put there is written where the output has room for it. The place goes on in any case, so
/// that an empty output measures.
#[derive(Drop)]
pub(crate) struct Cursor<'a> {
    pub(crate) out: &'a mut [u8],
    pub(crate) at: usize,
}

impl Cursor<'_> {
    pub(crate) fn number(&mut self, n: u32)
        requires { self.old.at ≤ 2 ^ 42 }
        ensures { Appends 5 ((encode n)) self.old self.new }
    {
        let _ = put(n, self.out, self.at);
        self.at += encoded_len(n);
    }

    /// Two numbers, one after the other.
    pub(crate) fn pair(&mut self, m: u32, n: u32)
        requires { self.old.at ≤ 2 ^ 41 }
        ensures { Appends 10 ((encode m ++ encode n)) self.old self.new }
    {
        self.number(m);
        self.number(n);
    }

    /// A number within limits; any other is refused.
    pub(crate) fn number_in(&mut self, limits: Limits, n: usize) -> Result<(), Refusal>
        requires { self.old.at ≤ 2 ^ 41 }
        ensures { Emits 5 (outside limits.low limits.high limits.refusal n) (encode n) tt self.old self.new result }
    {
        if n < limits.low || limits.high < n {
            return Err(limits.refusal);
        }
        self.number(n as u32);
        Ok(())
    }

    /// Few bytes.
    pub(crate) fn bytes(&mut self, bytes: &[u8])
        requires place { self.old.at ≤ 2 ^ 41 }
        requires few { length bytes.now ≤ 40 }
        ensures { Appends 40 bytes.now self.old self.new }
    {
        let end = self.at + bytes.len();
        if end <= self.out.len() {
            self.out[self.at..end].copy_from_slice(bytes);
        }
        self.at = end;
    }
}
