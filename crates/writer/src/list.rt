//! The lists of a network file, each with its count before it.
ghost use Rattle.std.specs.Prelude.{◌≡◌, ℕ, ◌+◌, ◌*◌, ◌^◌, ◌≤◌, List, Option};
ghost use Rattle.model.specs.declared.refusal.Refusal.{Refusal};
ghost use Rattle.writer.specs.Emission.{Emits, list_refusal, list_bytes};

use crate::cursor::{Cursor, Limits};
use model::Refusal;

/// How the items of a list are written. `B` is what the items before one say of it.
pub(crate) trait Listed<T, B> {
    /// The refusal of an item, if there is one.
    ghost refusal: { Self → B → T → Option Refusal };

    ghost bytes: { Self → B → T → List ℕ };

    /// What is said of the next item.
    ghost next: { B → T → B };

    /// An item's most bytes.
    ghost most: { Self → ℕ };

    fn emit(&self, before: B, item: T, to: &mut Cursor<'_>) -> Result<B, Refusal>
        requires { to.old.at + most self.now ≤ 2 ^ 40 }
        ensures { Emits (most self.now) (refusal self.now before item) (bytes self.now before item) (next before item) to.old to.new result };
}

/// A list, with its count before it.
pub(crate) fn emit_list<T: Copy + Drop, B: Copy + Drop, K: Listed<T, B>>(
    kind: &K,
    limits: Limits,
    first: B,
    list: &[T],
    to: &mut Cursor<'_>,
) -> Result<(), Refusal>
    requires { to.old.at + (5 + K.most kind.now * limits.high) ≤ 2 ^ 40 }
    ensures { Emits (5 + K.most kind.now * limits.high) (list_refusal limits.low limits.high limits.refusal (K.refusal kind.now) K.next first list.now) (list_bytes (K.bytes kind.now) K.next first list.now) tt to.old to.new result }
{
    to.number_in(limits, list.len())?;
    let mut before = first;
    for item in list {
        before = kind.emit(before, *item, to)?;
    }
    Ok(())
}
