//! Tables are made in memory, and lent.
use crate::{AskSizes, AskTables, SearchSpace};

const SIZES: AskSizes = AskSizes {
    labels: 6,
    slots: 4,
    legs: 2,
};

#[test]
fn space_is_lent(rt: HostRuntime) {
    let mut space = SearchSpace::new(rt.alloc(), 6, 4).expect(&rt, "memory");
    let lent = space.lend();
    assert!(rt; lent.labels.len() == 6);
    assert!(rt; lent.slots.len() == 4);
}

#[test]
fn tables_are_made(rt: HostRuntime) {
    let tables = AskTables::new(rt.alloc(), SIZES).expect(&rt, "memory");
    assert!(rt; tables.space.labels.len() == 6);
    assert!(rt; tables.space.slots.len() == 4);
    assert!(rt; tables.slip.len() == 2);
}
