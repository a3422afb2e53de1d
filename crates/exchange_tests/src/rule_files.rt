//! A sound rule file, each of its truncations, and files with one fault each.
use model::Layer;
use rulefile::load_rule;
use rules::{Rule, RuleFault, TableRule};
use std::test::Fail;

/// Two states, both ends; from state 0 by label 0 to 0 and by label 2 to 1, and from state 1 by label 0 to 1.
const FILE: [u8; 13] = [2, 1, 1, 3, 0, 0, 0, 0, 2, 1, 1, 0, 1];

// A rule of one state.
fn old_rule() -> Result<TableRule, RuleFault> {
    TableRule::new(1, &[None, None, None, None, None, Some(0)], &[true])
}

// Whether the rule file from a place on is refused by this number, at this place and in this layer, and the rule stays.
fn refused(file: &[u8], at: usize, number: u8, place: usize, layer: Layer) -> bool {
    let Ok(mut rule) = old_rule() else {
        return false;
    };
    load_rule(file, at, &mut rule).is_err_and(|fault| {
        fault.refusal.number() == number && fault.at == place && fault.layer() == layer
    }) && rule.states() == 1
        && rule.next(0, 5) == Some(0)
}

// Whether the sound file with one byte changed is refused so, in the layer of records.
fn changed(at: usize, byte: u8, number: u8, place: usize) -> bool {
    let mut file = FILE;
    if let Some(changed) = file.get_mut(at) {
        *changed = byte;
    }
    refused(&file, 0, number, place, Layer::Record)
}

#[test]
fn sound(rt: HostRuntime) -> Result<(), Fail> {
    let mut rule = old_rule()?;
    let file = [255u8, 2, 1, 1, 3, 0, 0, 0, 0, 2, 1, 1, 0, 1, 255];
    assert!(rt; matches!(load_rule(&file, 1, &mut rule), Ok(14)));
    assert_eq!(rt; rule.states(), 2);
    assert_eq!(rt; rule.next(0, 0), Some(0));
    assert_eq!(rt; rule.next(0, 2), Some(1));
    assert_eq!(rt; rule.next(1, 0), Some(1));
    assert_eq!(rt; rule.next(1, 2), None);
    assert!(rt; rule.ends(1));
    Ok(())
}

#[test]
fn every_truncation_ends_early(rt: HostRuntime) {
    for n in 0..13usize {
        assert!(rt; refused(&FILE[..n], 0, 26, n, Layer::Number));
    }
    assert!(rt; refused(&FILE, 13, 26, 13, Layer::Number));
    assert!(rt; refused(&FILE, 14, 26, 14, Layer::Number));
}

#[test]
fn faults(rt: HostRuntime) {
    // the number of states, an end mark, a step's state, label and next state; a step like the one before, and one that falls
    let changes = [
        (0, 0, 12, 0),
        (0, 17, 12, 0),
        (2, 2, 12, 2),
        (4, 2, 12, 4),
        (8, 6, 12, 8),
        (12, 2, 12, 12),
        (8, 0, 13, 7),
        (10, 0, 13, 10),
    ];
    for (at, byte, number, place) in &changes {
        assert!(rt; changed(*at, *byte, *number, *place));
    }
    // a last group of 0, a number above 32 bits, a number cut off, and as many steps as 32 bits hold
    assert!(rt; refused(&[0x80, 0], 0, 27, 0, Layer::Number));
    assert!(rt; refused(&[1, 1, 0x80, 0], 0, 27, 2, Layer::Number));
    assert!(rt; refused(&[1, 1, 255, 255, 255, 255, 16], 0, 27, 2, Layer::Number));
    assert!(rt; refused(&[1, 1, 255, 255, 255, 255], 0, 26, 2, Layer::Number));
    assert!(rt;
        refused(
            &[1, 1, 255, 255, 255, 255, 15, 0, 0, 0],
            0,
            26,
            10,
            Layer::Number,
        )
    );
}
