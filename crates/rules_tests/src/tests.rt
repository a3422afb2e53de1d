//! Rules at their edges.
use rules::{BoardingRule, Pair, Rule, RuleFault, TableRule, accepts};
use std::test::Fail;

/// No car after a boat: state 1 is reached by a ship and has no step by car.
const STEPS: [Option<u32>; 12] = [
    Some(0),
    Some(0),
    Some(1),
    Some(0),
    Some(0),
    Some(0),
    Some(1),
    Some(1),
    Some(1),
    Some(1),
    None,
    Some(1),
];

fn no_car_after_boat() -> Result<TableRule, RuleFault> {
    TableRule::new(2, &STEPS, &[true, true])
}

#[test]
fn table_steps(rt: HostRuntime) -> Result<(), Fail> {
    let rule = no_car_after_boat()?;
    assert_eq!(rt; rule.next(1, 4), None);
    assert_eq!(rt; rule.next(1, 5), Some(1));
    assert_eq!(rt; rule.next(0, 6), None);
    assert_eq!(rt; rule.next(2, 0), None);
    Ok(())
}

#[test]
fn table_words(rt: HostRuntime) -> Result<(), Fail> {
    let rule = no_car_after_boat()?;
    assert!(rt; !rule.ends(2));
    assert!(rt; accepts(&rule, &[4, 2, 0]));
    assert!(rt; !accepts(&rule, &[2, 4]));
    Ok(())
}

#[test]
fn table_counts(rt: HostRuntime) {
    assert!(rt; matches!(TableRule::new(0, &[], &[]), Err(RuleFault::StateCount)));
    assert!(rt;
        matches!(
            TableRule::new(17, &STEPS, &[true]),
            Err(RuleFault::StateCount)
        )
    );
    assert!(rt;
        matches!(
            TableRule::new(1, &STEPS, &[true]),
            Err(RuleFault::StepCount)
        )
    );
    assert!(rt; matches!(TableRule::new(2, &STEPS, &[true]), Err(RuleFault::EndCount)));
}

#[test]
fn table_next_state(rt: HostRuntime) {
    let outside = [None, Some(0), None, Some(1), None, Some(7)];
    assert!(rt;
        matches!(
            TableRule::new(1, &outside, &[true]),
            Err(RuleFault::NextState(3))
        )
    );
}

#[test]
fn boarding_steps(rt: HostRuntime) -> Result<(), Fail> {
    let rule = BoardingRule::new(1)?;
    assert_eq!(rt; rule.next(0, 3), Some(1));
    assert_eq!(rt; rule.next(1, 3), None);
    assert_eq!(rt; rule.next(1, 4), Some(1));
    assert!(rt; !rule.ends(2));
    Ok(())
}

#[test]
fn boarding_words(rt: HostRuntime) -> Result<(), Fail> {
    let rule = BoardingRule::new(1)?;
    assert!(rt; accepts(&rule, &[0, 1, 4, 5]));
    assert!(rt; !accepts(&rule, &[1, 0, 2]));
    Ok(())
}

#[test]
fn boarding_limits(rt: HostRuntime) -> Result<(), Fail> {
    assert_eq!(rt; BoardingRule::new(15)?.states(), 16);
    assert!(rt; matches!(BoardingRule::new(16), Err(RuleFault::BoardingLimit)));
    Ok(())
}

#[test]
fn pair_steps(rt: HostRuntime) -> Result<(), Fail> {
    let table = no_car_after_boat()?;
    let pair = Pair::new(&table, BoardingRule::new(2)?);
    assert_eq!(rt; pair.next(1, 2), Some(5));
    assert_eq!(rt; pair.next(5, 2), None);
    assert_eq!(rt; pair.next(6, 0), None);
    assert!(rt; !pair.ends(6));
    Ok(())
}

#[test]
fn pair_states(rt: HostRuntime) -> Result<(), Fail> {
    let eight = BoardingRule::new(7)?;
    assert_eq!(rt; Pair::new(eight, eight).states(), 64);
    assert_eq!(rt;
        Pair::new(BoardingRule::new(4)?, BoardingRule::new(12)?).states(),
        65
    );
    Ok(())
}
