// Worked orders and schedules.
use crate::{VarHeap, luby, reduce_at};
use cnf_base::Var;
use std::test::Fail;
use watch_lists::Trail;

#[test]
fn restarts_follow_luby(rt: HostRuntime) {
    assert_eq!(rt; luby(1), 1);
    assert_eq!(rt; luby(2), 1);
    assert_eq!(rt; luby(3), 2);
    assert_eq!(rt; luby(4), 1);
    assert_eq!(rt; luby(5), 1);
    assert_eq!(rt; luby(6), 2);
    assert_eq!(rt; luby(7), 4);
    assert_eq!(rt; luby(8), 1);
    assert_eq!(rt; luby(14), 4);
    assert_eq!(rt; luby(15), 8);
    assert_eq!(rt; luby(4_611_686_018_427_387_903), 2_305_843_009_213_693_952);
    assert_eq!(rt; luby(4_611_686_018_427_387_904), 1);
}

#[test]
fn reductions_stand_at_their_places(rt: HostRuntime) {
    for n in 0..20_000 {
        assert_eq!(rt; reduce_at(n), n == 2000 || n == 6000 || n == 12_000);
    }
}

#[test]
fn greatest_comes_first_and_least_among_equals(rt: HostRuntime) -> Result<(), Fail> {
    let mut heap = VarHeap::new(rt.alloc(), 4)?;
    let trail = Trail::new(rt.alloc(), 4)?;
    heap.raise(Var(3));
    heap.raise(Var(2));
    heap.decay();
    heap.raise(Var(1));
    assert_eq!(rt; heap.take_greatest(&trail), Some(Var(1)));
    assert_eq!(rt; heap.take_greatest(&trail), Some(Var(2)));
    heap.give_back(Var(1));
    heap.give_back(Var(1));
    assert_eq!(rt; heap.take_greatest(&trail), Some(Var(1)));
    assert_eq!(rt; heap.take_greatest(&trail), Some(Var(3)));
    assert_eq!(rt; heap.take_greatest(&trail), Some(Var(0)));
    assert_eq!(rt; heap.take_greatest(&trail), None);
    Ok(())
}

#[test]
fn assigned_variables_are_let_go(rt: HostRuntime) -> Result<(), Fail> {
    let mut heap = VarHeap::new(rt.alloc(), 2)?;
    let mut trail = Trail::new(rt.alloc(), 2)?;
    trail.decide(Var(0).negated());
    assert_eq!(rt; heap.take_greatest(&trail), Some(Var(1)));
    assert_eq!(rt; heap.take_greatest(&trail), None);
    Ok(())
}
