// Runs of what the clauses say.
use crate::{ClauseTake, Formula, Lit, LitList, Var, satisfies};
use std::test::Fail;

#[test]
fn literals_are_printed_from_1(rt: HostRuntime) -> Result<(), Fail> {
    let lit = Var(6).negated();
    let text = format!(in rt.alloc(); "{} {lit}", lit.negated())?;
    assert_eq!(rt; text.as_str(), "7 -7");
    Ok(())
}

#[test]
fn values_satisfy_a_formula(rt: HostRuntime) -> Result<(), Fail> {
    let mut f = Formula::new(rt.alloc(), 2);
    f.take(&[Var(0).plain(), Var(1).plain()])?;
    f.take(&[Var(0).negated()])?;
    assert!(rt; satisfies(&f, &[false, true]));
    assert!(rt; !satisfies(&f, &[false, false]));
    assert!(rt; !satisfies(&f, &[true, true]));
    assert_eq!(rt; f.len(), 2);
    assert_eq!(rt; f.clause(1), [Lit(1)].as_slice());
    Ok(())
}

#[test]
fn a_list_gives_its_vector_back(rt: HostRuntime) -> Result<(), Fail> {
    let list = LitList::new(vec![in rt.alloc(); Lit(3), Lit(4)]?);
    assert_eq!(rt; list.lits(), [Lit(3), Lit(4)].as_slice());
    Ok(())
}
