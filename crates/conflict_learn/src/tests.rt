// Learning from the four clauses of two variables, and closing a log at two units.
ghost use Rattle.std.specs.Prelude.{◌≡◌, ◌≢◌, ◌<◌, [], OnOk};
ghost use Rattle.cnf_base.specs.Literals.{variable};
ghost use Rattle.clause_arena.specs.Words.{clauses_in};
ghost use Rattle.watch_lists.specs.Fits.{Fits};

use crate::{Lesson, Scratch, close_hints, learn};
use clause_arena::Arena;
use cnf_base::{Lit, Var};
use std::alloc::AllocError;
use std::test::Fail;
use watch_lists::Trail;

// A clause of two variables comes in, while none has a value.
fn hold(
    trail: &mut Trail,
    arena: &mut Arena,
    id: u64,
    first: Lit,
    second: Lit,
) -> Result<(), AllocError>
    requires fits { Fits trail.old (clauses_in arena.old) }
    requires bare { trail.old.entries ≡ [] }
    requires first_below { variable first < trail.old.vars }
    requires second_below { variable second < trail.old.vars }
    requires apart { first.0 ≢ second.0 }
    ensures fits { OnOk result (Fits trail.new (clauses_in arena.new)) }
    ensures bare { OnOk result (trail.new.entries ≡ []) }
    ensures walked { OnOk result (trail.new.walked ≡ trail.old.walked) }
    ensures vars { OnOk result (trail.new.vars ≡ trail.old.vars) }
{
    let r = arena.add(id, &[first, second])?;
    trail.attach(arena, r);
    Ok(())
}

// The clauses (1 2), (-1 2), (1 -2), (-1 -2).
fn hold_four(trail: &mut Trail, arena: &mut Arena) -> Result<(), AllocError>
    requires fits { Fits trail.old (clauses_in arena.old) }
    requires bare { trail.old.entries ≡ [] }
    requires vars { trail.old.vars ≡ 2 }
    ensures fits { OnOk result (Fits trail.new (clauses_in arena.new)) }
    ensures bare { OnOk result (trail.new.entries ≡ []) }
    ensures walked { OnOk result (trail.new.walked ≡ trail.old.walked) }
    ensures vars { OnOk result (trail.new.vars ≡ 2) }
{
    hold(trail, arena, 1, Lit(0), Lit(2))?;
    hold(trail, arena, 2, Lit(1), Lit(2))?;
    hold(trail, arena, 3, Lit(0), Lit(3))?;
    hold(trail, arena, 4, Lit(1), Lit(3))
}

// Whether the lesson is the first variable, shown by the first and the third clause.
fn is_unit(lesson: &Lesson) -> bool {
    let hints = lesson.hints.ids();
    lesson.back_level == 0
        && lesson.lits.lits() == [Lit(0)].as_slice()
        && (hints == [1, 3].as_slice() || hints == [3, 1].as_slice())
}

#[test]
fn four_clauses_teach_a_unit(rt: HostRuntime) -> Result<(), Fail> {
    let mut arena = Arena::new(rt.alloc());
    let mut trail = Trail::new(rt.alloc(), 2)?;
    let mut scratch = Scratch::new(rt.alloc(), 2)?;
    hold_four(&mut trail, &mut arena)?;
    trail.decide(Lit(1));
    if let Some(conflict) = trail.propagate(&mut arena) {
        let lesson = learn(rt.alloc(), &trail, &arena, conflict, &mut scratch)?;
        assert!(rt; is_unit(&lesson));
        assert_eq!(rt; scratch.met(), [Var(1), Var(0)].as_slice());
        return Ok(());
    }
    panic!(rt; "no conflict")
}

#[test]
fn two_units_close_the_log(rt: HostRuntime) -> Result<(), Fail> {
    let mut arena = Arena::new(rt.alloc());
    let mut trail = Trail::new(rt.alloc(), 1)?;
    let mut scratch = Scratch::new(rt.alloc(), 1)?;
    let first = arena.add(1, &[Lit(0)])?;
    let second = arena.add(2, &[Lit(1)])?;
    trail.imply(&arena, Lit(0), first);
    let hints = close_hints(rt.alloc(), &trail, &arena, second, &mut scratch)?;
    assert_eq!(rt; hints.ids(), [1, 2].as_slice());
    Ok(())
}
