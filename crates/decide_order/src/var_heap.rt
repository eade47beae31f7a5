// The variables that may be decided next, by their scores.
ghost use Rattle.std.specs.Prelude.{◌≡◌, ℕ, ◌<◌, ◌^◌, length, IfOk, IfSome, MatchOption};
ghost use Rattle.decide_order.specs.Rankings.{fresh, scaled_scores, scaled_step, raised, decayed, given_back, Pops, PopsNone, Takes, TakesNone};
ghost use Rattle.decide_order.specs.Places.{AreNumbers};
ghost use Rattle.watch_lists.specs.Entries.{is_assigned};

use crate::sift::{hold, let_go, rebuild, sift_up};
use cnf_base::Var;
use std::alloc::{AllocError, Global};
use std::marker::Model;
use watch_lists::Trail;

/// Variables with scores. A variable is held until it is taken, and again once it is given back.
///
/// The held variables stand in a binary heap at the first places, the others behind them, so that nothing grows.
#[derive(Drop)]
pub struct VarHeap {
    // The score of each variable.
    scores: Vec<u64>,
    // What a raise adds.
    step: u64,
    // The variable at each place.
    order: Vec<u32>,
    // The place of each variable.
    places: Vec<u32>,
    // How many of the first places are those of the heap.
    count: usize,
}

impl Model for VarHeap {
    ghost use Rattle.decide_order.specs.Rankings.{Ranking, ranking_of};
    ghost use Rattle.decide_order.specs.Places.{first_ones, IsKept};

    ghost Value = { Ranking };

    ghost view = { λ h. ranking_of h.scores.items h.step (first_ones h.count h.places.items) };

    ghost invariant = { λ h. IsKept h.scores.items h.step h.order.items h.places.items h.count };
}

// Where a score or the step is above this, all are scaled down.
const MOST: u64 = 1 << 60;

impl VarHeap {
    /// All scores are 0, the step is 1, and all variables are held.
    pub fn new(alloc: Global, vars: u32) -> Result<VarHeap, AllocError>
        requires { vars < 2 ^ 30 }
        ensures { IfOk result (λ h. h ≡ fresh vars) }
    {
        Ok(VarHeap {
            scores: vec![in alloc; 0; vars as usize]?,
            step: 1,
            order: numbers(alloc, vars)?,
            places: numbers(alloc, vars)?,
            count: vars as usize,
        })
    }

    /// Adds the step to the score of a variable. All scores are scaled down where one is above 2^60 then.
    pub fn raise(&mut self, var: Var)
        requires { var.0 < length self.old.scores }
        ensures ranking { self.new ≡ raised self.old var.0 }
        ensures vars { length self.new.scores ≡ length self.old.scores }
    {
        let index = var.0 as usize;
        let score = self.scores[index] + self.step;
        self.scores[index] = score;
        if score > MOST {
            self.step = scale(&mut self.scores, self.step);
            rebuild(&self.scores, &mut self.order, &mut self.places, self.count);
        } else {
            let place = self.places[index] as usize;
            if place < self.count {
                sift_up(&self.scores, &mut self.order, &mut self.places, place);
            }
        }
    }

    /// Grows the step, so that later raises count more. All scores are scaled down where it is above 2^60 then.
    pub fn decay(&mut self)
        ensures ranking { self.new ≡ decayed self.old }
        ensures vars { length self.new.scores ≡ length self.old.scores }
    {
        self.step += self.step / 16 + 1;
        if self.step > MOST {
            self.step = scale(&mut self.scores, self.step);
            rebuild(&self.scores, &mut self.order, &mut self.places, self.count);
        }
    }

    /// Holds the variable, whether or not it was held.
    pub fn give_back(&mut self, var: Var)
        requires { var.0 < length self.old.scores }
        ensures ranking { self.new ≡ given_back self.old var.0 }
        ensures vars { length self.new.scores ≡ length self.old.scores }
        ensures held_count { length self.old.held ≡ length self.old.scores }
    {
        let place = self.places[var.0 as usize] as usize;
        let count = self.count;
        if place >= count {
            hold(
                &self.scores,
                &mut self.order,
                &mut self.places,
                count,
                place,
            );
            self.count = count + 1;
        }
    }

    /// Takes the unassigned variable of the greatest score, and of the least number among equals. None where every
    /// held variable is assigned. The assigned ones that go before it are no longer held either.
    pub fn take_greatest(&mut self, trail: &Trail) -> Option<Var>
        requires { length self.old.scores ≡ trail.now.vars }
        ensures taken { MatchOption result (TakesNone (is_assigned trail.now.entries) self.old self.new) (λ var. Takes (is_assigned trail.now.entries) self.old self.new var.0) }
        ensures below { IfSome result (λ var. var.0 < trail.now.vars) }
        ensures vars { length self.new.scores ≡ length self.old.scores }
    {
        while let Some(var) = self.pop() {
            if !is_assigned(trail, var) {
                return Some(var);
            }
        }
        None
    }

    // Takes the first of the held variables.
    fn pop(&mut self) -> Option<Var>
        ensures popped { MatchOption result (PopsNone self.old self.new) (λ var. Pops self.old self.new var.0) }
        ensures below { IfSome result (λ var. var.0 < length self.old.scores) }
        ensures few { length self.old.scores < 2 ^ 30 }
        ensures vars { length self.new.scores ≡ length self.old.scores }
    {
        if self.count == 0 {
            return None;
        }
        let last = self.count - 1;
        let first = self.order[0];
        let_go(&self.scores, &mut self.order, &mut self.places, last);
        self.count = last;
        Some(Var(first))
    }
}

fn is_assigned(trail: &Trail, var: Var) -> bool
    requires below { var.0 < trail.now.vars }
    requires few { trail.now.vars < 2 ^ 30 }
    ensures { result ≡ is_assigned trail.now.entries var.0 }
{
    trail.value(var.plain()).is_some()
}

// Divides all scores by 2^30, and gives the step divided so, which is 1 at least.
fn scale(scores: &mut [u64], step: u64) -> u64
    ensures scores { scores.new ≡ scaled_scores scores.old }
    ensures step { result ≡ scaled_step step }
{
    for score in scores.iter_mut() {
        *score >>= 30;
    }
    (step >> 30).max(1)
}

// The numbers below this one, in order.
fn numbers(alloc: Global, count: u32) -> Result<Vec<u32>, AllocError>
    ensures { IfOk result (λ v. AreNumbers v.items count) }
{
    let mut numbers = Vec::with_capacity(alloc, count as usize)?;
    for number in 0..count {
        numbers.push(number)?;
    }
    Ok(numbers)
}
