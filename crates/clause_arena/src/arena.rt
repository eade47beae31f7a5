//! The clauses of an arena. Each has a head of four words, its first two literals and its two links, which
//! are all that most visits read; a span, which tells where its literals stand; a tail, with what is seldom read;
//! and its literals, in one block with those of all others. Heads stand side by side, sixteen bytes each, and so do
//! spans, so that those of many clauses stay in a processor's cache where the clauses themselves would not.
//!
//! The word of a link names a clause and, in its lowest bit, one of that clause's two slots: a guess through
//! which of them the list goes on. Whoever walks a list can so read the next link before the literals of
//! the clause have come from memory.
//!
//! The two literals of a head are a copy. Where literals are lent to be written, the copy is made to tell
//! nothing first: two equal words stand for that.

ghost use Rattle.std.specs.Prelude.{◌≡◌, ℕ, ◌<◌, ◌≤◌, ◌+◌, ◌*◌, ◌^◌, IfOk, IfSome, OnOk, OnErr, [], ◌∷◌, length, true, false, slice_set, slice_index_or, swap, map};
ghost use Rattle.std.specs.Borrow.{sem};
ghost use Rattle.clause_arena.specs.Clauses.{TellsBeside, is_live, lits_of, id_of, link_of, with_link, with_lits, without, place_of, places, added};
ghost use Rattle.clause_arena.specs.Words.{clauses_in, head_in, span_in, tail_in, seat_at, tells_right, hidden, word};
ghost use Rattle.clause_arena.specs.Lending.{LendsLits};
ghost use Rattle.clause_arena.specs.Links.{near_of, far_put};
ghost use Rattle.clause_arena.specs.Packing.{moves_of, packed_by, moved_link};

use crate::{ClauseRef, Moves};
use cnf_base::Lit;
use std::alloc::{AllocError, Global};
use std::marker::Model;

// The word of a link that leads nowhere.
const NONE: u32 = 4_294_967_295;

// The word of a link to a place that does not fit into a word: the tail has it.
const FAR: u32 = 4_294_967_294;

// The first place that does not fit into a word beside a slot.
const FAR_PLACE: u64 = 2_147_483_647;

// Where a clause's literals stand.
#[derive(Clone, Copy)]
pub struct Span {
    pub start: usize,
    pub size: usize,
}

// What is seldom read of a clause.
#[derive(Clone, Copy)]
pub struct Tail {
    pub id: u64,
    pub is_retired: bool,
    pub left: Option<ClauseRef>,
    pub right: Option<ClauseRef>,
}

/// Clauses in tables: their heads, their spans, their tails and the literals of all.
#[derive(Drop)]
pub struct Arena {
    heads: Vec<Lit>,
    spans: Vec<Span>,
    tails: Vec<Tail>,
    lits: Vec<Lit>,
}

impl Model for Arena {
    ghost use Rattle.std.specs.Prelude.{length};
    ghost use Rattle.clause_arena.specs.Words.{Block, AreAligned};

    ghost Value = { Block };

    ghost view = { λ a. record { heads = a.heads.items; spans = a.spans.items; tails = a.tails.items; lits = a.lits.items } };

    ghost invariant = { λ a. AreAligned (length a.heads.items) (length a.spans.items) (length a.tails.items) };
}

impl Arena {
    /// An arena with no clause.
    pub fn new(alloc: Global) -> Arena
        ensures { clauses_in result ≡ [] }
    {
        Arena {
            heads: Vec::new(alloc),
            spans: Vec::new(alloc),
            tails: Vec::new(alloc),
            lits: Vec::new(alloc),
        }
    }

    /// Puts a clause behind all others. Where there is no memory for it, the arena stays as it is.
    pub fn add(&mut self, id: u64, lits: &[Lit]) -> Result<ClauseRef, AllocError>
        requires { length lits.now < 2 ^ 31 }
        ensures ok { IfOk result (λ r. clauses_in self.new ≡ added r.0 id lits.now ∷ clauses_in self.old) }
        ensures fresh { IfOk result (λ r. is_live (clauses_in self.old) r.0 ≡ false) }
        ensures err { OnErr result (self.new ≡ self.old) }
    {
        self.append(id, lits)
    }

    // Puts a clause behind all others, at the next number.
    fn append(&mut self, id: u64, lits: &[Lit]) -> Result<ClauseRef, AllocError>
        ensures ok { IfOk result (λ r. clauses_in self.new ≡ added r.0 id lits.now ∷ clauses_in self.old) }
        ensures fresh { IfOk result (λ r. is_live (clauses_in self.old) r.0 ≡ false) }
        ensures place { IfOk result (λ r. r.0 ≡ length self.old.spans) }
        ensures long { IfOk result (λ r. length self.new.spans ≡ length self.old.spans + 1) }
        ensures err { OnErr result (self.new ≡ self.old) }
    {
        self.heads.reserve(4)?;
        self.spans.reserve(1)?;
        self.tails.reserve(1)?;
        self.lits.reserve(lits.len())?;
        let place = self.spans.len() as u64;
        let span = Span {
            start: self.lits.len(),
            size: lits.len(),
        };
        let tail = Tail {
            id,
            is_retired: false,
            left: None,
            right: None,
        };
        let (first, second) = first_two(lits);
        self.heads
            .extend_from_slice(&[first, second, Lit(NONE), Lit(NONE)])?;
        self.spans.push(span)?;
        self.tails.push(tail)?;
        self.lits.extend_from_slice(lits)?;
        Ok(ClauseRef(place))
    }

    /// The literals of a live clause.
    pub fn lits(&self, r: ClauseRef) -> &[Lit]
        requires { is_live (clauses_in self.now) r.0 ≡ true }
        ensures { result.now ≡ lits_of (clauses_in self.now) r.0 }
    {
        let span = self.span(r);
        &self.lits[span.start..span.start + span.size]
    }

    /// The literals of a live clause, to be written. Whatever is left there, nothing else changes, as the
    /// law `lits_changed` says.
    pub fn lits_mut(&mut self, r: ClauseRef) -> &mut [Lit]
        requires { is_live (clauses_in self.old) r.0 ≡ true }
        ensures* writes_back { sem 𝓛 (LendsLits self.entry r.0 result) }
        ensures value { result.now ≡ lits_of (clauses_in self.old) r.0 }
    {
        self.hide(r);
        let span = self.span(r);
        self.lits.slice_mut(span.start..span.start + span.size)
    }

    /// The first literal of a live clause at 0, or its second at 1: the same as `lits` has there, but mostly
    /// without a look at them.
    pub fn front(&self, r: ClauseRef, k: u8) -> Lit
        requires live { is_live (clauses_in self.now) r.0 ≡ true }
        requires near { k < 2 }
        requires long { 2 ≤ length (lits_of (clauses_in self.now) r.0) }
        ensures { result ≡ slice_index_or (lits_of (clauses_in self.now) r.0) k (word 0) }
    {
        if self.head(r, 0) == self.head(r, 1) {
            self.lits(r)[k as usize]
        } else {
            self.head(r, k as usize)
        }
    }

    /// Lets two literals of a live clause change places.
    pub fn swap(&mut self, r: ClauseRef, i: usize, j: usize)
        requires live { is_live (clauses_in self.old) r.0 ≡ true }
        requires i_in { i < length (lits_of (clauses_in self.old) r.0) }
        requires j_in { j < length (lits_of (clauses_in self.old) r.0) }
        ensures { clauses_in self.new ≡ with_lits (clauses_in self.old) r.0 (swap (lits_of (clauses_in self.old) r.0) i j) }
    {
        self.lits_mut(r).swap(i, j);
        self.show(r);
    }

    /// The id that a live clause was added with.
    pub fn id(&self, r: ClauseRef) -> u64
        requires { is_live (clauses_in self.now) r.0 ≡ true }
        ensures { result ≡ id_of (clauses_in self.now) r.0 }
    {
        self.tail(r).id
    }

    /// Where a live clause's link leads: its first at slot 0, its second at slot 1.
    pub fn link(&self, r: ClauseRef, slot: u8) -> Option<ClauseRef>
        requires live { is_live (clauses_in self.now) r.0 ≡ true }
        requires slot_in { slot < 2 }
        ensures { place_of result ≡ link_of (clauses_in self.now) r.0 slot }
    {
        let near = self.head(r, 2 + slot as usize).0;
        if near < FAR {
            return Some(ClauseRef(u64::from(near / 2)));
        }
        if near == NONE {
            return None;
        }
        self.far_link(r, slot)
    }

    // Where a link leads whose place stands in the tail.
    #[cold]
    #[inline(never)]
    fn far_link(&self, r: ClauseRef, slot: u8) -> Option<ClauseRef>
        requires live { is_live (clauses_in self.now) r.0 ≡ true }
        requires slot_in { slot < 2 }
        requires far { (head_in self.now.heads r.0 (2 + slot)).0 ≡ 4294967294 }
        ensures { place_of result ≡ link_of (clauses_in self.now) r.0 slot }
    {
        let tail = self.tail(r);
        if slot == 0 { tail.left } else { tail.right }
    }

    /// Where a live clause's link leads, as `link` says, and a guess through which of its slots the clause there
    /// stands in the same list. Nothing is promised of the guess: `beside` tells whether it is right.
    pub fn step(&self, r: ClauseRef, slot: u8) -> (Option<ClauseRef>, u8)
        requires live { is_live (clauses_in self.now) r.0 ≡ true }
        requires slot_in { slot < 2 }
        ensures link { place_of result.0 ≡ link_of (clauses_in self.now) r.0 slot }
        ensures near { result.1 < 2 }
    {
        let word = self.head(r, 2 + slot as usize).0;
        if word < FAR {
            return (Some(ClauseRef(u64::from(word / 2))), (word % 2) as u8);
        }
        if word == NONE {
            return (None, 0);
        }
        (self.far_link(r, slot), 0)
    }

    /// The other of the first two literals of a live clause, where the one at k is this literal and the two differ.
    /// Else there is no answer.
    pub fn beside(&self, r: ClauseRef, k: u8, lit: Lit) -> Option<Lit>
        requires live { is_live (clauses_in self.now) r.0 ≡ true }
        requires near { k < 2 }
        requires long { 2 ≤ length (lits_of (clauses_in self.now) r.0) }
        ensures { TellsBeside (lits_of (clauses_in self.now) r.0) k lit result }
    {
        let here = self.head(r, k as usize);
        let other = self.head(r, 1 - k as usize);
        if here == lit && other != lit {
            return Some(other);
        }
        if here == other {
            return self.beside_read(r, k, lit);
        }
        None
    }

    // The same where the head tells nothing.
    #[cold]
    #[inline(never)]
    fn beside_read(&self, r: ClauseRef, k: u8, lit: Lit) -> Option<Lit>
        requires live { is_live (clauses_in self.now) r.0 ≡ true }
        requires near { k < 2 }
        requires long { 2 ≤ length (lits_of (clauses_in self.now) r.0) }
        ensures { TellsBeside (lits_of (clauses_in self.now) r.0) k lit result }
    {
        let lits = self.lits(r);
        let other = lits[1 - k as usize];
        if lits[k as usize] == lit && other != lit {
            Some(other)
        } else {
            None
        }
    }

    /// Lets a live clause's link lead to a clause, or nowhere.
    pub fn set_link(&mut self, r: ClauseRef, slot: u8, to: Option<ClauseRef>)
        requires live { is_live (clauses_in self.old) r.0 ≡ true }
        requires slot_in { slot < 2 }
        ensures { clauses_in self.new ≡ with_link (clauses_in self.old) r.0 slot (place_of to) }
    {
        self.write_link(r, slot, to);
    }

    // The same, and as many numbers as before.
    fn write_link(&mut self, r: ClauseRef, slot: u8, to: Option<ClauseRef>)
        requires live { is_live (clauses_in self.old) r.0 ≡ true }
        requires slot_in { slot < 2 }
        ensures linked { clauses_in self.new ≡ with_link (clauses_in self.old) r.0 slot (place_of to) }
        ensures long { length self.new.spans ≡ length self.old.spans }
    {
        let near = near_of(to, self.guess(r, slot, to));
        if near == FAR {
            self.put_far(r, slot, to);
        }
        self.put_head(r, 2 + slot as usize, Lit(near));
    }

    /// Takes a live clause out.
    pub fn retire(&mut self, r: ClauseRef)
        requires { is_live (clauses_in self.old) r.0 ≡ true }
        ensures { clauses_in self.new ≡ without (clauses_in self.old) r.0 }
    {
        let mut tail = self.tail(r);
        tail.is_retired = true;
        self.tails[r.0 as usize] = tail;
    }

    /// The live clauses, the newest first.
    pub fn refs(&self, alloc: Global) -> Result<Vec<ClauseRef>, AllocError>
        ensures { IfOk result (λ v. map (λ r. r.0) v.items ≡ places (clauses_in self.now)) }
    {
        let mut refs = Vec::new(alloc);
        let mut end = self.lits.len();
        let mut left = self.spans.len();
        while left > 0 {
            let span = self.spans[left - 1];
            if span.size > end || span.start > end - span.size {
                break;
            }
            left -= 1;
            if self.is_seen(left, span) {
                refs.push(ClauseRef(left as u64))?;
            }
            end = span.start;
        }
        Ok(refs)
    }

    /// A number that is above the place of each live clause.
    pub fn bound(&self) -> u64
        ensures { (x : ℕ) → is_live (clauses_in self.now) x ≡ true → x < result }
    {
        self.spans.len() as u64
    }

    // Whether a clause is seen at a number whose span is this.
    fn is_seen(&self, at: usize, span: Span) -> bool
        requires within { at < length self.now.spans }
        requires here { span ≡ span_in self.now.spans at }
        requires fits { span.start + span.size ≤ length self.now.lits }
        ensures { result ≡ (seat_at self.now at).is_seen }
    {
        !self.tails[at].is_retired
            && tells_right(
                self.heads[4 * at],
                self.heads[4 * at + 1],
                &self.lits[span.start..span.start + span.size],
            )
    }

    /// Puts the live clauses together without gaps, in their order. Each keeps its id and literals; links
    /// to live clauses lead to their new places, and other links are gone. Where there is no memory, arena
    /// and moves stay as they are.
    pub fn pack(&mut self, alloc: Global, moves: &mut Moves) -> Result<(), AllocError>
        ensures packed { OnOk result (clauses_in self.new ≡ packed_by (moves_of (clauses_in self.old)) (clauses_in self.old)) }
        ensures moves { OnOk result (moves.new ≡ moves_of (clauses_in self.old)) }
        ensures err { OnErr result ((self.new ≡ self.old) × (moves.new ≡ moves.old)) }
    {
        let refs = self.refs(alloc)?;
        let planned = self.planned(alloc, &refs)?;
        let copied = self.copied(alloc, &refs, &planned)?;
        *self = copied;
        *moves = planned;
        Ok(())
    }

    // Where each clause goes.
    fn planned(&self, alloc: Global, refs: &[ClauseRef]) -> Result<Moves, AllocError>
        requires { map (λ r. r.0) refs.now ≡ places (clauses_in self.now) }
        ensures { IfOk result (λ m. m ≡ moves_of (clauses_in self.now)) }
    {
        let mut moves = Moves::new(alloc);
        let mut left = refs.len();
        while left > 0 {
            let new = refs.len() - left;
            left -= 1;
            moves.push(refs[left], ClauseRef(new as u64))?;
        }
        Ok(moves)
    }

    // The clauses, each where it goes.
    fn copied(&self, alloc: Global, refs: &[ClauseRef], moves: &Moves) -> Result<Arena, AllocError>
        requires { map (λ r. r.0) refs.now ≡ places (clauses_in self.now) }
        ensures { IfOk result (λ a. clauses_in a ≡ packed_by moves.now (clauses_in self.now)) }
    {
        let mut copy = Arena {
            heads: Vec::new(alloc),
            spans: Vec::new(alloc),
            tails: Vec::new(alloc),
            lits: Vec::new(alloc),
        };
        let mut left = refs.len();
        while left > 0 {
            left -= 1;
            let r = refs[left];
            let new = copy.append(self.id(r), self.lits(r))?;
            copy.write_link(new, 0, moved(moves, self.link(r, 0)));
            copy.write_link(new, 1, moved(moves, self.link(r, 1)));
        }
        Ok(copy)
    }

    // The span of a live clause.
    fn span(&self, r: ClauseRef) -> Span
        requires { is_live (clauses_in self.now) r.0 ≡ true }
        ensures { result ≡ span_in self.now.spans r.0 }
    {
        self.spans[r.0 as usize]
    }

    // The tail of a live clause.
    fn tail(&self, r: ClauseRef) -> Tail
        requires { is_live (clauses_in self.now) r.0 ≡ true }
        ensures { result ≡ tail_in self.now.tails r.0 }
    {
        self.tails[r.0 as usize]
    }

    // A guess through which slot a clause stands in the list of the literal that a live clause has at this slot.
    fn guess(&self, r: ClauseRef, slot: u8, to: Option<ClauseRef>) -> u32
        requires live { is_live (clauses_in self.now) r.0 ≡ true }
        requires slot_in { slot < 2 }
        ensures { result < 2 }
    {
        match to {
            Some(next) if next.0 < self.spans.len() as u64 => {
                let lit = self.head(r, slot as usize);
                u32::from(self.heads[4 * next.0 as usize] != lit)
            }
            _ => 0,
        }
    }

    // Where the head of a live clause begins.
    fn place(&self, r: ClauseRef) -> usize
        requires { is_live (clauses_in self.now) r.0 ≡ true }
        ensures at { result ≡ 4 * r.0 }
        ensures room { result + 4 ≤ length self.now.heads }
        ensures small { length self.now.heads < 2 ^ 63 }
    {
        let _ = &self.spans;
        4 * r.0 as usize
    }

    // A word of the head of a live clause.
    fn head(&self, r: ClauseRef, k: usize) -> Lit
        requires live { is_live (clauses_in self.now) r.0 ≡ true }
        requires near { k < 4 }
        ensures { result ≡ head_in self.now.heads r.0 k }
    {
        let at = self.place(r);
        self.heads[at + k]
    }

    // Writes a word of the head of a live clause.
    fn put_head(&mut self, r: ClauseRef, k: usize, to: Lit)
        requires live { is_live (clauses_in self.old) r.0 ≡ true }
        requires near { k < 4 }
        ensures put { self.new ≡ record self.old { heads = slice_set self.old.heads (4 * r.0 + k) to } }
        ensures room { 4 * r.0 + 4 ≤ length self.old.heads }
    {
        let at = self.place(r);
        self.heads[at + k] = to;
    }

    // Writes a link's place into the tail of a live clause.
    fn put_far(&mut self, r: ClauseRef, slot: u8, to: Option<ClauseRef>)
        requires { is_live (clauses_in self.old) r.0 ≡ true }
        ensures put { self.new ≡ record self.old { tails = slice_set self.old.tails r.0 (far_put slot to (tail_in self.old.tails r.0)) } }
        ensures room { r.0 < length self.old.tails }
    {
        let mut tail = self.tail(r);
        if slot == 0 {
            tail.left = to;
        } else {
            tail.right = to;
        }
        self.tails[r.0 as usize] = tail;
    }

    // Lets the head of a live clause tell no literals.
    fn hide(&mut self, r: ClauseRef)
        requires { is_live (clauses_in self.old) r.0 ≡ true }
        ensures hidden { self.new ≡ record self.old { heads = hidden self.old.heads r.0 } }
        ensures same { clauses_in self.new ≡ clauses_in self.old }
    {
        let at = self.place(r);
        self.heads[at] = Lit(0);
        self.heads[at + 1] = Lit(0);
    }

    // Lets the head of a live clause tell its first two literals.
    fn show(&mut self, r: ClauseRef)
        requires { is_live (clauses_in self.old) r.0 ≡ true }
        ensures { clauses_in self.new ≡ clauses_in self.old }
    {
        let (first, second) = first_two(self.lits(r));
        let at = self.place(r);
        self.heads[at] = first;
        self.heads[at + 1] = second;
    }
}

// The first two literals, or two equal ones where there are not two.
fn first_two(lits: &[Lit]) -> (Lit, Lit)
    ensures { tells_right result.0 result.1 lits.now ≡ true }
{
    if lits.len() < 2 {
        return (Lit(0), Lit(0));
    }
    (lits[0], lits[1])
}

// Whether two literals are the first two, or equal.
fn tells_right(first: Lit, second: Lit, lits: &[Lit]) -> bool
    ensures { result ≡ tells_right first second lits.now }
{
    first == second || lits.len() >= 2 && lits[0] == first && lits[1] == second
}

// The word of a link, with a guess of a slot.
fn near_of(to: Option<ClauseRef>, guess: u32) -> u32
    requires { guess < 2 }
    ensures { result ≡ near_of to guess }
{
    match to {
        Some(r) => {
            if r.0 < FAR_PLACE {
                2 * r.0 as u32 + guess
            } else {
                FAR
            }
        }
        None => NONE,
    }
}

// Where a link leads after the moves.
fn moved(moves: &Moves, link: Option<ClauseRef>) -> Option<ClauseRef>
    ensures { place_of result ≡ moved_link moves.now (place_of link) }
{
    match link {
        Some(r) => moves.place(r),
        None => None,
    }
}
