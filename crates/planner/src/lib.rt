// Document 02, order 13, calls for a wanted layout: the adds that give a list of permissions, read by pages; and as text, in
// wishes.rt.
#![tactic(auto)]

mod wishes;

ghost use Rattle.std.specs.Prelude.{◌≡◌, ◌&&◌, map, ◌+◌, ◌*◌, ◌≤◌, length, drop};
ghost use Rattle.std.proofs.lemmas.List.Edits.{sets};
ghost use Rattle.definitions.specs.Pages.{permission_group, Filled};
ghost use Rattle.definitions.specs.Planner as planner;
ghost use Rattle.planner.specs.Cursor.{wanted_at, after_one, plan_from, Next};
ghost use Rattle.planner.specs.Page.{PlansPage};

use definitions::{Answer, HostAddr, MemOps, MemoryPermission, Refusal};
pub use wishes::{first_malformed, plan_script};

// What the add before the one at hand was.
#[derive(Clone, Copy)]
pub(crate) enum Before {
    // none, or a range's second
    Done,
    // a range's first
    Once(MemoryPermission),
    // the first of the range at hand
    Same,
}

// Where the reading of the adds stands: at which range, and behind which add.
#[derive(Clone, Copy)]
pub(crate) struct PlanCursor {
    pub(crate) at: usize,
    pub(crate) before: Before,
}

// Range i of the list.
fn load(wanted: &[u64], i: usize) -> MemoryPermission
    requires { 3 * i + 3 ≤ length wanted.now }
    ensures { result ≡ wanted_at wanted.now i }
{
    let b = 3 * i;
    MemoryPermission {
        start: HostAddr(wanted[b]),
        end: HostAddr(wanted[b + 1]),
        ops: MemOps(wanted[b + 2]),
    }
}

// A range becomes group i of the slice.
fn put(out: &mut [u64], i: usize, p: MemoryPermission)
    requires { 3 * i + 3 ≤ length out.old }
    ensures { out.new ≡ sets out.old (3 * i) (permission_group p) }
{
    let b = 3 * i;
    out[b..b + 3].copy_from_slice(&[p.start.0, p.end.0, p.ops.0]);
}

// Does it touch the one before with equal rights?
#[tactic(auto, using(std::proofs::lemmas::Bool::Decides::nat_tests), unfolding(definitions::specs::Planner::touches))]
fn touches(p: MemoryPermission, w: MemoryPermission) -> bool
    ensures { result ≡ planner.touches p w }
{
    p.end == w.start && p.ops.0 == w.ops.0
}

// Can a script give these ranges?
fn can_be(allowance: u64, wanted: &[u64]) -> bool
    ensures { result ≡ planner.can_be allowance (planner.wanted wanted.now) }
{
    let n = wanted.len() / 3;
    let mut lo = 0;
    for i in 0..n {
        let p = load(wanted, i);
        if p.start.0 < lo || p.end.0 <= p.start.0 || p.ops.0 >= 64 {
            return false;
        }
        lo = p.end.0;
    }
    n as u64 <= allowance
}

// Can a script give the list? The last range lacks no number.
#[tactic(auto, using(crate::proofs::Cursors::lacks))]
fn can_wish(allowance: u64, wanted: &[u64]) -> bool
    ensures { result ≡ planner.can_wish allowance wanted.now }
{
    wanted.len() % 3 == 0 && can_be(allowance, wanted)
}

impl PlanCursor {
    pub(crate) const START: PlanCursor = PlanCursor {
        at: 0,
        before: Before::Done,
    };

    // Behind the add at hand, of the range w.
    fn after(self, w: MemoryPermission) -> PlanCursor
        requires { self.at + 1 ≤ 18446744073709551615 }
        ensures { result ≡ after_one self w }
    {
        let (at, before) = match self.before {
            Before::Once(p) if touches(p, w) => (self.at, Before::Same),
            Before::Same => (self.at + 1, Before::Done),
            _ => (self.at + 1, Before::Once(w)),
        };
        PlanCursor { at, before }
    }

    // The add at hand, if there is one; the cursor goes behind it.
    pub(crate) fn next(&mut self, wanted: &[u64]) -> Option<MemoryPermission>
        ensures { Next wanted.now self.old self.new result }
    {
        if self.at >= wanted.len() / 3 {
            return None;
        }
        let w = load(wanted, self.at);
        *self = self.after(w);
        Some(w)
    }
}

// Past k adds.
fn skip(wanted: &[u64], k: usize) -> PlanCursor
    ensures { plan_from wanted.now result ≡ drop k (planner.plan (planner.wanted wanted.now)) }
{
    let mut c = PlanCursor::START;
    for _ in 0..k {
        if c.next(wanted).is_none() {
            return c;
        }
    }
    c
}

// The adds from a cursor on, as many as there are and as fit.
fn fill(wanted: &[u64], from: PlanCursor, out: &mut [u64]) -> usize
    ensures { Filled 3 (map permission_group (plan_from wanted.now from)) 0 out.old out.new result }
{
    let room = out.len() / 3;
    let mut c = from;
    for i in 0..room {
        let Some(w) = c.next(wanted) else {
            return i;
        };
        put(out, i, w);
    }
    room
}

// A page from add `from` on of the script that gives the list, under so many records: as many groups of three numbers as the
// slice and the script allow, and how many; or 25.
pub fn plan(allowance: u64, wanted: &[u64], from: usize, out: &mut [u64]) -> Answer
    ensures { PlansPage allowance wanted.now from out.old out.new result }
{
    if !can_wish(allowance, wanted) {
        return Err(Refusal::NoScript);
    }
    let c = skip(wanted, from);
    let n = fill(wanted, c, out);
    Ok(n as u64)
}
