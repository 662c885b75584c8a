// Lists of regions over one pool, which the caller lends as four slices: words, record i from RECORD_LEN * i on; next, the
// slot after each slot, 1,024 for none, whose word 1,024 is the head of the list being worked on; links and gens, the arena's.
// They and the arena go as parameters of their own: in a struct of references each function would have to promise besides
// that its references stay the same. start and end do too, as the calls and the questions name them.
ghost use Rattle.std.specs.Prelude.{◌≡◌, ◌+◌, ◌*◌, ◌-◌, ◌^◌, ◌<◌, ◌≤◌, ℕ, Bool, length, get_or, false, true, not, ◌||◌, if◌then◌else◌};
ghost use Rattle.definitions.specs.Tests.{◌<?◌, ◌=?◌};
ghost use Rattle.definitions.specs.Answers.{Answer};
ghost use Rattle.definitions.specs.Questions.{every_named, ranged};
ghost use Rattle.definitions.proofs.Tables.{add_on, remove_on};
ghost use Rattle.definitions.specs.Pages.{record_len};
ghost use Rattle.capability_engine.specs.PoolWords.{pool_len, region_at, put_region};
ghost use Rattle.definitions.specs.Regions.{region, splits, within, meets, joins, joined, cut, refcount_of, permission_of};
ghost use Rattle.definitions.specs.Values.{nothing, raise, lower};
ghost use Rattle.definitions.proofs.Lists.{fill, change, added, removed, peak};
ghost use Rattle.capability_engine.specs.PoolChain.{Listed, Walkable, last, slots, records, stored_at, SkipsBelow, SkipsThrough};
ghost use Rattle.capability_engine.specs.PoolOwn.{Heap, heap, records_of, Ready, Room, Pass, CanInsert, Inserts, InsertsRegion, PutsGap, CanRemove, Removes, Narrows, widened, CanWiden};
ghost use Rattle.capability_engine.specs.RegionPasses.{lowered, start_of, changed_one, Small, AllSmall, CanApplyRemove, CanAddBetween, CanRemoveBetween};
ghost use Rattle.capability_engine.specs.RegionAsks.{every_of, answer_after, judged_add, judged_remove, low_enough, gap_from, gap_here, add_step, frees_one, remove_step, AddsRegion, RemovesRegion, fold_from, add_begin, remove_begin, AskableAt, Countable, most_of, AllowsOne, Allotted};
ghost use Rattle.capability_engine.specs.RegionListing.{Starts, Steps};

use definitions::{
    Answer, Counters, HostAddr, MemOps, MemoryPermission, RECORD_LEN, Refusal, Region, Values,
};
use gen_arena::{GenArena, Handle};

// The words of the pool's 1,024 records.
pub const POOL_LEN: usize = 1024 * RECORD_LEN;

pub(crate) fn load(words: &[u64], i: usize) -> Region
    requires { (i < 1024) × (length words.now ≡ pool_len) }
    ensures { result ≡ region_at words.now i }
{
    let b = RECORD_LEN * i;
    let start = HostAddr(words[b]);
    let end = HostAddr(words[b + 1]);
    let counters = Counters {
        read: words[b + 3],
        write: words[b + 4],
        exec: words[b + 5],
        supervisor: words[b + 6],
        uncacheable: words[b + 7],
        device: words[b + 8],
    };
    let values = Values {
        refcount: words[b + 2],
        counters,
    };
    Region { start, end, values }
}

pub(crate) fn save(words: &mut [u64], i: usize, r: Region)
    requires { record_len * i + record_len ≤ length words.old }
    ensures { words.new ≡ put_region words.old i r }
{
    let b = RECORD_LEN * i;
    words[b] = r.start.0;
    words[b + 1] = r.end.0;
    words[b + 2] = r.values.refcount;
    words[b + 3] = r.values.counters.read;
    words[b + 4] = r.values.counters.write;
    words[b + 5] = r.values.counters.exec;
    words[b + 6] = r.values.counters.supervisor;
    words[b + 7] = r.values.counters.uncacheable;
    words[b + 8] = r.values.counters.device;
}

// A free slot is linked in after p.
pub(crate) fn insert_after(
    next: &mut [usize],
    links: &mut [usize],
    gens: &[u64],
    arena: &mut GenArena,
    p: usize,
) -> usize
    requires { CanInsert next.old (heap links.old gens.now arena.old) p }
    ensures { Inserts next.old (heap links.old gens.now arena.old) p result next.new (heap links.new gens.now arena.new) }
{
    let made = arena.allocate(links, gens);
    let Some(handle) = made else {
        return 1024;
    };
    let x = handle.idx;
    next[x] = next[p];
    next[p] = x;
    x
}

// What follows p goes, and its slot is free at the next generation.
pub(crate) fn remove_after(
    next: &mut [usize],
    links: &mut [usize],
    gens: &mut [u64],
    arena: &mut GenArena,
    p: usize,
)
    requires { CanRemove next.old (heap links.old gens.old arena.old) p }
    ensures { Removes next.old (heap links.old gens.old arena.old) p next.new (heap links.new gens.new arena.new) }
{
    let x = next[p];
    next[p] = next[x];
    let generation = gens[x];
    arena.free(links, gens, Handle { idx: x, generation });
}

// A free slot, with a region in it, is linked in after p.
pub(crate) fn insert_region(
    next: &mut [usize],
    words: &mut [u64],
    links: &mut [usize],
    gens: &[u64],
    arena: &mut GenArena,
    p: usize,
    r: Region,
) -> usize
    requires can_insert { CanInsert next.old (heap links.old gens.now arena.old) p }
    requires words_len { length words.old ≡ pool_len }
    ensures { InsertsRegion next.old words.old (heap links.old gens.now arena.old) p result r next.new words.new (heap links.new gens.now arena.new) }
{
    let x = insert_after(next, links, gens, arena, p);
    save(words, x, r);
    x
}

// The region in a slot is cut at an address. The second half is put directly after it, in the slot that is answered.
pub(crate) fn split_region_at(
    next: &mut [usize],
    words: &mut [u64],
    links: &mut [usize],
    gens: &[u64],
    arena: &mut GenArena,
    slot: usize,
    at: HostAddr,
) -> usize
    requires slot_bound { (slot < 1024) × CanInsert next.old (heap links.old gens.now arena.old) slot }
    requires words_len { length words.old ≡ pool_len }
    ensures { InsertsRegion next.old (put_region words.old slot (region (region_at words.old slot).start at (region_at words.old slot).values)) (heap links.old gens.now arena.old) slot result (region at (region_at words.old slot).end (region_at words.old slot).values) next.new words.new (heap links.new gens.now arena.new) }
{
    let r = load(words, slot);
    save(words, slot, Region { end: at, ..r });
    insert_region(
        next,
        words,
        links,
        gens,
        arena,
        slot,
        Region { start: at, ..r },
    )
}

#[tactic(auto, using(std::proofs::lemmas::Bool::Decides::nat_tests), unfolding(definitions::specs::Regions::splits))]
fn has_inside(r: Region, at: HostAddr) -> bool
    ensures { result ≡ splits at r }
{
    r.start < at && at < r.end
}

// The list is cut at an address: a region that has it strictly inside becomes two.
pub(crate) fn cut_at(
    next: &mut [usize],
    words: &mut [u64],
    links: &mut [usize],
    gens: &[u64],
    arena: &mut GenArena,
    at: HostAddr,
)
    requires ready { Ready next.old words.old (heap links.old gens.now arena.old) }
    requires room { Room next.old (heap links.old gens.now arena.old) (cut at (records_of next.old words.old)) }
    ensures { Pass next.old words.old (heap links.old gens.now arena.old) next.new words.new (heap links.new gens.now arena.new)
        (cut at (records_of next.old words.old)) }
{
    let mut q = 1024;
    loop {
        let x = next[q];
        if x >= 1024 {
            return;
        }
        let r = load(words, x);
        if has_inside(r, at) {
            split_region_at(next, words, links, gens, arena, x, at);
            return;
        }
        q = x;
    }
}

// Does the second go on where the first ends, with the same counts?
#[tactic(auto, using(std::proofs::lemmas::Bool::Decides::nat_tests), unfolding(definitions::specs::Regions::joins))]
fn goes_on(r: Region, q: Region) -> bool
    ensures { result ≡ joins r q }
{
    r.end == q.start && r.same_counts(q)
}

// Neighbours that touch and have equal counts become one region.
pub(crate) fn coalesce(
    next: &mut [usize],
    words: &mut [u64],
    links: &mut [usize],
    gens: &mut [u64],
    arena: &mut GenArena,
)
    requires { Ready next.old words.old (heap links.old gens.old arena.old) }
    ensures { Pass next.old words.old (heap links.old gens.old arena.old) next.new words.new (heap links.new gens.new arena.new)
        (joined (records_of next.old words.old)) }
{
    let mut q = 1024;
    loop {
        let x = next[q];
        if x >= 1024 {
            return;
        }
        let y = next[x];
        if y >= 1024 {
            return;
        }
        let a = load(words, x);
        let b = load(words, y);
        if goes_on(a, b) {
            // Both have the same values: only the end is written anew.
            save(words, x, Region { end: b.end, ..a });
            remove_after(next, links, gens, arena, x);
        } else {
            q = x;
        }
    }
}

#[tactic(auto, using(std::proofs::lemmas::Bool::Decides::nat_tests), unfolding(definitions::specs::Regions::within))]
fn lies_in(r: Region, start: HostAddr, end: HostAddr) -> bool
    ensures { result ≡ within start end r }
{
    start <= r.start && r.end <= end
}

// What a pass makes of the region in a slot is written where that lies in the range: elsewhere it is there already.
fn save_in(words: &mut [u64], i: usize, r: Region, start: HostAddr, end: HostAddr, s: Region)
    requires record_len_in_bounds { record_len * i + record_len ≤ length words.old }
    requires s_value { within start end r ≡ false → s ≡ region_at words.old i }
    ensures { words.new ≡ put_region words.old i s }
{
    if lies_in(r, start, end) {
        save(words, i, s);
    }
}

// This and decrease_in call two functions of counts, of which only the first is asked with small counts.
fn increase_in(r: Region, start: HostAddr, end: HostAddr, rights: u64) -> Region
    requires { Small (changed_one (raise rights) start end r).values }
    ensures { result ≡ changed_one (raise rights) start end r }
{
    if lies_in(r, start, end) {
        counts::increase(r, rights)
    } else {
        r
    }
}

// Each region that lies in the range is raised.
pub(crate) fn raise_all(
    next: &[usize],
    words: &mut [u64],
    start: HostAddr,
    end: HostAddr,
    rights: u64,
)
    requires ready { (fl : Heap) × Ready next.now words.old fl }
    requires all_small { AllSmall (change (raise rights) start end (records_of next.now words.old)) }
    ensures { (fl : Heap) → Ready next.now words.old fl → Pass next.now words.old fl next.now words.new fl
        (change (raise rights) start end (records_of next.now words.old)) }
{
    let mut q = 1024;
    loop {
        let x = next[q];
        if x >= 1024 {
            return;
        }
        let r = load(words, x);
        let s = increase_in(r, start, end, rights);
        save_in(words, x, r, start, end, s);
        q = x;
    }
}

// The run [start, end), if it is not empty, is put after q as a region that nobody holds.
fn put_gap(
    next: &mut [usize],
    words: &mut [u64],
    links: &mut [usize],
    gens: &[u64],
    arena: &mut GenArena,
    q: usize,
    start: HostAddr,
    end: HostAddr,
)
    requires can_insert { start.0 < end.0 → CanInsert next.old (heap links.old gens.now arena.old) q }
    requires words_len { length words.old ≡ pool_len }
    ensures { PutsGap next.old words.old (heap links.old gens.now arena.old) q start end next.new words.new (heap links.new gens.now arena.new) }
{
    if start.0 < end.0 {
        let values = Values::default();
        insert_region(
            next,
            words,
            links,
            gens,
            arena,
            q,
            Region { start, end, values },
        );
    }
}

// The gaps of a range become regions that nobody holds.
pub(crate) fn fill_gaps(
    next: &mut [usize],
    words: &mut [u64],
    links: &mut [usize],
    gens: &[u64],
    arena: &mut GenArena,
    start: HostAddr,
    end: HostAddr,
)
    requires ready { Ready next.old words.old (heap links.old gens.now arena.old) }
    requires room { Room next.old (heap links.old gens.now arena.old) (fill start end (records_of next.old words.old)) }
    ensures { Pass next.old words.old (heap links.old gens.now arena.old) next.new words.new (heap links.new gens.now arena.new)
        (fill start end (records_of next.old words.old)) }
{
    let mut q = 1024;
    let mut s = start;
    loop {
        let x = next[q];
        if x >= 1024 {
            return put_gap(next, words, links, gens, arena, q, s, end);
        }
        let r = load(words, x);
        let from = r.start;
        let to = r.end;
        if to.0 <= s.0 {
            q = x;
        } else if end.0 <= from.0 {
            return put_gap(next, words, links, gens, arena, q, s, end);
        } else {
            put_gap(next, words, links, gens, arena, q, s, from);
            q = x;
            s = to;
        }
    }
}

fn decrease_in(r: Region, start: HostAddr, end: HostAddr, rights: u64) -> Region
    ensures { result ≡ changed_one (lower rights) start end r }
{
    if lies_in(r, start, end) {
        counts::decrease(r, rights)
    } else {
        r
    }
}

// Each region that lies in the range is lowered, and goes if nobody holds it any more.
pub(crate) fn lower_all(
    next: &mut [usize],
    words: &mut [u64],
    links: &mut [usize],
    gens: &mut [u64],
    arena: &mut GenArena,
    start: HostAddr,
    end: HostAddr,
    rights: u64,
)
    requires { Ready next.old words.old (heap links.old gens.old arena.old) }
    ensures { Pass next.old words.old (heap links.old gens.old arena.old) next.new words.new (heap links.new gens.new arena.new)
        (lowered rights start end (records_of next.old words.old)) }
{
    let mut q = 1024;
    loop {
        let x = next[q];
        if x >= 1024 {
            return;
        }
        let r = load(words, x);
        let l = decrease_in(r, start, end, rights);
        if l.values.refcount == 0 {
            remove_after(next, links, gens, arena, q);
        } else {
            save_in(words, x, r, start, end, l);
            q = x;
        }
    }
}

// Where the region begins that has an address strictly inside; the address if none has.
fn start_at(next: &[usize], words: &[u64], head: usize, at: HostAddr) -> HostAddr
    requires { Walkable next.now words.now head }
    ensures { result ≡ start_of at (stored_at next.now words.now head) }
{
    let mut cur = head;
    while cur < 1024 {
        let r = load(words, cur);
        if has_inside(r, at) {
            return r.start;
        }
        cur = next[cur];
    }
    at
}

// An add that was found to be possible: nothing here can fail.
pub(crate) fn apply_add(
    next: &mut [usize],
    words: &mut [u64],
    links: &mut [usize],
    gens: &mut [u64],
    arena: &mut GenArena,
    start: HostAddr,
    end: HostAddr,
    rights: u64,
)
    requires ready { Ready next.old words.old (heap links.old gens.old arena.old) }
    requires room { Room next.old (heap links.old gens.old arena.old) (peak start end (records_of next.old words.old)) }
    requires all_small { AllSmall (change (raise rights) start end (peak start end (records_of next.old words.old))) }
    ensures { Pass next.old words.old (heap links.old gens.old arena.old) next.new words.new (heap links.new gens.new arena.new)
        (added start end rights (records_of next.old words.old)) }
{
    cut_at(next, words, links, gens, arena, start);
    cut_at(next, words, links, gens, arena, end);
    fill_gaps(next, words, links, gens, arena, start, end);
    raise_all(next, words, start, end, rights);
    coalesce(next, words, links, gens, arena);
}

// A remove that was found to be possible: nothing here can fail.
pub(crate) fn apply_remove(
    next: &mut [usize],
    words: &mut [u64],
    links: &mut [usize],
    gens: &mut [u64],
    arena: &mut GenArena,
    start: HostAddr,
    end: HostAddr,
    rights: u64,
)
    requires ready { Ready next.old words.old (heap links.old gens.old arena.old) }
    requires can_apply_remove { CanApplyRemove next.old words.old (heap links.old gens.old arena.old) start end rights }
    ensures { Pass next.old words.old (heap links.old gens.old arena.old) next.new words.new (heap links.new gens.new arena.new)
        (removed start end rights (records_of next.old words.old)) }
{
    cut_at(next, words, links, gens, arena, start);
    lower_all(next, words, links, gens, arena, start, end, rights);
    let head = next[1024];
    let from = start_at(next, words, head, end);
    cut_at(next, words, links, gens, arena, end);
    lower_all(next, words, links, gens, arena, from, end, rights);
    coalesce(next, words, links, gens, arena);
}

// How far a walk went: the last slot that it passed, 1,024 if none, and the one that it stands at.
#[derive(Clone, Copy)]
pub(crate) struct Skipped {
    pub last: usize,
    pub next: usize,
}

// The records, from head on, that end below start are passed. Only their ends are read.
fn skip_below(next: &[usize], words: &[u64], head: usize, start: HostAddr) -> Skipped
    requires { Walkable next.now words.now head }
    ensures { SkipsBelow next.now words.now head start result }
{
    let mut q = 1024;
    let mut cur = head;
    while cur < 1024 {
        let to = words[RECORD_LEN * cur + 1];
        if start.0 <= to {
            return Skipped { last: q, next: cur };
        }
        q = cur;
        cur = next[cur];
    }
    Skipped { last: q, next: cur }
}

// The last slot, from head on, of those whose records begin at or below end; p if the first does not.
fn skip_through(next: &[usize], words: &[u64], p: usize, head: usize, end: HostAddr) -> usize
    requires { Walkable next.now words.now head }
    ensures { SkipsThrough next.now words.now head p end result }
{
    let mut q = p;
    let mut cur = head;
    while cur < 1024 {
        let from = words[RECORD_LEN * cur];
        if end.0 < from {
            return q;
        }
        q = cur;
        cur = next[cur];
    }
    q
}

// The last slot behind p; p if there is none.
fn last_from(next: &[usize], p: usize) -> usize
    requires { (p ≤ 1024) × Listed next.now (get_or next.now p 0) (slots next.now (get_or next.now p 0)) }
    ensures { result ≡ last p (slots next.now (get_or next.now p 0)) }
{
    let mut q = p;
    let mut cur = next[p];
    while cur < 1024 {
        q = cur;
        cur = next[cur];
    }
    q
}

// What was taken off the ring: the head of the list, and the first slot of what lies behind.
#[derive(Clone, Copy)]
pub(crate) struct Outside {
    pub head: usize,
    pub rest: usize,
}

// Only what lies behind p, up to z, stays in the ring.
fn narrow(next: &mut [usize], p: usize, z: usize) -> Outside
    requires { (p ≤ 1024) × (z ≤ 1024) × (length next.old ≡ 1025) }
    ensures { Narrows next.old p z result next.new }
{
    let rest = next[z];
    next[z] = 1024;
    let head = next[1024];
    next[1024] = next[p];
    Outside { head, rest }
}

// What was taken off is put back before and behind what is in the ring.
fn widen(next: &mut [usize], p: usize, off: Outside)
    requires { CanWiden next.old p off.head }
    ensures { next.new ≡ widened next.old p off.head off.rest }
{
    let first = next[1024];
    next[1024] = off.head;
    next[p] = first;
    let y = last_from(next, p);
    next[y] = off.rest;
}

// The same add, of the records behind p up to the end of the range alone: those before p end below it.
// Beside the remove below: a trait with the questions, the pass and the laws of both would be longer than the two.
fn add_between(
    next: &mut [usize],
    words: &mut [u64],
    links: &mut [usize],
    gens: &mut [u64],
    arena: &mut GenArena,
    p: usize,
    start: HostAddr,
    end: HostAddr,
    rights: u64,
)
    requires { CanAddBetween next.old words.old (heap links.old gens.old arena.old) start end rights p }
    ensures { Pass next.old words.old (heap links.old gens.old arena.old) next.new words.new (heap links.new gens.new arena.new)
        (added start end rights (records_of next.old words.old)) }
{
    let first = next[p];
    let z = skip_through(next, words, p, first, end);
    let off = narrow(next, p, z);
    apply_add(next, words, links, gens, arena, start, end, rights);
    widen(next, p, off);
}

// The same remove, of those records alone.
fn remove_between(
    next: &mut [usize],
    words: &mut [u64],
    links: &mut [usize],
    gens: &mut [u64],
    arena: &mut GenArena,
    p: usize,
    start: HostAddr,
    end: HostAddr,
    rights: u64,
)
    requires { CanRemoveBetween next.old words.old (heap links.old gens.old arena.old) start end rights p }
    ensures { Pass next.old words.old (heap links.old gens.old arena.old) next.new words.new (heap links.new gens.new arena.new)
        (removed start end rights (records_of next.old words.old)) }
{
    let first = next[p];
    let z = skip_through(next, words, p, first, end);
    let off = narrow(next, p, z);
    apply_remove(next, words, links, gens, arena, start, end, rights);
    widen(next, p, off);
}

// A compartment's list: its first slot, 1,024 for none; how many records it has, and how many it may have. A tracker is two
// words: with three, an add took longer.
#[derive(Clone, Copy)]
pub struct RegionTracker {
    pub head: usize,
    pub count: u32,
    pub allowance: u32,
}

// A cursor over the permissions: the slot of the record of the next one, 1,024 at the end.
#[derive(Clone, Copy)]
pub(crate) struct PermissionIterator {
    pub(crate) next: usize,
}

// What a walk finds out for an add. left is one more than the records that may still be taken beside those for the gaps met.
// Each flag is the answer to a question of its own; none says whether another field counts.
#[derive(Clone, Copy)]
pub(crate) struct AddAsk {
    pub raisable: bool,
    pub cuts_start: bool,
    pub cuts_end: bool,
    pub left: usize,
    pub from: HostAddr,
    pub gap: bool,
    pub fresh: bool,
}

// What a walk finds out for a remove. lack is 1,025 less the records that may still be taken, and less those that go first. Its flags
// are as those of an add.
#[derive(Clone, Copy)]
pub(crate) struct RemoveAsk {
    pub begun: bool,
    pub last: HostAddr,
    pub cuts_start: bool,
    pub cuts_end: bool,
    pub lack: usize,
    pub lowerable: bool,
    pub gone: bool,
}

// Does the region share an address with the range?
#[tactic(auto, using(std::proofs::lemmas::Bool::Decides::nat_tests), unfolding(definitions::specs::Regions::meets))]
fn touches(r: Region, start: HostAddr, end: HostAddr) -> bool
    ensures { result ≡ meets start end r }
{
    start < r.end && r.start < end
}

// Does each count that a right names pass the test?
fn every<F: Fn(u64) -> bool>(named: Counters, counts: Counters, passes: F) -> bool
    requires { F.IsAlwaysCallable passes }
    ensures { (p : ℕ → Bool) → ((n : ℕ) (b : Bool) → n < 2 ^ 64 → F.post passes n b → b ≡ p n) → result ≡ every_of p named counts }
{
    let read = passes(counts.read);
    let write = passes(counts.write);
    let exec = passes(counts.exec);
    let supervisor = passes(counts.supervisor);
    let uncacheable = passes(counts.uncacheable);
    let device = passes(counts.device);
    // `&` and `|` evaluate both sides: no branches.
    ((named.read == 0) | read)
        & ((named.write == 0) | write)
        & ((named.exec == 0) | exec)
        & ((named.supervisor == 0) | supervisor)
        & ((named.uncacheable == 0) | uncacheable)
        & ((named.device == 0) | device)
}

// Question 4 of one region: yes of one that is not touched.
fn can_rise(touched: bool, v: Values, rights: u64) -> bool
    ensures { result ≡ (not touched || low_enough rights v) }
{
    let named = MemOps(rights).as_counters();
    !touched || (v.refcount < 65535 && every(named, v.counters, |n| n < 65535))
}

// Question 8 of one region: yes of one that is not touched.
fn can_fall(touched: bool, v: Values, rights: u64) -> bool
    ensures { result ≡ (not touched || every_named (λ n. 0 <? n) rights v) }
{
    let named = MemOps(rights).as_counters();
    !touched || every(named, v.counters, |n| 0 < n)
}

// Does a region keep each right that is named when one is taken from it? Yes of one that is not touched.
fn none_is_last(touched: bool, v: Values, rights: u64) -> bool
    ensures { result ≡ (not touched || every_named (λ n. not (n =? 1)) rights v) }
{
    let named = MemOps(rights).as_counters();
    !touched || every(named, v.counters, |n| n != 1)
}

fn next_from(r: Region, from: HostAddr, end: HostAddr) -> HostAddr
    ensures { result ≡ gap_from end from r }
{
    if r.end.0 <= from.0 {
        from
    } else if end.0 <= r.start.0 {
        end
    } else {
        r.end
    }
}

#[tactic(auto, using(std::proofs::lemmas::Bool::Decides::nat_tests), unfolding(crate::specs::RegionAsks::gap_here))]
fn has_gap(r: Region, from: HostAddr, end: HostAddr) -> bool
    ensures { result ≡ gap_here end from r }
{
    let to = end.0.min(r.start.0);
    (from.0 < r.end.0) & (from.0 < to)
}

#[tactic(auto, unfolding(crate::specs::RegionAsks::add_step))]
fn add_step(ask: AddAsk, r: Region, start: HostAddr, end: HostAddr, rights: u64) -> AddAsk
    ensures { result ≡ add_step start end rights ask r }
{
    let touched = touches(r, start, end);
    let low = can_rise(touched, r.values, rights);
    let above = can_fall(touched, r.values, rights);
    let here = has_gap(r, ask.from, end);
    AddAsk {
        raisable: ask.raisable && low,
        cuts_start: ask.cuts_start || has_inside(r, start),
        cuts_end: ask.cuts_end || has_inside(r, end),
        left: ask.left.saturating_sub(usize::from(here)),
        from: next_from(r, ask.from, end),
        gap: ask.gap || here,
        fresh: ask.fresh || (touched && !above),
    }
}

#[tactic(auto, using(std::proofs::lemmas::Bool::Decides::nat_tests), unfolding(crate::specs::RegionAsks::frees_one))]
fn frees_one(r: Region, start: HostAddr, end: HostAddr) -> bool
    ensures { result ≡ frees_one start end r }
{
    start < r.end && r.end <= end && r.values.refcount == 1
}

#[tactic(auto, unfolding(crate::specs::RegionAsks::remove_step))]
fn remove_step(ask: RemoveAsk, r: Region, start: HostAddr, end: HostAddr, rights: u64) -> RemoveAsk
    ensures { result ≡ remove_step start end rights ask r }
{
    let touched = touches(r, start, end);
    let above = can_fall(touched, r.values, rights);
    let stay = none_is_last(touched, r.values, rights);
    let frees = frees_one(r, start, end);
    let begins = r.start <= start;
    RemoveAsk {
        begun: ask.begun || begins,
        last: if begins { r.end } else { ask.last },
        cuts_start: ask.cuts_start || has_inside(r, start),
        cuts_end: ask.cuts_end || has_inside(r, end),
        lack: ask.lack.saturating_sub(usize::from(frees)),
        lowerable: ask.lowerable && above,
        gone: ask.gone || (touched && (r.values.refcount == 1 || !stay)),
    }
}

// Does the region, and so each behind it, begin at or above both?
fn lies_above(r: Region, start: HostAddr, end: HostAddr) -> bool
    ensures { result ≡ true → (start.0 ≤ r.start.0) × (end.0 ≤ r.start.0) }
{
    start.0.max(end.0) <= r.start.0
}

// The last slot passed, whose record tells whether one begins at or below start; the head if none was passed.
fn last_or(skipped: Skipped, head: usize) -> usize
    ensures { result ≡ (if skipped.last <? 1024 then skipped.last else head) }
{
    if skipped.last < 1024 {
        skipped.last
    } else {
        head
    }
}

// The questions of an add, region by region. What ends below start answers none of them, and after a region that begins at or
// above end none is left.
fn walk_add(
    next: &[usize],
    words: &[u64],
    head: usize,
    skipped: Skipped,
    room: usize,
    start: HostAddr,
    end: HostAddr,
    rights: u64,
) -> AddAsk
    requires { AskableAt next.now words.now head room start end skipped }
    ensures { result ≡ fold_from (add_step start end rights) (add_begin room start) (stored_at next.now words.now head) }
{
    let mut ask = AddAsk {
        raisable: true,
        cuts_start: false,
        cuts_end: false,
        left: room + 1,
        from: start,
        gap: false,
        fresh: false,
    };
    let mut cur = skipped.next;
    while cur < 1024 {
        let r = load(words, cur);
        ask = add_step(ask, r, start, end, rights);
        if ask.from.0 == end.0 && lies_above(r, start, end) {
            return ask;
        }
        cur = next[cur];
    }
    ask
}

// The questions of a remove, region by region, from the last that ends below start on.
fn walk_remove(
    next: &[usize],
    words: &[u64],
    head: usize,
    skipped: Skipped,
    room: usize,
    start: HostAddr,
    end: HostAddr,
    rights: u64,
) -> RemoveAsk
    requires { AskableAt next.now words.now head room start end skipped }
    ensures { result ≡ fold_from (remove_step start end rights) (remove_begin room) (stored_at next.now words.now head) }
{
    let mut ask = RemoveAsk {
        begun: false,
        last: HostAddr(0),
        cuts_start: false,
        cuts_end: false,
        lack: 1025 - room,
        lowerable: true,
        gone: false,
    };
    let mut cur = last_or(skipped, head);
    while cur < 1024 {
        let r = load(words, cur);
        ask = remove_step(ask, r, start, end, rights);
        if lies_above(r, start, end) {
            return ask;
        }
        cur = next[cur];
    }
    ask
}

// Questions 2 and 3.
#[tactic(auto, using(std::proofs::lemmas::Bool::Decides::nat_tests), unfolding(definitions::specs::Questions::ranged, definitions::specs::Questions::ask))]
fn in_range(start: HostAddr, end: HostAddr, rights: u64) -> Result<(), Refusal>
    ensures { (rest : Answer) → ranged start end rights rest ≡ answer_after result start end rest }
{
    let valid = rights < 64;
    if !valid {
        return Err(Refusal::InvalidMemOps);
    }
    let ordered = start.0 <= end.0;
    if !ordered {
        return Err(Refusal::InvalidRange);
    }
    Ok(())
}

// Questions 4 and 5, by what a walk found out. A gap may be left behind the last region.
#[tactic(auto, using(std::proofs::lemmas::Bool::Decides::nat_tests), unfolding(crate::specs::RegionAsks::judged_add, definitions::specs::Questions::ask))]
fn judge_add(ask: AddAsk, end: HostAddr) -> Answer
    ensures { result ≡ judged_add end ask }
{
    if !ask.raisable {
        return Err(Refusal::CountFull);
    }
    let last = ask.from.0 < end.0;
    let cuts = usize::from(ask.cuts_start) + usize::from(ask.cuts_end);
    let fits = usize::from(last) + cuts < ask.left;
    if !fits {
        return Err(Refusal::OutOfMemory);
    }
    Ok(u64::from(ask.gap | last | ask.fresh))
}

// Questions 6, 7, 5 and 8, by what a walk found out.
#[tactic(auto, using(std::proofs::lemmas::Bool::Decides::nat_tests), unfolding(crate::specs::RegionAsks::judged_remove, definitions::specs::Questions::ask))]
fn judge_remove(ask: RemoveAsk, room: usize, start: HostAddr) -> Answer
    ensures { result ≡ judged_remove room start ask }
{
    if !ask.begun {
        return Err(Refusal::InvalidRegion);
    }
    let reaches = start.0 < ask.last.0;
    if !reaches {
        return Err(Refusal::EndedBefore);
    }
    let first = !ask.cuts_start | (0 < room);
    let second = !ask.cuts_end | (ask.lack <= 1024 - usize::from(ask.cuts_start));
    let fits = first & second;
    if !fits {
        return Err(Refusal::OutOfMemory);
    }
    if !ask.lowerable {
        return Err(Refusal::CountEmpty);
    }
    Ok(u64::from(ask.gone))
}

// The whole answer of an add to the list from head, which may take room records more.
pub(crate) fn ask_add(
    next: &[usize],
    words: &[u64],
    head: usize,
    skipped: Skipped,
    room: usize,
    start: HostAddr,
    end: HostAddr,
    rights: u64,
) -> Answer
    requires { AskableAt next.now words.now head room start end skipped }
    ensures { result ≡ add_on (length (stored_at next.now words.now head) + room) (stored_at next.now words.now head) start end rights }
{
    in_range(start, end, rights)?;
    if start.0 == end.0 {
        return Ok(0);
    }
    let ask = walk_add(next, words, head, skipped, room, start, end, rights);
    judge_add(ask, end)
}

// The whole answer of a remove.
pub(crate) fn ask_remove(
    next: &[usize],
    words: &[u64],
    head: usize,
    skipped: Skipped,
    room: usize,
    start: HostAddr,
    end: HostAddr,
    rights: u64,
) -> Answer
    requires { AskableAt next.now words.now head room start end skipped }
    ensures { result ≡ remove_on (length (stored_at next.now words.now head) + room) (stored_at next.now words.now head) start end rights }
{
    in_range(start, end, rights)?;
    if start.0 == end.0 {
        return Ok(0);
    }
    let ask = walk_remove(next, words, head, skipped, room, start, end, rights);
    judge_remove(ask, room, start)
}

#[tactic(auto, unfolding(crate::specs::RegionAsks::most_of))]
fn most(n: u64, r: Region, start: HostAddr, end: HostAddr) -> u64
    ensures { result ≡ most_of start end n r }
{
    if touches(r, start, end) {
        n.max(r.values.refcount)
    } else {
        n
    }
}

fn permission(r: Region) -> MemoryPermission
    ensures { result ≡ permission_of r }
{
    let start = r.start;
    let end = r.end;
    let ops = r.get_ops();
    MemoryPermission { start, end, ops }
}

impl RegionTracker {
    // An empty list, with the allowance that each compartment has at first.
    pub(crate) fn new() -> RegionTracker
        ensures { (result.head ≡ 1024) × (result.count ≡ 0) × (result.allowance ≡ 128) }
    {
        RegionTracker {
            head: 1024,
            count: 0,
            allowance: 128,
        }
    }

    // How many records it may still take.
    fn room(self) -> usize
        requires { self.count ≤ self.allowance }
        ensures { result ≡ self.allowance - self.count }
    {
        (self.allowance - self.count) as usize
    }

    // The list has another first slot, and as many records more as the pool has free slots fewer.
    fn recount(&mut self, head: usize, before: usize, after: usize)
        requires { (self.old.count + before < 2 ^ 32) × (after ≤ self.old.count + before) }
        ensures { self.new ≡ record { head = head; count = self.old.count + before - after; allowance = self.old.allowance } }
    {
        self.head = head;
        self.count = (self.count as usize + before - after) as u32;
    }

    // Another allowance, where the other compartments' are so many together.
    pub(crate) fn allow(&mut self, others: usize, allowance: u64) -> Answer
        requires { others ≤ 1024 }
        ensures { AllowsOne self.old others allowance self.new result }
    {
        let rest = 1024 - others;
        if (rest as u64) < allowance {
            return Err(Refusal::PoolExceeded);
        }
        if allowance < (self.count as u64) {
            return Err(Refusal::StillInUse);
        }
        self.allowance = allowance as u32;
        Ok(0)
    }

    // The most holders of a region that shares an address with the range. Those that end below it are passed by their ends alone,
    // and behind one that begins at or above its end none is visited.
    pub(crate) fn get_refcount(
        self,
        next: &[usize],
        words: &[u64],
        start: HostAddr,
        end: HostAddr,
    ) -> u64
        requires { Countable next.now words.now self.head }
        ensures { result ≡ refcount_of start end (stored_at next.now words.now self.head) }
    {
        let skipped = skip_below(next, words, self.head, start);
        let mut n = 0;
        let mut cur = skipped.next;
        while cur < 1024 {
            let r = load(words, cur);
            if end.0 <= r.start.0 {
                return n;
            }
            n = most(n, r, start, end);
            cur = next[cur];
        }
        n
    }

    // A cursor before the first permission.
    pub(crate) fn permissions(self) -> PermissionIterator
        ensures { Starts self result }
    {
        PermissionIterator { next: self.head }
    }

    pub(crate) fn add_region(
        &mut self,
        next: &mut [usize],
        words: &mut [u64],
        links: &mut [usize],
        gens: &mut [u64],
        arena: &mut GenArena,
        start: HostAddr,
        end: HostAddr,
        rights: u64,
    ) -> Answer
        requires { Allotted next.old words.old (heap links.old gens.old arena.old) self.old }
        ensures { AddsRegion next.old words.old (heap links.old gens.old arena.old) self.old start end rights next.new words.new (heap links.new gens.new arena.new) self.new result }
    {
        let head = self.head;
        let room = self.room();
        let low = HostAddr(start.0.min(end.0));
        let skipped = skip_below(next, words, head, low);
        let changed = ask_add(next, words, head, skipped, room, start, end, rights)?;
        if start.0 != end.0 {
            let before = arena.capacity(links);
            next[1024] = head;
            add_between(
                next,
                words,
                links,
                gens,
                arena,
                skipped.last,
                start,
                end,
                rights,
            );
            let after = arena.capacity(links);
            self.recount(next[1024], before, after);
        }
        Ok(changed)
    }

    pub(crate) fn remove_region(
        &mut self,
        next: &mut [usize],
        words: &mut [u64],
        links: &mut [usize],
        gens: &mut [u64],
        arena: &mut GenArena,
        start: HostAddr,
        end: HostAddr,
        rights: u64,
    ) -> Answer
        requires { Allotted next.old words.old (heap links.old gens.old arena.old) self.old }
        ensures { RemovesRegion next.old words.old (heap links.old gens.old arena.old) self.old start end rights next.new words.new (heap links.new gens.new arena.new) self.new result }
    {
        let head = self.head;
        let room = self.room();
        let low = HostAddr(start.0.min(end.0));
        let skipped = skip_below(next, words, head, low);
        let gone = ask_remove(next, words, head, skipped, room, start, end, rights)?;
        if start.0 != end.0 {
            let before = arena.capacity(links);
            next[1024] = head;
            remove_between(
                next,
                words,
                links,
                gens,
                arena,
                skipped.last,
                start,
                end,
                rights,
            );
            let after = arena.capacity(links);
            self.recount(next[1024], before, after);
        }
        Ok(gone)
    }
}

impl PermissionIterator {
    // The permission of the next record. No record is without a holder, so none is passed over.
    pub(crate) fn next(
        self,
        next: &[usize],
        words: &[u64],
    ) -> Option<(MemoryPermission, PermissionIterator)>
        requires { Walkable next.now words.now self.next }
        ensures { Steps next.now words.now self result }
    {
        let h = self.next;
        if h >= 1024 {
            return None;
        }
        let r = load(words, h);
        let p = permission(r);
        let after = next[h];
        Some((p, PermissionIterator { next: after }))
    }
}
