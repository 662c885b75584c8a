// The mapping stream of a compartment: a cursor over its records and segments, and pages of it and of its permissions.
// The records lie in the pool's words, linked; the segments are lent as numbers in list order, four each.
ghost use Rattle.std.specs.Prelude.{◌≡◌, true, map, ◌+◌, ◌*◌, ◌<◌, ◌≤◌, ◌^◌, min, max, length, drop, if◌then◌else◌};
ghost use Rattle.std.proofs.lemmas.List.Edits.{sets};
ghost use Rattle.definitions.specs.Tests.{◌=?◌, host};
ghost use Rattle.definitions.specs.Regions.{region, permission_of};
ghost use Rattle.definitions.specs.Stream.{shared_part, identity, stream};
ghost use Rattle.definitions.specs.Pages.{mapping_group, permission_group, region_group, segment_group, record_len, Filled};
ghost use Rattle.capability_engine.specs.PoolWords.{pool_len};
ghost use Rattle.capability_engine.specs.PoolChain.{slots, Listed, Walkable, stored_at};
ghost use Rattle.capability_engine.specs.RegionListing.{permissions_from};
ghost use Rattle.capability_engine.specs.SegmentWords.{segments_from, segment_at};
ghost use Rattle.capability_engine.specs.StreamCursor.{Whole, Table, Ready, Says, Turned, Met, remaining, to_go, goes_on, begins, runs, last_turn, first_turn};
ghost use Rattle.capability_engine.specs.StreamLists.{Stands, Turns, Tells, coming, streamed};
ghost use Rattle.capability_engine.specs.declared.stream.Turn.TheVariants.{Yields};

use crate::lists::Lists;
use crate::region::{PermissionIterator, RegionTracker, load, save};
use crate::remapper::put_segment;
use definitions::{GuestAddr, HostAddr, Mapping, MemoryPermission, RECORD_LEN, Region, Segment};

// Where a read of the stream stands.
#[derive(Clone, Copy)]
pub(crate) struct RemapCursor {
    // the first record that is not passed, 1,024 for none
    pub(crate) region: usize,
    // up to where that record is passed
    pub(crate) at: HostAddr,
    // the greatest end of the segments begun
    pub(crate) covered: HostAddr,
    // the number of segments begun
    pub(crate) segment: usize,
    // the record at which the last segment begun goes on, 1,024 for none, and that segment's end
    pub(crate) ongoing: usize,
    pub(crate) end: HostAddr,
}

// What one turn of a cursor does: it may yield nothing and move on.
#[derive(Clone, Copy)]
pub(crate) enum Turn {
    Yields(Mapping, RemapCursor),
    Skips(RemapCursor),
    Ends,
}

fn load_segment(segments: &[u64], i: usize) -> Segment
    requires { (i < 64) × (4 * i + 4 ≤ length segments.now) }
    ensures { result ≡ segment_at segments.now i }
{
    let b = 4 * i;
    Segment {
        hpa: HostAddr(segments[b]),
        gpa: GuestAddr(segments[b + 1]),
        size: segments[b + 2],
        repeat: segments[b + 3],
    }
}

// What a segment that ends at end yields at a record that it meets.
#[tactic(auto, unfolding(definitions::specs::Stream::shared_part, definitions::specs::Segments::host_end, definitions::specs::Tests::host_up, definitions::specs::Tests::guest_up, definitions::specs::Tests::host))]
fn share(s: Segment, end: HostAddr, r: Region) -> Mapping
    requires { Met s end r }
    ensures { result ≡ shared_part s r }
{
    let a = s.hpa.0.max(r.start.0);
    let e = end.0.min(r.end.0);
    Mapping {
        hpa: HostAddr(a),
        gpa: GuestAddr(s.gpa.0 + (a - s.hpa.0)),
        size: e - a,
        repeat: s.repeat,
        ops: r.get_ops(),
    }
}

// The identity mapping of the part [start, end) of a record.
#[tactic(auto, unfolding(definitions::specs::Stream::identity, definitions::specs::Regions::region, definitions::specs::Tests::host, definitions::specs::Tests::guest))]
fn plain(start: u64, end: u64, r: Region) -> Mapping
    requires { start ≤ end }
    ensures { result ≡ identity (region (host start) (host end) r.values) }
{
    Mapping {
        hpa: HostAddr(start),
        gpa: GuestAddr(start),
        size: end - start,
        repeat: 1,
        ops: r.get_ops(),
    }
}

// The record passed up to `to`: the next one if that is its end.
#[tactic(auto, using(std::proofs::lemmas::Bool::Decides::nat_tests))]
fn after(end: u64, to: u64, here: usize, next: usize) -> usize
    ensures { result ≡ (if to =? end then next else here) }
{
    if to == end { next } else { here }
}

// The part [from, to) of a record is yielded, if there is one.
#[tactic(auto, using(std::proofs::lemmas::Bool::Decides::nat_tests), unfolding(crate::specs::StreamCursor::runs))]
fn run_turn(from: u64, to: u64, r: Region, d: RemapCursor) -> Turn
    ensures { result ≡ runs from to r d }
{
    if from < to {
        return Turn::Yields(plain(from, to, r), d);
    }
    Turn::Skips(d)
}

// No segment is left: the record is passed.
fn last_turn(c: RemapCursor, r: Region, beyond: usize) -> Turn
    ensures { result ≡ last_turn c r beyond }
{
    let from = c.at.0.max(r.start.0).max(c.covered.0);
    let d = RemapCursor {
        region: beyond,
        at: r.end,
        ongoing: 1024,
        ..c
    };
    run_turn(from, r.end.0, r, d)
}

// The next segment begins above where the record is passed to: the record is passed up to there.
fn first_turn(c: RemapCursor, r: Region, h: HostAddr, beyond: usize) -> Turn
    ensures { result ≡ first_turn c r h beyond }
{
    let from = c.at.0.max(r.start.0).max(c.covered.0);
    let to = r.end.0.min(h.0);
    let d = RemapCursor {
        region: after(r.end.0, to, c.region, beyond),
        at: HostAddr(to),
        ongoing: 1024,
        ..c
    };
    run_turn(from, to, r, d)
}

// A segment is begun at the record that is not passed yet. Its end is added up here, once.
fn begin(c: RemapCursor, s: Segment) -> RemapCursor
    requires size_bound { s.hpa.0 + s.size < 2 ^ 64 }
    requires segment_bound { c.segment < 64 }
    ensures { result ≡ begins c s }
{
    let end = s.hpa.0 + s.size;
    let covered = c.covered.0.max(end);
    RemapCursor {
        region: c.region,
        at: s.hpa,
        covered: HostAddr(covered),
        segment: c.segment + 1,
        ongoing: c.region,
        end: HostAddr(end),
    }
}

// A mapping is group i of the slice.
fn put_mapping(out: &mut [u64], i: usize, m: Mapping)
    requires { 5 * i + 5 ≤ length out.old }
    ensures { out.new ≡ sets out.old (5 * i) (mapping_group m) }
{
    let b = 5 * i;
    out[b] = m.hpa.0;
    out[b + 1] = m.gpa.0;
    out[b + 2] = m.size;
    out[b + 3] = m.repeat;
    out[b + 4] = m.ops.0;
}

impl Lists<'_> {
    // Has the segment that was begun last a record more?
    #[tactic(auto, using(std::proofs::lemmas::Bool::Decides::nat_tests), unfolding(crate::specs::StreamCursor::goes_on, crate::specs::PoolWords::region_at))]
    fn goes_on(self, c: RemapCursor) -> bool
        ensures { result ≡ goes_on self.entry.words.now c }
    {
        c.ongoing < 1024 && self.words[RECORD_LEN * c.ongoing] < c.end.0
    }

    // The segment that was begun last yields at its next record.
    fn go_on(self, c: RemapCursor) -> (Mapping, RemapCursor)
        requires ready { Stands self c }
        requires c_value { goes_on self.words.now c ≡ true }
        ensures { Turns self.entry c (Yields result.0 result.1) }
    {
        let i = c.ongoing;
        let r = load(self.words, i);
        let s = load_segment(self.segments, c.segment - 1);
        let end = c.end;
        let m = share(s, end, r);
        let ongoing = self.next[i];
        (m, RemapCursor { ongoing, ..c })
    }

    // One turn: a mapping of the segment begun last, or a record part before the next segment, or that segment is begun.
    fn take_turn(self, c: RemapCursor) -> Turn
        requires { Stands self c }
        ensures { Turns self.entry c result }
    {
        if self.goes_on(c) {
            let (m, d) = self.go_on(c);
            return Turn::Yields(m, d);
        }
        let here = c.region;
        if here >= 1024 {
            return Turn::Ends;
        }
        let r = load(self.words, here);
        let beyond = self.next[here];
        let begun = c.segment;
        if begun >= self.n {
            return last_turn(c, r, beyond);
        }
        let s = load_segment(self.segments, begun);
        let low = c.at.0.max(r.start.0);
        if s.hpa.0 <= low {
            return Turn::Skips(begin(c, s));
        }
        first_turn(c, r, s.hpa, beyond)
    }

    // The next mapping. A turn that yields none skips on: the function calls itself.
    // That call's answer is taken apart and built again: the compiler then keeps a mapping in registers, and reads are faster.
    pub(crate) fn next_mapping(self, c: RemapCursor) -> Option<(Mapping, RemapCursor)>
        requires { Stands self c }
        ensures { Tells self.entry c result }
    {
        match self.take_turn(c) {
            Turn::Yields(m, d) => Some((m, d)),
            Turn::Skips(d) => {
                let (m, e) = self.next_mapping(d)?;
                Some((m, e))
            }
            Turn::Ends => None,
        }
    }

    // A cursor before the first mapping.
    pub(crate) fn start(self, head: usize) -> RemapCursor
        requires { Whole self.next.now self.words.now head }
        ensures ready { Stands self.entry result }
        ensures result_value { coming self.entry result ≡ streamed self.entry head }
        ensures result_bound { to_go self.entry.next.now self.entry.words.now self.entry.segments.now self.entry.n result
            ≤ 2 * (length (stored_at self.entry.next.now self.entry.words.now head) + self.entry.n) + 1 }
    {
        RemapCursor {
            region: head,
            at: HostAddr(0),
            covered: HostAddr(0),
            segment: 0,
            ongoing: 1024,
            end: HostAddr(0),
        }
    }

    // The number of mappings from a cursor on.
    pub(crate) fn count(self, from: RemapCursor) -> usize
        requires { Stands self from }
        ensures { result ≡ length (coming self.entry from) }
    {
        let mut c = from;
        let mut k: usize = 0;
        while let Some((_, d)) = self.next_mapping(c) {
            c = d;
            k += 1;
        }
        k
    }

    // The cursor k mappings on.
    pub(crate) fn advance(self, from: RemapCursor, k: usize) -> RemapCursor
        requires { Stands self from }
        ensures ready_2 { Stands self.entry result }
        ensures result_value { coming self.entry result ≡ drop k (coming self.entry from) }
    {
        let mut c = from;
        for _i in 0..k {
            let Some((_, d)) = self.next_mapping(c) else {
                return c;
            };
            c = d;
        }
        c
    }

    // The mappings from a cursor on, as many as there are and as fit.
    // A segment that goes on skips nothing, so its mappings are taken here, without the call that skips.
    fn fill(self, from: RemapCursor, out: &mut [u64]) -> usize
        requires { Stands self from }
        ensures { Filled 5 (map mapping_group (coming self.entry from)) 0 out.old out.new result }
    {
        let room = out.len() / 5;
        let mut c = from;
        for i in 0..room {
            if self.goes_on(c) {
                let (m, d) = self.go_on(c);
                put_mapping(out, i, m);
                c = d;
            } else {
                let Some((m, d)) = self.next_mapping(c) else {
                    return i;
                };
                put_mapping(out, i, m);
                c = d;
            }
        }
        room
    }
}

// A page from mapping k on: as many groups of five numbers as the slice and the stream allow, and how many.
pub(crate) fn page(
    next: &[usize],
    words: &[u64],
    segments: &[u64],
    n: usize,
    head: usize,
    k: usize,
    out: &mut [u64],
) -> usize
    requires table { Table words.now segments.now n }
    requires whole { Whole next.now words.now head }
    ensures { Filled 5 (map mapping_group (stream (stored_at next.now words.now head) (segments_from segments.now 0 n))) k
        out.old out.new result }
{
    let lists = Lists {
        next,
        words,
        segments,
        n,
    };
    let c = lists.start(head);
    let d = lists.advance(c, k);
    lists.fill(d, out)
}

// The slot k links on, 1,024 for none.
fn follow(next: &[usize], head: usize, k: usize) -> usize
    requires { Listed next.now head (slots next.now head) }
    ensures listed { Listed next.now result (slots next.now result) }
    ensures result_value { slots next.now result ≡ drop k (slots next.now head) }
{
    let mut h = head;
    for _i in 0..k {
        if h >= 1024 {
            return h;
        }
        h = next[h];
    }
    h
}

// A permission is group i of the slice.
fn put_permission(out: &mut [u64], i: usize, p: MemoryPermission)
    requires { 3 * i + 3 ≤ length out.old }
    ensures { out.new ≡ sets out.old (3 * i) (permission_group p) }
{
    let b = 3 * i;
    out[b] = p.start.0;
    out[b + 1] = p.end.0;
    out[b + 2] = p.ops.0;
}

// The permissions from a cursor on, as many as there are and as fit.
fn fill_permissions(
    from: PermissionIterator,
    next: &[usize],
    words: &[u64],
    out: &mut [u64],
) -> usize
    requires { Walkable next.now words.now from.next }
    ensures { Filled 3 (map permission_group (permissions_from next.now words.now from)) 0
        out.old out.new result }
{
    let room = out.len() / 3;
    let mut c = from;
    for i in 0..room {
        let n = c.next(next, words);
        let Some((p, d)) = n else {
            return i;
        };
        put_permission(out, i, p);
        c = d;
    }
    room
}

// A page from permission k on: as many groups of three numbers as the slice and the records allow, and how many.
pub(crate) fn permissions(
    next: &[usize],
    words: &[u64],
    tracker: RegionTracker,
    k: usize,
    out: &mut [u64],
) -> usize
    requires words_len { length words.now ≡ pool_len }
    requires listed { Listed next.now tracker.head (slots next.now tracker.head) }
    ensures { Filled 3 (map (λ q. permission_group (permission_of q)) (stored_at next.now words.now tracker.head)) k
        out.old out.new result }
{
    let first = tracker.permissions();
    let h = follow(next, first.next, k);
    fill_permissions(PermissionIterator { next: h }, next, words, out)
}

// The regions from a slot on, as many as there are and as fit.
fn fill_regions(next: &[usize], words: &[u64], from: usize, out: &mut [u64]) -> usize
    requires words_len { length words.now ≡ pool_len }
    requires listed { Listed next.now from (slots next.now from) }
    ensures { Filled record_len (map region_group (stored_at next.now words.now from)) 0
        out.old out.new result }
{
    let room = out.len() / RECORD_LEN;
    let mut h = from;
    for i in 0..room {
        if h >= 1024 {
            return i;
        }
        let r = load(words, h);
        save(out, i, r);
        h = next[h];
    }
    room
}

// A page from region k on: as many groups of RECORD_LEN numbers as the slice and the list allow, and how many.
pub(crate) fn regions(
    next: &[usize],
    words: &[u64],
    head: usize,
    k: usize,
    out: &mut [u64],
) -> usize
    requires words_len { length words.now ≡ pool_len }
    requires listed { Listed next.now head (slots next.now head) }
    ensures { Filled record_len (map region_group (stored_at next.now words.now head)) k
        out.old out.new result }
{
    let h = follow(next, head, k);
    fill_regions(next, words, h, out)
}

// A page from segment k on of n that are lent as numbers: as many groups of four as the slice and the list allow.
pub(crate) fn segments(list: &[u64], n: usize, k: usize, out: &mut [u64]) -> usize
    requires { (n ≤ 64) × (4 * n ≤ length list.now) }
    ensures { Filled 4 (map segment_group (segments_from list.now 0 n)) k out.old out.new result }
{
    let room = out.len() / 4;
    let many = room.min(n.saturating_sub(k));
    for i in 0..many {
        let s = load_segment(list, k + i);
        put_segment(out, i, s);
    }
    many
}
