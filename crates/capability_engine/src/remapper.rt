// remapper.rs: the segments of one compartment. 64 slots, the links between those in use, the free list of the others,
// and the head. A link, a head or a slot of 64 means none. A refused call leaves the remapper as it was.
ghost use Rattle.std.specs.Prelude.{◌≡◌, true, false, cond, ◌&&◌, ◌||◌, List, [], ◌∷◌, ◌++◌, ℕ, ◌+◌, ◌-◌, ◌*◌, ◌^◌, ◌<◌, ◌≤◌, length, set, MatchResult, if◌then◌else◌};
ghost use Rattle.std.proofs.lemmas.List.Edits.{sets};
ghost use Rattle.free_list.specs.Stack.{FreeListCall};
ghost use Rattle.free_list.specs.Grown.{Grown, IsGrown, Allocates, Frees};
ghost use Rattle.definitions.proofs.SegmentLaws.{Good};
ghost use Rattle.definitions.specs.Tests.{◌<?◌, any, each};
ghost use Rattle.definitions.specs.Answers.{Answer};
ghost use Rattle.definitions.specs.Segments.{segment, is_identity, host_end, span_end, front as front_of, rest as rest_of, touched, span_whole};
ghost use Rattle.definitions.specs.Pages.{segment_group};
ghost use Rattle.definitions.specs.Answers.{Answer};
ghost use Rattle.capability_engine.specs.RemapHeld.{join_links, join_head, behind, Holds, IsHeld, Sound, IsSound};
ghost use Rattle.capability_engine.specs.declared.remapper.Span.TheVariants.{Host, Guest};
ghost use Rattle.capability_engine.specs.RemapAsking.{in_range, left_of, repeats, reach_of, bad_for, leaves, moves, none_asked, ask_step};
ghost use Rattle.capability_engine.specs.RemapAnswers.{Does, Decides, can_map, can_start, can_cut, Inserts, cut_to, Builds, CutsOut, Overlaps, Maps, Unmaps, UnmapsGpa};
ghost use Rattle.capability_engine.specs.RemapSteps.{HasRoom, PutsIn, Placed, Told, Between};
ghost use Rattle.capability_engine.specs.RemapListing.{Copied, IsAhead, Starts, Steps};

use definitions::{Answer, GuestAddr, HostAddr, Refusal, Segment};
use free_list::FreeList;

#[derive(Clone, Copy)]
pub struct Remapper {
    pub segments: [Segment; 64],
    pub links: [u8; 64],
    pub free: [usize; 64],
    pub list: FreeList,
    pub head: usize,
}

// What a call comes to when the questions that need no walk are asked: an answer that leaves the remapper as it is, or a
// segment that is to be stored, or a range that is to be cut out.
#[derive(Clone, Copy)]
pub(crate) enum Change {
    Keep(Answer),
    Put(Segment),
    Cut(Span),
}

// A cursor over the segments: the slot of the next one, 64 at the end.
#[derive(Clone, Copy)]
pub(crate) struct RemapperSegmentIterator {
    pub(crate) next_segment: usize,
}

// A range to unmap, [start, end), in host or in guest addresses: two kinds of range, and neither is none.
#[derive(Clone, Copy)]
pub(crate) enum Span {
    Host(HostAddr, HostAddr),
    Guest(GuestAddr, GuestAddr),
}

// Does a range share an address with a segment, and which of the segment's addresses, counted from its start, are the first
// that go and the first that stay again? 0 where that lies below the start. `reach_of` has both numbers of a segment that is not
// touched too, so they are no Option.
#[derive(Clone, Copy)]
pub(crate) struct Reach {
    pub(crate) touches: bool,
    pub(crate) from: u64,
    pub(crate) to: u64,
}

// What the questions of an unmap want to know of the list: how many parts are left in their place, how many are moved up and the
// last of these, and whether there is what question 15 refuses. Where none is moved, up is NO_SEGMENT, as `none_asked` has it.
#[derive(Clone, Copy)]
pub(crate) struct Asked {
    pub(crate) left: usize,
    pub(crate) moved: usize,
    pub(crate) up: Segment,
    pub(crate) bad: bool,
}

const NO_SEGMENT: Segment = Segment {
    hpa: HostAddr(0),
    gpa: GuestAddr(0),
    size: 0,
    repeat: 0,
};

// The link of slot prev, or the head where prev is none, becomes to. A link fits a byte.
fn join(links: &mut [u8; 64], head: usize, prev: usize, to: usize) -> usize
    requires { to ≤ 64 }
    ensures { (links.new ≡ join_links links.old prev to) × (result ≡ join_head head prev to) }
{
    if prev < 64 {
        links[prev] = to as u8;
        head
    } else {
        to
    }
}

// Slot x comes behind slot prev, or becomes the head where prev is none.
fn link(links: &mut [u8; 64], head: usize, prev: usize, x: usize) -> usize
    requires { (head ≤ 64) × (x < 64) }
    ensures { (links.new ≡ join_links (set links.old x (behind links.old head prev)) prev x) × (result ≡ join_head head prev x) }
{
    if prev < 64 {
        links[x] = links[prev];
        links[prev] = x as u8;
        return head;
    }
    links[x] = head as u8;
    x
}

// ---- one segment

#[tactic(auto, unfolding(definitions::specs::Segments::host_end, definitions::specs::Tests::host_up))]
fn host_end(s: Segment) -> u64
    requires { Good s }
    ensures { result ≡ (host_end s).0 }
{
    s.hpa.0 + s.size
}

#[tactic(auto, unfolding(definitions::specs::Segments::span_end, definitions::specs::Tests::guest_up))]
fn span_end(s: Segment) -> u64
    requires { Good s }
    ensures { result ≡ (span_end s).0 }
{
    s.gpa.0 + s.size * s.repeat
}

#[tactic(auto, unfolding(definitions::specs::Segments::segment))]
fn new_segment(hpa: HostAddr, gpa: GuestAddr, size: u64, repeat: u64) -> Segment
    ensures { result ≡ segment hpa gpa size repeat }
{
    Segment {
        hpa,
        gpa,
        size,
        repeat,
    }
}

// The first n addresses of a segment.
#[tactic(auto, unfolding(definitions::specs::Segments::front, definitions::specs::Segments::segment))]
fn front(n: u64, s: Segment) -> Segment
    ensures { result ≡ front_of n s }
{
    Segment { size: n, ..s }
}

// What is left of a segment past its first n addresses.
#[tactic(auto, unfolding(definitions::specs::Segments::rest, definitions::specs::Segments::segment, definitions::specs::Tests::host_up, definitions::specs::Tests::guest_up))]
fn rest(n: u64, s: Segment) -> Segment
    requires { Good s × (n < s.size) }
    ensures { result ≡ rest_of n s }
{
    Segment {
        hpa: HostAddr(s.hpa.0 + n),
        gpa: GuestAddr(s.gpa.0 + n),
        size: s.size - n,
        repeat: s.repeat,
    }
}

// Do the range and the segment's guest span share an address?
#[tactic(auto, using(std::proofs::lemmas::Bool::Decides::nat_tests), unfolding(definitions::specs::Segments::touched))]
fn is_touched(start: GuestAddr, end: GuestAddr, s: Segment) -> bool
    requires { Good s }
    ensures { result ≡ touched start end s }
{
    start.0 < span_end(s) && s.gpa.0 < end.0
}

#[tactic(auto, using(std::proofs::lemmas::Bool::Decides::nat_tests), unfolding(definitions::specs::Segments::span_whole))]
fn is_span_whole(start: GuestAddr, end: GuestAddr, s: Segment) -> bool
    requires { Good s }
    ensures { result ≡ span_whole start end s }
{
    start.0 <= s.gpa.0 && span_end(s) <= end.0
}

// Touched, not wholly covered, and repeated: what question 15 refuses.
#[tactic(auto, using(std::proofs::lemmas::Bool::Decides::nat_tests), unfolding(crate::specs::RemapAsking::repeats))]
fn is_repeated(start: GuestAddr, end: GuestAddr, s: Segment) -> bool
    requires { Good s }
    ensures { result ≡ repeats start end s }
{
    is_touched(start, end, s) && !is_span_whole(start, end, s) && s.repeat != 1
}

#[tactic(auto, using(std::proofs::lemmas::Bool::Decides::nat_tests), unfolding(crate::specs::RemapAsking::reach_of, definitions::specs::Segments::host_touched))]
fn reach_host(start: HostAddr, end: HostAddr, s: Segment) -> Reach
    requires { Good s }
    ensures { result ≡ reach_of (Host start end) s }
{
    Reach {
        touches: start.0 < host_end(s) && s.hpa.0 < end.0,
        from: start.0.saturating_sub(s.hpa.0),
        to: end.0.saturating_sub(s.hpa.0),
    }
}

#[tactic(auto, using(std::proofs::lemmas::Bool::Decides::nat_tests), unfolding(crate::specs::RemapAsking::reach_of))]
fn reach_guest(start: GuestAddr, end: GuestAddr, s: Segment) -> Reach
    requires { Good s }
    ensures { result ≡ reach_of (Guest start end) s }
{
    Reach {
        touches: is_touched(start, end, s),
        from: start.0.saturating_sub(s.gpa.0),
        to: end.0.saturating_sub(s.gpa.0),
    }
}

fn reach_of(span: Span, s: Segment) -> Reach
    requires { Good s }
    ensures { result ≡ reach_of span s }
{
    match span {
        Span::Host(start, end) => reach_host(start, end, s),
        Span::Guest(start, end) => reach_guest(start, end, s),
    }
}

// What question 15 refuses, of a guest range.
#[tactic(auto, using(std::proofs::lemmas::Bool::Decides::nat_tests), unfolding(crate::specs::RemapAsking::bad_for))]
fn is_bad(span: Span, s: Segment) -> bool
    requires { Good s }
    ensures { result ≡ bad_for span s }
{
    match span {
        Span::Host(_, _) => false,
        Span::Guest(start, end) => is_repeated(start, end, s),
    }
}

// What a range leaves of a segment in its place. Its part behind the range, with host and guest starts moved up, leaves that place.
#[tactic(auto, using(std::proofs::lemmas::Bool::Decides::nat_tests), unfolding(crate::specs::RemapAsking::leaves))]
fn leave(span: Span, s: Segment) -> Option<Segment>
    requires { Good s }
    ensures { result ≡ leaves (reach_of span s) s }
{
    let r = reach_of(span, s);
    if !r.touches {
        return Some(s);
    }
    if r.from == 0 {
        return None;
    }
    Some(front(r.from, s))
}

// Is a part moved up?
#[tactic(auto, using(std::proofs::lemmas::Bool::Decides::nat_tests), unfolding(crate::specs::RemapAsking::moves))]
fn is_moved(r: Reach, s: Segment) -> bool
    ensures { result ≡ moves r s }
{
    r.touches && r.to < s.size
}

// The walk that asks, before the first segment.
fn none_asked() -> Asked
    ensures { result ≡ none_asked }
{
    Asked {
        left: 0,
        moved: 0,
        up: NO_SEGMENT,
        bad: false,
    }
}

// The questions, of one segment more. Most are not touched.
fn ask_one(span: Span, k: Asked, s: Segment) -> Asked
    requires { Good s × (k.left < 64) × (k.moved < 64) }
    ensures { result ≡ ask_step span k s }
{
    let r = reach_of(span, s);
    if !r.touches {
        return Asked {
            left: k.left + 1,
            ..k
        };
    }
    let left = k.left + usize::from(1 <= r.from);
    let bad = k.bad || is_bad(span, s);
    if !is_moved(r, s) {
        return Asked { left, bad, ..k };
    }
    Asked {
        left,
        moved: k.moved + 1,
        up: rest(r.to, s),
        bad,
    }
}

// The last slot so far with a host address below that of u.
fn last_below(u: Segment, s: Segment, at: usize, last: usize) -> usize
    ensures { result ≡ (if s.hpa.0 <? u.hpa.0 then at else last) }
{
    if s.hpa.0 < u.hpa.0 { at } else { last }
}

// ---- questions that need no walk

// Where a range ends, if that fits 64 bits.
fn end_of(start: u64, size: u64) -> Result<u64, Refusal>
    ensures { MatchResult result (λ end. (start + size < 2 ^ 64) × (end ≡ start + size)) (λ refusal. (2 ^ 64 ≤ start + size) × (refusal ≡ Refusal.Overflow)) }
{
    start.checked_add(size).ok_or(Refusal::Overflow)
}

// A map that stores nothing.
#[tactic(auto, using(std::proofs::lemmas::Bool::Decides::nat_tests), unfolding(definitions::specs::Segments::is_identity))]
fn is_identity(hpa: HostAddr, gpa: GuestAddr, repeat: u64) -> bool
    ensures { result ≡ is_identity hpa gpa repeat }
{
    repeat == 1 && gpa.0 == hpa.0
}

// Questions 9 and 10 of a map.
#[tactic(auto, using(std::proofs::lemmas::Bool::Decides::nat_tests), unfolding(crate::specs::RemapAnswers::can_map, definitions::specs::Questions::ask, definitions::specs::Tests::fits))]
fn can_map(hpa: HostAddr, gpa: GuestAddr, size: u64, repeat: u64) -> Answer
    ensures { result ≡ can_map hpa gpa size repeat }
{
    if size == 0 || repeat == 0 {
        return Err(Refusal::EmptySegment);
    }
    let span = size.checked_mul(repeat).ok_or(Refusal::Overflow)?;
    end_of(gpa.0, span)?;
    end_of(hpa.0, size)?;
    Ok(0)
}

// A guest range: of an empty list, or of size 0, nothing is asked, and the value is 0. Question 10, and 1 to go on.
#[tactic(auto, using(std::proofs::lemmas::Bool::Decides::nat_tests), unfolding(crate::specs::RemapAnswers::can_start, definitions::specs::Questions::ask, definitions::specs::Tests::fits))]
fn can_start(empty: bool, gpa: GuestAddr, size: u64) -> Answer
    ensures { result ≡ can_start empty gpa size }
{
    if empty || size == 0 {
        return Ok(0);
    }
    end_of(gpa.0, size)?;
    Ok(1)
}

// Questions 15 and 12 of an unmap. Behind 15, question 16 never gets a no.
#[tactic(auto, using(std::proofs::lemmas::Bool::Decides::nat_tests), unfolding(crate::specs::RemapAnswers::can_cut, definitions::specs::Questions::ask))]
fn can_cut(k: Asked) -> Answer
    requires { (k.left ≤ 64) × (k.moved ≤ 64) }
    ensures { result ≡ can_cut k }
{
    if k.bad {
        return Err(Refusal::Repeated);
    }
    if 64 < k.left + k.moved {
        return Err(Refusal::NoSlot);
    }
    Ok(0)
}

pub(crate) fn put_segment(out: &mut [u64], n: usize, s: Segment)
    requires { 4 * n + 4 ≤ length out.old }
    ensures { out.new ≡ sets out.old (4 * n) (segment_group s) }
{
    let b = 4 * n;
    out[b] = s.hpa.0;
    out[b + 1] = s.gpa.0;
    out[b + 2] = s.size;
    out[b + 3] = s.repeat;
}

impl Remapper {
    pub(crate) fn new() -> Self
        ensures { Holds result [] }
    {
        let segments = [NO_SEGMENT; 64];
        let links = [64u8; 64];
        let mut free = [0usize; 64];
        let list = FreeList::new(&mut free);
        Remapper {
            segments,
            links,
            free,
            list,
            head: 64,
        }
    }

    // Does one of the stored guest spans share an address with the range?
    fn meets(&self, start: GuestAddr, end: GuestAddr) -> bool
        requires { IsHeld self.now }
        ensures { (ss : List Segment) → Holds self.now ss → result ≡ any (touched start end) ss }
    {
        let mut at = self.head;
        while at < 64 {
            let s = self.segments[at];
            if is_touched(start, end, s) {
                return true;
            }
            at = self.links[at] as usize;
        }
        false
    }

    // The slot behind which a new segment goes, after its equals, and 64 where it is to be the head.
    fn place(&self, s: Segment) -> usize
        requires { IsHeld self.now }
        ensures { (ss : List Segment) → Holds self.now ss → Placed self.now s result ss }
    {
        let mut prev: usize = 64;
        let mut at = self.head;
        while at < 64 {
            let t = self.segments[at];
            if s.hpa.0 < t.hpa.0 {
                return prev;
            }
            prev = at;
            at = self.links[at] as usize;
        }
        prev
    }

    // A segment goes into a free slot, behind slot prev, or becomes the head where prev is none. Answers the slot.
    fn put(&mut self, s: Segment, prev: usize) -> usize
        requires { Good s × HasRoom self.old prev }
        ensures { PutsIn self.old s prev self.new result }
    {
        let x = self.list.head;
        self.segments[x] = s;
        let head = link(&mut self.links, self.head, prev, x);
        self.head = head;
        let _ = self.list.allocate(&mut self.free);
        x
    }

    // A new segment is put in its place. It is asked 11 first, is not stored where it shows an identity, and is asked 12.
    pub(crate) fn insert_segment(&mut self, s: Segment) -> Answer
        requires { Good s × IsHeld self.old }
        ensures { Inserts self.old s self.new result }
    {
        let end = GuestAddr(span_end(s));
        if self.meets(s.gpa, end) {
            return Err(Refusal::AlreadyAliased);
        }
        if is_identity(s.hpa, s.gpa, s.repeat) {
            return Ok(0);
        }
        if 64 <= self.list.count {
            return Err(Refusal::NoSlot);
        }
        let prev = self.place(s);
        self.put(s, prev);
        Ok(0)
    }

    // What a range leaves, as a list made anew: what stays of each segment in its place, and then what is moved up, all of it to the
    // host address of up. Only for several parts that are moved, since it costs another list.
    fn build(&self, span: Span, up: Segment) -> Remapper
        requires { in_range span × ((ss : List Segment) × Sound self.now ss × Builds span up ss) }
        ensures { (ss : List Segment) → Sound self.now ss → Builds span up ss → Holds result (cut_to span ss) }
    {
        let mut out = Remapper::new();
        let mut prev: usize = 64;
        let mut last: usize = 64;
        let mut at = self.head;
        while at < 64 {
            let s = self.segments[at];
            at = self.links[at] as usize;
            if let Some(t) = leave(span, s) {
                prev = out.put(t, prev);
                last = last_below(up, t, prev, last);
            }
        }
        let mut moving = self.head;
        while moving < 64 {
            let s = self.segments[moving];
            moving = self.links[moving] as usize;
            let r = reach_of(span, s);
            if is_moved(r, s) {
                let u = rest(r.to, s);
                last = out.put(u, last);
            }
        }
        out
    }

    // The walk that asks what a range leaves.
    fn ask(&self, span: Span) -> Asked
        requires { IsHeld self.now }
        ensures { (ss : List Segment) → Holds self.now ss → Told span result ss }
    {
        let mut k = none_asked();
        let mut at = self.head;
        while at < 64 {
            let s = self.segments[at];
            k = ask_one(span, k, s);
            at = self.links[at] as usize;
        }
        k
    }

    // What a range leaves of each segment stays in its place, and the slots of those that go are free then. Answers the last slot with a
    // host address below that of up.
    fn trim(&mut self, span: Span, up: Segment) -> usize
        requires { (ss : List Segment) × Sound self.old ss × (any (bad_for span) ss ≡ false) }
        ensures { (ss : List Segment) → Sound self.old ss → any (bad_for span) ss ≡ false → Between self.new up.hpa.0 result (each (left_of span) ss) }
    {
        let mut prev: usize = 64;
        let mut last: usize = 64;
        let mut at = self.head;
        while at < 64 {
            let s = self.segments[at];
            let next = self.links[at] as usize;
            match leave(span, s) {
                None => {
                    let head = join(&mut self.links, self.head, prev, next);
                    self.head = head;
                    let _ = self.list.free(&mut self.free, at);
                    at = next;
                }
                Some(t) => {
                    self.segments[at] = t;
                    last = last_below(up, t, at, last);
                    prev = at;
                    at = next;
                }
            }
        }
        last
    }

    // A range is cut out of each segment. Of each is left what stays in its place; what is moved up goes behind the last with a lower
    // host address.
    pub(crate) fn cut(&mut self, span: Span) -> Answer
        requires { in_range span × IsSound self.old }
        ensures { CutsOut self.old span self.new result }
    {
        let k = self.ask(span);
        can_cut(k)?;
        if 1 < k.moved {
            *self = self.build(span, k.up);
            return Ok(0);
        }
        let last = self.trim(span, k.up);
        if k.moved < 1 {
            return Ok(0);
        }
        self.put(k.up, last);
        Ok(0)
    }

    // Does a stored guest span share an address with the range? With an empty range none does.
    #[tactic(auto, unfolding(definitions::specs::Questions::on_overlaps, definitions::specs::Questions::ask, definitions::specs::Tests::fits))]
    pub(crate) fn overlaps(&self, start: GuestAddr, size: u64) -> Answer
        requires { IsHeld self.now }
        ensures { Overlaps self.now start size result }
    {
        let end = end_of(start.0, size)?;
        if size == 0 {
            return Ok(0);
        }
        Ok(u64::from(self.meets(start, GuestAddr(end))))
    }

    // Questions 9 and 10; a segment that passes is to be stored.
    pub(crate) fn map_range(&self, hpa: HostAddr, gpa: GuestAddr, size: u64, repeat: u64) -> Change
        requires { IsHeld self.now }
        ensures { Maps self.now hpa gpa size repeat result }
    {
        match can_map(hpa, gpa, size, repeat) {
            Ok(_) => Change::Put(new_segment(hpa, gpa, size, repeat)),
            Err(refusal) => Change::Keep(Err(refusal)),
        }
    }

    // Question 10; a range that passes and is not empty is to be cut out.
    pub(crate) fn unmap_range(&self, hpa: HostAddr, size: u64) -> Change
        requires { IsHeld self.now }
        ensures { Unmaps self.now hpa size result }
    {
        let end = match end_of(hpa.0, size) {
            Ok(end) => end,
            Err(refusal) => return Change::Keep(Err(refusal)),
        };
        if end <= hpa.0 {
            return Change::Keep(Ok(0));
        }
        Change::Cut(Span::Host(hpa, HostAddr(end)))
    }

    // The same, where there is anything to do.
    pub(crate) fn unmap_gpa_range(&self, gpa: GuestAddr, size: u64) -> Change
        requires { IsHeld self.now }
        ensures { UnmapsGpa self.now gpa size result }
    {
        let early = can_start(64 <= self.head, gpa, size);
        if definitions::value_of(early) != 1 {
            return Change::Keep(early);
        }
        Change::Cut(Span::Guest(gpa, GuestAddr(gpa.0 + size)))
    }

    // A change that a call came to: the rest of its questions, and what it does.
    pub(crate) fn apply(&mut self, change: Change) -> Answer
        requires { (a : Answer) × (ss : List Segment) × Decides self.old a ss change }
        ensures { (a : Answer) (ss : List Segment) → Decides self.old a ss change → Does self.old a ss self.new result }
    {
        match change {
            Change::Put(s) => self.insert_segment(s),
            Change::Cut(span) => self.cut(span),
            Change::Keep(answer) => answer,
        }
    }

    // A cursor before the first segment.
    pub(crate) fn iter_segments(&self) -> RemapperSegmentIterator
        ensures { Starts self.now result }
    {
        RemapperSegmentIterator {
            next_segment: self.head,
        }
    }

    // All segments in list order, four numbers each, and how many they are.
    pub(crate) fn copy_segments(&self, out: &mut [u64]) -> usize
        requires held { IsHeld self.now }
        requires in_bounds { 256 ≤ length out.old }
        ensures { (ss : List Segment) → Holds self.now ss → Copied ss out.old out.new result }
    {
        let mut at = self.head;
        let mut n: usize = 0;
        while at < 64 {
            let s = self.segments[at];
            put_segment(out, n, s);
            at = self.links[at] as usize;
            n += 1;
        }
        n
    }
}

impl RemapperSegmentIterator {
    pub(crate) fn next(self, remapper: &Remapper) -> Option<(Segment, RemapperSegmentIterator)>
        requires { IsAhead remapper.now self }
        ensures { Steps remapper.now self result }
    {
        let at = self.next_segment;
        if 64 <= at {
            return None;
        }
        let next_segment = remapper.links[at] as usize;
        Some((
            remapper.segments[at],
            RemapperSegmentIterator { next_segment },
        ))
    }
}
