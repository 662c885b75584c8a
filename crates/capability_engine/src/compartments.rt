// The eight compartments over one pool, and the calls on them. The pool is lent as four slices (see region.rt), all of which
// new checks; what was grown from there is what every other call asks for.
ghost use Rattle.std.specs.Prelude.{◌≡◌, true, List, ◌<◌, ◌≤◌, length, IfOk, IfErr};
ghost use Rattle.definitions.specs.Pages.{record_len};
ghost use Rattle.definitions.specs.Calls.{together, stream_groups, permission_groups, region_groups, segment_groups};
ghost use Rattle.definitions.specs.declared.answer.Refusal.TheVariants.{NoCompartment};
ghost use Rattle.definitions.specs.declared.call.Call.{Call};
ghost use Rattle.definitions.specs.declared.call.Call.TheVariants.{Add, Remove, Refcount, Overlaps, Map, Unmap, UnmapGpa, Permissions, Remap, Allow};
ghost use Rattle.capability_engine.specs.PoolOwn.{heap};
ghost use Rattle.capability_engine.specs.RegionAsks.{Allotted};
ghost use Rattle.capability_engine.specs.RemapHeld.{IsHeld};
ghost use Rattle.capability_engine.specs.CompartmentGrown.{allowances_of, Grown, IsGrown, Creates, Answers, Reads, ReadsPage, ReadsList};
ghost use Rattle.capability_engine.specs.CompartmentSteps.{on_regions, on_segments, OnOne, OnRegions, AsksSegments, OnAllow};

use crate::region::{POOL_LEN, RegionTracker};
use crate::remapper::{Change, Remapper};
use crate::stream;
use definitions::{Answer, Call, GuestAddr, HostAddr, Refusal};
use free_list::FreeList;
use gen_arena::GenArena;

// One tracker and one remapper for each compartment, and the arena of the pool's slots.
#[derive(Clone, Copy)]
pub struct Tables {
    pub arena: GenArena,
    pub trackers: [RegionTracker; 8],
    pub remappers: [Remapper; 8],
}

// The place of a compartment among the eight.
pub fn index_of(compartment: u64) -> Result<usize, Refusal>
    ensures one { IfOk result (λ k. (compartment ≡ k) × (k < 8)) }
    ensures none { IfErr result (λ refusal. (refusal ≡ NoCompartment) × (8 ≤ compartment)) }
{
    if 8 <= compartment {
        return Err(Refusal::NoCompartment);
    }
    Ok(compartment as usize)
}

// A call on the regions of one compartment, whose tracker is lent. Any other call leaves it as it is.
pub(crate) fn on_regions(
    call: Call,
    tracker: &mut RegionTracker,
    arena: &mut GenArena,
    words: &mut [u64],
    next: &mut [usize],
    links: &mut [usize],
    gens: &mut [u64],
) -> Answer
    requires { Allotted next.old words.old (heap links.old gens.old arena.old) tracker.old }
    ensures { OnRegions call tracker.old arena.old words.old next.old links.old gens.old words.new next.new links.new gens.new tracker.new arena.new result }
{
    match call {
        Call::Add(_, start, end, rights) => {
            tracker.add_region(next, words, links, gens, arena, start, end, rights)
        }
        Call::Remove(_, start, end, rights) => {
            tracker.remove_region(next, words, links, gens, arena, start, end, rights)
        }
        Call::Refcount(_, start, end) => {
            let many = tracker.get_refcount(next, words, start, end);
            Ok(many)
        }
        _ => Ok(0),
    }
}

// What a call that changes the segments of one compartment comes to by its first questions. Any other changes nothing.
pub(crate) fn on_segments(call: Call, remapper: &Remapper) -> Change
    requires { IsHeld remapper.now }
    ensures { AsksSegments call remapper.now result }
{
    match call {
        Call::Map(_, hpa, gpa, size, repeat) => remapper.map_range(hpa, gpa, size, repeat),
        Call::Unmap(_, hpa, size) => remapper.unmap_range(hpa, size),
        Call::UnmapGpa(_, gpa, size) => remapper.unmap_gpa_range(gpa, size),
        _ => Change::Keep(Ok(0)),
    }
}

// The allowances of all eight, together.
fn allowed(trackers: &[RegionTracker; 8]) -> usize
    requires { (length trackers.now ≡ 8) × (together (allowances_of trackers.now) ≤ 1024) }
    ensures { result ≡ together (allowances_of trackers.now) }
{
    let mut n = 0;
    for tracker in trackers {
        n += tracker.allowance as usize;
    }
    n
}

// Compartment k's tracker gets another allowance, by those of all eight.
pub(crate) fn on_allow(trackers: &mut [RegionTracker; 8], k: usize, allowance: u64) -> Answer
    requires { (k < 8) × (length trackers.old ≡ 8) × (together (allowances_of trackers.old) ≤ 1024) }
    ensures { OnAllow trackers.old k allowance trackers.new result }
{
    let all = allowed(trackers);
    let mut tracker = trackers[k];
    let others = all - tracker.allowance as usize;
    let answer = tracker.allow(others, allowance);
    trackers[k] = tracker;
    answer
}

impl Tables {
    // Eight empty compartments over a pool of free slots. Refused, with the slices as they were, where one has another length.
    pub fn new(
        words: &[u64],
        next: &[usize],
        links: &mut [usize],
        gens: &mut [u64],
    ) -> Option<Tables>
        ensures { Creates words.now next.now links.old gens.old links.new gens.new result }
    {
        if words.len() != POOL_LEN || next.len() != 1025 || links.len() != 1024 {
            return None;
        }
        let arena = GenArena::new(links, gens)?;
        let tracker = RegionTracker::new();
        let remapper = Remapper::new();
        Some(Tables {
            arena,
            trackers: [tracker; 8],
            remappers: [remapper; 8],
        })
    }

    // A call on the regions of compartment k, which it names.
    pub(crate) fn regions_of(
        &mut self,
        k: usize,
        call: Call,
        words: &mut [u64],
        next: &mut [usize],
        links: &mut [usize],
        gens: &mut [u64],
    ) -> Answer
        requires grown { IsGrown words.old next.old links.old gens.old self.old }
        requires named { OnOne k call (on_regions call) }
        ensures { (calls : List Call) → Grown words.old next.old links.old gens.old self.old calls → Answers calls call words.old next.old links.old gens.old self.old words.new next.new links.new gens.new self.new result }
    {
        let mut tracker = self.trackers[k];
        let answer = on_regions(
            call,
            &mut tracker,
            &mut self.arena,
            words,
            next,
            links,
            gens,
        );
        self.trackers[k] = tracker;
        answer
    }

    // A call that changes the segments of compartment k, which it names.
    pub(crate) fn segments_of(
        &mut self,
        k: usize,
        call: Call,
        words: &[u64],
        next: &[usize],
        links: &[usize],
        gens: &[u64],
    ) -> Answer
        requires grown { IsGrown words.now next.now links.now gens.now self.old }
        requires named { OnOne k call (on_segments call) }
        ensures { (calls : List Call) → Grown words.now next.now links.now gens.now self.old calls → Answers calls call words.now next.now links.now gens.now self.old words.now next.now links.now gens.now self.new result }
    {
        let mut remapper = self.remappers[k];
        let change = on_segments(call, &remapper);
        // what changes nothing costs no copy of the remapper
        if let Change::Keep(answer) = change {
            return answer;
        }
        let answer = remapper.apply(change);
        self.remappers[k] = remapper;
        answer
    }

    // Another allowance for compartment k.
    pub(crate) fn allow_of(
        &mut self,
        k: usize,
        allowance: u64,
        words: &[u64],
        next: &[usize],
        links: &[usize],
        gens: &[u64],
    ) -> Answer
        requires grown { IsGrown words.now next.now links.now gens.now self.old }
        requires k_lt { k < 8 }
        ensures { (calls : List Call) → Grown words.now next.now links.now gens.now self.old calls → Answers calls (Allow k allowance) words.now next.now links.now gens.now self.old words.now next.now links.now gens.now self.new result }
    {
        on_allow(&mut self.trackers, k, allowance)
    }

    // A call on the regions of the compartment that it names.
    fn change_regions(
        &mut self,
        call: Call,
        words: &mut [u64],
        next: &mut [usize],
        links: &mut [usize],
        gens: &mut [u64],
    ) -> Answer
        requires grown { IsGrown words.old next.old links.old gens.old self.old }
        requires call_value { on_regions call ≡ true }
        ensures { (calls : List Call) → Grown words.old next.old links.old gens.old self.old calls → Answers calls call words.old next.old links.old gens.old self.old words.new next.new links.new gens.new self.new result }
    {
        let k = index_of(call.compartment())?;
        self.regions_of(k, call, words, next, links, gens)
    }

    // A call that changes the segments of the compartment that it names.
    fn change_segments(
        &mut self,
        call: Call,
        words: &[u64],
        next: &[usize],
        links: &[usize],
        gens: &[u64],
    ) -> Answer
        requires grown { IsGrown words.now next.now links.now gens.now self.old }
        requires call_value { on_segments call ≡ true }
        ensures { (calls : List Call) → Grown words.now next.now links.now gens.now self.old calls → Answers calls call words.now next.now links.now gens.now self.old words.now next.now links.now gens.now self.new result }
    {
        let k = index_of(call.compartment())?;
        self.segments_of(k, call, words, next, links, gens)
    }

    // Adds a range to a compartment. Each call that changes the tables is a function of its own, as its promise names the call.
    pub fn add(
        &mut self,
        compartment: u64,
        start: HostAddr,
        end: HostAddr,
        rights: u64,
        words: &mut [u64],
        next: &mut [usize],
        links: &mut [usize],
        gens: &mut [u64],
    ) -> Answer
        requires { IsGrown words.old next.old links.old gens.old self.old }
        ensures { (calls : List Call) → Grown words.old next.old links.old gens.old self.old calls → Answers calls (Add compartment start end rights) words.old next.old links.old gens.old self.old words.new next.new links.new gens.new self.new result }
    {
        let call = Call::Add(compartment, start, end, rights);
        self.change_regions(call, words, next, links, gens)
    }

    // Removes a range from a compartment.
    pub fn remove(
        &mut self,
        compartment: u64,
        start: HostAddr,
        end: HostAddr,
        rights: u64,
        words: &mut [u64],
        next: &mut [usize],
        links: &mut [usize],
        gens: &mut [u64],
    ) -> Answer
        requires { IsGrown words.old next.old links.old gens.old self.old }
        ensures { (calls : List Call) → Grown words.old next.old links.old gens.old self.old calls → Answers calls (Remove compartment start end rights) words.old next.old links.old gens.old self.old words.new next.new links.new gens.new self.new result }
    {
        let call = Call::Remove(compartment, start, end, rights);
        self.change_regions(call, words, next, links, gens)
    }

    // Maps host addresses of a compartment to guest addresses.
    pub fn map(
        &mut self,
        compartment: u64,
        hpa: HostAddr,
        gpa: GuestAddr,
        size: u64,
        repeat: u64,
        words: &[u64],
        next: &[usize],
        links: &[usize],
        gens: &[u64],
    ) -> Answer
        requires { IsGrown words.now next.now links.now gens.now self.old }
        ensures { (calls : List Call) → Grown words.now next.now links.now gens.now self.old calls → Answers calls (Map compartment hpa gpa size repeat) words.now next.now links.now gens.now self.old words.now next.now links.now gens.now self.new result }
    {
        let call = Call::Map(compartment, hpa, gpa, size, repeat);
        self.change_segments(call, words, next, links, gens)
    }

    // Unmaps a range of host addresses of a compartment.
    pub fn unmap_range(
        &mut self,
        compartment: u64,
        hpa: HostAddr,
        size: u64,
        words: &[u64],
        next: &[usize],
        links: &[usize],
        gens: &[u64],
    ) -> Answer
        requires { IsGrown words.now next.now links.now gens.now self.old }
        ensures { (calls : List Call) → Grown words.now next.now links.now gens.now self.old calls → Answers calls (Unmap compartment hpa size) words.now next.now links.now gens.now self.old words.now next.now links.now gens.now self.new result }
    {
        let call = Call::Unmap(compartment, hpa, size);
        self.change_segments(call, words, next, links, gens)
    }

    // Unmaps a range of guest addresses of a compartment.
    pub fn unmap_gpa_range(
        &mut self,
        compartment: u64,
        gpa: GuestAddr,
        size: u64,
        words: &[u64],
        next: &[usize],
        links: &[usize],
        gens: &[u64],
    ) -> Answer
        requires { IsGrown words.now next.now links.now gens.now self.old }
        ensures { (calls : List Call) → Grown words.now next.now links.now gens.now self.old calls → Answers calls (UnmapGpa compartment gpa size) words.now next.now links.now gens.now self.old words.now next.now links.now gens.now self.new result }
    {
        let call = Call::UnmapGpa(compartment, gpa, size);
        self.change_segments(call, words, next, links, gens)
    }

    // Sets a compartment's allowance of records.
    pub fn allow(
        &mut self,
        compartment: u64,
        allowance: u64,
        words: &[u64],
        next: &[usize],
        links: &[usize],
        gens: &[u64],
    ) -> Answer
        requires { IsGrown words.now next.now links.now gens.now self.old }
        ensures { (calls : List Call) → Grown words.now next.now links.now gens.now self.old calls → Answers calls (Allow compartment allowance) words.now next.now links.now gens.now self.old words.now next.now links.now gens.now self.new result }
    {
        let k = index_of(compartment)?;
        self.allow_of(k, allowance, words, next, links, gens)
    }

    // The most holders in a range of a compartment.
    pub fn get_refcount(
        &self,
        compartment: u64,
        start: HostAddr,
        end: HostAddr,
        words: &[u64],
        next: &[usize],
        links: &[usize],
        gens: &[u64],
    ) -> Answer
        requires { IsGrown words.now next.now links.now gens.now self.now }
        ensures { (calls : List Call) → Grown words.now next.now links.now gens.now self.now calls → Reads calls (Refcount compartment start end) words.now next.now links.now gens.now self.now result }
    {
        let k = index_of(compartment)?;
        let tracker = self.trackers[k];
        Ok(tracker.get_refcount(next, words, start, end))
    }

    // Does a range of guest addresses share one with the span of a stored segment of a compartment?
    pub fn overlaps(
        &self,
        compartment: u64,
        start: GuestAddr,
        size: u64,
        words: &[u64],
        next: &[usize],
        links: &[usize],
        gens: &[u64],
    ) -> Answer
        requires { IsGrown words.now next.now links.now gens.now self.now }
        ensures { (calls : List Call) → Grown words.now next.now links.now gens.now self.now calls → Reads calls (Overlaps compartment start size) words.now next.now links.now gens.now self.now result }
    {
        let k = index_of(compartment)?;
        let remapper = self.remappers[k];
        remapper.overlaps(start, size)
    }

    // A page of a compartment's permissions: from the from-th on, as many whole groups of start, end and rights as out takes.
    pub fn permissions(
        &self,
        compartment: u64,
        from: usize,
        out: &mut [u64],
        words: &[u64],
        next: &[usize],
        links: &[usize],
        gens: &[u64],
    ) -> Answer
        requires { IsGrown words.now next.now links.now gens.now self.now }
        ensures { (calls : List Call) → Grown words.now next.now links.now gens.now self.now calls → ReadsPage 3 permission_groups from calls (Permissions compartment from (length out.old)) words.now next.now links.now gens.now self.now out.old out.new result }
    {
        let k = index_of(compartment)?;
        let tracker = self.trackers[k];
        let many = stream::permissions(next, words, tracker, from, out);
        Ok(many as u64)
    }

    // A page of a compartment's stream: from the from-th mapping on, as many whole groups of five numbers as out takes.
    pub fn stream(
        &self,
        compartment: u64,
        from: usize,
        out: &mut [u64],
        words: &[u64],
        next: &[usize],
        links: &[usize],
        gens: &[u64],
    ) -> Answer
        requires { IsGrown words.now next.now links.now gens.now self.now }
        ensures { (calls : List Call) → Grown words.now next.now links.now gens.now self.now calls → ReadsPage 5 stream_groups from calls (Remap compartment from (length out.old)) words.now next.now links.now gens.now self.now out.old out.new result }
    {
        let k = index_of(compartment)?;
        let tracker = self.trackers[k];
        let remapper = self.remappers[k];
        let mut segments = [0u64; 256];
        let n = remapper.copy_segments(&mut segments);
        let many = stream::page(next, words, &segments, n, tracker.head, from, out);
        Ok(many as u64)
    }

    // A page of a compartment's stored regions: groups of RECORD_LEN numbers.
    pub fn regions(
        &self,
        compartment: u64,
        from: usize,
        out: &mut [u64],
        words: &[u64],
        next: &[usize],
        links: &[usize],
        gens: &[u64],
    ) -> Answer
        requires { IsGrown words.now next.now links.now gens.now self.now }
        ensures { (calls : List Call) → Grown words.now next.now links.now gens.now self.now calls → ReadsList record_len region_groups calls compartment from out.old out.new result }
    {
        let k = index_of(compartment)?;
        let tracker = self.trackers[k];
        let many = stream::regions(next, words, tracker.head, from, out);
        Ok(many as u64)
    }

    // A page of a compartment's stored segments: groups of four numbers.
    pub fn segments(
        &self,
        compartment: u64,
        from: usize,
        out: &mut [u64],
        words: &[u64],
        next: &[usize],
        links: &[usize],
        gens: &[u64],
    ) -> Answer
        requires { IsGrown words.now next.now links.now gens.now self.now }
        ensures { (calls : List Call) → Grown words.now next.now links.now gens.now self.now calls → ReadsList 4 segment_groups calls compartment from out.old out.new result }
    {
        let k = index_of(compartment)?;
        let remapper = self.remappers[k];
        let mut segments = [0u64; 256];
        let n = remapper.copy_segments(&mut segments);
        let many = stream::segments(&segments, n, from, out);
        Ok(many as u64)
    }
}
