// Handles to slots, each with the generation of its slot: a slot that was freed is at another generation.
// The arena keeps slot numbers alone, and what they stand for is kept beside it. The caller lends links, the
// free list's array, and gens, the generation of each slot: memory is fixed, and the stores stand beside the arena.
#![tactic(auto)]

ghost use Rattle.std.specs.Prelude.{◌≡◌, ℕ, List, length, nat_le};
ghost use Rattle.free_list.specs.Stack.{capacity_of};
ghost use Rattle.gen_arena.specs.Arena.{ArenaCall, after, invalid, is_invalid, found, slot_or, first_live, next_live};
ghost use Rattle.gen_arena.specs.Grown.{GrownArena, IsArena, Creates, AllocatesHandle, FreesHandle};

use free_list::{FreeList, FreeListIterator};

#[derive(Clone, Copy)]
pub struct GenArena {
    pub free_list: FreeList,
}

#[derive(Clone, Copy, PartialEq, Eq)]
pub struct Handle {
    pub idx: usize,
    pub generation: u64,
}

// A place among the slots: a value that borrows nothing, as the free list's.
#[derive(Clone, Copy)]
pub struct ArenaIterator {
    pub iterator: FreeListIterator,
}

impl Handle {
    // A handle that finds nothing.
    pub fn new_invalid() -> Handle
        ensures { result ≡ invalid }
    {
        Handle {
            idx: usize::MAX,
            generation: u64::MAX,
        }
    }

    pub fn is_invalid(self) -> bool
        ensures { result ≡ is_invalid self }
    {
        self == Handle::new_invalid()
    }

    pub fn idx(self) -> usize
        ensures { result ≡ self.idx }
    {
        self.idx
    }
}

impl GenArena {
    // All slots free, at generation 0. None where the lengths differ.
    pub fn new(links: &mut [usize], gens: &mut [u64]) -> Option<GenArena>
        ensures { Creates links.old links.new gens.old gens.new result }
    {
        if links.len() != gens.len() {
            return None;
        }
        gens.fill(0);
        let free_list = FreeList::new(links);
        Some(GenArena { free_list })
    }

    // Takes the slot that the free list hands out, at its generation. None where none is free.
    pub fn allocate(&mut self, links: &mut [usize], gens: &[u64]) -> Option<Handle>
        requires { IsArena links.old gens.now self.old }
        ensures { (n : ℕ) (calls : List ArenaCall) → GrownArena n links.old gens.now self.old calls → AllocatesHandle n calls links.old links.new gens.now self.old self.new result }
    {
        let idx = self.free_list.allocate(links)?;
        Some(Handle {
            idx,
            generation: gens[idx],
        })
    }

    // Gives the handle's slot back, whatever the handle's generation, and raises the slot's own by one, round at
    // 2 to the 64. Refused where there is no such slot or it is free already.
    pub fn free(&mut self, links: &mut [usize], gens: &mut [u64], handle: Handle) -> bool
        requires { IsArena links.old gens.old self.old }
        ensures { (n : ℕ) (calls : List ArenaCall) → GrownArena n links.old gens.old self.old calls → FreesHandle n calls handle links.old links.new gens.old gens.new self.old self.new result }
    {
        let idx = handle.idx;
        if !self.free_list.free(links, idx) {
            return false;
        }
        gens[idx] = gens[idx].wrapping_add(1);
        true
    }

    // The handle's slot, where its generation is the handle's: also of a slot that is free.
    pub fn get(gens: &[u64], handle: Handle) -> Option<usize>
        ensures { result ≡ found gens.now handle }
    {
        let idx = handle.idx;
        if idx < gens.len() && gens[idx] == handle.generation {
            return Some(idx);
        }
        None
    }

    // The slot that get finds, or N for none: a number, since it stands for the Rust's arena[handle], which has no None.
    pub fn index(gens: &[u64], handle: Handle) -> usize
        ensures { result ≡ slot_or (length gens.now) (found gens.now handle) }
    {
        GenArena::get(gens, handle).unwrap_or(gens.len())
    }

    // How many slots are free.
    pub fn capacity(self, links: &[usize]) -> usize
        requires { (gens : List ℕ) × IsArena links.now gens self }
        ensures { (n : ℕ) (gens : List ℕ) (calls : List ArenaCall) → GrownArena n links.now gens self calls → result ≡ capacity_of n (after n calls).slots }
    {
        self.free_list.capacity(links)
    }

    // Are count slots free, or more?
    pub fn has_capacity_for(self, links: &[usize], count: usize) -> bool
        requires { (gens : List ℕ) × IsArena links.now gens self }
        ensures { (n : ℕ) (gens : List ℕ) (calls : List ArenaCall) → GrownArena n links.now gens self calls → result ≡ nat_le count (capacity_of n (after n calls).slots) }
    {
        count <= self.capacity(links)
    }

    // A cursor over the handles of slots in use, before the first.
    pub fn into_iter(self) -> ArenaIterator
        ensures { result ≡ first_live }
    {
        let iterator = self.free_list.into_iter();
        ArenaIterator { iterator }
    }
}

impl ArenaIterator {
    // The first slot in use at the cursor or above it, as a handle at the slot's generation, with the cursor put behind it. None where
    // there is none: the cursor stays.
    pub fn next(&mut self, links: &[usize], gens: &[u64], arena: GenArena) -> Option<Handle>
        requires { IsArena links.now gens.now arena }
        ensures { (n : ℕ) (calls : List ArenaCall) → GrownArena n links.now gens.now arena calls → (result, self.new) ≡ next_live n (after n calls) self.old }
    {
        let idx = self.iterator.next(links, arena.free_list)?;
        let generation = gens[idx];
        Some(Handle { idx, generation })
    }
}
