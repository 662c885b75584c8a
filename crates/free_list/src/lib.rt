// Slots last freed, first reused, over an array of N numbers that the caller lends.
// links[i] is the next free slot after i, N for none at the last one, and N + 1 where slot i is in use.
// They are numbers in an array that is lent, not Options in a list of its own: memory is fixed, and links are index numbers.
#![tactic(auto)]

ghost use Rattle.std.specs.Prelude.{◌≡◌, List, [], ℕ, length};
ghost use Rattle.free_list.specs.Stack.{FreeListCall, after, has, capacity_of};
ghost use Rattle.free_list.specs.Grown.{Grown, IsGrown, Allocates, Frees, first_cursor, next_from};

#[derive(Clone, Copy)]
pub struct FreeList {
    // The first free slot, or N for none.
    pub head: usize,
    // How many slots are in use.
    pub count: usize,
}

// A place among the slots: the next one to look at. A cursor is a value that borrows nothing, so each step is lent the links, and it
// is no Iterator.
#[derive(Clone, Copy)]
pub struct FreeListIterator {
    pub next: usize,
}

impl FreeList {
    // All slots free, to come out as 0, 1, 2, ..
    pub fn new(links: &mut [usize]) -> FreeList
        ensures { Grown (length links.old) links.new result [] }
    {
        for (i, link) in links.iter_mut().enumerate() {
            *link = i + 1;
        }
        FreeList { head: 0, count: 0 }
    }

    // Takes the slot that was freed last, or else the lowest that was never taken. None where none is free.
    pub fn allocate(&mut self, links: &mut [usize]) -> Option<usize>
        requires { IsGrown links.old self.old }
        ensures { (n : ℕ) (calls : List FreeListCall) → Grown n links.old self.old calls → Allocates n calls links.old links.new self.old self.new result }
    {
        let n = links.len();
        let slot = self.head;
        if n <= slot {
            return None;
        }
        self.head = links[slot];
        links[slot] = n + 1;
        self.count += 1;
        Some(slot)
    }

    // Gives slot idx back. Refused where there is no such slot or it is free already.
    pub fn free(&mut self, links: &mut [usize], idx: usize) -> bool
        requires { IsGrown links.old self.old }
        ensures { (n : ℕ) (calls : List FreeListCall) → Grown n links.old self.old calls → Frees n calls idx links.old links.new self.old self.new result }
    {
        let n = links.len();
        if n <= idx || links[idx] <= n {
            return false;
        }
        links[idx] = self.head;
        self.head = idx;
        self.count -= 1;
        true
    }

    // Is slot idx free? Past the slots none is.
    pub fn is_free(self, links: &[usize], idx: usize) -> bool
        requires { IsGrown links.now self }
        ensures { (n : ℕ) (calls : List FreeListCall) → Grown n links.now self calls → result ≡ has idx (after n calls) }
    {
        match links.get(idx) {
            Some(&link) => link <= links.len(),
            None => false,
        }
    }

    // How many slots are free.
    pub fn capacity(self, links: &[usize]) -> usize
        requires { IsGrown links.now self }
        ensures { (n : ℕ) (calls : List FreeListCall) → Grown n links.now self calls → result ≡ capacity_of n (after n calls) }
    {
        links.len() - self.count
    }

    // A cursor over the slots in use, before the first.
    pub fn into_iter(self) -> FreeListIterator
        ensures { result ≡ first_cursor }
    {
        FreeListIterator { next: 0 }
    }
}

impl FreeListIterator {
    // The first slot in use at the cursor or above it, with the cursor put behind it. None where there is none: the cursor stays.
    pub fn next(&mut self, links: &[usize], list: FreeList) -> Option<usize>
        requires { IsGrown links.now list }
        ensures { (n : ℕ) (calls : List FreeListCall) → Grown n links.now list calls → (result, self.new) ≡ next_from n (after n calls) self.old }
    {
        for idx in self.next..links.len() {
            if !list.is_free(links, idx) {
                self.next = idx + 1;
                return Some(idx);
            }
        }
        None
    }
}
