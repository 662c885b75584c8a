// The free list's answers.
ghost use Rattle.free_list.specs.Grown.{IsGrown};

use crate::print::yes_or_no;
use crate::slots::{Slots, fill, free_every_third, free_line, free_odd, in_use};
use free_list::{FreeList, FreeListIterator};
use std::io::Stdout;

// A free list with the links that it was lent.
#[derive(Drop)]
struct List<'a> {
    list: FreeList,
    links: &'a mut [usize],
}

impl Slots for List<'_> {
    type Key = usize;

    type Cursor = FreeListIterator;

    ghost is_grown = { λ s. IsGrown s.links.now s.list };

    fn size(&self) -> usize {
        self.links.len()
    }

    fn count(&self) -> usize {
        self.list.count
    }

    fn capacity(&self) -> usize {
        self.list.capacity(self.links)
    }

    fn allocate(&mut self) -> Option<usize> {
        self.list.allocate(self.links)
    }

    fn free(&mut self, idx: usize) -> bool {
        self.list.free(self.links, idx)
    }

    fn cursor(&self) -> FreeListIterator {
        self.list.into_iter()
    }

    fn next(&self, cursor: &mut FreeListIterator) -> Option<usize> {
        cursor.next(self.links, self.list)
    }
}

impl List<'_> {
    // The slots in use.
    fn in_use_line(&self, out: Stdout)
        requires { IsGrown self.now.links.now self.now.list }
    {
        let _ = print!(out; "in use:");
        in_use(out, self)
    }

    fn is_free_line(&self, out: Stdout, idx: usize)
        requires { IsGrown self.now.links.now self.now.list }
    {
        let free = yes_or_no(self.list.is_free(self.links, idx));
        let _ = println!(out; "is {idx} free? {free}");
    }

    // How many slots are free, and whether some slots are, past the end too.
    fn state_lines(&self, out: Stdout)
        requires { IsGrown self.now.links.now self.now.list }
    {
        let _ = println!(out; "capacity {}", self.capacity());
        self.is_free_line(out, 0);
        self.is_free_line(out, 1);
        self.is_free_line(out, self.size());
        self.is_free_line(out, usize::MAX)
    }
}

// All slots free, then none.
fn fresh_lines(out: Stdout, list: &mut List)
    requires { IsGrown list.old.links.now list.old.list }
    ensures { IsGrown list.new.links.now list.new.list }
{
    list.state_lines(out);
    fill(out, list);
    list.in_use_line(out)
}

// Past the slots there is nothing to free.
fn past_lines(out: Stdout, list: &mut List)
    requires { IsGrown list.old.links.now list.old.list }
    ensures { IsGrown list.new.links.now list.new.list }
{
    let n = list.size();
    free_line(out, list, n);
    free_line(out, list, usize::MAX)
}

// All freed in another order, and none twice; the last freed comes out first.
fn again_lines(out: Stdout, list: &mut List)
    requires { IsGrown list.old.links.now list.old.list }
    ensures { IsGrown list.new.links.now list.new.list }
{
    free_every_third(out, list, 0);
    free_line(out, list, 0);
    list.in_use_line(out);
    fill(out, list)
}

// Half of the slots in use, then all.
fn half_lines(out: Stdout, list: &mut List)
    requires { IsGrown list.old.links.now list.old.list }
{
    free_odd(out, list, 0);
    free_line(out, list, 1);
    list.in_use_line(out);
    list.state_lines(out);
    fill(out, list);
    list.state_lines(out)
}

pub(crate) fn run(out: Stdout, links: &mut [usize]) {
    let list = FreeList::new(links);
    let mut list = List { list, links };
    fresh_lines(out, &mut list);
    past_lines(out, &mut list);
    again_lines(out, &mut list);
    half_lines(out, &mut list)
}
