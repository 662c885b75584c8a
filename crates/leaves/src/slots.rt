// What hands out slots and takes them back, over arrays that it was lent: the free list, and the arena.
ghost use Rattle.std.specs.Prelude.{◌<◌, ◌^◌};

use crate::print::{Key, Tally};
use std::io::Stdout;

pub(crate) trait Slots {
    type Key: Key;

    type Cursor: Drop;

    // Calls of its crate made it.
    ghost is_grown: { Self → Type 0 };

    // How many slots there are.
    fn size(&self) -> usize
        ensures { result < 2 ^ 60 };

    // How many of them are in use.
    fn count(&self) -> usize;

    // How many are free.
    fn capacity(&self) -> usize
        requires { is_grown self.now };

    fn allocate(&mut self) -> Option<Self::Key>
        requires { is_grown self.old }
        ensures { is_grown self.new };

    fn free(&mut self, key: Self::Key) -> bool
        requires { is_grown self.old }
        ensures { is_grown self.new };

    // A cursor over the slots in use, before the first.
    fn cursor(&self) -> Self::Cursor;

    fn next(&self, cursor: &mut Self::Cursor) -> Option<Self::Key>
        requires { is_grown self.now };
}

fn allocate<S: Slots>(out: Stdout, slots: &mut S, tally: &mut Tally)
    requires { S.is_grown slots.old }
    ensures { S.is_grown slots.new }
{
    match slots.allocate() {
        Some(key) => tally.put(out, key),
        None => {
            let _ = print!(out; ", full");
        }
    }
}

// Allocates until it is full, and once more.
pub(crate) fn fill<S: Slots>(out: Stdout, slots: &mut S)
    requires { S.is_grown slots.old }
    ensures { S.is_grown slots.new }
{
    let _ = print!(out; "allocate:");
    let left = slots.capacity();
    let mut tally = Tally::new(left);
    for _ in 0..left {
        allocate(out, slots, &mut tally);
    }
    allocate(out, slots, &mut tally);
    tally.end(out)
}

fn free<S: Slots>(out: Stdout, slots: &mut S, key: S::Key, tally: &mut Tally)
    requires { S.is_grown slots.old }
    ensures { S.is_grown slots.new }
{
    if slots.free(key) {
        tally.put(out, key)
    } else {
        let _ = print!(out; " refused");
    }
}

// Frees the slots 0, 3, 6, .. going round, at one generation: where 3 does not divide their number these are all of them.
pub(crate) fn free_every_third<S: Slots>(out: Stdout, slots: &mut S, generation: u64)
    requires { S.is_grown slots.old }
    ensures { S.is_grown slots.new }
{
    let _ = print!(out; "free every third:");
    let n = slots.size();
    let mut tally = Tally::new(n);
    for i in 0..n {
        free(out, slots, S::Key::at(i * 3 % n, generation), &mut tally);
    }
    tally.end(out)
}

// Frees the slots 1, 3, 5, .., at one generation.
pub(crate) fn free_odd<S: Slots>(out: Stdout, slots: &mut S, generation: u64)
    requires { S.is_grown slots.old }
    ensures { S.is_grown slots.new }
{
    let _ = print!(out; "free odd:");
    let n = slots.size();
    let mut tally = Tally::new(n / 2);
    for idx in (1..n).step_by(2) {
        free(out, slots, S::Key::at(idx, generation), &mut tally);
    }
    tally.end(out)
}

pub(crate) fn free_line<S: Slots>(out: Stdout, slots: &mut S, key: S::Key)
    requires { S.is_grown slots.old }
    ensures { S.is_grown slots.new }
{
    let _ = print!(out; "free ");
    key.show(out);
    let done = slots.free(key);
    let _ = println!(out; ": {}", if done { "freed" } else { "refused" });
}

// One step of a cursor.
fn next<S: Slots>(out: Stdout, slots: &S, cursor: &mut S::Cursor, tally: &mut Tally)
    requires { S.is_grown slots.now }
{
    match slots.next(cursor) {
        Some(key) => tally.put(out, key),
        None => {
            let _ = print!(out; ", end");
        }
    }
}

// The slots in use by the cursor, and one step more.
pub(crate) fn in_use<S: Slots>(out: Stdout, slots: &S)
    requires { S.is_grown slots.now }
{
    let count = slots.count();
    let mut cursor = slots.cursor();
    let mut tally = Tally::new(count);
    for _ in 0..count {
        next(out, slots, &mut cursor, &mut tally);
    }
    next(out, slots, &mut cursor, &mut tally);
    tally.end(out)
}
