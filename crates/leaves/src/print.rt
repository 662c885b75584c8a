// What the program writes of slots, in the order in which they come.
use gen_arena::Handle;
use std::io::Stdout;

// What names a slot: its number, or a handle.
pub(crate) trait Key: Copy {
    // That of a slot at a generation.
    fn at(idx: usize, generation: u64) -> Self;

    fn show(self, out: Stdout);

    // The check with this one more in it, which depends on their order.
    fn mixed(self, check: u64) -> u64;
}

fn mixed(check: u64, x: u64) -> u64 {
    (check % 1000003 * 31 + x % 1000003 + 1) % 1000003
}

impl Key for usize {
    fn at(idx: usize, _generation: u64) -> usize {
        idx
    }

    fn show(self, out: Stdout) {
        let _ = print!(out; "{self}");
    }

    fn mixed(self, check: u64) -> u64 {
        mixed(check, self as u64)
    }
}

// A handle is written as slot@generation.
impl Key for Handle {
    fn at(idx: usize, generation: u64) -> Handle {
        Handle { idx, generation }
    }

    fn show(self, out: Stdout) {
        let _ = print!(out; "{}@{}", self.idx, self.generation);
    }

    fn mixed(self, check: u64) -> u64 {
        mixed(mixed(check, self.idx as u64), self.generation)
    }
}

pub(crate) fn yes_or_no(answer: bool) -> &'static str {
    if answer { "yes" } else { "no" }
}

// The keys that have gone by. The first four and the last four of the total that is expected are written, and all go into the check.
#[derive(Drop)]
pub(crate) struct Tally {
    total: usize,
    seen: usize,
    check: u64,
}

impl Tally {
    pub(crate) fn new(total: usize) -> Tally {
        Tally {
            total,
            seen: 0,
            check: 0,
        }
    }

    // Is the next one to be written? Where the first left out would stand, two dots do.
    fn is_shown(&self, out: Stdout) -> bool {
        if self.seen == 4 {
            let _ = print!(out; " ..");
        }
        self.seen < 4 || self.total <= self.seen.wrapping_add(4)
    }

    pub(crate) fn put<K: Key>(&mut self, out: Stdout, key: K) {
        if self.is_shown(out) {
            let _ = print!(out; " ");
            key.show(out);
        }
        self.seen = self.seen.wrapping_add(1);
        self.check = key.mixed(self.check);
    }

    // The end of the line: how many there were, and the check.
    pub(crate) fn end(self, out: Stdout) {
        let _ = println!(out; "; {} slots, check {}", self.seen, self.check);
    }
}
