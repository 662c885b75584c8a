// The arena's answers.
ghost use Rattle.gen_arena.specs.Grown.{IsArena};

use crate::print::{Key, Tally, yes_or_no};
use crate::slots::{Slots, fill, free_every_third, free_line, free_odd, in_use};
use gen_arena::{ArenaIterator, GenArena, Handle};
use std::io::Stdout;

// An arena with the links and the generations that it was lent.
#[derive(Drop)]
struct Arena<'a> {
    arena: GenArena,
    links: &'a mut [usize],
    gens: &'a mut [u64],
}

// The prover lets a struct lend its fields out together only where each goes as &mut.
fn allocate(arena: &mut GenArena, links: &mut [usize], gens: &mut [u64]) -> Option<Handle>
    requires { IsArena links.old gens.old arena.old }
    ensures { IsArena links.new gens.new arena.new }
{
    arena.allocate(links, gens)
}

impl Slots for Arena<'_> {
    type Key = Handle;

    type Cursor = ArenaIterator;

    ghost is_grown = { λ s. IsArena s.links.now s.gens.now s.arena };

    fn size(&self) -> usize {
        self.links.len()
    }

    fn count(&self) -> usize {
        self.arena.free_list.count
    }

    fn capacity(&self) -> usize {
        self.arena.capacity(self.links)
    }

    fn allocate(&mut self) -> Option<Handle> {
        allocate(&mut self.arena, self.links, self.gens)
    }

    fn free(&mut self, h: Handle) -> bool {
        self.arena.free(self.links, self.gens, h)
    }

    fn cursor(&self) -> ArenaIterator {
        self.arena.into_iter()
    }

    fn next(&self, cursor: &mut ArenaIterator) -> Option<Handle> {
        cursor.next(self.links, self.gens, self.arena)
    }
}

// A handle of slot 0.
fn first(generation: u64) -> Handle {
    Handle { idx: 0, generation }
}

impl Arena<'_> {
    // What get and index say of a handle.
    fn get_line(&self, out: Stdout, h: Handle) {
        let _ = print!(out; "get ");
        h.show(out);
        let _ = match GenArena::get(self.gens, h) {
            Some(idx) => print!(out; ": slot {idx}"),
            None => print!(out; ": nothing"),
        };
        let _ = println!(out; ", index {}", GenArena::index(self.gens, h));
    }

    // The handles of slots in use.
    fn live_line(&self, out: Stdout)
        requires { IsArena self.now.links.now self.now.gens.now self.now.arena }
    {
        let _ = print!(out; "live:");
        in_use(out, self)
    }

    // Each slot with its generation.
    fn generations_line(&self, out: Stdout) {
        let _ = print!(out; "generations:");
        let mut tally = Tally::new(self.gens.len());
        for (idx, generation) in self.gens.iter().enumerate() {
            tally.put(
                out,
                Handle {
                    idx,
                    generation: *generation,
                },
            );
        }
        tally.end(out)
    }

    fn room_line(&self, out: Stdout, count: usize)
        requires { IsArena self.now.links.now self.now.gens.now self.now.arena }
    {
        let room = yes_or_no(self.arena.has_capacity_for(self.links, count));
        let _ = println!(out; "room for {count}? {room}");
    }

    fn state_lines(&self, out: Stdout)
        requires { IsArena self.now.links.now self.now.gens.now self.now.arena }
    {
        let n = self.size();
        let _ = println!(out; "capacity {}", self.capacity());
        self.room_line(out, 0);
        self.room_line(out, n / 2);
        self.room_line(out, n);
        self.room_line(out, usize::MAX)
    }
}

// A new that is lent one generation too few.
fn uneven_line(out: Stdout, links: &mut [usize], gens: &mut [u64]) {
    if gens.is_empty() {
        return;
    }
    let _ = match GenArena::new(links, &mut gens[1..]) {
        Some(_) => println!(out; "made"),
        None => println!(out; "one generation too few: uneven"),
    };
}

// The handle that stands for none.
fn invalid_line(out: Stdout) {
    let h = Handle::new_invalid();
    let _ = print!(out; "invalid handle: ");
    h.show(out);
    let _ = print!(out;
        ", slot {}, invalid? {}",
        h.idx(),
        yes_or_no(h.is_invalid())
    );
    let _ = println!(out; ", 0@0? {}", yes_or_no(first(0).is_invalid()));
}

// Past the slots there is nothing to free and nothing to find.
fn past_lines(out: Stdout, arena: &mut Arena)
    requires { IsArena arena.old.links.now arena.old.gens.now arena.old.arena }
    ensures { IsArena arena.new.links.now arena.new.gens.now arena.new.arena }
{
    let past = Handle {
        idx: arena.size(),
        generation: 0,
    };
    let none = Handle::new_invalid();
    arena.get_line(out, past);
    arena.get_line(out, none);
    free_line(out, arena, past);
    free_line(out, arena, none)
}

// All slots free, then none.
fn fresh_lines(out: Stdout, arena: &mut Arena)
    requires { IsArena arena.old.links.now arena.old.gens.now arena.old.arena }
    ensures { IsArena arena.new.links.now arena.new.gens.now arena.new.arena }
{
    arena.state_lines(out);
    fill(out, arena);
    arena.state_lines(out);
    past_lines(out, arena)
}

// All freed in another order, and none twice; old handles find nothing then, and free slots are found at their generation.
fn again_lines(out: Stdout, arena: &mut Arena)
    requires { IsArena arena.old.links.now arena.old.gens.now arena.old.arena }
    ensures { IsArena arena.new.links.now arena.new.gens.now arena.new.arena }
{
    arena.get_line(out, first(0));
    arena.get_line(out, first(1));
    free_every_third(out, arena, 0);
    free_line(out, arena, first(1));
    arena.get_line(out, first(0));
    arena.get_line(out, first(1));
    arena.live_line(out)
}

// The new handles are at generation 1. A free goes by the slot alone, so an old handle frees the new one's slot, and the
// generation goes up from the slot's own.
fn old_lines(out: Stdout, arena: &mut Arena)
    requires { IsArena arena.old.links.now arena.old.gens.now arena.old.arena }
    ensures { IsArena arena.new.links.now arena.new.gens.now arena.new.arena }
{
    fill(out, arena);
    free_line(out, arena, first(0));
    arena.get_line(out, first(1));
    arena.get_line(out, first(2))
}

// Half of the slots in use, less slot 0, then all.
fn half_lines(out: Stdout, arena: &mut Arena)
    requires { IsArena arena.old.links.now arena.old.gens.now arena.old.arena }
{
    free_odd(out, arena, 1);
    arena.live_line(out);
    arena.generations_line(out);
    arena.state_lines(out);
    fill(out, arena);
    arena.live_line(out)
}

fn lines(out: Stdout, arena: &mut Arena)
    requires { IsArena arena.old.links.now arena.old.gens.now arena.old.arena }
{
    fresh_lines(out, arena);
    again_lines(out, arena);
    old_lines(out, arena);
    half_lines(out, arena)
}

pub(crate) fn run(out: Stdout, links: &mut [usize], gens: &mut [u64]) {
    invalid_line(out);
    uneven_line(out, links, gens);
    match GenArena::new(links, gens) {
        Some(arena) => lines(out, &mut Arena { arena, links, gens }),
        None => {
            let _ = println!(out; "uneven");
        }
    }
}
