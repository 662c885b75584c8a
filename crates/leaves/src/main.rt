// Runs the free list and the arena over lent arrays of 4, 64 and 1,024 slots, by the same functions, and writes each answer.
#![tactic(auto)]

mod arena;
mod list;
mod print;
mod slots;

use std::io::Stdout;

// Both over the same links, one after the other.
fn run(out: Stdout, links: &mut [usize], gens: &mut [u64]) {
    let _ = println!(out; "N = {}\n\nfree list", links.len());
    list::run(out, links);
    let _ = println!(out; "\narena");
    arena::run(out, links, gens);
    let _ = println!(out);
}

fn main(rt: HostRuntime) {
    let out = rt.stdout();
    run(out, &mut [7; 4], &mut [7; 4]);
    run(out, &mut [7; 64], &mut [7; 64]);
    run(out, &mut [7; 1024], &mut [7; 1024])
}
