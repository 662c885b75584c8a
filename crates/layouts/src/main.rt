// Runs layouts of document 01, and of document 02's orders 4, 8, 10 and 11, that concern regions over the public calls, and writes
// each answer: the call, its answer's number and its value. Then the pool is filled, from one compartment and from all, and emptied.
#![tactic(auto)]

mod rows;

ghost use Rattle.std.specs.Prelude.{◌≤◌, IfSome};
ghost use Rattle.layouts.specs.Stands.{Stands};

use capability_engine::{POOL_LEN, Tables};
use definitions::{Answer, HostAddr, number_of, value_of};
use rows::{LAYOUTS, Row};

// The tables, and the arrays that are lent to each call on them: fixed memory, since there is no heap.
#[derive(Clone, Copy)]
struct Bench {
    words: [u64; POOL_LEN],
    next: [usize; 1025],
    links: [usize; 1024],
    gens: [u64; 1024],
    tables: Tables,
}

impl Bench {
    fn new() -> Option<Bench>
        ensures { IfSome result Stands }
    {
        let words = [0u64; POOL_LEN];
        let next = [0usize; 1025];
        let mut links = [0usize; 1024];
        let mut gens = [0u64; 1024];
        let tables = Tables::new(&words, &next, &mut links, &mut gens)?;
        Some(Bench {
            words,
            next,
            links,
            gens,
            tables,
        })
    }

    // Fresh tables over the same arrays.
    fn renew(&mut self)
        requires { Stands self.old }
        ensures { Stands self.new }
    {
        let made = Tables::new(&self.words, &self.next, &mut self.links, &mut self.gens);
        if let Some(tables) = made {
            self.tables = tables;
        }
    }

    // This and remove differ in the engine's call alone. One function for both would take a closure over all that the call takes,
    // which is no plainer.
    fn add(&mut self, k: u64, start: u64, end: u64, rights: u64) -> Answer
        requires { Stands self.old }
        ensures { Stands self.new }
    {
        self.tables.add(
            k,
            HostAddr(start),
            HostAddr(end),
            rights,
            &mut self.words,
            &mut self.next,
            &mut self.links,
            &mut self.gens,
        )
    }

    fn remove(&mut self, k: u64, start: u64, end: u64, rights: u64) -> Answer
        requires { Stands self.old }
        ensures { Stands self.new }
    {
        self.tables.remove(
            k,
            HostAddr(start),
            HostAddr(end),
            rights,
            &mut self.words,
            &mut self.next,
            &mut self.links,
            &mut self.gens,
        )
    }

    fn count(&self, k: u64, start: u64, end: u64) -> Answer
        requires { Stands self.now }
    {
        let start = HostAddr(start);
        let end = HostAddr(end);
        self.tables.get_refcount(
            k,
            start,
            end,
            &self.words,
            &self.next,
            &self.links,
            &self.gens,
        )
    }

    fn permissions(&self, k: u64, from: u64, out: &mut [u64]) -> Answer
        requires { Stands self.now }
    {
        let from = from as usize;
        self.tables.permissions(
            k,
            from,
            out,
            &self.words,
            &self.next,
            &self.links,
            &self.gens,
        )
    }

    fn allow(&mut self, k: u64, allowance: u64) -> Answer
        requires { Stands self.old }
        ensures { Stands self.new }
    {
        self.tables.allow(
            k,
            allowance,
            &self.words,
            &self.next,
            &self.links,
            &self.gens,
        )
    }

    // What a row's call answers. Permissions are read into a page.
    fn call(&mut self, row: Row, page: &mut [u64]) -> Answer
        requires { Stands self.old }
        ensures { Stands self.new }
    {
        match row {
            Row::Fresh => {
                self.renew();
                Ok(0)
            }
            Row::Add(k, start, end, rights) => self.add(k, start, end, rights),
            Row::Remove(k, start, end, rights) => self.remove(k, start, end, rights),
            Row::Count(k, start, end) => self.count(k, start, end),
            Row::Permissions(k, from) => self.permissions(k, from, page),
            Row::Allow(k, allowance) => self.allow(k, allowance),
        }
    }
}

// An answer's number and value. What cannot be written is passed over, here and below.
fn show(rt: &impl Print, answer: Answer) {
    let number = number_of(answer);
    let value = value_of(answer);
    let _ = println!(rt; ": {number} {value}");
}

fn show_numbers(rt: &impl Print, numbers: &[u64]) {
    for n in numbers {
        let _ = print!(rt; " {n}");
    }
}

// A row's answer. Of permissions a page of at most three is shown whole, with 7 where nothing was read.
fn answer(rt: &impl Print, bench: &mut Bench, row: Row)
    requires { Stands bench.old }
    ensures { Stands bench.new }
{
    let mut page = [7u64; 11];
    let answer = bench.call(row, &mut page);
    show(rt, answer);
    if let Row::Permissions(_, _) = row {
        show_numbers(rt, &page);
        let _ = println!(rt; "");
    }
}

// A row, and its answer; of fresh tables there is none.
fn run_row(rt: &impl Print, bench: &mut Bench, row: Row)
    requires { Stands bench.old }
    ensures { Stands bench.new }
{
    if let Row::Fresh = row {
        bench.renew();
        let _ = println!(rt; "");
        return;
    }
    show_numbers(rt, &row.numbers());
    answer(rt, bench, row);
}

// Calls on the single addresses 0, 2, .. 2046, of the compartments 0 to many - 1 in turn; each 256th is shown.
fn singles<F: Fn(u64, u64, u64) -> Row + Drop>(
    rt: &impl Print,
    bench: &mut Bench,
    many: u64,
    row_of: F,
)
    requires le_many { 1 ≤ many }
    requires callable { F.IsAlwaysCallable row_of }
    requires stands { Stands bench.old }
    ensures { Stands bench.new }
{
    let mut page = [0u64; 0];
    for i in 0..1024u64 {
        let row = row_of(i % many, 2 * i, 2 * i + 1);
        let answer = bench.call(row, &mut page);
        if i % 256 == 255 {
            let _ = print!(rt; " {i}");
            show(rt, answer);
        }
    }
}

// Fills the pool from that many compartments, and empties it. With 1,024 records in use, what needs none more is accepted, and what
// needs one is 5. With all removed, a long range is accepted again; then fresh tables.
fn crowd(rt: &impl Print, bench: &mut Bench, many: u64)
    requires le_many { 1 ≤ many }
    requires stands { Stands bench.old }
    ensures { Stands bench.new }
{
    singles(rt, bench, many, |k, start, end| Row::Add(k, start, end, 1));
    for row in [
        Row::Add(0, 0, 1, 1),
        Row::Add(0, 0, 2, 1),
        Row::Add(7, 4096, 4097, 1),
        Row::Remove(0, 0, 1, 1),
    ] {
        answer(rt, bench, row);
    }
    singles(
        rt,
        bench,
        many,
        |k, start, end| Row::Remove(k, start, end, 1),
    );
    for row in [Row::Add(0, 0, 4096, 3), Row::Permissions(0, 0)] {
        answer(rt, bench, row);
    }
    run_row(rt, bench, Row::Fresh);
}

fn main(rt: HostRuntime) {
    let Some(mut bench) = Bench::new() else {
        return;
    };
    for row in LAYOUTS {
        run_row(&rt, &mut bench, row);
    }
    crowd(&rt, &mut bench, 1);
    crowd(&rt, &mut bench, 8);
}
