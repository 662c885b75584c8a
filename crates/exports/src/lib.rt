// What a host program calls: a script from empty tables, and one read after it.
#![tactic(auto)]

ghost use Rattle.std.specs.Prelude.{◌≡◌, []};
ghost use Rattle.definitions.specs.Tests.{guest};
ghost use Rattle.definitions.specs.Calls.{stream_groups, permission_groups, region_groups, segment_groups, answer};
ghost use Rattle.definitions.specs.declared.call.Call.TheVariants.{Overlaps};
ghost use Rattle.definitions.specs.Pages.{record_len};
ghost use Rattle.capability_engine.specs.CompartmentGrown.{Grown, Sized};
ghost use Rattle.exports.specs.Exports.{coded as coded_as, left_by, Leaves, Prints, ReadsPage};

use capability_engine::{POOL_LEN, Script, Tables};
use definitions::{Answer, GuestAddr};

// An answer as one number: its value, or 2^64 less the number of the refusal.
pub fn coded(answer: Answer) -> u64
    ensures { result ≡ coded_as answer }
{
    match answer {
        Ok(value) => value,
        Err(refusal) => 18446744073709551615 - (refusal.number() - 1),
    }
}

// What tables are made over: the pool's words and links, and the links and generations of its slots.
#[derive(Drop)]
pub struct Pool {
    pub words: [u64; POOL_LEN],
    pub next: [usize; 1025],
    pub links: [usize; 1024],
    pub gens: [u64; 1024],
}

impl Pool {
    // A pool over which no tables were made.
    pub fn new() -> Pool
        ensures { Sized result.words result.next result.links result.gens }
    {
        Pool {
            words: [0; POOL_LEN],
            next: [0; 1025],
            links: [0; 1024],
            gens: [0; 1024],
        }
    }

    // New tables.
    fn empty(&mut self) -> Tables
        requires { Sized self.old.words self.old.next self.old.links self.old.gens }
        ensures { Grown self.new.words self.new.next self.new.links self.new.gens result [] }
    {
        Tables::new(&self.words, &self.next, &mut self.links, &mut self.gens).unwrap()
    }

    // The tables after a script.
    pub fn tables_after(&mut self, script: &[u8]) -> Tables
        requires { Sized self.old.words self.old.next self.old.links self.old.gens }
        ensures { Leaves (left_by script.now) self.new.words self.new.next self.new.links self.new.gens result }
    {
        let mut tables = self.empty();
        tables.replay(
            script,
            &mut self.words,
            &mut self.next,
            &mut self.links,
            &mut self.gens,
        );
        tables
    }

    // Runs a script from empty tables, and writes its output.
    fn print(&mut self, script: &[u8], out: &mut [u8]) -> usize
        requires { Sized self.old.words self.old.next self.old.links self.old.gens }
        ensures { Prints script.now out.old out.new result }
    {
        let Some(at) = lines::put_heading(out, 0) else {
            return 0;
        };
        let mut tables = self.empty();
        let mut left = Script::new();
        tables.feed(
            &mut left,
            script,
            out,
            at,
            &mut self.words,
            &mut self.next,
            &mut self.links,
            &mut self.gens,
        );
        let p = left.progress;
        if p.full || p.len == 0 {
            return 1 + p.lines;
        }
        // the last line lacks its end
        let end = [b'\n'; 1];
        tables.feed(
            &mut left,
            &end,
            out,
            p.at,
            &mut self.words,
            &mut self.next,
            &mut self.links,
            &mut self.gens,
        );
        1 + p.lines + left.progress.lines
    }
}

// Runs a script and writes its output, as many whole lines as fit, from the heading on; answers how many.
pub fn run_script(script: &[u8], out: &mut [u8]) -> usize
    ensures { Prints script.now out.old out.new result }
{
    let mut p = Pool::new();
    p.print(script, out)
}

// A page of a compartment's stream after a script: hpa, gpa, size, repeat and rights of each mapping. This and the next three are
// one for each list, since a host links them by their names.
pub fn stream_page(script: &[u8], compartment: u64, from: usize, out: &mut [u64]) -> u64
    ensures { ReadsPage 5 stream_groups (left_by script.now) compartment from out.old out.new result }
{
    let mut p = Pool::new();
    let tables = p.tables_after(script);
    let answer = tables.stream(compartment, from, out, &p.words, &p.next, &p.links, &p.gens);
    coded(answer)
}

// A page of its permissions: start, end and rights.
pub fn permissions_page(script: &[u8], compartment: u64, from: usize, out: &mut [u64]) -> u64
    ensures { ReadsPage 3 permission_groups (left_by script.now) compartment from out.old out.new result }
{
    let mut p = Pool::new();
    let tables = p.tables_after(script);
    let answer = tables.permissions(compartment, from, out, &p.words, &p.next, &p.links, &p.gens);
    coded(answer)
}

// A page of its stored regions: start, end, holders and a count for each right.
pub fn regions_page(script: &[u8], compartment: u64, from: usize, out: &mut [u64]) -> u64
    ensures { ReadsPage record_len region_groups (left_by script.now) compartment from out.old out.new result }
{
    let mut p = Pool::new();
    let tables = p.tables_after(script);
    let answer = tables.regions(compartment, from, out, &p.words, &p.next, &p.links, &p.gens);
    coded(answer)
}

// A page of its stored segments: hpa, gpa, size and repeat.
pub fn segments_page(script: &[u8], compartment: u64, from: usize, out: &mut [u64]) -> u64
    ensures { ReadsPage 4 segment_groups (left_by script.now) compartment from out.old out.new result }
{
    let mut p = Pool::new();
    let tables = p.tables_after(script);
    let answer = tables.segments(compartment, from, out, &p.words, &p.next, &p.links, &p.gens);
    coded(answer)
}

// Whether a guest range shares an address with the span of a stored segment after a script.
pub fn overlaps_after(script: &[u8], compartment: u64, start: u64, size: u64) -> u64
    ensures { result ≡ coded_as (answer (left_by script.now) (Overlaps compartment (guest start) size)) }
{
    let mut p = Pool::new();
    let tables = p.tables_after(script);
    let gpa = GuestAddr(start);
    let answer = tables.overlaps(compartment, gpa, size, &p.words, &p.next, &p.links, &p.gens);
    coded(answer)
}
