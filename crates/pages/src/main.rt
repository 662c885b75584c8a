// Reads a script from standard input, and after it each compartment's stream, permissions, regions and segments by pages of
// several lengths, over the exported functions. A line for each page says what was asked and answered; its groups follow.
#![tactic(auto)]

ghost use Rattle.std.specs.Prelude.{◌<◌, ◌≤◌, IfSome};

use definitions::RECORD_LEN;
use std::io;

// What a compartment's list consists of.
#[derive(Clone, Copy)]
enum Kind {
    Mappings,
    Permissions,
    Regions,
    Segments,
}

impl Kind {
    // How many numbers a group of the list has.
    fn width(self) -> usize
        ensures { (0 < result) × (result ≤ 9) }
    {
        match self {
            Kind::Mappings => 5,
            Kind::Permissions => 3,
            Kind::Regions => RECORD_LEN,
            Kind::Segments => 4,
        }
    }
}

// A list of a compartment after a script.
#[derive(Clone, Copy)]
struct Listing<'a> {
    script: &'a [u8],
    kind: Kind,
    compartment: u64,
}

// What cannot be written is passed over.
fn show(rt: &impl Print, n: u64) {
    let _ = print!(rt; "{n:>21}");
}

fn end(rt: &impl Print) {
    let _ = println!(rt; "");
}

// Groups of a width, a line each.
fn show_groups(rt: &impl Print, numbers: &[u64], width: usize)
    requires { 0 < width }
{
    for group in numbers.chunks_exact(width) {
        for n in group {
            show(rt, *n);
        }
        end(rt);
    }
}

impl<'a> Listing<'a> {
    // A page of it from a group on.
    fn page(self, from: usize, out: &mut [u64]) -> u64 {
        let script = self.script;
        let compartment = self.compartment;
        match self.kind {
            Kind::Mappings => exports::stream_page(script, compartment, from, out),
            Kind::Permissions => exports::permissions_page(script, compartment, from, out),
            Kind::Regions => exports::regions_page(script, compartment, from, out),
            Kind::Segments => exports::segments_page(script, compartment, from, out),
        }
    }

    // One line: the width, the compartment, the place, the numbers that the slice takes, and the answer.
    fn tell(self, rt: &impl Print, from: usize, room: usize, answer: u64) {
        let width = self.kind.width();
        for n in [
            width as u64,
            self.compartment,
            from as u64,
            room as u64,
            answer,
        ] {
            show(rt, n);
        }
        end(rt)
    }

    // One page, as long as out: how many groups it has, unless it is the last.
    fn read_page(self, rt: &impl Print, from: usize, out: &mut [u64]) -> Option<usize>
        ensures { IfSome result (λ many. many ≤ 320) }
    {
        let room = out.len();
        let answer = self.page(from, out);
        self.tell(rt, from, room, answer);
        let width = self.kind.width();
        // the number of a refusal is above every page's
        if 320 < answer {
            return None;
        }
        let many = answer as usize;
        let len = many * width;
        let groups = out.get(..len)?;
        show_groups(rt, groups, width);
        if many == 0 || width <= room - len {
            return None;
        }
        Some(many)
    }

    // All pages of one length, from 0 on, each behind the last, up to one that is not full.
    fn read_all(self, rt: &impl Print, out: &mut [u64]) {
        let mut from: usize = 0;
        for _ in 0..1024usize {
            let Some(many) = self.read_page(rt, from, out) else {
                return;
            };
            from += many;
        }
    }

    // It by pages of five lengths.
    fn read(self, rt: &impl Print) {
        let mut out = [0u64; 320];
        for room in [0, 7, 10, 33, 320] {
            self.read_all(rt, &mut out[..room]);
        }
    }
}

// Every list of every compartment, and of one that there is not.
fn read_compartments(rt: &impl Print, script: &[u8]) {
    for compartment in 0..9 {
        for kind in [
            Kind::Mappings,
            Kind::Permissions,
            Kind::Regions,
            Kind::Segments,
        ] {
            let listing = Listing {
                script,
                kind,
                compartment,
            };
            listing.read(rt);
        }
    }
}

// Whether guest ranges of growing size overlap a segment of compartment 0.
fn ask_overlaps(rt: &impl Print, script: &[u8]) {
    for size in 0..20 {
        show(rt, exports::overlaps_after(script, 0, 995, size));
        end(rt);
    }
}

fn main(rt: HostRuntime) -> io::Result<()> {
    let mut text = [0u8; 65536];
    let n = streams::read_full(&mut rt.stdin(), &mut text)?;
    read_compartments(&rt, &text[..n]);
    ask_overlaps(&rt, &text[..n]);
    Ok(())
}
