// Reads a script from standard input and, behind a line of one dash, the lines of a bundle: adds and removes for one compartment, in
// the script's columns. Further bundles follow behind further dashes. Each is done whole or not at all, on what the script and the
// accepted bundles before it left. For each it writes a line with its answer and value, and the mappings of its compartment after it.
#![tactic(auto)]

ghost use Rattle.std.specs.Prelude.{◌≤◌, length, IfSome};

use definitions::Call;
use std::io;

// The numbers of 33 groups: one group more than a bundle may have, so that a longer one is seen to be too long.
const GROUPS_LEN: usize = 132;

// The kinds of a bundle's groups, by their numbers, and one that there is not.
enum Kind {
    Add,
    Remove,
    Neither,
}

// A bundle as far as it is read: for which compartment it is, its groups' numbers, and how many they are. There is no heap, so the
// array is as long as that of any bundle.
#[derive(Clone, Copy)]
struct Bundle {
    compartment: u64,
    numbers: [u64; GROUPS_LEN],
    len: usize,
}

impl Bundle {
    fn groups(&self) -> &[u64] {
        self.numbers.get(..self.len).unwrap_or(&self.numbers)
    }

    // Puts a group behind the others, if it fits.
    fn push(&mut self, group: [u64; 4]) {
        let len = self.len;
        if len <= GROUPS_LEN - 4 {
            self.numbers[len..len + 4].copy_from_slice(&group);
            self.len = len + 4;
        }
    }
}

// What was read of a text: the bundle, where its lines end, and where the ones behind its dash begin, if there was one.
#[derive(Clone, Copy)]
struct Part {
    bundle: Bundle,
    end: usize,
    next: Option<usize>,
}

// Where the line from a place on ends: at its byte 10, or where the text ends.
fn line_end(text: &[u8], from: usize) -> usize
    requires { from ≤ length text.now }
    ensures { (from ≤ result) × (result ≤ length text.now) }
{
    match text[from..].iter().position(|byte| *byte == b'\n') {
        Some(len) => from + len,
        None => text.len(),
    }
}

// A line as a group of a bundle for a compartment. What is no add or remove for it gets a kind that there is not.
fn group_of(line: Option<Call>, compartment: u64) -> [u64; 4] {
    match line {
        Some(Call::Add(k, start, end, rights)) if k == compartment => {
            [Kind::Add as u64, start.0, end.0, rights]
        }
        Some(Call::Remove(k, start, end, rights)) if k == compartment => {
            [Kind::Remove as u64, start.0, end.0, rights]
        }
        _ => [Kind::Neither as u64, 0, 0, 0],
    }
}

// Reads lines from a place on, up to a dash or the end. The first line says for which compartment the bundle is: 0 where it is no
// call.
fn read_bundle(text: &[u8], from: usize) -> Part
    requires { from ≤ length text.now }
    ensures lines { (from ≤ result.end) × (result.end ≤ length text.now) }
    ensures next { IfSome result.next (λ next. next ≤ length text.now) }
{
    let mut bundle = Bundle {
        compartment: 0,
        numbers: [0; GROUPS_LEN],
        len: 0,
    };
    let mut at = from;
    // each turn takes a line, and the library splits no slice at a byte
    while at < text.len() {
        let end = line_end(text, at);
        let next = text.len().min(end + 1);
        let line = &text[at..end];
        if matches!(line, b"-") {
            return Part {
                bundle,
                end: at,
                next: Some(next),
            };
        }
        let call = lines::parse_line(line);
        if bundle.len == 0 {
            bundle.compartment = call.map_or(0, |call| call.compartment());
        }
        let group = group_of(call, bundle.compartment);
        bundle.push(group);
        at = next;
    }
    Part {
        bundle,
        end: at,
        next: None,
    }
}

// What an answer of the exported functions says: a value, or the number of a refusal.
fn decoded(answer: u64) -> Result<u64, u64> {
    if answer <= u64::MAX - 255 {
        return Ok(answer);
    }
    Err(u64::MAX - (answer - 1))
}

// An answer in the columns of the output: its number and its value.
fn tell(rt: &impl Print, answer: Result<u64, u64>) -> io::Result<()> {
    let (number, value) = match answer {
        Ok(value) => (0, value),
        Err(number) => (number, 0),
    };
    println!(rt; "{number:>3}{value:>21}")
}

// Mappings, a line each, put together first so that it is one call and not one for each number.
fn show_mappings(rt: &impl Print, numbers: &[u64]) -> io::Result<()> {
    for mapping in numbers.chunks_exact(5) {
        // all line ends at first: one is left behind the last number
        let mut line = [b'\n'; 106];
        for (i, n) in mapping.iter().enumerate() {
            columns::write(&mut line, 21 * i, 21, *n);
        }
        rt.write_all(&line)?;
    }
    Ok(())
}

// The mappings of the compartment after a script and a bundle, by pages.
fn show_stream(rt: &impl Print, script: &[u8], compartment: u64, groups: &[u64]) -> io::Result<()> {
    let mut page = [0u64; 5120];
    // no stream has as many mappings, so that the loop is seen to end
    for from in (0..1048576).step_by(1024) {
        let answer = bundles::stream_after_bundle(script, compartment, groups, from, &mut page);
        if answer > 1024 {
            return Ok(());
        }
        show_mappings(rt, &page[..5 * answer as usize])?;
        if answer < 1024 {
            return Ok(());
        }
    }
    Ok(())
}

// One bundle after a script; whether it was accepted.
fn run(rt: &impl Print, script: &[u8], bundle: &Bundle) -> io::Result<bool> {
    let compartment = bundle.compartment;
    let groups = bundle.groups();
    let answer = decoded(bundles::bundle_after(script, compartment, groups));
    tell(rt, answer)?;
    show_stream(rt, script, compartment, groups)?;
    Ok(answer.is_ok())
}

// What was refused is no part of the script for the next: its lines are made to say nothing, and end where they did.
fn strike(lines: &mut [u8]) {
    for byte in lines {
        if *byte != b'\n' {
            *byte = b'-';
        }
    }
}

// All bundles of a text. The script before one is all that stands before it: a dash is no line of the form and changes nothing, and
// the lines of an accepted bundle are the calls that it counts as.
fn deploy(rt: &impl Print, text: &mut [u8]) -> io::Result<()> {
    let script = read_bundle(text, 0);
    let mut next = script.next;
    // no text has more dashes than bytes
    for _ in 0..text.len() {
        let Some(from) = next else {
            return Ok(());
        };
        let part = read_bundle(text, from);
        let accepted = run(rt, &text[..from], &part.bundle)?;
        if !accepted {
            strike(&mut text[from..part.end]);
        }
        next = part.next;
    }
    Ok(())
}

fn main(rt: HostRuntime) -> io::Result<()> {
    let mut text = [0u8; 65536];
    let n = streams::read_full(&mut rt.stdin(), &mut text)?;
    if n == text.len() {
        return eprintln!(rt; "deploy: the text has 65,536 bytes or more, and nothing was done");
    }
    rt.stdout().write_all(&lines::HEADING)?;
    deploy(&rt, &mut text[..n])
}
