// Long reads of the stream: 1,024 records under one segment, and under 64 that overlap. A line for each read says from which
// mapping and how many numbers the slice takes, or how many bytes a P's output takes; then the answer, and the last mapping read.
#![tactic(auto)]

ghost use Rattle.std.specs.Prelude.{◌≤◌};

use std::io;

// ---- the script: where writing goes on behind what is put, if there is room for it

fn put_byte(script: &mut [u8], at: usize, byte: u8) -> Option<usize> {
    *script.get_mut(at)? = byte;
    Some(at + 1)
}

// A call's line: its letter, the compartment, and its numbers.
fn put_call(
    script: &mut [u8],
    at: usize,
    letter: u8,
    compartment: u64,
    numbers: &[u64],
) -> Option<usize> {
    let at = put_byte(script, at, letter)?;
    let mut at = columns::write(script, at, 2, compartment)?;
    for n in numbers {
        at = columns::write(script, at, 21, *n)?;
    }
    put_byte(script, at, b'\n')
}

// The whole pool for compartment 0.
fn put_allowances(script: &mut [u8]) -> Option<usize> {
    let mut at = 0;
    for k in 1..8 {
        at = put_call(script, at, b'S', k, &[0])?;
    }
    put_call(script, at, b'S', 0, &[1024])
}

// 1,024 records of one address each: every other one is written to besides. The highest come first, so that an add goes past
// one record only.
fn put_records(script: &mut [u8]) -> Option<usize> {
    let allowed = put_allowances(script)?;
    let mut at = put_call(script, allowed, b'A', 0, &[0, 1024, 1])?;
    for i in (0..512u64).rev() {
        at = put_call(script, at, b'A', 0, &[2 * i + 1, 2 * i + 2, 2])?;
    }
    Some(at)
}

// 64 segments of 32 addresses, each over the second half of the one before it.
fn put_segments(script: &mut [u8], from: usize) -> Option<usize> {
    let mut at = from;
    for i in 0..64u64 {
        at = put_call(script, at, b'M', 0, &[16 * i, 4096 + 32 * i, 32, 1])?;
    }
    Some(at)
}

// ---- the reads

// The last group of so many, if there is one: a page's answer is how many groups it has.
fn last_of(groups: &[u64], many: u64) -> Option<&[u64]> {
    let last = many.checked_sub(1)?;
    groups.chunks_exact(5).nth(last as usize)
}

fn read_page(rt: &impl Print, script: &[u8], from: usize, out: &mut [u64]) -> io::Result<()> {
    let room = out.len();
    let many = exports::stream_page(script, 0, from, out);
    print!(rt; "page {from} {room}: {many}:")?;
    if let Some(group) = last_of(out, many) {
        for n in group {
            print!(rt; " {n}")?;
        }
    }
    println!(rt; "")
}

// Pages that hold all the mappings, or their half, or one, or none; from the first on, from the middle, and past the last.
fn read_pages(rt: &impl Print, script: &[u8], many: usize) -> io::Result<()>
    requires { 1 ≤ many }
{
    let mut long = [0u64; 10240];
    let mut half = [0u64; 5120];
    let mut one = [0u64; 9];
    let mut none = [0u64; 4];
    read_page(rt, script, 0, &mut long)?;
    read_page(rt, script, 0, &mut half)?;
    read_page(rt, script, many / 2, &mut half)?;
    read_page(rt, script, many / 2, &mut one)?;
    read_page(rt, script, many - 1, &mut one)?;
    read_page(rt, script, many, &mut one)?;
    read_page(rt, script, many / 2, &mut none)?;
    read_page(rt, script, 0, &mut none)
}

// A P whose mappings do not all fit, behind the answers of the calls before it.
fn read_text(rt: &impl Print, script: &[u8]) -> io::Result<()> {
    let mut out = [0u8; 65536];
    let lines = exports::run_script(script, &mut out);
    println!(rt; "P 65536: {lines}")
}

// The stream of so many mappings after the calls that end at a place, by pages; and as a P behind them prints it.
fn read(rt: &impl Print, script: &mut [u8], end: usize, many: usize) -> io::Result<()>
    requires { 1 ≤ many }
{
    if let Some(calls) = script.get(..end) {
        read_pages(rt, calls, many)?;
    }
    if let Some(printed) = put_call(script, end, b'P', 0, &[])
        && let Some(calls) = script.get(..printed)
    {
        read_text(rt, calls)?;
    }
    Ok(())
}

fn main(rt: HostRuntime) -> io::Result<()> {
    let mut script = [0u8; 65536];
    let Some(records) = put_records(&mut script) else {
        return Ok(());
    };
    if let Some(one) = put_call(&mut script, records, b'M', 0, &[0, 4096, 1024, 1]) {
        read(&rt, &mut script, one, 1024)?;
    }
    if let Some(all) = put_segments(&mut script, records) {
        read(&rt, &mut script, all, 2032)?;
    }
    Ok(())
}
