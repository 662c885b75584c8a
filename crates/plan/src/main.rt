// Reads a wish from standard input, a line for each permission range: start, end and rights in 21 columns each. Writes the script
// that gives these ranges to a compartment, or one line with a refusal. Its words are the compartment, 0 without one, and the allowance
// that it is to have, 128 without one.
#![tactic(auto)]

use definitions::Refusal;
use std::env::{Env, FillError};
use std::io;
use std::io::{Stderr, Stdin, Stdout};

// The bytes of the longest script: eight lines that set allowances, and for each two of 1,024 ranges three adds.
const SCRIPT_LEN: usize = 103112;

// A refusal that is told, and the value in its line.
type Told = (Refusal, u64);

// Word i, or what it is where it is missing, if that is a number.
fn word_at(rt: HostRuntime, i: usize, missing: u64) -> Option<u64> {
    let mut bytes = [0u8; 20];
    match rt.arg(i, &mut bytes) {
        Ok(n) => columns::read(&bytes[..n]),
        Err(FillError::TooLong) => None,
        Err(FillError::NotPresent) => Some(missing),
    }
}

// The compartment and its allowance, if the program was started with such words and no third.
fn words(rt: HostRuntime) -> Option<(u64, u64)> {
    if has_third_word(rt) {
        return None;
    }
    Some((word_at(rt, 1, 0)?, word_at(rt, 2, 128)?))
}

// Reads on to the end, behind 1,024 lines of a wish: no allowance takes more ranges, but a line that is not of the form is told before
// that. A line of the form has 64 bytes with its end, so a piece of 65,536 bytes of them ends where a line does.
fn read_rest(input: Stdin) -> io::Result<Option<Told>> {
    let mut input = input;
    let mut piece = [0u8; 65536];
    let mut refused = None;
    // more turns than any input has, so that the loop is seen to end; and so many lines do not wrap
    for pieces in 1..0x100_0000_0001u64 {
        let n = streams::read_full(&mut input, &mut piece)?;
        if n == 0 {
            return Ok(refused);
        }
        if let Some(line) = planner::first_malformed(&piece[..n]) {
            let lines = 1024 * pieces;
            return Ok(Some((Refusal::Malformed, lines.wrapping_add(line as u64))));
        }
        refused = Some((Refusal::NoScript, 0));
    }
    Ok(refused)
}

// What is told for what is behind a text that fills its buffer, where that decides.
fn refused_behind(
    input: Stdin,
    compartment: u64,
    allowance: u64,
    text: &[u8],
    full: usize,
) -> io::Result<Option<Told>> {
    if text.len() < full
        || 8 <= compartment
        || 1024 < allowance
        || planner::first_malformed(text).is_some()
    {
        return Ok(None);
    }
    read_rest(input)
}

// One line with the number of a refusal and a value.
fn tell(out: Stdout, refusal: Refusal, value: u64) -> io::Result<()> {
    let mut line = [0u8; 25];
    lines::put_columns(&mut line, 0, refusal.number(), value);
    out.write_all(&line)
}

// The script for a wish that is a text. It has a function of its own so that its buffer is cleared once.
fn write_script(stdout: Stdout, compartment: u64, allowance: u64, text: &[u8]) -> io::Result<()> {
    let mut out = [0u8; SCRIPT_LEN];
    let len = planner::plan_script(compartment, allowance, text, &mut out);
    stdout.write_all(&out[..len])
}

// The script for a wish whose first bytes are a text that was read into a buffer of so many.
fn plan(
    rt: HostRuntime,
    compartment: u64,
    allowance: u64,
    text: &[u8],
    full: usize,
) -> io::Result<()> {
    if let Some((refusal, value)) = refused_behind(
        rt.stdin(),
        compartment,
        allowance,
        text,
        full,
    )? {
        return tell(rt.stdout(), refusal, value);
    }
    write_script(rt.stdout(), compartment, allowance, text)
}

fn usage(out: Stderr) -> io::Result<()> {
    out.write_all(
        b"plan: at most two words, a compartment and its allowance; without them 0 and 128\n",
    )
}

// Was the program started with more than two words?
fn has_third_word(rt: HostRuntime) -> bool {
    !matches!(rt.arg(3, &mut []), Err(FillError::NotPresent))
}

fn main(rt: HostRuntime) -> io::Result<()> {
    let Some((compartment, allowance)) = words(rt) else {
        return usage(rt.stderr());
    };
    let mut text = [0u8; 65536];
    let n = streams::read_full(&mut rt.stdin(), &mut text)?;
    plan(rt, compartment, allowance, &text[..n], text.len())
}
