// Replays recorded scripts from standard input, each behind a line with the number of its bytes. For each, from empty tables, it
// writes the script's output, and then the regions, segments and stream that the script leaves to each compartment.
#![tactic(auto)]

ghost use Rattle.std.specs.Prelude.{◌<◌, ◌≤◌, length};
ghost use Rattle.streams.specs.Counts.{IsPrefixLen};
ghost use Rattle.definitions.specs.Pages.{record_len};

use definitions::RECORD_LEN;
use std::io::{self, Stdin, Stdout};

// Where the last of so many lines ends.
fn end_of(text: &[u8], lines: usize) -> usize
    ensures { IsPrefixLen result text.now }
{
    let mut left = lines;
    for (i, b) in text.iter().enumerate() {
        if left == 0 {
            return i;
        }
        if *b == b'\n' {
            left -= 1;
        }
    }
    text.len()
}

// The output of a script: as many whole lines as the buffer takes.
fn write_output(stdout: Stdout, script: &[u8]) -> io::Result<()> {
    let mut out = [0u8; 65536];
    let lines = exports::run_script(script, &mut out);
    let end = end_of(&out, lines);
    stdout.write_all(&out[..end])
}

// A line of numbers, put together first so that it is one call and not one for each number.
fn write_line(stdout: Stdout, numbers: &[u64]) -> io::Result<()>
    requires { length numbers.now ≤ record_len }
{
    // all line ends at first: one is left behind the last number
    let mut line = [b'\n'; 21 * RECORD_LEN + 1];
    for (i, n) in numbers.iter().enumerate() {
        columns::write(&mut line, 21 * i, 21, *n);
    }
    let end = 21 * numbers.len() + 1;
    stdout.write_all(&line[..end])
}

// A list under a line that says whose it is, how wide and how long; nothing of one that is empty.
fn write_list(
    stdout: Stdout,
    compartment: u64,
    width: usize,
    answer: u64,
    numbers: &[u64],
) -> io::Result<()>
    requires { (0 < width) × (width ≤ record_len) }
{
    // more groups than the slice has numbers: a refusal
    if answer == 0 || answer > numbers.len() as u64 {
        return Ok(());
    }
    write_line(stdout, &[compartment, width as u64, answer])?;
    for group in numbers.chunks_exact(width).take(answer as usize) {
        write_line(stdout, group)?;
    }
    Ok(())
}

// The three lists of a compartment, each read at one go.
fn write_lists(stdout: Stdout, script: &[u8], compartment: u64) -> io::Result<()> {
    let mut numbers = [0u64; 1024 * RECORD_LEN];
    let regions = exports::regions_page(script, compartment, 0, &mut numbers);
    write_list(stdout, compartment, RECORD_LEN, regions, &numbers)?;
    let segments = exports::segments_page(script, compartment, 0, &mut numbers);
    write_list(stdout, compartment, 4, segments, &numbers)?;
    let stream = exports::stream_page(script, compartment, 0, &mut numbers);
    write_list(stdout, compartment, 5, stream, &numbers)
}

// All that is written of one script.
fn replay(stdout: Stdout, script: &[u8]) -> io::Result<()> {
    write_output(stdout, script)?;
    for k in 0..8 {
        write_lists(stdout, script, k)?;
    }
    Ok(())
}

// How many bytes the next script has; none also where the input ends.
fn next_size(stdin: &mut Stdin) -> io::Result<Option<u64>> {
    let mut header = [0u8; 22];
    let n = streams::read_full(stdin, &mut header)?;
    if n < 22 || header[21] != b'\n' {
        return Ok(None);
    }
    Ok(columns::read(&header[..21]))
}

// Replays the script that fills a slice, or answers that the input ends before.
fn replay_in(stdin: &mut Stdin, stdout: Stdout, text: &mut [u8]) -> io::Result<bool> {
    let n = streams::read_full(stdin, text)?;
    if n < text.len() {
        return Ok(false);
    }
    replay(stdout, text)?;
    Ok(true)
}

// Replays the next script, or answers that there is none.
fn replay_next(stdin: &mut Stdin, stdout: Stdout) -> io::Result<bool> {
    let Some(size) = next_size(stdin)? else {
        return Ok(false);
    };
    if size > 65536 {
        return Ok(false);
    }
    let mut text = [0u8; 65536];
    let n = size as usize;
    replay_in(stdin, stdout, &mut text[..n])
}

fn main(rt: HostRuntime) -> io::Result<()> {
    let mut stdin = rt.stdin();
    let stdout = rt.stdout();
    // more turns than any input has scripts, so that the loop is seen to end
    for _ in 0..u64::MAX {
        if !replay_next(&mut stdin, stdout)? {
            break;
        }
    }
    Ok(())
}
