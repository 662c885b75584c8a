// Reads recorded lines from standard input and prints what each says, in the script's own form; then a few lines of the
// output, put into a slice of dots that the last of them does not fit.
#![tactic(auto)]

use definitions::{Call, GuestAddr, HostAddr, Mapping, MemOps, Refusal};
use std::io;
use std::io::Stdout;

fn letter(out: Stdout, byte: u8, k: u64) {
    let mut text = [byte; 3];
    columns::write(&mut text, 1, 2, k);
    let _ = out.write_all(&text);
}

fn number(out: Stdout, n: u64) {
    let mut text = [0u8; 21];
    columns::write(&mut text, 0, 21, n);
    let _ = out.write_all(&text);
}

fn line(out: Stdout, byte: u8, k: u64, numbers: &[u64]) {
    letter(out, byte, k);
    for n in numbers {
        number(out, *n);
    }
}

fn show_call(out: Stdout, call: Call) {
    match call {
        Call::Add(k, start, end, rights) => line(out, b'A', k, &[start.0, end.0, rights]),
        Call::Remove(k, start, end, rights) => line(out, b'D', k, &[start.0, end.0, rights]),
        Call::Refcount(k, start, end) => line(out, b'C', k, &[start.0, end.0]),
        Call::Map(k, hpa, gpa, size, repeat) => line(out, b'M', k, &[hpa.0, gpa.0, size, repeat]),
        Call::Unmap(k, hpa, size) => line(out, b'U', k, &[hpa.0, size]),
        Call::UnmapGpa(k, gpa, size) => line(out, b'G', k, &[gpa.0, size]),
        Call::Mappings(k) => line(out, b'P', k, &[]),
        Call::Allow(k, allowance) => line(out, b'S', k, &[allowance]),
        _ => {}
    }
}

fn show(out: Stdout, bytes: &[u8]) {
    match lines::parse_line(bytes) {
        Some(call) => show_call(out, call),
        None => {
            let _ = out.write_all(b"malformed");
        }
    }
    let _ = out.write_all(b"\n");
}

// Each line, the last also where it lacks its end.
fn show_lines(out: Stdout, text: &[u8]) {
    for line in text.split_inclusive(|b| *b == b'\n') {
        show(out, line.strip_suffix(b"\n").unwrap_or(line));
    }
}

fn show_written(out: Stdout) {
    let mapping = Mapping {
        hpa: HostAddr(10),
        gpa: GuestAddr(u64::MAX),
        size: 20,
        repeat: 1,
        ops: MemOps(31),
    };
    let mut written = [b'.'; 182];
    lines::put_heading(&mut written, 0);
    lines::put_answer(&mut written, 25, Err(Refusal::OthersTouched));
    lines::put_mapping(&mut written, 50, mapping);
    lines::put_answer(&mut written, 156, Ok(70));
    lines::put_answer(&mut written, 181, Ok(71));
    lines::put_heading(&mut written, usize::MAX);
    let _ = out.write_all(&written);
    let _ = out.write_all(b"\n");
}

fn main(rt: HostRuntime) -> io::Result<()> {
    let mut text = [0u8; 65536];
    let n = streams::read_full(&mut rt.stdin(), &mut text)?;
    show_lines(rt.stdout(), &text[..n]);
    show_written(rt.stdout());
    Ok(())
}
