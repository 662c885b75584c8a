// The script's lines, read, and the lines of the output, each written whole into a lent slice or not at all.
#![tactic(auto)]

ghost use Rattle.std.specs.Prelude.{◌≡◌, [], ◌∷◌, ◌+◌, ◌*◌, ◌<◌, ◌≤◌, length, take, drop, replicate, MatchOption};
ghost use Rattle.std.proofs.lemmas.List.Edits.{sets};
ghost use Rattle.definitions.specs.Tests.{each};
ghost use Rattle.definitions.specs.Script.{numbers, columns_of, arity, call_of, line_of, number_in, script_line, heading, answer_columns, answer_line, mapping_line};
ghost use Rattle.definitions.specs.Pages.{permission_group};
ghost use Rattle.columns.specs.Columns.{Wrote};
ghost use Rattle.lines.specs.Lines.{line_from, read_as, Leads, takes};

use definitions::{Answer, Call, GuestAddr, HostAddr, Mapping, MemoryPermission};

// How far bytes are taken, how many of the line are held, and whether its end was met. The numbers count in both cases.
#[derive(Clone, Copy)]
pub struct Taken {
    pub used: usize,
    pub len: usize,
    pub ended: bool,
}

// How many numbers of 21 columns the letter's line has behind the compartment.
#[tactic(auto, unfolding(definitions::specs::Script::arity))]
fn arity_of(letter: u8) -> usize
    ensures { (result ≡ arity letter) × (result ≤ 4) }
{
    match letter {
        b'A' | b'D' => 3,
        b'C' | b'U' | b'G' => 2,
        b'M' => 4,
        b'S' => 1,
        _ => 0,
    }
}

// The n numbers of a line that is long enough for just these, and zeros behind them; none where one is not of the form.
fn read_numbers(line: &[u8], n: usize) -> Option<[u64; 4]>
    requires { (n ≤ 4) × (length line.now ≡ 3 + 21 * n) }
    ensures says { columns_of (replicate n 21) (drop 3 line.now) ≡ read_as n result }
    ensures four { MatchOption result (Unit {0}) (λ found. length found ≡ 4) }
{
    let mut found = [0; 4];
    for i in 0..n {
        let at = 3 + 21 * i;
        found[i] = columns::read(&line[at..at + 21])?;
    }
    Some(found)
}

// The call that a letter makes of a compartment and of as many of the other numbers as it has.
#[tactic(auto, unfolding(definitions::specs::Script::arity, definitions::specs::Tests::host, definitions::specs::Tests::guest))]
fn call_of(letter: u8, k: u64, a: u64, b: u64, c: u64, d: u64) -> Option<Call>
    ensures { result ≡ line_from (call_of letter (numbers (k ∷ take (arity letter) (a ∷ b ∷ c ∷ d ∷ [])))) }
{
    match letter {
        b'A' => Some(Call::Add(k, HostAddr(a), HostAddr(b), c)),
        b'D' => Some(Call::Remove(k, HostAddr(a), HostAddr(b), c)),
        b'C' => Some(Call::Refcount(k, HostAddr(a), HostAddr(b))),
        b'M' => Some(Call::Map(k, HostAddr(a), GuestAddr(b), c, d)),
        b'U' => Some(Call::Unmap(k, HostAddr(a), b)),
        b'G' => Some(Call::UnmapGpa(k, GuestAddr(a), b)),
        b'P' => Some(Call::Mappings(k)),
        b'S' => Some(Call::Allow(k, a)),
        _ => None,
    }
}

// A line without its end: a letter, the compartment in 2 columns, and the letter's numbers in 21 columns each. None that is
// not of the form: refusal 17.
pub fn parse_line(line: &[u8]) -> Option<Call>
    ensures { result ≡ line_from (line_of line.now) }
{
    let [letter, ..] = line else {
        return None;
    };
    let n = arity_of(*letter);
    if line.len() != 3 + 21 * n {
        return None;
    }
    let k = columns::read(&line[1..3])?;
    let [a, b, c, d] = read_numbers(line, n)?;
    call_of(*letter, k, a, b, c, d)
}

// The call of a line that lies in the input whole, read where it lies, and the place behind its end; none where anything else
// comes next. Its letter says where its end has to be.
pub fn line_ahead(input: &[u8], from: usize) -> Option<(Call, usize)>
    requires { from < length input.now }
    ensures { Leads input.now from result }
{
    let letter = input[from];
    let size = 3 + 21 * arity_of(letter);
    if input.len() - from <= size {
        return None;
    }
    let end = from + size;
    if input[end] != b'\n' {
        return None;
    }
    let call = parse_line(&input[from..end])?;
    Some((call, end + 1))
}

// The bytes of a line go behind the len that are held of it, as many as line takes, up to the line's end, which is passed. No
// line of 88 bytes is of the form, so whoever lends as many loses nothing.
pub fn take_line(line: &mut [u8], len: usize, input: &[u8], from: usize) -> Taken
    ensures { (line.new, result) ≡ takes line.old len from (drop from input.now) }
{
    let mut held = len;
    for used in from..input.len() {
        let b = input[used];
        if b == b'\n' {
            return Taken {
                used: used + 1,
                len: held,
                ended: true,
            };
        }
        if held < line.len() {
            line[held] = b;
            held += 1;
        }
    }
    Taken {
        used: from.max(input.len()),
        len: held,
        ended: false,
    }
}

// How many bytes a line of the output has.
const HEADING_LEN: usize = 25;

const ANSWER_LEN: usize = 25;

const MAPPING_LEN: usize = 106;

// And one of a script that adds a range, or sets an allowance.
const ADD_LEN: usize = 67;

const ALLOW_LEN: usize = 25;

// The output's first line.
pub const HEADING: [u8; 25] = *b"ans                value\n";

// Where so many bytes end that are put from a place on, if they fit.
fn end_of(out: &[u8], at: usize, size: usize) -> Option<usize>
    ensures { MatchOption result (length out.now < at + size) (λ end. (at + size ≤ length out.now) × (end ≡ at + size)) }
{
    if columns::has_room(out.len(), at, size) {
        Some(at + size)
    } else {
        None
    }
}

// Numbers in 21 columns each, from a place on.
fn write_numbers(out: &mut [u8], at: usize, group: &[u64])
    requires { at + 21 * length group.now ≤ length out.old }
    ensures { out.new ≡ sets out.old at (each (number_in 21) group.now) }
{
    for (i, number) in group.iter().enumerate() {
        columns::write(out, at + 21 * i, 21, *number);
    }
}

// The heading, from a place on.
pub fn put_heading(out: &mut [u8], at: usize) -> Option<usize>
    ensures { Wrote at heading out.old result out.new }
{
    let end = end_of(out, at, HEADING_LEN)?;
    out[at..end].copy_from_slice(&HEADING);
    Some(end)
}

// A number in 3 columns and a value in 21, as an answer's line has them.
pub fn put_columns(out: &mut [u8], at: usize, number: u64, value: u64) -> Option<usize>
    ensures { Wrote at (answer_columns number value) out.old result out.new }
{
    let end = end_of(out, at, ANSWER_LEN)?;
    columns::write(out, at, 3, number);
    columns::write(out, at + 3, 21, value);
    out[at + 24] = b'\n';
    Some(end)
}

// The answer's number in 3 columns and its value in 21.
pub fn put_answer(out: &mut [u8], at: usize, answer: Answer) -> Option<usize>
    ensures { Wrote at (answer_line answer) out.old result out.new }
{
    let number = definitions::number_of(answer);
    let value = definitions::value_of(answer);
    put_columns(out, at, number, value)
}

// A mapping's five numbers in 21 columns each.
pub fn put_mapping(out: &mut [u8], at: usize, mapping: Mapping) -> Option<usize>
    ensures { Wrote at (mapping_line mapping) out.old result out.new }
{
    let end = end_of(out, at, MAPPING_LEN)?;
    let group = [
        mapping.hpa.0,
        mapping.gpa.0,
        mapping.size,
        mapping.repeat,
        mapping.ops.0,
    ];
    write_numbers(out, at, &group);
    out[at + 105] = b'\n';
    Some(end)
}

// A script's line over as many bytes: its letter, the compartment in 2 columns, numbers in 21 columns each, and its end.
fn write_line(out: &mut [u8], at: usize, letter: u8, compartment: u64, numbers: &[u64])
    requires { at + (4 + 21 * length numbers.now) ≤ length out.old }
    ensures { out.new ≡ sets out.old at (script_line letter compartment numbers.now) }
{
    out[at] = letter;
    columns::write(out, at + 1, 2, compartment);
    write_numbers(out, at + 3, numbers);
    out[at + (3 + 21 * numbers.len())] = b'\n';
}

// The script's line that adds a range to a compartment.
pub fn put_add(
    out: &mut [u8],
    at: usize,
    compartment: u64,
    range: MemoryPermission,
) -> Option<usize>
    ensures { Wrote at (script_line 65 compartment (permission_group range)) out.old result out.new }
{
    let end = end_of(out, at, ADD_LEN)?;
    let numbers = [range.start.0, range.end.0, range.ops.0];
    write_line(out, at, b'A', compartment, &numbers);
    Some(end)
}

// The script's line that sets a compartment's allowance.
pub fn put_allow(out: &mut [u8], at: usize, compartment: u64, allowance: u64) -> Option<usize>
    ensures { Wrote at (script_line 83 compartment (allowance ∷ [])) out.old result out.new }
{
    let end = end_of(out, at, ALLOW_LEN)?;
    let numbers = [allowance];
    write_line(out, at, b'S', compartment, &numbers);
    Some(end)
}
