// Numbers in fixed columns, as the script and its output have them: read from bytes, and written over bytes.
#![tactic(auto)]

ghost use Rattle.std.specs.Prelude.{◌≡◌, ◌≢◌, true, ◌+◌, ◌*◌, ◌<◌, ◌≤◌, length, slice_index};
ghost use Rattle.std.specs.Option.{SomeIff};
ghost use Rattle.std.proofs.lemmas.List.Edits.{sets};
ghost use Rattle.definitions.specs.Tests.{◌≤?◌};
ghost use Rattle.definitions.specs.Script.{column_of, digits_of, spaced, number_in};
ghost use Rattle.columns.specs.Columns.{column_from, Wrote};

// A number with one digit more, if it is below 2^64. The first test, which says yes of all but the longest, is there for speed:
// without it a long number costs a third more.
fn with_digit(n: u64, digit: u64) -> Option<u64>
    requires { digit < 10 }
    ensures { SomeIff result (n * 10 + digit < 18446744073709551616) (n * 10 + digit) }
{
    if n < u64::MAX / 10 {
        return Some(n * 10 + digit);
    }
    n.checked_mul(10)?.checked_add(digit)
}

// The digits that are left, after a number that was read before them.
fn digits(bytes: &[u8], first: u64) -> Option<u64>
    ensures { result ≡ column_from (digits_of first bytes.now) }
{
    let mut n = first;
    for b in bytes {
        if !b.is_ascii_digit() {
            return None;
        }
        n = with_digit(n, u64::from(*b - b'0'))?;
    }
    Some(n)
}

// Are these bytes four spaces? They are compared as one number for speed: four tests cost half as much again, and
// `u32::from_le_bytes` a tenth more.
fn are_spaces(a: u8, b: u8, c: u8, d: u8) -> bool
    ensures { result ≡ true → (a ≡ 32) × (b ≡ 32) × (c ≡ 32) × (d ≡ 32) }
{
    let low = u64::from(a) + 256 * u64::from(b);
    let high = u64::from(c) + 256 * u64::from(d);
    low + 65536 * high == 538976288
}

// What stands behind the spaces, which are passed four at a time as far as that goes: most columns begin with many.
fn past_spaces(bytes: &[u8]) -> &[u8]
    ensures says { column_of result.now ≡ column_of bytes.now }
    ensures passed { 0 < length result.now → slice_index result.now 0 ≢ 32 }
{
    let mut left = bytes;
    'fours: while let [a, b, c, d, rest @ ..] = left {
        if !are_spaces(*a, *b, *c, *d) {
            break;
        }
        left = rest;
    }
    'ones: while let [b' ', rest @ ..] = left {
        left = rest;
    }
    left
}

// A number at the right of all these columns: spaces, then digits that begin with another than 0, or 0 alone.
pub fn read(bytes: &[u8]) -> Option<u64>
    ensures { result ≡ column_from (column_of bytes.now) }
{
    let [first, rest @ ..] = past_spaces(bytes) else {
        return None;
    };
    match first {
        b'0' if rest.is_empty() => Some(0),
        b'1'..=b'9' => digits(rest, u64::from(*first - b'0')),
        _ => None,
    }
}

// Do so many bytes fit from a place on? Neither sum nor difference wraps.
pub fn has_room(len: usize, at: usize, size: usize) -> bool
    ensures { result ≡ (at + size ≤? len) }
{
    at <= len && size <= len - at
}

// Spaces in so many columns. The loop by hand is there for speed: a short number's columns take a tenth longer with `fill`, and a
// quarter longer with a `for` over the slice.
fn spaces(out: &mut [u8], at: usize, columns: usize)
    requires { at + columns ≤ length out.old }
    ensures { out.new ≡ sets out.old at (spaced columns 0) }
{
    let mut i = 0;
    while i < columns {
        out[at + i] = b' ';
        i += 1;
    }
}

// The digits of a number over spaces, from the right to the left, as many as it has. Two digits cost one long division.
fn over_spaces(out: &mut [u8], at: usize, columns: usize, n: u64)
    requires { (at + columns ≤ length out.old) × (sets out.old at (spaced columns 0) ≡ out.old) }
    ensures { out.new ≡ sets out.old at (spaced columns n) }
{
    let mut k = columns;
    let mut m = n;
    while k > 1 && m > 9 {
        k -= 2;
        let two = m % 100;
        out[at + k + 1] = b'0' + (two % 10) as u8;
        out[at + k] = b'0' + (two / 10) as u8;
        m /= 100;
    }
    if k > 0 && m > 0 {
        out[at + k - 1] = b'0' + (m % 10) as u8;
    }
}

// The columns before a number's last.
fn fill(out: &mut [u8], at: usize, columns: usize, n: u64)
    requires { at + columns ≤ length out.old }
    ensures { out.new ≡ sets out.old at (spaced columns n) }
{
    spaces(out, at, columns);
    over_spaces(out, at, columns, n);
}

// A number at the right of so many columns, with spaces before its digits; digits that the columns do not hold are
// left out on the left. A width of 0 is taken as 1, as `number_in` has it: every number has a last digit.
pub fn write(out: &mut [u8], at: usize, width: usize, n: u64) -> Option<usize>
    ensures { Wrote at (number_in width n) out.old result out.new }
{
    let before = width.saturating_sub(1);
    if !has_room(out.len(), at, before + 1) {
        return None;
    }
    fill(out, at, before, n / 10);
    out[at + before] = b'0' + (n % 10) as u8;
    Some(at + (before + 1))
}
