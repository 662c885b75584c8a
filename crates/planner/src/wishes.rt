// A wish as text: its lines are read as ranges, and the lines of the script for it are written. What both look like is in
// specs/Wishes.antt of definitions.
ghost use Rattle.std.specs.Prelude.{◌≡◌, [], ◌∷◌, ◌≤◌, length};
ghost use Rattle.definitions.specs.Pages.{permission_group};
ghost use Rattle.definitions.specs.Script.{script_line, answer_columns};
ghost use Rattle.definitions.specs.Planner as planner;
ghost use Rattle.definitions.specs.Wishes.{wish_of, plan_lines, wish_lines, wish};
ghost use Rattle.definitions.specs.Questions.{refusal_number};
ghost use Rattle.planner.specs.Reading.{Says, ends as ends_first, Heads, Keeps, ReadsWish, first_broken};
ghost use Rattle.planner.specs.Writing.{Adds, other_lines, allow_lines, add_lines, PrintsLines, PrintsPlan};

use crate::{PlanCursor, can_wish, put};
use definitions::{HostAddr, MemOps, MemoryPermission, Refusal};

// How many bytes a line of a wish has, without its end and with it.
const RANGE_LEN: usize = 63;

const LINE_LEN: usize = 64;

// No allowance has room for more ranges.
const MOST: usize = 1024;

// What a wish's text says: so many ranges; or the number, from 1, of the first line that is not of the form.
type Reading = Result<usize, usize>;

// Up to where lines are written: all of them, or those before the first that did not fit.
type Written = Result<usize, usize>;

// A line without its end: start, end and rights in 21 columns each.
fn parse_range(line: &[u8]) -> Option<MemoryPermission>
    requires { length line.now ≡ 63 }
    ensures { Says line.now result }
{
    let start = columns::read(&line[0..21])?;
    let end = columns::read(&line[21..42])?;
    let rights = columns::read(&line[42..63])?;
    Some(MemoryPermission {
        start: HostAddr(start),
        end: HostAddr(end),
        ops: MemOps(rights),
    })
}

// Does a line's end stand first, or nothing at all?
fn ends(rest: &[u8]) -> bool
    ensures { result ≡ ends_first rest.now }
{
    rest.is_empty() || rest[0] == b'\n'
}

// The line that begins bytes, of which no more are given than one of the form has with its end. Where that is, is known before the
// line is read.
fn range_of(bytes: &[u8]) -> Option<MemoryPermission>
    ensures { Heads bytes.now result }
{
    if bytes.len() < RANGE_LEN || !ends(&bytes[RANGE_LEN..]) {
        return None;
    }
    parse_range(&bytes[..RANGE_LEN])
}

// A range becomes group i of the slice, if that takes it.
fn keep(wish: &mut [u64], i: usize, p: MemoryPermission)
    ensures { Keeps wish.old wish.new i (permission_group p) }
{
    if i < wish.len() / 3 {
        put(wish, i, p);
    }
}

// Reads a whole text. The ranges that the slice takes are in it.
fn read_wish(text: &[u8], wish: &mut [u64]) -> Reading
    ensures { ReadsWish text.now wish.new result }
{
    for (n, bytes) in text.chunks(LINE_LEN).enumerate() {
        let p = range_of(bytes).ok_or(n + 1)?;
        keep(wish, n, p);
    }
    Ok(text.len().div_ceil(LINE_LEN))
}

// The number, from 1, of the first line of a text that is no line of a wish, if there is one.
pub fn first_malformed(text: &[u8]) -> Option<usize>
    ensures { result ≡ first_broken (wish_of text.now) }
{
    read_wish(text, &mut []).err()
}

// The line that sets an allowance.
fn allow_line(out: &mut [u8], at: usize, compartment: u64, allowance: u64) -> Written
    ensures { Adds (script_line 83 compartment (allowance ∷ []) ∷ []) out.old out.new at result }
{
    lines::put_allow(out, at, compartment, allowance).ok_or(at)
}

// The line that sets the allowance of compartment j, unless it is k.
fn other_line(out: &mut [u8], at: usize, k: u64, j: u64, allowance: u64) -> Written
    ensures { Adds (other_lines k j 1 allowance) out.old out.new at result }
{
    if j == k {
        return Ok(at);
    }
    allow_line(out, at, j, allowance)
}

// The lines that set the allowances of all compartments but k.
fn other_lines(out: &mut [u8], at: usize, k: u64, allowance: u64) -> Written
    ensures { Adds (other_lines k 0 8 allowance) out.old out.new at result }
{
    let mut at = at;
    for j in 0..8 {
        at = other_line(out, at, k, j, allowance)?;
    }
    Ok(at)
}

// The lines that give a compartment of empty tables its allowance: 128 it has, and for more the others get less before it.
fn allow_lines(out: &mut [u8], at: usize, compartment: u64, allowance: u64) -> Written
    requires { allowance ≤ 1024 }
    ensures { Adds (allow_lines compartment allowance) out.old out.new at result }
{
    if allowance == 128 {
        return Ok(at);
    }
    if allowance < 128 {
        return allow_line(out, at, compartment, allowance);
    }
    let at = other_lines(out, at, compartment, (1024 - allowance) / 7)?;
    allow_line(out, at, compartment, allowance)
}

// The lines of the adds that give the ranges.
fn add_lines(out: &mut [u8], at: usize, compartment: u64, wanted: &[u64]) -> Written
    ensures { Adds (add_lines compartment (planner.plan (planner.wanted wanted.now))) out.old out.new at result }
{
    let mut at = at;
    let mut c = PlanCursor::START;
    while let Some(p) = c.next(wanted) {
        at = lines::put_add(out, at, compartment, p).ok_or(at)?;
    }
    Ok(at)
}

// All lines of the script for ranges that can be.
fn script_lines(out: &mut [u8], compartment: u64, allowance: u64, wanted: &[u64]) -> Written
    requires { allowance ≤ 1024 }
    ensures { Adds (plan_lines compartment allowance (planner.wanted wanted.now)) out.old out.new 0 result }
{
    let at = allow_lines(out, 0, compartment, allowance)?;
    add_lines(out, at, compartment, wanted)
}

// As many of them as fit.
fn put_script(out: &mut [u8], compartment: u64, allowance: u64, wanted: &[u64]) -> usize
    requires { allowance ≤ 1024 }
    ensures { PrintsLines (plan_lines compartment allowance (planner.wanted wanted.now)) out.old out.new result }
{
    match script_lines(out, compartment, allowance, wanted) {
        Ok(at) => at,
        Err(at) => at,
    }
}

// One line with the number of a refusal and a value.
fn put_refusal(out: &mut [u8], refusal: Refusal, value: u64) -> usize
    ensures { PrintsLines (answer_columns (refusal_number refusal) value ∷ []) out.old out.new result }
{
    lines::put_columns(out, 0, refusal.number(), value).unwrap_or(0)
}

// The script for a wish, or 25.
fn put_wish(out: &mut [u8], compartment: u64, allowance: u64, wanted: &[u64]) -> usize
    requires { allowance ≤ 1024 }
    ensures { PrintsLines (wish_lines compartment allowance (wish wanted.now)) out.old out.new result }
{
    if !can_wish(allowance, wanted) {
        return put_refusal(out, Refusal::NoScript, 0);
    }
    put_script(out, compartment, allowance, wanted)
}

// What the text of a wish comes to: as many whole lines as fit of the script for it, or of its refusal; answers how many bytes.
#[tactic(auto, using(crate::proofs::WriteLaws::refused_texts))]
pub fn plan_script(compartment: u64, allowance: u64, text: &[u8], out: &mut [u8]) -> usize
    ensures { PrintsPlan compartment allowance text.now out.old out.new result }
{
    if 8 <= compartment {
        return put_refusal(out, Refusal::NoCompartment, 0);
    }
    if 1024 < allowance {
        return put_refusal(out, Refusal::PoolExceeded, 0);
    }
    let mut numbers = [0u64; 3072];
    match read_wish(text, &mut numbers) {
        Err(line) => put_refusal(out, Refusal::Malformed, line as u64),
        Ok(n) => {
            if MOST < n {
                return put_refusal(out, Refusal::NoScript, 0);
            }
            let len = 3 * n;
            put_wish(out, compartment, allowance, &numbers[..len])
        }
    }
}
