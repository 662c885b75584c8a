// The script for a wanted layout under the allowance that a compartment has (document 02, order 13): the call on the tables, and what a
// host program asks for after a script, in a library of its own.
#![tactic(auto)]

ghost use Rattle.std.specs.Prelude.{List};
ghost use Rattle.definitions.specs.declared.call.Call.{Call};
ghost use Rattle.capability_engine.specs.CompartmentGrown.{Grown, IsGrown, ReadsPlan};
ghost use Rattle.exports.specs.Exports.{left_by};
ghost use Rattle.planner.specs.Writing.{PrintsPlan};
ghost use Rattle.planning.specs.Plans.{PlansAfter};

use capability_engine::{Tables, index_of};
use definitions::Answer;
use exports::{Pool, coded};

// A page of the adds that give a list of permissions, as groups of three numbers, in a compartment that is empty: from add `from`
// on, as many groups of start, end and rights as out takes. What the compartment holds is not asked.
pub fn plan(
    tables: &Tables,
    compartment: u64,
    wanted: &[u64],
    from: usize,
    out: &mut [u64],
    words: &[u64],
    next: &[usize],
    links: &[usize],
    gens: &[u64],
) -> Answer
    requires { IsGrown words.now next.now links.now gens.now tables.now }
    ensures { (calls : List Call) → Grown words.now next.now links.now gens.now tables.now calls → ReadsPlan calls compartment wanted.now from out.old out.new result }
{
    let k = index_of(compartment)?;
    let tracker = tables.trackers[k];
    planner::plan(tracker.allowance as u64, wanted, from, out)
}

// A page of the script for a wanted layout, under the allowance that a compartment has after a script.
pub fn plan_page(
    script: &[u8],
    compartment: u64,
    wanted: &[u64],
    from: usize,
    out: &mut [u64],
) -> u64
    ensures { PlansAfter (left_by script.now) compartment wanted.now from out.old out.new result }
{
    let mut p = Pool::new();
    let tables = p.tables_after(script);
    let answer = plan(
        &tables,
        compartment,
        wanted,
        from,
        out,
        &p.words,
        &p.next,
        &p.links,
        &p.gens,
    );
    coded(answer)
}

// The script for a wish that is a text, or its refusal: as many whole lines as out takes; answers how many bytes.
pub fn plan_script(compartment: u64, allowance: u64, text: &[u8], out: &mut [u8]) -> usize
    ensures { PrintsPlan compartment allowance text.now out.old out.new result }
{
    planner::plan_script(compartment, allowance, text, out)
}
