// A bundle of adds and removes for one compartment: all of them are done, or none is (document 02, order 9). At the end what a host
// program calls for one after a script: in a library of its own, so that the one without bundles is compiled as if there were none.
#![tactic(auto)]

ghost use Rattle.std.specs.Prelude.{◌≡◌, List, length, slice_index};
ghost use Rattle.definitions.specs.Pages.{record_len};
ghost use Rattle.definitions.specs.Calls.{stream_groups, region_groups};
ghost use Rattle.definitions.specs.Bundles.{bundled, bundle_of, bundle_answer, bundle_leaves};
ghost use Rattle.definitions.specs.declared.call.Call.{Call};
ghost use Rattle.capability_engine.specs.CompartmentGrown.{Grown, IsGrown, Sized, AnswersBundle};
ghost use Rattle.exports.specs.Exports.{coded as coded_as, left_by, ReadsPage};
ghost use Rattle.bundles.specs.Turns.{AnswersLine, InTurn, LeavesBundle};

use capability_engine::{Tables, index_of};
use definitions::{Answer, HostAddr, Refusal};
use exports::{Pool, coded};

// How many numbers a group has: the kind (0 an add, 1 a remove), start, end and rights.
const GROUP_LEN: usize = 4;

// How many numbers the 32 groups have that a bundle may have.
const BUNDLE_LEN: usize = 128;

// One group of a bundle: an add, a remove, or nothing of the form.
fn judge(
    tables: &mut Tables,
    compartment: u64,
    group: &[u64],
    words: &mut [u64],
    next: &mut [usize],
    links: &mut [usize],
    gens: &mut [u64],
) -> Answer
    requires grown { IsGrown words.old next.old links.old gens.old tables.old }
    requires four { length group.now ≡ 4 }
    ensures { (calls : List Call) → Grown words.old next.old links.old gens.old tables.old calls → AnswersLine calls (bundled compartment (slice_index group.now 0) (slice_index group.now 1) (slice_index group.now 2) (slice_index group.now 3)) words.old next.old links.old gens.old tables.old words.new next.new links.new gens.new tables.new result }
{
    let start = HostAddr(group[1]);
    let end = HostAddr(group[2]);
    let rights = group[3];
    match group[0] {
        0 => tables.add(compartment, start, end, rights, words, next, links, gens),
        1 => tables.remove(compartment, start, end, rights, words, next, links, gens),
        _ => Err(Refusal::Malformed),
    }
}

// The groups in turn, each on what the ones before it left, up to the first that is refused. Their change is 1 if any of theirs was.
fn in_turn(
    tables: &mut Tables,
    compartment: u64,
    groups: &[u64],
    words: &mut [u64],
    next: &mut [usize],
    links: &mut [usize],
    gens: &mut [u64],
) -> Answer
    requires { IsGrown words.old next.old links.old gens.old tables.old }
    ensures { (calls : List Call) → Grown words.old next.old links.old gens.old tables.old calls → InTurn 4 calls compartment groups.now words.old next.old links.old gens.old tables.old words.new next.new links.new gens.new tables.new result }
{
    let mut change = false;
    let mut rest = groups;
    while !rest.is_empty() {
        // what lacks numbers at the end is not of the form
        if rest.len() < GROUP_LEN {
            return Err(Refusal::Malformed);
        }
        let (group, behind) = rest.split_at(GROUP_LEN);
        let value = judge(tables, compartment, group, words, next, links, gens)?;
        change |= value == 1;
        rest = behind;
    }
    Ok(u64::from(change))
}

// Two groups or more. What is altered before one is refused is put back word for word, from a copy of the pool.
fn all_or_nothing(
    tables: &mut Tables,
    compartment: u64,
    groups: &[u64],
    words: &mut [u64],
    next: &mut [usize],
    links: &mut [usize],
    gens: &mut [u64],
) -> Answer
    requires { IsGrown words.old next.old links.old gens.old tables.old }
    ensures { (calls : List Call) → Grown words.old next.old links.old gens.old tables.old calls → InTurn (length groups.now) calls compartment groups.now words.old next.old links.old gens.old tables.old words.new next.new links.new gens.new tables.new result }
{
    let mut saved = Pool::new();
    saved.words.copy_from_slice(words);
    saved.next.copy_from_slice(next);
    saved.links.copy_from_slice(links);
    saved.gens.copy_from_slice(gens);
    let before = *tables;
    let answer = in_turn(tables, compartment, groups, words, next, links, gens);
    if answer.is_ok() {
        return answer;
    }
    words.copy_from_slice(&saved.words);
    next.copy_from_slice(&saved.next);
    links.copy_from_slice(&saved.links);
    gens.copy_from_slice(&saved.gens);
    *tables = before;
    answer
}

// A bundle for a compartment, as groups of four numbers. Accepted if each group is, and then 1 if one of them was a change; else
// refused as its first refused group is, with pool and tables as they were.
pub fn bundle(
    tables: &mut Tables,
    compartment: u64,
    groups: &[u64],
    words: &mut [u64],
    next: &mut [usize],
    links: &mut [usize],
    gens: &mut [u64],
) -> Answer
    requires { IsGrown words.old next.old links.old gens.old tables.old }
    ensures { (calls : List Call) → Grown words.old next.old links.old gens.old tables.old calls → AnswersBundle calls compartment groups.now words.old next.old links.old gens.old tables.old words.new next.new links.new gens.new tables.new result }
{
    index_of(compartment)?;
    if groups.len() > BUNDLE_LEN {
        return Err(Refusal::BundleTooLong);
    }
    // none or one: a refused call alters nothing by itself
    if groups.len() <= GROUP_LEN {
        return in_turn(tables, compartment, groups, words, next, links, gens);
    }
    all_or_nothing(tables, compartment, groups, words, next, links, gens)
}

// The tables after a script and a bundle, and the bundle's answer.
fn after_bundle(
    pool: &mut Pool,
    script: &[u8],
    compartment: u64,
    groups: &[u64],
) -> (Tables, Answer)
    requires { Sized pool.old.words pool.old.next pool.old.links pool.old.gens }
    ensures { LeavesBundle script.now compartment groups.now pool.new.words pool.new.next pool.new.links pool.new.gens result.0 result.1 }
{
    let mut tables = pool.tables_after(script);
    let answer = bundle(
        &mut tables,
        compartment,
        groups,
        &mut pool.words,
        &mut pool.next,
        &mut pool.links,
        &mut pool.gens,
    );
    (tables, answer)
}

// Whether a bundle is accepted after a script: groups of four numbers, the kind (0 an add, 1 a remove), start, end and rights.
pub fn bundle_after(script: &[u8], compartment: u64, groups: &[u64]) -> u64
    ensures { result ≡ coded_as (bundle_answer (left_by script.now) compartment (bundle_of compartment groups.now)) }
{
    let mut p = Pool::new();
    let (_, answer) = after_bundle(&mut p, script, compartment, groups);
    coded(answer)
}

// A page of the compartment's stream after a script and a bundle, which alters nothing where it is refused.
pub fn stream_after_bundle(
    script: &[u8],
    compartment: u64,
    groups: &[u64],
    from: usize,
    out: &mut [u64],
) -> u64
    ensures { ReadsPage 5 stream_groups (bundle_leaves (left_by script.now) compartment (bundle_of compartment groups.now)) compartment from out.old out.new result }
{
    let mut p = Pool::new();
    let (after, _) = after_bundle(&mut p, script, compartment, groups);
    let answer = after.stream(compartment, from, out, &p.words, &p.next, &p.links, &p.gens);
    coded(answer)
}

// A page of its stored regions after a script and a bundle.
pub fn regions_after_bundle(
    script: &[u8],
    compartment: u64,
    groups: &[u64],
    from: usize,
    out: &mut [u64],
) -> u64
    ensures { ReadsPage record_len region_groups (bundle_leaves (left_by script.now) compartment (bundle_of compartment groups.now)) compartment from out.old out.new result }
{
    let mut p = Pool::new();
    let (after, _) = after_bundle(&mut p, script, compartment, groups);
    let answer = after.regions(compartment, from, out, &p.words, &p.next, &p.links, &p.gens);
    coded(answer)
}
