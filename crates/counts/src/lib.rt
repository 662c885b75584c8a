// The counts of one region, raised and lowered in place.
#![tactic(auto)]

ghost use Rattle.std.specs.Prelude.{◌≡◌, ◌-◌, if◌then◌else◌};
ghost use Rattle.definitions.specs.Tests.{◌≤?◌};
ghost use Rattle.definitions.specs.Values.{raise, lower};
ghost use Rattle.definitions.specs.Regions.{region};
ghost use Rattle.counts.specs.Capped.{capped_counts};

use definitions::{MemOps, Region};

// What is left of a count: nothing where no holder is left, and never less than 0.
fn left(holders: u64, count: u64, by: u64) -> u64
    ensures { result ≡ (if holders ≤? 1 then 0 else count - by) }
{
    if holders <= 1 {
        0
    } else {
        count.saturating_sub(by)
    }
}

// One holder more, and one more of each count that the rights name: the Rust's increase_refcount and increase_ops.
fn increase_refcount(r: &mut Region, rights: u64)
    ensures { r.new ≡ region r.old.start r.old.end (capped_counts (raise rights r.old.values)) }
{
    let by = MemOps(rights).as_counters();
    r.values.refcount = r.values.refcount.saturating_add(1);
    r.values.counters.read = r.values.counters.read.saturating_add(by.read);
    r.values.counters.write = r.values.counters.write.saturating_add(by.write);
    r.values.counters.exec = r.values.counters.exec.saturating_add(by.exec);
    r.values.counters.supervisor = r.values.counters.supervisor.saturating_add(by.supervisor);
    r.values.counters.uncacheable = r.values.counters.uncacheable.saturating_add(by.uncacheable);
    r.values.counters.device = r.values.counters.device.saturating_add(by.device);
}

// One holder less, and one less of each count that the rights name, or nothing where no holder is left: the Rust's
// decrease_refcount and decrease_ops.
fn decrease_refcount(r: &mut Region, rights: u64)
    ensures { r.new ≡ region r.old.start r.old.end (lower rights r.old.values) }
{
    let by = MemOps(rights).as_counters();
    let holders = r.values.refcount;
    r.values.refcount = left(holders, holders, 1);
    r.values.counters.read = left(holders, r.values.counters.read, by.read);
    r.values.counters.write = left(holders, r.values.counters.write, by.write);
    r.values.counters.exec = left(holders, r.values.counters.exec, by.exec);
    r.values.counters.supervisor = left(holders, r.values.counters.supervisor, by.supervisor);
    r.values.counters.uncacheable = left(holders, r.values.counters.uncacheable, by.uncacheable);
    r.values.counters.device = left(holders, r.values.counters.device, by.device);
}

// The region with its counts raised. This and decrease stay two, as the two that they call are named by document 01.
pub fn increase(r: Region, rights: u64) -> Region
    ensures { result ≡ region r.start r.end (capped_counts (raise rights r.values)) }
{
    let mut out = r;
    increase_refcount(&mut out, rights);
    out
}

// The region with its counts lowered.
pub fn decrease(r: Region, rights: u64) -> Region
    ensures { result ≡ region r.start r.end (lower rights r.values) }
{
    let mut out = r;
    decrease_refcount(&mut out, rights);
    out
}
