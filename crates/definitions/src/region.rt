// region.rs: rights, counts and regions, without the list that links them.
ghost use Rattle.std.specs.Prelude.{◌≡◌, ◌*◌, ◌≤◌};
ghost use Rattle.definitions.specs.Tests.{◌<?◌, bit};
ghost use Rattle.definitions.specs.Rights.{is_valid, as_counters};
ghost use Rattle.definitions.specs.Values.{rights_of};
ghost use Rattle.definitions.specs.Regions.{has, same};

use crate::addr::HostAddr;

#[derive(Clone, Copy)]
pub struct MemOps(pub u64);

#[derive(Clone, Copy, PartialEq, Eq, Default)]
pub struct Counters {
    pub read: u64,
    pub write: u64,
    pub exec: u64,
    pub supervisor: u64,
    pub uncacheable: u64,
    pub device: u64,
}

// The values of an address: the holders and the counters.
#[derive(Clone, Copy, PartialEq, Eq, Default)]
pub struct Values {
    pub refcount: u64,
    pub counters: Counters,
}

// A run of held addresses, [start, end), with all values equal.
#[derive(Clone, Copy)]
pub struct Region {
    pub start: HostAddr,
    pub end: HostAddr,
    pub values: Values,
}

// The numbers of a stored region: its range, holders and a count for each right.
pub const RECORD_LEN: usize = 9;

#[derive(Clone, Copy)]
pub struct MemoryPermission {
    pub start: HostAddr,
    pub end: HostAddr,
    pub ops: MemOps,
}

impl MemOps {
    pub const NONE: MemOps = MemOps(0);

    pub const READ: MemOps = MemOps(1);

    pub const WRITE: MemOps = MemOps(2);

    pub const EXEC: MemOps = MemOps(4);

    pub const SUPER: MemOps = MemOps(8);

    pub const UNCACHEABLE: MemOps = MemOps(16);

    pub const DEVICE: MemOps = MemOps(32);

    // No for write or exec without read.
    #[tactic(auto, unfolding(crate::specs::Rights::is_valid, crate::specs::Rights::as_counters, crate::specs::Rights::named))]
    pub fn is_valid(self) -> bool
        ensures { result ≡ is_valid self }
    {
        let c = self.as_counters();
        c.read == 1 || (c.write == 0 && c.exec == 0)
    }

    // 1 for each right that is named.
    #[tactic(auto, unfolding(crate::specs::Rights::as_counters, crate::specs::Rights::named))]
    pub fn as_counters(self) -> Counters
        ensures { result ≡ as_counters self }
    {
        Counters {
            read: self.0 / MemOps::READ.0 % 2,
            write: self.0 / MemOps::WRITE.0 % 2,
            exec: self.0 / MemOps::EXEC.0 % 2,
            supervisor: self.0 / MemOps::SUPER.0 % 2,
            uncacheable: self.0 / MemOps::UNCACHEABLE.0 % 2,
            device: self.0 / MemOps::DEVICE.0 % 2,
        }
    }
}

// The right's flag where its count is above 0.
fn flag_of(flag: u64, count: u64) -> u64
    ensures { (result ≡ flag * bit (0 <? count)) × (result ≤ flag) }
{
    if count == 0 { 0 } else { flag }
}

impl Region {
    #[tactic(auto, unfolding(crate::specs::Regions::has, crate::specs::Tests::inside))]
    pub fn contains(self, addr: HostAddr) -> bool
        ensures { result ≡ has self addr }
    {
        self.start <= addr && addr < self.end
    }

    #[tactic(auto, unfolding(crate::specs::Regions::same, crate::specs::Rights::RIGHTS))]
    pub fn same_counts(self, other: Region) -> bool
        ensures { result ≡ same self.values other.values }
    {
        self.values == other.values
    }

    // The rights with a count above 0.
    #[tactic(auto, unfolding(crate::specs::Values::rights_of, crate::specs::Rights::RIGHTS))]
    pub fn get_ops(self) -> MemOps
        ensures { result ≡ rights_of self.values }
    {
        let c = self.values.counters;
        let read = flag_of(1, c.read);
        let write = flag_of(2, c.write);
        let exec = flag_of(4, c.exec);
        let supervisor = flag_of(8, c.supervisor);
        let uncacheable = flag_of(16, c.uncacheable);
        let device = flag_of(32, c.device);
        MemOps(read + write + exec + supervisor + uncacheable + device)
    }
}
