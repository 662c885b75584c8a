// The calls that name a compartment, which is the first number of each.
ghost use Rattle.std.specs.Prelude.{◌≡◌};
ghost use Rattle.definitions.specs.Reckoning.{compartment_of};

use crate::addr::{GuestAddr, HostAddr};

#[derive(Clone, Copy)]
pub enum Call {
    Add(u64, HostAddr, HostAddr, u64), // start, end, rights
    Remove(u64, HostAddr, HostAddr, u64), // start, end, rights
    Refcount(u64, HostAddr, HostAddr), // start, end
    Overlaps(u64, GuestAddr, u64), // start, size
    Map(u64, HostAddr, GuestAddr, u64, u64), // hpa, gpa, size, repeat
    Unmap(u64, HostAddr, u64), // hpa, size
    UnmapGpa(u64, GuestAddr, u64), // gpa, size
    Permissions(u64, u64, u64), // a page from this permission on, into so many numbers
    Remap(u64, u64, u64), // a page from this mapping on, into so many numbers
    Mappings(u64), // how many mappings the stream has
    Allow(u64, u64), // the allowance of records that the compartment gets
}

impl Call {
    // The compartment that the call names.
    #[tactic(auto, unfolding(crate::specs::Reckoning::compartment_of))]
    pub fn compartment(self) -> u64
        ensures { result ≡ compartment_of self }
    {
        match self {
            Call::Add(k, _, _, _)
            | Call::Remove(k, _, _, _)
            | Call::Refcount(k, _, _)
            | Call::Overlaps(k, _, _)
            | Call::Map(k, _, _, _, _)
            | Call::Unmap(k, _, _)
            | Call::UnmapGpa(k, _, _)
            | Call::Permissions(k, _, _)
            | Call::Remap(k, _, _)
            | Call::Mappings(k)
            | Call::Allow(k, _) => k,
        }
    }
}
