// The engine's plain types, by value, with the pure methods on them. What they mean is in specs/.
#![tactic(auto)]

mod addr;
mod answer;
mod call;
mod region;
mod remapper;

pub use addr::{GuestAddr, HostAddr};
pub use answer::{Answer, Refusal, number_of, value_of};
pub use call::Call;
pub use region::{Counters, MemOps, MemoryPermission, RECORD_LEN, Region, Values};
pub use remapper::{Mapping, Segment};
