// The capability engine: the tables of eight compartments over one pool of 1,024 records, and the scripts that run on them.
#![tactic(auto)]

mod compartments;
mod lists;
mod region;
mod remapper;
mod script;
mod stream;

pub use compartments::{Tables, index_of};
pub use region::{POOL_LEN, RegionTracker};
pub use remapper::Remapper;
pub use script::{Progress, Script};
