// remapper.rs: a segment and a mapping, without the list that links the segments.
use crate::addr::{GuestAddr, HostAddr};
use crate::region::MemOps;

#[derive(Clone, Copy)]
pub struct Segment {
    pub hpa: HostAddr,
    pub gpa: GuestAddr,
    pub size: u64,
    pub repeat: u64,
}

#[derive(Clone, Copy)]
pub struct Mapping {
    pub hpa: HostAddr,
    pub gpa: GuestAddr,
    pub size: u64,
    pub repeat: u64,
    pub ops: MemOps,
}
