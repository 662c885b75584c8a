// The layouts, a row for each call.

// Fresh tables, or a call: its compartment, then an add's or a remove's start, end and rights, the range whose greatest count is
// asked for, the permission to read from, or the allowance.
#[derive(Clone, Copy)]
pub(crate) enum Row {
    Fresh,
    Add(u64, u64, u64, u64),
    Remove(u64, u64, u64, u64),
    Count(u64, u64, u64),
    Permissions(u64, u64),
    Allow(u64, u64),
}

use Row::{Add, Allow, Count, Fresh, Permissions, Remove};

impl Row {
    // As the output names it: the call's number, and four more.
    pub(crate) fn numbers(self) -> [u64; 5] {
        match self {
            Fresh => [0; 5],
            Add(k, start, end, rights) => [1, k, start, end, rights],
            Remove(k, start, end, rights) => [2, k, start, end, rights],
            Count(k, start, end) => [3, k, start, end, 0],
            Permissions(k, from) => [4, k, from, 0, 0],
            Allow(k, allowance) => [5, k, allowance, 0, 0],
        }
    }
}

pub(crate) const LAYOUTS: [Row; 131] = [
    Add(0, 0, 10, 1), // records [0,5) 1, [5,10) 3, [10,15) 3, unjoined
    Add(0, 5, 15, 3),
    Permissions(0, 0),
    Remove(0, 5, 15, 3), // one record [0,10) 1
    Permissions(0, 0),
    Fresh,
    Add(0, 0, 10, 1), // uncacheable is counted: it has come
    Add(0, 0, 10, 17),
    Permissions(0, 0),
    Fresh,
    Add(0, 0, 10, 17), // and it has gone
    Add(0, 0, 10, 1),
    Remove(0, 0, 10, 17),
    Permissions(0, 0),
    Remove(0, 0, 10, 16), // 8: its count is 0
    Fresh,
    Add(0, 0, 10, 17),
    Add(0, 0, 5, 1),
    Add(0, 5, 10, 17), // counted twice there, once below
    Permissions(0, 0), // so two records, of the same rights
    Remove(0, 5, 10, 17),
    Add(0, 5, 10, 1), // counted once in both
    Permissions(0, 0), // so one record
    Fresh,
    Add(0, 0, 10, 17),
    Remove(0, 0, 10, 1), // the last holder takes the count along
    Add(0, 0, 10, 1),
    Permissions(0, 0),
    Fresh,
    Add(0, 0, 10, 3),
    Add(0, 4, 6, 33), // a buffer lent to a device: it has come
    Permissions(0, 0), // so three records
    Remove(0, 4, 6, 33), // taken back: it has gone
    Permissions(0, 0), // so one record
    Remove(0, 0, 10, 32), // 8: its count is 0
    Fresh,
    Add(0, 0, 10, 33),
    Add(0, 0, 5, 1),
    Add(0, 5, 10, 33), // counted twice there, once below
    Permissions(0, 0), // so two records, of the same rights
    Remove(0, 5, 10, 33),
    Add(0, 5, 10, 1), // counted once in both
    Permissions(0, 0), // so one record
    Fresh,
    Add(0, 0, 10, 32), // no right but this one
    Permissions(0, 0),
    Remove(0, 0, 10, 0), // the last holder takes the count along
    Add(0, 0, 10, 1),
    Permissions(0, 0),
    Fresh,
    Remove(0, 12, 25, 1), // on an empty table 6
    Add(0, 0, 10, 1),
    Add(0, 20, 30, 1),
    Remove(0, 12, 25, 1), // 7
    Remove(0, 0, 25, 1), // over the gap, leaves [25,30)
    Permissions(0, 0),
    Count(0, 0, 30),
    Count(0, 0, 25),
    Count(1, 0, 30),
    Remove(0, 25, 30, 2), // 8
    Add(0, 25, 25, 1), // an empty range
    Add(0, 30, 25, 1), // 3
    Add(0, 30, 25, 64), // 2
    Add(8, 0, 1, 1), // 1
    Add(0, 0, 18446744073709551615, 63),
    Permissions(0, 1), // from the second on
    Permissions(0, 4), // past the last
    Permissions(8, 0),
    Remove(7, 0, 1, 1), // another compartment is empty
    Add(7, 0, 1, 8),
    Permissions(7, 0),
    Count(0, 27, 28),
    Fresh,
    Allow(0, 129), // 8 times 128 is all there is: 18
    Allow(0, u64::MAX), // and no sum wraps
    Allow(8, 0), // 1
    Allow(1, 127), // what another gives up
    Allow(0, 129), // can be had
    Fresh,
    Allow(0, 1),
    Add(0, 0, 10, 1),
    Add(0, 20, 30, 1), // 5, with most of the pool free
    Remove(0, 0, 5, 1), // 5: the cut would need a record
    Add(1, 20, 30, 1), // a neighbour has its own
    Allow(0, 2),
    Add(0, 20, 30, 1),
    Allow(0, 1), // two are in use: 19
    Allow(0, 2), // down to what is in use
    Permissions(0, 0),
    Fresh,
    Add(0, 0, 10, 3),
    Add(0, 20, 30, 1),
    Allow(0, 5),
    Permissions(0, 0),
    Add(0, 5, 25, 3), // a loan over a gap: five records, as many as are allowed
    Permissions(0, 0),
    Permissions(0, 3),
    Add(1, 5, 25, 3), // the others go on
    Allow(1, 1),
    Remove(2, 5, 25, 3),
    Remove(0, 5, 25, 3), // handed back
    Permissions(0, 0),
    Add(0, 7, 7, 63), // an empty loan
    Remove(0, 7, 7, 63),
    Permissions(0, 0),
    Fresh,
    Add(0, 0, 10, 1),
    Add(0, 0, 5, 1),
    Allow(0, 2),
    Permissions(0, 0),
    Add(0, 5, 10, 1), // a loan that joins the two records that are allowed
    Permissions(0, 0),
    Remove(0, 5, 10, 1), // and parts them again
    Permissions(0, 0),
    Count(0, 0, 5),
    Count(0, 5, 10),
    Add(0, 5, 10, 1),
    Allow(0, 1), // its own allowance in between is a call for it
    Remove(0, 5, 10, 1),
    Allow(0, 2),
    Remove(0, 5, 10, 1),
    Permissions(0, 0),
    Fresh,
    Allow(1, 0), // the others to 0, then one has the whole pool
    Allow(2, 0),
    Allow(3, 0),
    Allow(4, 0),
    Allow(5, 0),
    Allow(6, 0),
    Allow(7, 0),
    Allow(0, 1024),
];
