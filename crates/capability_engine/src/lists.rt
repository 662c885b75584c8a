// What the mapping stream of a compartment is read of, lent: its records lie in the pool's words, linked, and its segments are numbers in list
// order, four each.
ghost use Rattle.capability_engine.specs.StreamCursor.{Table};
ghost use Rattle.capability_engine.specs.StreamProps.{Table-prop};

#[derive(Clone, Copy)]
pub(crate) struct Lists<'a> {
    pub(crate) next: &'a [usize],
    pub(crate) words: &'a [u64],
    pub(crate) segments: &'a [u64],
    // how many segments
    pub(crate) n: usize,
    ghost table: { Table words.now segments.now n } by { Table-prop words.now segments.now n },
}
