/// A head in flight and its counter. Marks compare by counter, and by head where two have one counter.
#[derive(Clone, Copy, Debug, PartialEq, Eq, PartialOrd, Ord)]
pub struct Mark {
    pub counter: u64,
    pub head: u16,
}
