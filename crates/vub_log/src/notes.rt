// What the parties of a shared log note. Only proofs see these: no value of them is made.
use std::collections::LinkedList;

/// A page that was marked, with the generation that its word had.
pub struct MarkNote {
    pub page: u64,
    pub generation: u64,
}

/// A load of a word: the bits of its 32 pages and its generation, both as found by the one step.
pub struct LoadNote {
    pub word: u64,
    pub bits: u64,
    pub generation: u64,
}

/// A harvest of a word, and the bits that it took.
pub struct HarvestNote {
    pub word: u64,
    pub bits: u64,
}

/// What a party of a shared log noted, each list in order. One party keeps the harvests, and it has all of them.
pub struct Notes {
    pub keeps: bool,
    pub harvests: LinkedList<HarvestNote>,
    pub marks: LinkedList<MarkNote>,
    pub loads: LinkedList<LoadNote>,
}
