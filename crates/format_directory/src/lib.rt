// A directory of layers behind a sheet: what is right, and what judging, appending and jumping answer. The meaning stands in specs/Directory.antt, the
// claims in proofs/Claims.antt.
#![tactic(auto)]

// The edition of a directory: what its records list of a layer, and how.
#[derive(Clone, Copy, PartialEq, Eq, Debug)]
pub enum Edition {
    One,
    Two,
}

// A layer as a jump in a directory of either edition answers it: the record number of its header, the total of its items, at any depth, and the number of its
// last record, both 0 for the first edition.
#[derive(Clone, Copy, PartialEq, Eq, Debug)]
pub struct LayerEntry {
    pub header: usize,
    pub total: usize,
    pub last: usize,
}
