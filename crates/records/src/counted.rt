// What the outline of a header or an item is.
ghost use Rattle.std.specs.Prelude.{◌≤◌};

// Kind is 0 for a header, 1 to 8 for E1 to E8, 9 for grid and net. The level is a header's; of an item it is not read, and 0.
// Kept: the kind is a number, since it indexes a Tally, and count_start, count_width and stated_count answer every number.
#[derive(Clone, Copy, PartialEq, Eq, Debug)]
pub struct Outline {
    pub kind: usize,
    pub level: usize,
    pub data_records: usize,
    ghost counted: { kind ≤ 9 },
}
