// Data rules, on the numbers that a record states. Bounds are those of the columns: I4 for an element and a grid, I6 for a net.
ghost use Rattle.std.specs.Prelude.{◌≡◌, ◌≤◌, ◌<◌};
ghost use Rattle.format.specs.Basics.{round_up};
ghost use Rattle.format.specs.Record.{data_of, coordinates, kind_and_count, element_records, grid_states, net_needs};
ghost use Rattle.records.specs.Entry.{to_held};
ghost use Rattle.records.specs.Steps.{element_type};

use super::Held;

// What an element states of its data.
// Kept: the kind is a number, since the contracts say by document 01's rules (kind_and_count, element_records, data_of) what each number means.
#[derive(Clone, Copy, PartialEq, Eq, Debug)]
pub(crate) struct ElementData {
    pub kind: usize,
    pub count: usize,
}

impl ElementData {
    // Data kinds 2, 3 and 6 are points.
    fn is_points(self) -> bool
        ensures { result ≡ coordinates self.kind }
    {
        matches!(self.kind, 2 | 3 | 6)
    }

    // Whether an element may have them, by its type, E1 to E8.
    #[tactic(auto, unfolding(crate::specs::Steps::element_type))]
    pub(crate) fn allowed(self, element: usize) -> bool
        requires { (1 ≤ element) × (element ≤ 8) }
        ensures { result ≡ kind_and_count (element_type element) self.kind self.count }
    {
        let Self { kind, count } = self;
        let points = self.is_points();
        match element {
            1 | 2 => points & (1 <= count),
            3 | 4 => points & (count == 3),
            5 => (((kind == 0) | (kind == 1)) & (count == 0)) | (points & (1 <= count)),
            6 => points & (count % 2 == 0) & (2 <= count),
            7 => (kind == 4) & (1 <= count),
            _ => (kind == 5) & (1 <= count),
        }
    }

    // How many data records it has.
    #[tactic(auto, unfolding(format::specs::Record::element_records))]
    pub(crate) fn records(self) -> usize
        ensures { result ≡ element_records self.kind self.count }
    {
        match self.kind {
            2 => self.count.div_ceil(6),
            3 | 6 => self.count.div_ceil(4),
            4 => self.count.div_ceil(64),
            5 => self.count,
            _ => 0,
        }
    }

    // What they hold.
    pub(crate) fn held(self) -> Held
        ensures { result ≡ to_held (data_of self.kind self.count) }
    {
        match self.kind {
            2 => Held::Points2D(self.count),
            3 | 6 => Held::Points3D(self.count),
            4 => Held::Notes,
            5 => Held::Attributes,
            _ => Held::Nothing,
        }
    }
}

// The data records that a grid states; repeat is 1 to 9, and a malformed one, 0, adds none.
#[tactic(auto, unfolding(format::specs::Record::grid_states))]
pub(crate) fn grid_states(repeat: usize, records: usize) -> usize
    requires { (repeat < 10) × (records < 10000) }
    ensures { result ≡ grid_states repeat records }
{
    repeat.saturating_sub(1) * 10000 + records
}

// The data records that it needs for so many heights.
pub(crate) fn grid_needs(heights: usize) -> usize
    ensures { result ≡ round_up heights 12 }
{
    heights.div_ceil(12)
}

#[tactic(auto, unfolding(format::specs::Record::net_needs))]
pub(crate) fn net_needs(triangles: usize) -> usize
    requires { triangles < 1000000 }
    ensures { result ≡ net_needs triangles }
{
    (3 * triangles).div_ceil(4)
}
