// The answers of document 01. What each case means on paper stands in specs/Answers.antt.
#![tactic(auto)]

ghost use Rattle.std.specs.Prelude.{◌≡◌};
ghost use Rattle.format.specs.Reasons.{refusal_number, refusal_for, Numbers};

// What an integer column says. No Result: a minus before zeros is a case of its own, which some columns may take as 0.
#[derive(Clone, Copy, PartialEq, Eq, Debug)]
pub enum Column {
    Value(i64),
    MinusZero,
    Malformed,
}

// Why a call refuses, in the order of document 01's numbers: 1 to 19, and 27.
#[derive(Clone, Copy, PartialEq, Eq, Debug)]
pub enum Reason {
    Length,
    FileType,
    MissingRecord,
    RecordType,
    Malformed,
    OutsideRange,
    Level,
    DataRule,
    Fraction,
    Count,
    Place,
    Block,
    BlockLevel,
    Limit,
    Room,
    Number,
    RecordNumber,
    LineEnd,
    Directory,
    Edition,
}

// A refusal: why, and the record that it names, 0 where it names none.
#[derive(Clone, Copy, PartialEq, Eq, Debug)]
pub struct Refusal {
    pub reason: Reason,
    pub at: usize,
}

impl Reason {
    // The number of document 01.
    pub fn number(self) -> u8
        ensures { result ≡ refusal_number self }
    {
        match self {
            Reason::Length => 1,
            Reason::FileType => 2,
            Reason::MissingRecord => 3,
            Reason::RecordType => 4,
            Reason::Malformed => 5,
            Reason::OutsideRange => 6,
            Reason::Level => 7,
            Reason::DataRule => 8,
            Reason::Fraction => 9,
            Reason::Count => 10,
            Reason::Place => 11,
            Reason::Block => 12,
            Reason::BlockLevel => 13,
            Reason::Limit => 14,
            Reason::Room => 15,
            Reason::Number => 16,
            Reason::RecordNumber => 17,
            Reason::LineEnd => 18,
            Reason::Directory => 19,
            Reason::Edition => 27,
        }
    }

    // The refusal for this reason that names a record.
    pub fn at(self, record: usize) -> Refusal
        ensures { result ≡ refusal_for self «record» }
    {
        Refusal {
            reason: self,
            at: record,
        }
    }
}

// A number that no refusal has.
#[derive(Clone, Copy, PartialEq, Eq, Debug)]
pub struct UnknownNumber(pub u64);

impl TryFrom<u64> for Reason {
    type Error = UnknownNumber;

    ghost try_from_gives = { Numbers };

    fn try_from(number: u64) -> Result<Self, UnknownNumber> {
        match number {
            1 => Ok(Reason::Length),
            2 => Ok(Reason::FileType),
            3 => Ok(Reason::MissingRecord),
            4 => Ok(Reason::RecordType),
            5 => Ok(Reason::Malformed),
            6 => Ok(Reason::OutsideRange),
            7 => Ok(Reason::Level),
            8 => Ok(Reason::DataRule),
            9 => Ok(Reason::Fraction),
            10 => Ok(Reason::Count),
            11 => Ok(Reason::Place),
            12 => Ok(Reason::Block),
            13 => Ok(Reason::BlockLevel),
            14 => Ok(Reason::Limit),
            15 => Ok(Reason::Room),
            16 => Ok(Reason::Number),
            17 => Ok(Reason::RecordNumber),
            18 => Ok(Reason::LineEnd),
            19 => Ok(Reason::Directory),
            27 => Ok(Reason::Edition),
            _ => Err(UnknownNumber(number)),
        }
    }
}

// A corner: whole metres and the fraction.
#[derive(Clone, Copy, PartialEq, Eq, Debug)]
pub struct Corner {
    pub whole: i64,
    pub fraction: i64,
}

// What an accepted file holds: records, and items.
#[derive(Clone, Copy, PartialEq, Eq, Debug)]
pub struct Counts {
    pub records: usize,
    pub items: usize,
}

// A block that is exactly one item: the count of a header that the item belongs to (1 to 8 for E1 to E8, 9 for a grid or a net) and its level.
// Kept: the kind is a number, since it is the index of a header's count (`Record.count_index`).
#[derive(Clone, Copy, PartialEq, Eq, Debug)]
pub struct BlockItem {
    pub kind: usize,
    pub level: usize,
}

// The way up: the record number of the header above, and how many headers were passed.
#[derive(Clone, Copy, PartialEq, Eq, Debug)]
pub struct HeaderAbove {
    pub header: usize,
    pub passed: u8,
}
