ghost use Rattle.format.specs.Layout.{index_a};
ghost use Rattle.layouts.specs.Lies.{lie_index_a};

use super::{Form, Layout, Span, TableColumn, column};

// Index a: A2 "I ", system I2 (1..19), A30, sheets I3, number of b records I2, number of c records I4, two flags I1
// (0,1), year I4, A30, version I1 (1), blank use I1, 3X.
#[derive(Clone, Copy)]
pub struct IndexA {}

impl IndexA {
    pub const TYPE_WIDTH: usize = 2;

    pub const SYSTEM_WIDTH: usize = 2;

    pub const PLANNING_AGENCY_WIDTH: usize = 30;

    pub const SHEETS_WIDTH: usize = 3;

    pub const B_RECORDS_WIDTH: usize = 2;

    pub const C_RECORDS_WIDTH: usize = 4;

    pub const SHIFT_FLAG_WIDTH: usize = 1;

    pub const BREAK_FLAG_WIDTH: usize = 1;

    pub const YEAR_WIDTH: usize = 4;

    pub const REGULATION_WIDTH: usize = 30;

    pub const VERSION_WIDTH: usize = 1;

    pub const BLANK_USE_WIDTH: usize = 1;

    pub const BLANK_WIDTH: usize = 3;

    pub const TYPE_START: usize = 0;

    pub const SYSTEM_START: usize = Self::TYPE_START + Self::TYPE_WIDTH;

    pub const PLANNING_AGENCY_START: usize = Self::SYSTEM_START + Self::SYSTEM_WIDTH;

    pub const SHEETS_START: usize = Self::PLANNING_AGENCY_START + Self::PLANNING_AGENCY_WIDTH;

    pub const B_RECORDS_START: usize = Self::SHEETS_START + Self::SHEETS_WIDTH;

    pub const C_RECORDS_START: usize = Self::B_RECORDS_START + Self::B_RECORDS_WIDTH;

    pub const SHIFT_FLAG_START: usize = Self::C_RECORDS_START + Self::C_RECORDS_WIDTH;

    pub const BREAK_FLAG_START: usize = Self::SHIFT_FLAG_START + Self::SHIFT_FLAG_WIDTH;

    pub const YEAR_START: usize = Self::BREAK_FLAG_START + Self::BREAK_FLAG_WIDTH;

    pub const REGULATION_START: usize = Self::YEAR_START + Self::YEAR_WIDTH;

    pub const VERSION_START: usize = Self::REGULATION_START + Self::REGULATION_WIDTH;

    pub const BLANK_USE_START: usize = Self::VERSION_START + Self::VERSION_WIDTH;

    pub const BLANK_START: usize = Self::BLANK_USE_START + Self::BLANK_USE_WIDTH;

    pub const END: usize = Self::BLANK_START + Self::BLANK_WIDTH;
}

impl Layout for IndexA {
    ghost columns = { index_a };

    ghost lie = { lie_index_a };

    fn end() -> usize {
        Self::END
    }

    #[tactic(auto, unfolding(crate::specs::Tables::spans_of, format::specs::Layout::index_a))]
    fn spans() -> &'static [Span] {
        &[
            Span(Self::TYPE_START, Self::TYPE_WIDTH),
            Span(Self::SYSTEM_START, Self::SYSTEM_WIDTH),
            Span(Self::PLANNING_AGENCY_START, Self::PLANNING_AGENCY_WIDTH),
            Span(Self::SHEETS_START, Self::SHEETS_WIDTH),
            Span(Self::B_RECORDS_START, Self::B_RECORDS_WIDTH),
            Span(Self::C_RECORDS_START, Self::C_RECORDS_WIDTH),
            Span(Self::SHIFT_FLAG_START, Self::SHIFT_FLAG_WIDTH),
            Span(Self::BREAK_FLAG_START, Self::BREAK_FLAG_WIDTH),
            Span(Self::YEAR_START, Self::YEAR_WIDTH),
            Span(Self::REGULATION_START, Self::REGULATION_WIDTH),
            Span(Self::VERSION_START, Self::VERSION_WIDTH),
            Span(Self::BLANK_USE_START, Self::BLANK_USE_WIDTH),
            Span(Self::BLANK_START, Self::BLANK_WIDTH),
        ]
    }

    fn table() -> &'static [TableColumn] {
        &[
            column!(Self::SYSTEM_START, Self::SYSTEM_WIDTH => Integer, 1, 19),
            column!(Self::SHEETS_START, Self::SHEETS_WIDTH => Integer, 0, 999),
            column!(Self::B_RECORDS_START, Self::B_RECORDS_WIDTH => Integer, 0, 99),
            column!(Self::C_RECORDS_START, Self::C_RECORDS_WIDTH => Integer, 0, 9999),
            column!(Self::SHIFT_FLAG_START, Self::SHIFT_FLAG_WIDTH => Integer, 0, 1),
            column!(Self::BREAK_FLAG_START, Self::BREAK_FLAG_WIDTH => Integer, 0, 1),
            column!(Self::YEAR_START, Self::YEAR_WIDTH => Integer, 0, 9999),
            column!(Self::VERSION_START, Self::VERSION_WIDTH => Integer, 1, 1),
            column!(Self::BLANK_USE_START, Self::BLANK_USE_WIDTH => Integer, 0, 9),
            column!(Self::BLANK_START, Self::BLANK_WIDTH => Blank, 0, 0),
        ]
    }
}
