ghost use Rattle.format.specs.Layout.{index_b};
ghost use Rattle.layouts.specs.Lies.{lie_index_b};

use super::{Form, Layout, Span, TableColumn, column};

// Index b: ten A8, 4X.
#[derive(Clone, Copy)]
pub struct IndexB {}

impl IndexB {
    pub const SHEET_1_WIDTH: usize = 8;

    pub const SHEET_2_WIDTH: usize = 8;

    pub const SHEET_3_WIDTH: usize = 8;

    pub const SHEET_4_WIDTH: usize = 8;

    pub const SHEET_5_WIDTH: usize = 8;

    pub const SHEET_6_WIDTH: usize = 8;

    pub const SHEET_7_WIDTH: usize = 8;

    pub const SHEET_8_WIDTH: usize = 8;

    pub const SHEET_9_WIDTH: usize = 8;

    pub const SHEET_10_WIDTH: usize = 8;

    pub const BLANK_WIDTH: usize = 4;

    pub const SHEET_1_START: usize = 0;

    pub const SHEET_2_START: usize = Self::SHEET_1_START + Self::SHEET_1_WIDTH;

    pub const SHEET_3_START: usize = Self::SHEET_2_START + Self::SHEET_2_WIDTH;

    pub const SHEET_4_START: usize = Self::SHEET_3_START + Self::SHEET_3_WIDTH;

    pub const SHEET_5_START: usize = Self::SHEET_4_START + Self::SHEET_4_WIDTH;

    pub const SHEET_6_START: usize = Self::SHEET_5_START + Self::SHEET_5_WIDTH;

    pub const SHEET_7_START: usize = Self::SHEET_6_START + Self::SHEET_6_WIDTH;

    pub const SHEET_8_START: usize = Self::SHEET_7_START + Self::SHEET_7_WIDTH;

    pub const SHEET_9_START: usize = Self::SHEET_8_START + Self::SHEET_8_WIDTH;

    pub const SHEET_10_START: usize = Self::SHEET_9_START + Self::SHEET_9_WIDTH;

    pub const BLANK_START: usize = Self::SHEET_10_START + Self::SHEET_10_WIDTH;

    pub const END: usize = Self::BLANK_START + Self::BLANK_WIDTH;
}

impl Layout for IndexB {
    ghost columns = { index_b };

    ghost lie = { lie_index_b };

    fn end() -> usize {
        Self::END
    }

    #[tactic(auto, unfolding(crate::specs::Tables::spans_of, format::specs::Layout::index_b))]
    fn spans() -> &'static [Span] {
        &[
            Span(Self::SHEET_1_START, Self::SHEET_1_WIDTH),
            Span(Self::SHEET_2_START, Self::SHEET_2_WIDTH),
            Span(Self::SHEET_3_START, Self::SHEET_3_WIDTH),
            Span(Self::SHEET_4_START, Self::SHEET_4_WIDTH),
            Span(Self::SHEET_5_START, Self::SHEET_5_WIDTH),
            Span(Self::SHEET_6_START, Self::SHEET_6_WIDTH),
            Span(Self::SHEET_7_START, Self::SHEET_7_WIDTH),
            Span(Self::SHEET_8_START, Self::SHEET_8_WIDTH),
            Span(Self::SHEET_9_START, Self::SHEET_9_WIDTH),
            Span(Self::SHEET_10_START, Self::SHEET_10_WIDTH),
            Span(Self::BLANK_START, Self::BLANK_WIDTH),
        ]
    }

    fn table() -> &'static [TableColumn] {
        &[column!(Self::BLANK_START, Self::BLANK_WIDTH => Blank, 0, 0)]
    }
}
