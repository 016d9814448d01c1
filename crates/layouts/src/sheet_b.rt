ghost use Rattle.format.specs.Layout.{sheet_b};
ghost use Rattle.layouts.specs.Lies.{lie_sheet_b};

use super::{Form, Layout, Span, TableColumn, column};

// Sheet b: lower left X, Y, upper right X, Y (I7, any sign), 3 unjudged, element count I6, record count I7, unit I3,
// upper left X, Y, lower right X, Y (I7, any sign), 9X.
#[derive(Clone, Copy)]
pub struct SheetB {}

impl SheetB {
    pub const LOWER_LEFT_X_WIDTH: usize = 7;

    pub const LOWER_LEFT_Y_WIDTH: usize = 7;

    pub const UPPER_RIGHT_X_WIDTH: usize = 7;

    pub const UPPER_RIGHT_Y_WIDTH: usize = 7;

    pub const UNJUDGED_WIDTH: usize = 3;

    pub const ELEMENT_COUNT_WIDTH: usize = 6;

    pub const RECORD_COUNT_WIDTH: usize = 7;

    pub const UNIT_WIDTH: usize = 3;

    pub const UPPER_LEFT_X_WIDTH: usize = 7;

    pub const UPPER_LEFT_Y_WIDTH: usize = 7;

    pub const LOWER_RIGHT_X_WIDTH: usize = 7;

    pub const LOWER_RIGHT_Y_WIDTH: usize = 7;

    pub const BLANK_WIDTH: usize = 9;

    pub const LOWER_LEFT_X_START: usize = 0;

    pub const LOWER_LEFT_Y_START: usize = Self::LOWER_LEFT_X_START + Self::LOWER_LEFT_X_WIDTH;

    pub const UPPER_RIGHT_X_START: usize = Self::LOWER_LEFT_Y_START + Self::LOWER_LEFT_Y_WIDTH;

    pub const UPPER_RIGHT_Y_START: usize = Self::UPPER_RIGHT_X_START + Self::UPPER_RIGHT_X_WIDTH;

    pub const UNJUDGED_START: usize = Self::UPPER_RIGHT_Y_START + Self::UPPER_RIGHT_Y_WIDTH;

    pub const ELEMENT_COUNT_START: usize = Self::UNJUDGED_START + Self::UNJUDGED_WIDTH;

    pub const RECORD_COUNT_START: usize = Self::ELEMENT_COUNT_START + Self::ELEMENT_COUNT_WIDTH;

    pub const UNIT_START: usize = Self::RECORD_COUNT_START + Self::RECORD_COUNT_WIDTH;

    pub const UPPER_LEFT_X_START: usize = Self::UNIT_START + Self::UNIT_WIDTH;

    pub const UPPER_LEFT_Y_START: usize = Self::UPPER_LEFT_X_START + Self::UPPER_LEFT_X_WIDTH;

    pub const LOWER_RIGHT_X_START: usize = Self::UPPER_LEFT_Y_START + Self::UPPER_LEFT_Y_WIDTH;

    pub const LOWER_RIGHT_Y_START: usize = Self::LOWER_RIGHT_X_START + Self::LOWER_RIGHT_X_WIDTH;

    pub const BLANK_START: usize = Self::LOWER_RIGHT_Y_START + Self::LOWER_RIGHT_Y_WIDTH;

    pub const END: usize = Self::BLANK_START + Self::BLANK_WIDTH;
}

impl Layout for SheetB {
    ghost columns = { sheet_b };

    ghost lie = { lie_sheet_b };

    fn end() -> usize {
        Self::END
    }

    #[tactic(auto, unfolding(crate::specs::Tables::spans_of, format::specs::Layout::sheet_b))]
    fn spans() -> &'static [Span] {
        &[
            Span(Self::LOWER_LEFT_X_START, Self::LOWER_LEFT_X_WIDTH),
            Span(Self::LOWER_LEFT_Y_START, Self::LOWER_LEFT_Y_WIDTH),
            Span(Self::UPPER_RIGHT_X_START, Self::UPPER_RIGHT_X_WIDTH),
            Span(Self::UPPER_RIGHT_Y_START, Self::UPPER_RIGHT_Y_WIDTH),
            Span(Self::UNJUDGED_START, Self::UNJUDGED_WIDTH),
            Span(Self::ELEMENT_COUNT_START, Self::ELEMENT_COUNT_WIDTH),
            Span(Self::RECORD_COUNT_START, Self::RECORD_COUNT_WIDTH),
            Span(Self::UNIT_START, Self::UNIT_WIDTH),
            Span(Self::UPPER_LEFT_X_START, Self::UPPER_LEFT_X_WIDTH),
            Span(Self::UPPER_LEFT_Y_START, Self::UPPER_LEFT_Y_WIDTH),
            Span(Self::LOWER_RIGHT_X_START, Self::LOWER_RIGHT_X_WIDTH),
            Span(Self::LOWER_RIGHT_Y_START, Self::LOWER_RIGHT_Y_WIDTH),
            Span(Self::BLANK_START, Self::BLANK_WIDTH),
        ]
    }

    fn table() -> &'static [TableColumn] {
        &[
            column!(Self::LOWER_LEFT_X_START, Self::LOWER_LEFT_X_WIDTH => Integer, -999999, 9999999),
            column!(Self::LOWER_LEFT_Y_START, Self::LOWER_LEFT_Y_WIDTH => Integer, -999999, 9999999),
            column!(Self::UPPER_RIGHT_X_START, Self::UPPER_RIGHT_X_WIDTH => Integer, -999999, 9999999),
            column!(Self::UPPER_RIGHT_Y_START, Self::UPPER_RIGHT_Y_WIDTH => Integer, -999999, 9999999),
            column!(Self::UNJUDGED_START, Self::UNJUDGED_WIDTH => Blank, 0, 0),
            column!(Self::ELEMENT_COUNT_START, Self::ELEMENT_COUNT_WIDTH => Integer, 0, 999999),
            column!(Self::RECORD_COUNT_START, Self::RECORD_COUNT_WIDTH => Integer, 0, 9999999),
            column!(Self::UNIT_START, Self::UNIT_WIDTH => Integer, 0, 999),
            column!(Self::UPPER_LEFT_X_START, Self::UPPER_LEFT_X_WIDTH => Integer, -999999, 9999999),
            column!(Self::UPPER_LEFT_Y_START, Self::UPPER_LEFT_Y_WIDTH => Integer, -999999, 9999999),
            column!(Self::LOWER_RIGHT_X_START, Self::LOWER_RIGHT_X_WIDTH => Integer, -999999, 9999999),
            column!(Self::LOWER_RIGHT_Y_START, Self::LOWER_RIGHT_Y_WIDTH => Integer, -999999, 9999999),
            column!(Self::BLANK_START, Self::BLANK_WIDTH => Blank, 0, 0),
        ]
    }
}
