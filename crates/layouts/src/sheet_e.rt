ghost use Rattle.format.specs.Layout.{sheet_e};
ghost use Rattle.layouts.specs.Lies.{lie_sheet_e};

use super::{Form, Layout, Span, TableColumn, column};

// Sheet e: A40, eight fractions I4 (any sign, corners in the order of b), 12X.
#[derive(Clone, Copy)]
pub struct SheetE {}

impl SheetE {
    pub const SURVEYING_AGENCY_WIDTH: usize = 40;

    pub const LOWER_LEFT_X_WIDTH: usize = 4;

    pub const LOWER_LEFT_Y_WIDTH: usize = 4;

    pub const UPPER_RIGHT_X_WIDTH: usize = 4;

    pub const UPPER_RIGHT_Y_WIDTH: usize = 4;

    pub const UPPER_LEFT_X_WIDTH: usize = 4;

    pub const UPPER_LEFT_Y_WIDTH: usize = 4;

    pub const LOWER_RIGHT_X_WIDTH: usize = 4;

    pub const LOWER_RIGHT_Y_WIDTH: usize = 4;

    pub const BLANK_WIDTH: usize = 12;

    pub const SURVEYING_AGENCY_START: usize = 0;

    pub const LOWER_LEFT_X_START: usize = Self::SURVEYING_AGENCY_START
        + Self::SURVEYING_AGENCY_WIDTH;

    pub const LOWER_LEFT_Y_START: usize = Self::LOWER_LEFT_X_START + Self::LOWER_LEFT_X_WIDTH;

    pub const UPPER_RIGHT_X_START: usize = Self::LOWER_LEFT_Y_START + Self::LOWER_LEFT_Y_WIDTH;

    pub const UPPER_RIGHT_Y_START: usize = Self::UPPER_RIGHT_X_START + Self::UPPER_RIGHT_X_WIDTH;

    pub const UPPER_LEFT_X_START: usize = Self::UPPER_RIGHT_Y_START + Self::UPPER_RIGHT_Y_WIDTH;

    pub const UPPER_LEFT_Y_START: usize = Self::UPPER_LEFT_X_START + Self::UPPER_LEFT_X_WIDTH;

    pub const LOWER_RIGHT_X_START: usize = Self::UPPER_LEFT_Y_START + Self::UPPER_LEFT_Y_WIDTH;

    pub const LOWER_RIGHT_Y_START: usize = Self::LOWER_RIGHT_X_START + Self::LOWER_RIGHT_X_WIDTH;

    pub const BLANK_START: usize = Self::LOWER_RIGHT_Y_START + Self::LOWER_RIGHT_Y_WIDTH;

    pub const END: usize = Self::BLANK_START + Self::BLANK_WIDTH;
}

impl Layout for SheetE {
    ghost columns = { sheet_e };

    ghost lie = { lie_sheet_e };

    fn end() -> usize {
        Self::END
    }

    #[tactic(auto, unfolding(crate::specs::Tables::spans_of, format::specs::Layout::sheet_e))]
    fn spans() -> &'static [Span] {
        &[
            Span(Self::SURVEYING_AGENCY_START, Self::SURVEYING_AGENCY_WIDTH),
            Span(Self::LOWER_LEFT_X_START, Self::LOWER_LEFT_X_WIDTH),
            Span(Self::LOWER_LEFT_Y_START, Self::LOWER_LEFT_Y_WIDTH),
            Span(Self::UPPER_RIGHT_X_START, Self::UPPER_RIGHT_X_WIDTH),
            Span(Self::UPPER_RIGHT_Y_START, Self::UPPER_RIGHT_Y_WIDTH),
            Span(Self::UPPER_LEFT_X_START, Self::UPPER_LEFT_X_WIDTH),
            Span(Self::UPPER_LEFT_Y_START, Self::UPPER_LEFT_Y_WIDTH),
            Span(Self::LOWER_RIGHT_X_START, Self::LOWER_RIGHT_X_WIDTH),
            Span(Self::LOWER_RIGHT_Y_START, Self::LOWER_RIGHT_Y_WIDTH),
            Span(Self::BLANK_START, Self::BLANK_WIDTH),
        ]
    }

    fn table() -> &'static [TableColumn] {
        &[
            column!(Self::LOWER_LEFT_X_START, Self::LOWER_LEFT_X_WIDTH => Integer, -999, 9999),
            column!(Self::LOWER_LEFT_Y_START, Self::LOWER_LEFT_Y_WIDTH => Integer, -999, 9999),
            column!(Self::UPPER_RIGHT_X_START, Self::UPPER_RIGHT_X_WIDTH => Integer, -999, 9999),
            column!(Self::UPPER_RIGHT_Y_START, Self::UPPER_RIGHT_Y_WIDTH => Integer, -999, 9999),
            column!(Self::UPPER_LEFT_X_START, Self::UPPER_LEFT_X_WIDTH => Integer, -999, 9999),
            column!(Self::UPPER_LEFT_Y_START, Self::UPPER_LEFT_Y_WIDTH => Integer, -999, 9999),
            column!(Self::LOWER_RIGHT_X_START, Self::LOWER_RIGHT_X_WIDTH => Integer, -999, 9999),
            column!(Self::LOWER_RIGHT_Y_START, Self::LOWER_RIGHT_Y_WIDTH => Integer, -999, 9999),
            column!(Self::BLANK_START, Self::BLANK_WIDTH => Blank, 0, 0),
        ]
    }
}
