ghost use Rattle.format.specs.Layout.{data_note};
ghost use Rattle.layouts.specs.Lies.{lie_data_note};

use super::{Form, Layout, Span, TableColumn, column};

// Data note: I1 (0,1), direction I7, I5, I5, I2, A64.
#[derive(Clone, Copy)]
pub struct DataNote {}

impl DataNote {
    pub const WRITING_DIRECTION_WIDTH: usize = 1;

    pub const DIRECTION_WIDTH: usize = 7;

    pub const LETTER_SIZE_WIDTH: usize = 5;

    pub const LETTER_SPACING_WIDTH: usize = 5;

    pub const LINE_WEIGHT_WIDTH: usize = 2;

    pub const TEXT_WIDTH: usize = 64;

    pub const WRITING_DIRECTION_START: usize = 0;

    pub const DIRECTION_START: usize = Self::WRITING_DIRECTION_START
        + Self::WRITING_DIRECTION_WIDTH;

    pub const LETTER_SIZE_START: usize = Self::DIRECTION_START + Self::DIRECTION_WIDTH;

    pub const LETTER_SPACING_START: usize = Self::LETTER_SIZE_START + Self::LETTER_SIZE_WIDTH;

    pub const LINE_WEIGHT_START: usize = Self::LETTER_SPACING_START + Self::LETTER_SPACING_WIDTH;

    pub const TEXT_START: usize = Self::LINE_WEIGHT_START + Self::LINE_WEIGHT_WIDTH;

    pub const END: usize = Self::TEXT_START + Self::TEXT_WIDTH;
}

impl Layout for DataNote {
    ghost columns = { data_note };

    ghost lie = { lie_data_note };

    fn end() -> usize {
        Self::END
    }

    #[tactic(auto, unfolding(crate::specs::Tables::spans_of, format::specs::Layout::data_note))]
    fn spans() -> &'static [Span] {
        &[
            Span(Self::WRITING_DIRECTION_START, Self::WRITING_DIRECTION_WIDTH),
            Span(Self::DIRECTION_START, Self::DIRECTION_WIDTH),
            Span(Self::LETTER_SIZE_START, Self::LETTER_SIZE_WIDTH),
            Span(Self::LETTER_SPACING_START, Self::LETTER_SPACING_WIDTH),
            Span(Self::LINE_WEIGHT_START, Self::LINE_WEIGHT_WIDTH),
            Span(Self::TEXT_START, Self::TEXT_WIDTH),
        ]
    }

    fn table() -> &'static [TableColumn] {
        &[
            column!(Self::WRITING_DIRECTION_START, Self::WRITING_DIRECTION_WIDTH => Integer, 0, 1),
            column!(Self::DIRECTION_START, Self::DIRECTION_WIDTH => Integer, -999999, 9999999),
            column!(Self::LETTER_SIZE_START, Self::LETTER_SIZE_WIDTH => Integer, 0, 99999),
            column!(Self::LETTER_SPACING_START, Self::LETTER_SPACING_WIDTH => Integer, 0, 99999),
            column!(Self::LINE_WEIGHT_START, Self::LINE_WEIGHT_WIDTH => Integer, 0, 99),
        ]
    }
}
