ghost use Rattle.format.specs.Layout.{sheet_d};
ghost use Rattle.layouts.specs.Lies.{lie_sheet_d};

use super::{Form, Layout, Span, TableColumn, column};

// Sheet d: A4, A4, courses I1, number of f records I1, A30, A30, I1 (0..2), I1 and I1 (each 0..3 or 9; the sources
// disagree on which is which), 11X.
#[derive(Clone, Copy)]
pub struct SheetD {}

impl SheetD {
    pub const MADE_WIDTH: usize = 4;

    pub const SURVEYED_WIDTH: usize = 4;

    pub const COURSES_WIDTH: usize = 1;

    pub const F_RECORDS_WIDTH: usize = 1;

    pub const DEVICE_WIDTH: usize = 30;

    pub const APPROVAL_WIDTH: usize = 30;

    pub const DATUM_WIDTH: usize = 1;

    pub const FIRST_CODE_WIDTH: usize = 1;

    pub const SECOND_CODE_WIDTH: usize = 1;

    pub const BLANK_WIDTH: usize = 11;

    pub const MADE_START: usize = 0;

    pub const SURVEYED_START: usize = Self::MADE_START + Self::MADE_WIDTH;

    pub const COURSES_START: usize = Self::SURVEYED_START + Self::SURVEYED_WIDTH;

    pub const F_RECORDS_START: usize = Self::COURSES_START + Self::COURSES_WIDTH;

    pub const DEVICE_START: usize = Self::F_RECORDS_START + Self::F_RECORDS_WIDTH;

    pub const APPROVAL_START: usize = Self::DEVICE_START + Self::DEVICE_WIDTH;

    pub const DATUM_START: usize = Self::APPROVAL_START + Self::APPROVAL_WIDTH;

    pub const FIRST_CODE_START: usize = Self::DATUM_START + Self::DATUM_WIDTH;

    pub const SECOND_CODE_START: usize = Self::FIRST_CODE_START + Self::FIRST_CODE_WIDTH;

    pub const BLANK_START: usize = Self::SECOND_CODE_START + Self::SECOND_CODE_WIDTH;

    pub const END: usize = Self::BLANK_START + Self::BLANK_WIDTH;
}

impl Layout for SheetD {
    ghost columns = { sheet_d };

    ghost lie = { lie_sheet_d };

    fn end() -> usize {
        Self::END
    }

    #[tactic(auto, unfolding(crate::specs::Tables::spans_of, format::specs::Layout::sheet_d))]
    fn spans() -> &'static [Span] {
        &[
            Span(Self::MADE_START, Self::MADE_WIDTH),
            Span(Self::SURVEYED_START, Self::SURVEYED_WIDTH),
            Span(Self::COURSES_START, Self::COURSES_WIDTH),
            Span(Self::F_RECORDS_START, Self::F_RECORDS_WIDTH),
            Span(Self::DEVICE_START, Self::DEVICE_WIDTH),
            Span(Self::APPROVAL_START, Self::APPROVAL_WIDTH),
            Span(Self::DATUM_START, Self::DATUM_WIDTH),
            Span(Self::FIRST_CODE_START, Self::FIRST_CODE_WIDTH),
            Span(Self::SECOND_CODE_START, Self::SECOND_CODE_WIDTH),
            Span(Self::BLANK_START, Self::BLANK_WIDTH),
        ]
    }

    fn table() -> &'static [TableColumn] {
        &[
            column!(Self::COURSES_START, Self::COURSES_WIDTH => Integer, 0, 9),
            column!(Self::F_RECORDS_START, Self::F_RECORDS_WIDTH => Integer, 0, 9),
            column!(Self::DATUM_START, Self::DATUM_WIDTH => Integer, 0, 2),
            column!(Self::FIRST_CODE_START, Self::FIRST_CODE_WIDTH => Integer, 0, 9),
            column!(Self::SECOND_CODE_START, Self::SECOND_CODE_WIDTH => Integer, 0, 9),
            column!(Self::BLANK_START, Self::BLANK_WIDTH => Blank, 0, 0),
        ]
    }
}
