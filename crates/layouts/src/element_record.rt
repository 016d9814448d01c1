ghost use Rattle.format.specs.Layout.{element};
ghost use Rattle.layouts.specs.Lies.{lie_element};

use super::{Form, Layout, Span, TableColumn, column};

// Element: A2 "E1" to "E8", I4, I2, I4, number I4, level I2, figure I2, data kind I1 (0..6), accuracy I2, note kind I1
// (0..2), shift I2 (-9..9), break I1, data count I4, records I4, X I7, Y I7 (any sign), value I7 (any sign) or seven
// spaces, I2, A7, A4, A4, A4, 6X, repeat I1 (1..9).
#[derive(Clone, Copy)]
pub struct Element {}

impl Element {
    pub const TYPE_WIDTH: usize = 2;

    pub const CLASS_WIDTH: usize = 4;

    pub const AREA_CODE_WIDTH: usize = 2;

    pub const INFORMATION_WIDTH: usize = 4;

    pub const NUMBER_WIDTH: usize = 4;

    pub const LEVEL_WIDTH: usize = 2;

    pub const FIGURE_WIDTH: usize = 2;

    pub const DATA_KIND_WIDTH: usize = 1;

    pub const ACCURACY_WIDTH: usize = 2;

    pub const NOTE_KIND_WIDTH: usize = 1;

    pub const SHIFT_WIDTH: usize = 2;

    pub const BREAK_WIDTH: usize = 1;

    pub const DATA_COUNT_WIDTH: usize = 4;

    pub const RECORDS_WIDTH: usize = 4;

    pub const X_WIDTH: usize = 7;

    pub const Y_WIDTH: usize = 7;

    pub const VALUE_WIDTH: usize = 7;

    pub const ATTRIBUTE_CLASS_WIDTH: usize = 2;

    pub const ATTRIBUTE_FORMAT_WIDTH: usize = 7;

    pub const ACQUIRED_WIDTH: usize = 4;

    pub const UPDATED_WIDTH: usize = 4;

    pub const DELETED_WIDTH: usize = 4;

    pub const BLANK_WIDTH: usize = 6;

    pub const REPEAT_WIDTH: usize = 1;

    pub const TYPE_START: usize = 0;

    pub const CLASS_START: usize = Self::TYPE_START + Self::TYPE_WIDTH;

    pub const AREA_CODE_START: usize = Self::CLASS_START + Self::CLASS_WIDTH;

    pub const INFORMATION_START: usize = Self::AREA_CODE_START + Self::AREA_CODE_WIDTH;

    pub const NUMBER_START: usize = Self::INFORMATION_START + Self::INFORMATION_WIDTH;

    pub const LEVEL_START: usize = Self::NUMBER_START + Self::NUMBER_WIDTH;

    pub const FIGURE_START: usize = Self::LEVEL_START + Self::LEVEL_WIDTH;

    pub const DATA_KIND_START: usize = Self::FIGURE_START + Self::FIGURE_WIDTH;

    pub const ACCURACY_START: usize = Self::DATA_KIND_START + Self::DATA_KIND_WIDTH;

    pub const NOTE_KIND_START: usize = Self::ACCURACY_START + Self::ACCURACY_WIDTH;

    pub const SHIFT_START: usize = Self::NOTE_KIND_START + Self::NOTE_KIND_WIDTH;

    pub const BREAK_START: usize = Self::SHIFT_START + Self::SHIFT_WIDTH;

    pub const DATA_COUNT_START: usize = Self::BREAK_START + Self::BREAK_WIDTH;

    pub const RECORDS_START: usize = Self::DATA_COUNT_START + Self::DATA_COUNT_WIDTH;

    pub const X_START: usize = Self::RECORDS_START + Self::RECORDS_WIDTH;

    pub const Y_START: usize = Self::X_START + Self::X_WIDTH;

    pub const VALUE_START: usize = Self::Y_START + Self::Y_WIDTH;

    pub const ATTRIBUTE_CLASS_START: usize = Self::VALUE_START + Self::VALUE_WIDTH;

    pub const ATTRIBUTE_FORMAT_START: usize = Self::ATTRIBUTE_CLASS_START
        + Self::ATTRIBUTE_CLASS_WIDTH;

    pub const ACQUIRED_START: usize = Self::ATTRIBUTE_FORMAT_START + Self::ATTRIBUTE_FORMAT_WIDTH;

    pub const UPDATED_START: usize = Self::ACQUIRED_START + Self::ACQUIRED_WIDTH;

    pub const DELETED_START: usize = Self::UPDATED_START + Self::UPDATED_WIDTH;

    pub const BLANK_START: usize = Self::DELETED_START + Self::DELETED_WIDTH;

    pub const REPEAT_START: usize = Self::BLANK_START + Self::BLANK_WIDTH;

    pub const END: usize = Self::REPEAT_START + Self::REPEAT_WIDTH;
}

impl Layout for Element {
    ghost columns = { element };

    ghost lie = { lie_element };

    fn end() -> usize {
        Self::END
    }

    #[tactic(auto, unfolding(crate::specs::Tables::spans_of, format::specs::Layout::element))]
    fn spans() -> &'static [Span] {
        &[
            Span(Self::TYPE_START, Self::TYPE_WIDTH),
            Span(Self::CLASS_START, Self::CLASS_WIDTH),
            Span(Self::AREA_CODE_START, Self::AREA_CODE_WIDTH),
            Span(Self::INFORMATION_START, Self::INFORMATION_WIDTH),
            Span(Self::NUMBER_START, Self::NUMBER_WIDTH),
            Span(Self::LEVEL_START, Self::LEVEL_WIDTH),
            Span(Self::FIGURE_START, Self::FIGURE_WIDTH),
            Span(Self::DATA_KIND_START, Self::DATA_KIND_WIDTH),
            Span(Self::ACCURACY_START, Self::ACCURACY_WIDTH),
            Span(Self::NOTE_KIND_START, Self::NOTE_KIND_WIDTH),
            Span(Self::SHIFT_START, Self::SHIFT_WIDTH),
            Span(Self::BREAK_START, Self::BREAK_WIDTH),
            Span(Self::DATA_COUNT_START, Self::DATA_COUNT_WIDTH),
            Span(Self::RECORDS_START, Self::RECORDS_WIDTH),
            Span(Self::X_START, Self::X_WIDTH),
            Span(Self::Y_START, Self::Y_WIDTH),
            Span(Self::VALUE_START, Self::VALUE_WIDTH),
            Span(Self::ATTRIBUTE_CLASS_START, Self::ATTRIBUTE_CLASS_WIDTH),
            Span(Self::ATTRIBUTE_FORMAT_START, Self::ATTRIBUTE_FORMAT_WIDTH),
            Span(Self::ACQUIRED_START, Self::ACQUIRED_WIDTH),
            Span(Self::UPDATED_START, Self::UPDATED_WIDTH),
            Span(Self::DELETED_START, Self::DELETED_WIDTH),
            Span(Self::BLANK_START, Self::BLANK_WIDTH),
            Span(Self::REPEAT_START, Self::REPEAT_WIDTH),
        ]
    }

    fn table() -> &'static [TableColumn] {
        &[
            column!(Self::CLASS_START, Self::CLASS_WIDTH => Integer, 0, 9999),
            column!(Self::AREA_CODE_START, Self::AREA_CODE_WIDTH => Integer, 0, 99),
            column!(Self::INFORMATION_START, Self::INFORMATION_WIDTH => Integer, 0, 9999),
            column!(Self::NUMBER_START, Self::NUMBER_WIDTH => Integer, 0, 9999),
            column!(Self::LEVEL_START, Self::LEVEL_WIDTH => Integer, 0, 99),
            column!(Self::FIGURE_START, Self::FIGURE_WIDTH => Integer, 0, 99),
            column!(Self::DATA_KIND_START, Self::DATA_KIND_WIDTH => Integer, 0, 6),
            column!(Self::ACCURACY_START, Self::ACCURACY_WIDTH => Integer, 0, 99),
            column!(Self::NOTE_KIND_START, Self::NOTE_KIND_WIDTH => Integer, 0, 2),
            column!(Self::SHIFT_START, Self::SHIFT_WIDTH => Integer, -9, 9),
            column!(Self::BREAK_START, Self::BREAK_WIDTH => Integer, 0, 9),
            column!(Self::DATA_COUNT_START, Self::DATA_COUNT_WIDTH => Integer, 0, 9999),
            column!(Self::RECORDS_START, Self::RECORDS_WIDTH => Integer, 0, 9999),
            column!(Self::X_START, Self::X_WIDTH => Integer, -999999, 9999999),
            column!(Self::Y_START, Self::Y_WIDTH => Integer, -999999, 9999999),
            column!(Self::VALUE_START, Self::VALUE_WIDTH => IntegerOrSpaces, -999999, 9999999),
            column!(Self::ATTRIBUTE_CLASS_START, Self::ATTRIBUTE_CLASS_WIDTH => Integer, 0, 99),
            column!(Self::BLANK_START, Self::BLANK_WIDTH => Blank, 0, 0),
            column!(Self::REPEAT_START, Self::REPEAT_WIDTH => Integer, 1, 9),
        ]
    }
}
