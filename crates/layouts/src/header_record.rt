ghost use Rattle.format.specs.Layout.{header};
ghost use Rattle.layouts.specs.Lies.{lie_header};

use super::{Form, Layout, Span, TableColumn, column};

// Header: A2 "H ", class I4, area I2, information I4, number I4, level I2, then ten I5: total, groups, area, line,
// circle, arc, point, direction, note, attribute; grid and net I1, A4, A4, A4, method I2, 1X.
#[derive(Clone, Copy)]
pub struct Header {}

impl Header {
    pub const TYPE_WIDTH: usize = 2;

    pub const CLASS_WIDTH: usize = 4;

    pub const AREA_CODE_WIDTH: usize = 2;

    pub const INFORMATION_WIDTH: usize = 4;

    pub const NUMBER_WIDTH: usize = 4;

    pub const LEVEL_WIDTH: usize = 2;

    pub const TOTAL_WIDTH: usize = 5;

    pub const GROUPS_WIDTH: usize = 5;

    pub const AREA_WIDTH: usize = 5;

    pub const LINE_WIDTH: usize = 5;

    pub const CIRCLE_WIDTH: usize = 5;

    pub const ARC_WIDTH: usize = 5;

    pub const POINT_WIDTH: usize = 5;

    pub const DIRECTION_WIDTH: usize = 5;

    pub const NOTE_WIDTH: usize = 5;

    pub const ATTRIBUTE_WIDTH: usize = 5;

    pub const GRID_AND_NET_WIDTH: usize = 1;

    pub const ACQUIRED_WIDTH: usize = 4;

    pub const UPDATED_WIDTH: usize = 4;

    pub const DELETED_WIDTH: usize = 4;

    pub const METHOD_WIDTH: usize = 2;

    pub const BLANK_WIDTH: usize = 1;

    pub const TYPE_START: usize = 0;

    pub const CLASS_START: usize = Self::TYPE_START + Self::TYPE_WIDTH;

    pub const AREA_CODE_START: usize = Self::CLASS_START + Self::CLASS_WIDTH;

    pub const INFORMATION_START: usize = Self::AREA_CODE_START + Self::AREA_CODE_WIDTH;

    pub const NUMBER_START: usize = Self::INFORMATION_START + Self::INFORMATION_WIDTH;

    pub const LEVEL_START: usize = Self::NUMBER_START + Self::NUMBER_WIDTH;

    pub const TOTAL_START: usize = Self::LEVEL_START + Self::LEVEL_WIDTH;

    pub const GROUPS_START: usize = Self::TOTAL_START + Self::TOTAL_WIDTH;

    pub const AREA_START: usize = Self::GROUPS_START + Self::GROUPS_WIDTH;

    pub const LINE_START: usize = Self::AREA_START + Self::AREA_WIDTH;

    pub const CIRCLE_START: usize = Self::LINE_START + Self::LINE_WIDTH;

    pub const ARC_START: usize = Self::CIRCLE_START + Self::CIRCLE_WIDTH;

    pub const POINT_START: usize = Self::ARC_START + Self::ARC_WIDTH;

    pub const DIRECTION_START: usize = Self::POINT_START + Self::POINT_WIDTH;

    pub const NOTE_START: usize = Self::DIRECTION_START + Self::DIRECTION_WIDTH;

    pub const ATTRIBUTE_START: usize = Self::NOTE_START + Self::NOTE_WIDTH;

    pub const GRID_AND_NET_START: usize = Self::ATTRIBUTE_START + Self::ATTRIBUTE_WIDTH;

    pub const ACQUIRED_START: usize = Self::GRID_AND_NET_START + Self::GRID_AND_NET_WIDTH;

    pub const UPDATED_START: usize = Self::ACQUIRED_START + Self::ACQUIRED_WIDTH;

    pub const DELETED_START: usize = Self::UPDATED_START + Self::UPDATED_WIDTH;

    pub const METHOD_START: usize = Self::DELETED_START + Self::DELETED_WIDTH;

    pub const BLANK_START: usize = Self::METHOD_START + Self::METHOD_WIDTH;

    pub const END: usize = Self::BLANK_START + Self::BLANK_WIDTH;
}

impl Layout for Header {
    ghost columns = { header };

    ghost lie = { lie_header };

    fn end() -> usize {
        Self::END
    }

    #[tactic(auto, unfolding(crate::specs::Tables::spans_of, format::specs::Layout::header))]
    fn spans() -> &'static [Span] {
        &[
            Span(Self::TYPE_START, Self::TYPE_WIDTH),
            Span(Self::CLASS_START, Self::CLASS_WIDTH),
            Span(Self::AREA_CODE_START, Self::AREA_CODE_WIDTH),
            Span(Self::INFORMATION_START, Self::INFORMATION_WIDTH),
            Span(Self::NUMBER_START, Self::NUMBER_WIDTH),
            Span(Self::LEVEL_START, Self::LEVEL_WIDTH),
            Span(Self::TOTAL_START, Self::TOTAL_WIDTH),
            Span(Self::GROUPS_START, Self::GROUPS_WIDTH),
            Span(Self::AREA_START, Self::AREA_WIDTH),
            Span(Self::LINE_START, Self::LINE_WIDTH),
            Span(Self::CIRCLE_START, Self::CIRCLE_WIDTH),
            Span(Self::ARC_START, Self::ARC_WIDTH),
            Span(Self::POINT_START, Self::POINT_WIDTH),
            Span(Self::DIRECTION_START, Self::DIRECTION_WIDTH),
            Span(Self::NOTE_START, Self::NOTE_WIDTH),
            Span(Self::ATTRIBUTE_START, Self::ATTRIBUTE_WIDTH),
            Span(Self::GRID_AND_NET_START, Self::GRID_AND_NET_WIDTH),
            Span(Self::ACQUIRED_START, Self::ACQUIRED_WIDTH),
            Span(Self::UPDATED_START, Self::UPDATED_WIDTH),
            Span(Self::DELETED_START, Self::DELETED_WIDTH),
            Span(Self::METHOD_START, Self::METHOD_WIDTH),
            Span(Self::BLANK_START, Self::BLANK_WIDTH),
        ]
    }

    fn table() -> &'static [TableColumn] {
        &[
            column!(Self::CLASS_START, Self::CLASS_WIDTH => Integer, 0, 9999),
            column!(Self::AREA_CODE_START, Self::AREA_CODE_WIDTH => Integer, 0, 99),
            column!(Self::INFORMATION_START, Self::INFORMATION_WIDTH => Integer, 0, 9999),
            column!(Self::NUMBER_START, Self::NUMBER_WIDTH => Integer, 0, 9999),
            column!(Self::LEVEL_START, Self::LEVEL_WIDTH => Integer, 0, 99),
            column!(Self::TOTAL_START, Self::TOTAL_WIDTH => Integer, 0, 99999),
            column!(Self::GROUPS_START, Self::GROUPS_WIDTH => Integer, 0, 99999),
            column!(Self::AREA_START, Self::AREA_WIDTH => Integer, 0, 99999),
            column!(Self::LINE_START, Self::LINE_WIDTH => Integer, 0, 99999),
            column!(Self::CIRCLE_START, Self::CIRCLE_WIDTH => Integer, 0, 99999),
            column!(Self::ARC_START, Self::ARC_WIDTH => Integer, 0, 99999),
            column!(Self::POINT_START, Self::POINT_WIDTH => Integer, 0, 99999),
            column!(Self::DIRECTION_START, Self::DIRECTION_WIDTH => Integer, 0, 99999),
            column!(Self::NOTE_START, Self::NOTE_WIDTH => Integer, 0, 99999),
            column!(Self::ATTRIBUTE_START, Self::ATTRIBUTE_WIDTH => Integer, 0, 99999),
            column!(Self::GRID_AND_NET_START, Self::GRID_AND_NET_WIDTH => Integer, 0, 9),
            column!(Self::METHOD_START, Self::METHOD_WIDTH => Integer, 0, 99),
            column!(Self::BLANK_START, Self::BLANK_WIDTH => Blank, 0, 0),
        ]
    }
}
