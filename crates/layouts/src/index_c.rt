ghost use Rattle.format.specs.Layout.{index_c};
ghost use Rattle.layouts.specs.Lies.{lie_index_c};

use super::{Form, Layout, Span, TableColumn, column};

// Index c: I4, I4, nine flags I1 (0,1), direction I1 (0,1), dimension I1 (0,2,3), A65.
#[derive(Clone, Copy)]
pub struct IndexC {}

impl IndexC {
    pub const CLASS_USED_WIDTH: usize = 4;

    pub const STANDARD_CLASS_WIDTH: usize = 4;

    pub const AREA_USED_WIDTH: usize = 1;

    pub const LINE_USED_WIDTH: usize = 1;

    pub const CIRCLE_USED_WIDTH: usize = 1;

    pub const ARC_USED_WIDTH: usize = 1;

    pub const POINT_USED_WIDTH: usize = 1;

    pub const DIRECTION_USED_WIDTH: usize = 1;

    pub const NOTE_USED_WIDTH: usize = 1;

    pub const ATTRIBUTE_USED_WIDTH: usize = 1;

    pub const GRID_AND_NET_USED_WIDTH: usize = 1;

    pub const DIRECTION_WIDTH: usize = 1;

    pub const DIMENSION_WIDTH: usize = 1;

    pub const DESCRIPTION_WIDTH: usize = 65;

    pub const CLASS_USED_START: usize = 0;

    pub const STANDARD_CLASS_START: usize = Self::CLASS_USED_START + Self::CLASS_USED_WIDTH;

    pub const AREA_USED_START: usize = Self::STANDARD_CLASS_START + Self::STANDARD_CLASS_WIDTH;

    pub const LINE_USED_START: usize = Self::AREA_USED_START + Self::AREA_USED_WIDTH;

    pub const CIRCLE_USED_START: usize = Self::LINE_USED_START + Self::LINE_USED_WIDTH;

    pub const ARC_USED_START: usize = Self::CIRCLE_USED_START + Self::CIRCLE_USED_WIDTH;

    pub const POINT_USED_START: usize = Self::ARC_USED_START + Self::ARC_USED_WIDTH;

    pub const DIRECTION_USED_START: usize = Self::POINT_USED_START + Self::POINT_USED_WIDTH;

    pub const NOTE_USED_START: usize = Self::DIRECTION_USED_START + Self::DIRECTION_USED_WIDTH;

    pub const ATTRIBUTE_USED_START: usize = Self::NOTE_USED_START + Self::NOTE_USED_WIDTH;

    pub const GRID_AND_NET_USED_START: usize = Self::ATTRIBUTE_USED_START
        + Self::ATTRIBUTE_USED_WIDTH;

    pub const DIRECTION_START: usize = Self::GRID_AND_NET_USED_START
        + Self::GRID_AND_NET_USED_WIDTH;

    pub const DIMENSION_START: usize = Self::DIRECTION_START + Self::DIRECTION_WIDTH;

    pub const DESCRIPTION_START: usize = Self::DIMENSION_START + Self::DIMENSION_WIDTH;

    pub const END: usize = Self::DESCRIPTION_START + Self::DESCRIPTION_WIDTH;
}

impl Layout for IndexC {
    ghost columns = { index_c };

    ghost lie = { lie_index_c };

    fn end() -> usize {
        Self::END
    }

    #[tactic(auto, unfolding(crate::specs::Tables::spans_of, format::specs::Layout::index_c))]
    fn spans() -> &'static [Span] {
        &[
            Span(Self::CLASS_USED_START, Self::CLASS_USED_WIDTH),
            Span(Self::STANDARD_CLASS_START, Self::STANDARD_CLASS_WIDTH),
            Span(Self::AREA_USED_START, Self::AREA_USED_WIDTH),
            Span(Self::LINE_USED_START, Self::LINE_USED_WIDTH),
            Span(Self::CIRCLE_USED_START, Self::CIRCLE_USED_WIDTH),
            Span(Self::ARC_USED_START, Self::ARC_USED_WIDTH),
            Span(Self::POINT_USED_START, Self::POINT_USED_WIDTH),
            Span(Self::DIRECTION_USED_START, Self::DIRECTION_USED_WIDTH),
            Span(Self::NOTE_USED_START, Self::NOTE_USED_WIDTH),
            Span(Self::ATTRIBUTE_USED_START, Self::ATTRIBUTE_USED_WIDTH),
            Span(Self::GRID_AND_NET_USED_START, Self::GRID_AND_NET_USED_WIDTH),
            Span(Self::DIRECTION_START, Self::DIRECTION_WIDTH),
            Span(Self::DIMENSION_START, Self::DIMENSION_WIDTH),
            Span(Self::DESCRIPTION_START, Self::DESCRIPTION_WIDTH),
        ]
    }

    fn table() -> &'static [TableColumn] {
        &[
            column!(Self::CLASS_USED_START, Self::CLASS_USED_WIDTH => Integer, 0, 9999),
            column!(Self::STANDARD_CLASS_START, Self::STANDARD_CLASS_WIDTH => Integer, 0, 9999),
            column!(Self::AREA_USED_START, Self::AREA_USED_WIDTH => Integer, 0, 1),
            column!(Self::LINE_USED_START, Self::LINE_USED_WIDTH => Integer, 0, 1),
            column!(Self::CIRCLE_USED_START, Self::CIRCLE_USED_WIDTH => Integer, 0, 1),
            column!(Self::ARC_USED_START, Self::ARC_USED_WIDTH => Integer, 0, 1),
            column!(Self::POINT_USED_START, Self::POINT_USED_WIDTH => Integer, 0, 1),
            column!(Self::DIRECTION_USED_START, Self::DIRECTION_USED_WIDTH => Integer, 0, 1),
            column!(Self::NOTE_USED_START, Self::NOTE_USED_WIDTH => Integer, 0, 1),
            column!(Self::ATTRIBUTE_USED_START, Self::ATTRIBUTE_USED_WIDTH => Integer, 0, 1),
            column!(Self::GRID_AND_NET_USED_START, Self::GRID_AND_NET_USED_WIDTH => Integer, 0, 1),
            column!(Self::DIRECTION_START, Self::DIRECTION_WIDTH => Integer, 0, 1),
            column!(Self::DIMENSION_START, Self::DIMENSION_WIDTH => Integer, 0, 3),
        ]
    }
}
