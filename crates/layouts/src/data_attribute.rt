ghost use Rattle.format.specs.Layout.{data_attribute};
ghost use Rattle.layouts.specs.Lies.{lie_data_attribute};

use super::{Layout, Span, TableColumn};

// Data attribute: 84 free.
#[derive(Clone, Copy)]
pub struct DataAttribute {}

impl DataAttribute {
    pub const FREE_WIDTH: usize = 84;

    pub const FREE_START: usize = 0;

    pub const END: usize = Self::FREE_START + Self::FREE_WIDTH;
}

impl Layout for DataAttribute {
    ghost columns = { data_attribute };

    ghost lie = { lie_data_attribute };

    fn end() -> usize {
        Self::END
    }

    #[tactic(auto, unfolding(crate::specs::Tables::spans_of, format::specs::Layout::data_attribute))]
    fn spans() -> &'static [Span] {
        &[Span(Self::FREE_START, Self::FREE_WIDTH)]
    }

    fn table() -> &'static [TableColumn] {
        &[]
    }
}
