// Records told at once: a record b, e or f of a sheet, c of an index, a header, element, grid header, net header or note whose integer columns are well
// formed and inside their ranges, but for a 0 where a number above 0 is due and for lists, and in which no 0 stands right after a minus. Any other may still
// be right: "-05" is.
//
// Each byte of a record is compared with the letter that its layout has there.
#![tactic(auto)]

ghost use Rattle.std.specs.Prelude.{◌≡◌, true};
ghost use Rattle.format.specs.Layout.{index_c, sheet_b, sheet_e, sheet_f, header, element, grid_header, net_header, data_note};
ghost use Rattle.form_bytes.specs.Letters.{doubts_in};
ghost use Rattle.form_records.specs.LaidOut.{letters_of, laid_out, laid_index_c, laid_sheet_b, laid_sheet_e, laid_sheet_f, laid_header, laid_element, laid_grid_header, laid_net_header, laid_data_note};
ghost use Rattle.form_records.specs.Sure.{sure};

use files::RECORD;
use form_bytes::doubt_at;
use layouts::{
    DataNote, Element, GridHeader, Header, IndexC, Layout, NetHeader, SheetB, SheetE, SheetF,
};

#[cfg(test)]
mod tests;

// The letters, those of form_bytes, of each layout's bytes.
// Kept: arrays that `letters_by_value` answers; of a reference to one the compiler knows where each letter stands, and takes the last sixteen bytes of
// some layouts one by one.
const INDEX_C: [u8; RECORD] =
    *b"SssdSssd1111111111d.................................................................";

const SHEET_B: [u8; RECORD] =
    *b"MmmmmmdMmmmmmdMmmmmmdMmmmmmd...SssssdSsssssdSsdMmmmmmdMmmmmmdMmmmmmdMmmmmmd.........";

const SHEET_E: [u8; RECORD] =
    *b"........................................MmmdMmmdMmmdMmmdMmmdMmmdMmmdMmmd............";

const SHEET_F: [u8; RECORD] =
    *b"........SsssddSssdSssd........SsssddSssdSssd........SsssddSssdSssd..................";

const HEADER: [u8; RECORD] =
    *b"..SssdSdSssdSssdSdSsssdSsssdSsssdSsssdSsssdSsssdSsssdSsssdSsssdSsssdd............Sd.";

const ELEMENT: [u8; RECORD] =
    *b"..SssdSdSssdSssdSdSd6Sd2ZddSssdSssdMmmmmmdMmmmmmdMmmmmmsSd.........................r";

const GRID_HEADER: [u8; RECORD] =
    *b"..SssdSdSssdSssdSdSssdSssdSssdSsssssdSsssssdMmmmmmdMmmmmmd............SdSd.........r";

const NET_HEADER: [u8; RECORD] =
    *b"..SssdSdSssdSssdSdSdSssssdSssssd............Sd......................................";

const DATA_NOTE: [u8; RECORD] =
    *b"1MmmmmmdSsssdSsssdSd................................................................";

// A layout whose records can be told at once: the letters, those of form_bytes, of its bytes.
pub trait Lettered: Layout {
    fn letters() -> &'static [u8; RECORD]
        ensures { result.now ≡ letters_of Self.columns };

    // The same as a value, which `is_sure` compares with.
    fn letters_by_value() -> [u8; RECORD]
        ensures { result ≡ letters_of Self.columns }
    {
        *Self::letters()
    }

    // the columns follow one another from 0 to 84, and each has letters of its own
    ghost laid: { laid_out 0 Self.columns ≡ true };
}

impl Lettered for IndexC {
    ghost laid = { laid_index_c };

    #[tactic(auto, unfolding(crate::specs::LaidOut::letters_of, form_bytes::specs::Letters::letters_for, form_bytes::specs::Letters::ruled, form_bytes::specs::Letters::letters_in, form_bytes::specs::Letters::behind, format::specs::Layout::index_c))]
    fn letters() -> &'static [u8; RECORD] {
        &INDEX_C
    }

    #[tactic(auto, unfolding(crate::specs::LaidOut::letters_of, form_bytes::specs::Letters::letters_for, form_bytes::specs::Letters::ruled, form_bytes::specs::Letters::letters_in, form_bytes::specs::Letters::behind, format::specs::Layout::index_c))]
    fn letters_by_value() -> [u8; RECORD] {
        INDEX_C
    }
}

impl Lettered for SheetB {
    ghost laid = { laid_sheet_b };

    #[tactic(auto, unfolding(crate::specs::LaidOut::letters_of, form_bytes::specs::Letters::letters_for, form_bytes::specs::Letters::ruled, form_bytes::specs::Letters::letters_in, form_bytes::specs::Letters::behind, format::specs::Layout::sheet_b))]
    fn letters() -> &'static [u8; RECORD] {
        &SHEET_B
    }

    #[tactic(auto, unfolding(crate::specs::LaidOut::letters_of, form_bytes::specs::Letters::letters_for, form_bytes::specs::Letters::ruled, form_bytes::specs::Letters::letters_in, form_bytes::specs::Letters::behind, format::specs::Layout::sheet_b))]
    fn letters_by_value() -> [u8; RECORD] {
        SHEET_B
    }
}

impl Lettered for SheetE {
    ghost laid = { laid_sheet_e };

    #[tactic(auto, unfolding(crate::specs::LaidOut::letters_of, form_bytes::specs::Letters::letters_for, form_bytes::specs::Letters::ruled, form_bytes::specs::Letters::letters_in, form_bytes::specs::Letters::behind, format::specs::Layout::sheet_e))]
    fn letters() -> &'static [u8; RECORD] {
        &SHEET_E
    }

    #[tactic(auto, unfolding(crate::specs::LaidOut::letters_of, form_bytes::specs::Letters::letters_for, form_bytes::specs::Letters::ruled, form_bytes::specs::Letters::letters_in, form_bytes::specs::Letters::behind, format::specs::Layout::sheet_e))]
    fn letters_by_value() -> [u8; RECORD] {
        SHEET_E
    }
}

impl Lettered for SheetF {
    ghost laid = { laid_sheet_f };

    #[tactic(auto, unfolding(crate::specs::LaidOut::letters_of, form_bytes::specs::Letters::letters_for, form_bytes::specs::Letters::ruled, form_bytes::specs::Letters::letters_in, form_bytes::specs::Letters::behind, format::specs::Layout::sheet_f))]
    fn letters() -> &'static [u8; RECORD] {
        &SHEET_F
    }

    #[tactic(auto, unfolding(crate::specs::LaidOut::letters_of, form_bytes::specs::Letters::letters_for, form_bytes::specs::Letters::ruled, form_bytes::specs::Letters::letters_in, form_bytes::specs::Letters::behind, format::specs::Layout::sheet_f))]
    fn letters_by_value() -> [u8; RECORD] {
        SHEET_F
    }
}

impl Lettered for Header {
    ghost laid = { laid_header };

    #[tactic(auto, unfolding(crate::specs::LaidOut::letters_of, form_bytes::specs::Letters::letters_for, form_bytes::specs::Letters::ruled, form_bytes::specs::Letters::letters_in, form_bytes::specs::Letters::behind, format::specs::Layout::header))]
    fn letters() -> &'static [u8; RECORD] {
        &HEADER
    }

    #[tactic(auto, unfolding(crate::specs::LaidOut::letters_of, form_bytes::specs::Letters::letters_for, form_bytes::specs::Letters::ruled, form_bytes::specs::Letters::letters_in, form_bytes::specs::Letters::behind, format::specs::Layout::header))]
    fn letters_by_value() -> [u8; RECORD] {
        HEADER
    }
}

impl Lettered for Element {
    ghost laid = { laid_element };

    #[tactic(auto, unfolding(crate::specs::LaidOut::letters_of, form_bytes::specs::Letters::letters_for, form_bytes::specs::Letters::ruled, form_bytes::specs::Letters::letters_in, form_bytes::specs::Letters::behind, format::specs::Layout::element))]
    fn letters() -> &'static [u8; RECORD] {
        &ELEMENT
    }

    #[tactic(auto, unfolding(crate::specs::LaidOut::letters_of, form_bytes::specs::Letters::letters_for, form_bytes::specs::Letters::ruled, form_bytes::specs::Letters::letters_in, form_bytes::specs::Letters::behind, format::specs::Layout::element))]
    fn letters_by_value() -> [u8; RECORD] {
        ELEMENT
    }
}

impl Lettered for GridHeader {
    ghost laid = { laid_grid_header };

    #[tactic(auto, unfolding(crate::specs::LaidOut::letters_of, form_bytes::specs::Letters::letters_for, form_bytes::specs::Letters::ruled, form_bytes::specs::Letters::letters_in, form_bytes::specs::Letters::behind, format::specs::Layout::grid_header))]
    fn letters() -> &'static [u8; RECORD] {
        &GRID_HEADER
    }

    #[tactic(auto, unfolding(crate::specs::LaidOut::letters_of, form_bytes::specs::Letters::letters_for, form_bytes::specs::Letters::ruled, form_bytes::specs::Letters::letters_in, form_bytes::specs::Letters::behind, format::specs::Layout::grid_header))]
    fn letters_by_value() -> [u8; RECORD] {
        GRID_HEADER
    }
}

impl Lettered for NetHeader {
    ghost laid = { laid_net_header };

    #[tactic(auto, unfolding(crate::specs::LaidOut::letters_of, form_bytes::specs::Letters::letters_for, form_bytes::specs::Letters::ruled, form_bytes::specs::Letters::letters_in, form_bytes::specs::Letters::behind, format::specs::Layout::net_header))]
    fn letters() -> &'static [u8; RECORD] {
        &NET_HEADER
    }

    #[tactic(auto, unfolding(crate::specs::LaidOut::letters_of, form_bytes::specs::Letters::letters_for, form_bytes::specs::Letters::ruled, form_bytes::specs::Letters::letters_in, form_bytes::specs::Letters::behind, format::specs::Layout::net_header))]
    fn letters_by_value() -> [u8; RECORD] {
        NET_HEADER
    }
}

impl Lettered for DataNote {
    ghost laid = { laid_data_note };

    #[tactic(auto, unfolding(crate::specs::LaidOut::letters_of, form_bytes::specs::Letters::letters_for, form_bytes::specs::Letters::ruled, form_bytes::specs::Letters::letters_in, form_bytes::specs::Letters::behind, format::specs::Layout::data_note))]
    fn letters() -> &'static [u8; RECORD] {
        &DATA_NOTE
    }

    #[tactic(auto, unfolding(crate::specs::LaidOut::letters_of, form_bytes::specs::Letters::letters_for, form_bytes::specs::Letters::ruled, form_bytes::specs::Letters::letters_in, form_bytes::specs::Letters::behind, format::specs::Layout::data_note))]
    fn letters_by_value() -> [u8; RECORD] {
        DATA_NOTE
    }
}

// The doubts of a record's bytes: at most one a byte, so that they are counted in a byte, and sixteen of them added at a time. Those of the two first and
// the two last bytes apart, so that the loop has whole sixteens.
#[inline(always)]
fn doubts(letters: &[u8; RECORD], record: &[u8; RECORD]) -> u8
    ensures { result ≡ doubts_in letters.now 32 «record».now }
{
    let mut doubts = 0;
    // Kept: by index, since a byte is read with its letter and the byte before it: three slices zipped are no plainer.
    for i in 0..80 {
        doubts += doubt_at(letters[i + 2], record[i + 1], record[i + 2]);
    }
    let first = doubt_at(letters[0], b' ', record[0]);
    let second = doubt_at(letters[1], record[0], record[1]);
    let behind = doubt_at(letters[82], record[81], record[82]);
    let last = doubt_at(letters[83], record[82], record[83]);
    doubts + (first + second + behind + last)
}

// Whether a record can be told at once to be right by its layout.
pub fn is_sure<L: Lettered>(record: &[u8]) -> bool
    ensures { result ≡ sure L.columns «record».now }
{
    let Ok(record) = <&[u8; RECORD]>::try_from(record) else {
        return false;
    };
    let letters = L::letters_by_value();
    doubts(&letters, record) == 0
}
