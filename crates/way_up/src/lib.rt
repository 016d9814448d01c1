// The way up from a record of a sheet to the header above it.
#![tactic(auto)]

ghost use Rattle.std.specs.Prelude.{◌≡◌};
ghost use Rattle.format.specs.Above.{up};
ghost use Rattle.format.specs.Answers.{way_up_answer};

use files::Stride;
use format::{HeaderAbove, Reason, Refusal};

// Kept: the used length beside the buffer, since the C interface and document 01 lend them so.
// The header above a record of the sheet file in the first `used` bytes of the buffer, and how many headers stand from it up to the
// layer's: level less one, at most eight. Opening the sheet finds the header or item that the record is, or is data of, and the last header
// of each level.
pub fn way_up(buffer: &[u8], used: usize, number: usize) -> Result<Option<HeaderAbove>, Refusal>
    ensures { way_up_answer result ≡ up used buffer.now number }
{
    let sheet = judge::open_sheet(buffer, used, number)?;
    if number <= sheet.part || used / files::RECORD < number {
        return Err(Reason::RecordNumber.at(0));
    }
    let own = files::record_at(&buffer[..used], Stride::Plain, sheet.start - 1);
    let level = records::entry(own).unwrap().level;
    let above = level - 1;
    if above == 0 {
        return Ok(None);
    }
    Ok(Some(HeaderAbove {
        header: sheet.headers[above],
        passed: above as u8,
    }))
}
