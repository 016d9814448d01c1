// Corners of a sheet: whole metres and a fraction joined to millimetres, and a millimetre number split into them.
#![tactic(auto)]

ghost use Rattle.std.specs.Prelude.{◌≡◌, ◌&&◌, pos};
ghost use Rattle.format.specs.Column.{fits};
ghost use Rattle.format.specs.Corner.{is_unit, most, millimetres_each, opposite, fraction_ok, join, split};
ghost use Rattle.format.specs.Answers.{number_answer, parts_answer};

use format::{Corner, Reason, Refusal};

fn is_unit(unit: u64) -> bool
    ensures { result ≡ is_unit unit }
{
    matches!(unit, 1 | 10 | 999)
}

// Columns I7 and I4, where a minus takes a byte.
fn whole_fits(whole: i64) -> bool
    ensures { result ≡ fits 7 whole }
{
    (-999999..=9999999).contains(&whole)
}

fn fraction_fits(fraction: i64) -> bool
    ensures { result ≡ fits 4 fraction }
{
    (-999..=9999).contains(&fraction)
}

// A unit, and numbers that fit their columns.
fn is_allowed(unit: u64, whole: i64, fraction: i64) -> bool
    ensures { result ≡ (is_unit unit && fits 7 whole && fits 4 fraction) }
{
    is_unit(unit) && whole_fits(whole) && fraction_fits(fraction)
}

// The largest fraction: millimetres for unit 1, else centimetres.
fn most_of(unit: u64) -> u64
    ensures { result ≡ most unit }
{
    if unit == 1 { 999 } else { 99 }
}

fn millimetres_each(unit: u64) -> i64
    ensures { result ≡ pos (millimetres_each unit) }
{
    if unit == 1 { 1 } else { 10 }
}

// A zero has no sign.
fn is_opposite(whole: i64, fraction: i64) -> bool
    ensures { result ≡ opposite whole fraction }
{
    (whole < 0 && 0 < fraction) || (0 < whole && fraction < 0)
}

// Whether a fraction goes with its whole: not too large, and not of opposite sign.
pub fn fraction_ok(unit: u64, whole: i64, fraction: i64) -> bool
    ensures { result ≡ fraction_ok unit whole fraction }
{
    fraction.unsigned_abs() <= most_of(unit) && !is_opposite(whole, fraction)
}

// Whole metres and a fraction, in millimetres for unit 1 and else in centimetres, as millimetres. 16: a number that does not fit its
// column, or no unit; then 9: a fraction too large or of opposite sign.
pub fn join(unit: u64, whole: i64, fraction: i64) -> Result<i64, Refusal>
    ensures { number_answer result ≡ join unit whole fraction }
{
    if !is_allowed(unit, whole, fraction) {
        return Err(Reason::Number.at(0));
    }
    if !fraction_ok(unit, whole, fraction) {
        return Err(Reason::Fraction.at(0));
    }
    Ok(whole * 1000 + fraction * millimetres_each(unit))
}

// The one pair that joins to a millimetre number, or 16. Both parts come by division towards zero, so that they have the number's sign.
pub fn split(unit: u64, millimetres: i64) -> Result<Corner, Refusal>
    ensures { parts_answer result ≡ split unit millimetres }
{
    let whole = millimetres / 1000;
    let fraction = millimetres % 1000 / millimetres_each(unit);
    if join(unit, whole, fraction) == Ok(millimetres) {
        Ok(Corner { whole, fraction })
    } else {
        Err(Reason::Number.at(0))
    }
}
