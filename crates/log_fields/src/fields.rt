//! The fields of a record, as names, references, numbers, ranges, radii and ticks.

ghost use Rattle.std.specs.Prelude.{◌≡◌, ◌<◌, ◌≤◌, true, IfOk, IfSome, option_map};
ghost use Rattle.csv.specs.Records.{fields_of};
ghost use Rattle.log_spelling.specs.Names.{is_name};
ghost use Rattle.tube_spec.specs.Limits.{most_ticks};
ghost use Rattle.log_fields.specs.Fields.{AreRadii, IsRadius, IsRange, beacon_at, count_of, field, is_radius, name_at, number_at, radii_at, range_at, range_of, reference_at, tick_of, version_at, version_of};
ghost use Rattle.log_fields.specs.Said.{IsSpelled, said};
ghost use Rattle.log_fields.specs.Steps.{Gives, unless};

use crate::fault::{Cause, Stop};
use csv::ByteRecord;
use int_interval::Interval;
use log_spelling::{Part, bare_name, is_name, is_reference, number_of, part_of, trimmed};
use slice_gates::MOST_TICKS;
use tube_limits::GREATEST_RADIUS;
use tube_store::GREATEST_BOUND;

/// What a field of a variable means: a bare name, and which part of what bears it.
#[derive(Clone, Copy, Debug)]
pub struct Reference<'a> {
    pub name: &'a [u8],
    pub part: Part,
}

/// A record's field, trimmed, or no bytes past the last one.
pub fn field(row: &ByteRecord, i: usize) -> &[u8]
    ensures { result.now ≡ field (fields_of row.now) i }
{
    match row.get(i) {
        Some(text) => trimmed(text),
        None => b"",
    }
}

/// Goes on where the test holds.
pub fn ensure(test: bool, cause: Cause) -> Result<(), Stop>
    ensures { Gives (λ _. tt) result (unless test cause) }
{
    if test {
        Ok(())
    } else {
        Err(Stop::Because(cause))
    }
}

/// The field at a place, as a name.
#[tactic(auto, unfolding(crate::specs::Fields::name_at))]
pub fn name_at(row: &ByteRecord, i: usize) -> Result<&[u8], Stop>
    ensures value { Gives (λ name. name.now) result (name_at (fields_of row.now) i) }
    ensures spelled { IfOk result (λ name. is_name name.now ≡ true) }
{
    let text = field(row, i);
    if is_name(text) {
        Ok(text)
    } else {
        Err(Stop::Because(Cause::Name))
    }
}

/// The field at a place, as a reference: a name, or a name and then `.x` or `.y`.
#[tactic(auto, unfolding(crate::specs::Fields::reference_at))]
pub fn reference_at(row: &ByteRecord, i: usize) -> Result<Reference<'_>, Stop>
    ensures value { Gives said result (reference_at (fields_of row.now) i) }
    ensures spelled { IfOk result IsSpelled }
{
    let text = field(row, i);
    if is_reference(text) {
        Ok(Reference {
            name: bare_name(text),
            part: part_of(text),
        })
    } else {
        Err(Stop::Because(Cause::Name))
    }
}

/// The field at a place, as the name of a beacon, or none where it is `?`.
#[tactic(auto, unfolding(crate::specs::Fields::beacon_at))]
pub fn beacon_at(row: &ByteRecord, i: usize) -> Result<Option<&[u8]>, Stop>
    ensures value { Gives (option_map (λ name. name.now)) result (beacon_at (fields_of row.now) i) }
    ensures spelled { IfOk result (λ beacon. IfSome beacon (λ name. is_name name.now ≡ true)) }
{
    let text = field(row, i);
    if text == b"?".as_slice() {
        return Ok(None);
    }
    if is_name(text) {
        Ok(Some(text))
    } else {
        Err(Stop::Because(Cause::Name))
    }
}

/// The field at a place, as a number.
#[tactic(auto, unfolding(crate::specs::Fields::number_at))]
pub fn number_at(row: &ByteRecord, i: usize) -> Result<i64, Stop>
    ensures { Gives (λ n. n) result (number_at (fields_of row.now) i) }
{
    match number_of(field(row, i)) {
        Some(n) => Ok(n),
        None => Err(Stop::Because(Cause::Number)),
    }
}

/// A number of ticks, from 1 to 100,000.
#[tactic(auto, unfolding(crate::specs::Fields::count_of))]
pub fn count_of(n: i64) -> Result<u32, Stop>
    ensures value { Gives (λ count. count) result (count_of n) }
    ensures some { IfOk result (λ count. 1 ≤ count) }
    ensures few { IfOk result (λ count. count ≤ most_ticks) }
{
    if 1 <= n && n <= i64::from(MOST_TICKS) {
        Ok(n as u32)
    } else {
        Err(Stop::Because(Cause::Range))
    }
}

/// A declared or measured range, with its bounds from -500,000,000 to 500,000,000.
#[tactic(auto, unfolding(crate::specs::Fields::range_of))]
pub fn range_of(lo: i64, hi: i64) -> Result<Interval, Stop>
    ensures value { Gives (λ range. range) result (range_of lo hi) }
    ensures within { IfOk result IsRange }
{
    if lo < -GREATEST_BOUND || GREATEST_BOUND < hi {
        return Err(Stop::Because(Cause::Range));
    }
    match Interval::new(lo, hi) {
        Some(range) => Ok(range),
        None => Err(Stop::Because(Cause::Range)),
    }
}

/// The range that two fields spell, of which both have to be numbers.
#[tactic(auto, unfolding(crate::specs::Fields::range_at))]
pub fn range_at(row: &ByteRecord, i: usize) -> Result<Interval, Stop>
    requires { i < 100 }
    ensures value { Gives (λ range. range) result (range_at (fields_of row.now) i) }
    ensures within { IfOk result IsRange }
{
    let lo = number_at(row, i)?;
    let hi = number_at(row, i + 1)?;
    range_of(lo, hi)
}

/// A radius, from 0 to 2,000,000,000.
#[tactic(auto, unfolding(crate::specs::Fields::is_radius))]
pub fn ensure_radius(radius: i64) -> Result<(), Stop>
    ensures value { Gives (λ _. tt) result (unless (is_radius radius) Cause.Range) }
    ensures within { IfOk result (λ _. IsRadius radius) }
{
    if 0 <= radius && radius <= GREATEST_RADIUS {
        Ok(())
    } else {
        Err(Stop::Because(Cause::Range))
    }
}

/// The radii that two fields spell, from 0 to 2,000,000,000 and in order. Both fields have to be numbers.
#[tactic(auto, unfolding(crate::specs::Fields::radii_at))]
pub fn radii_at(row: &ByteRecord, i: usize) -> Result<(i64, i64), Stop>
    requires { i < 100 }
    ensures value { Gives (λ radii. radii) result (radii_at (fields_of row.now) i) }
    ensures within { IfOk result (λ radii. AreRadii radii.0 radii.1) }
{
    let near = number_at(row, i)?;
    let far = number_at(row, i + 1)?;
    if 0 <= near && near <= far && far <= GREATEST_RADIUS {
        Ok((near, far))
    } else {
        Err(Stop::Because(Cause::Range))
    }
}

/// A tick from 0 to the last one.
pub fn tick_of(last: u32, n: i64) -> Result<u32, Stop>
    ensures value { Gives (λ tick. tick) result (tick_of last n) }
    ensures within { IfOk result (λ tick. tick ≤ last) }
{
    if 0 <= n && n <= last as i64 {
        Ok(n as u32)
    } else {
        Err(Stop::Because(Cause::Tick))
    }
}

fn version_of(text: &[u8]) -> Option<u32>
    ensures { result ≡ version_of text.now }
{
    if text == b"1".as_slice() {
        return Some(1);
    }
    if text == b"2".as_slice() {
        return Some(2);
    }
    None
}

/// The version that the second field spells, 1 or 2. A record without that field has too few.
#[tactic(auto, unfolding(crate::specs::Fields::version_at))]
pub fn version_at(row: &ByteRecord) -> Result<u32, Stop>
    ensures value { Gives (λ version. version) result (version_at (fields_of row.now)) }
    ensures first { IfOk result (λ version. 1 ≤ version) }
    ensures last { IfOk result (λ version. version ≤ 2) }
{
    if row.len() <= 1 {
        return Err(Stop::Because(Cause::Fields));
    }
    match version_of(field(row, 1)) {
        Some(version) => Ok(version),
        None => Err(Stop::Because(Cause::Version)),
    }
}
