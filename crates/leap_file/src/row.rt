//! The rows of a leap second file, and which may follow which.
ghost use Rattle.std.specs.Prelude.{◌≡◌};
ghost use Rattle.leap_file.specs.Rows.{may_stand};

use civil_minute::begins_month;

// 2100-01-03 00:00 UTC: no row has this second or a later one.
const END_OF_SECONDS: u64 = 6_311_606_400;

// A difference has one byte.
const GREATEST: u16 = 255;

/// A row: a second of UTC, counted from 1900-01-01 00:00 without leap seconds, and TAI less UTC in seconds from then on.
#[derive(Clone, Copy, Debug, PartialEq, Eq)]
pub struct Row {
    pub second: u64,
    pub dtai: u16,
}

// Whether a row may stand after the row before it.
pub(crate) fn may_stand(before: Option<Row>, row: Row) -> bool
    ensures { result ≡ may_stand before row }
{
    if row.second >= END_OF_SECONDS || row.dtai > GREATEST || !begins_month(row.second) {
        return false;
    }
    match before {
        Some(last) => last.second < row.second && u32::from(row.dtai) == u32::from(last.dtai) + 1,
        None => true,
    }
}
