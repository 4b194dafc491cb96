//! The scaling of a field by geomagnetic latitude.
ghost use Rattle.std.specs.Prelude.{◌≡◌, ◌≤◌};
ghost use Rattle.gic_case.specs.Alpha.{latitude_table, latitude_row, alpha_of};

/// The rows of the table: latitudes in hundredths of a degree, and the scaling up to there in tenths. They are set after
/// attachment 1 of NERC TPL-007 and are this project's own.
static TABLE: [(u16, u8); 9] = [
    (4000, 1),
    (4500, 2),
    (5000, 3),
    (5400, 5),
    (5600, 6),
    (5700, 7),
    (5800, 8),
    (5900, 9),
    (6000, 10),
];

fn table() -> &'static [(u16, u8)]
    ensures { result.now ≡ latitude_table }
{
    &TABLE
}

/// The first row whose latitude is at least the given one.
#[tactic(auto, unfolding(crate::specs::Alpha::latitude_row))]
fn latitude_row(latitude: u16) -> Option<(u16, u8)>
    ensures { result ≡ latitude_row latitude }
{
    table().iter().copied().find(|row| latitude <= row.0)
}

/// The scaling at a geomagnetic latitude in hundredths of a degree, in tenths from 1 to 10: that of the first row of the
/// table whose latitude is at least the given one, and 10 past the last row.
pub(crate) fn alpha_tenths(latitude: u16) -> u8
    ensures value { result ≡ alpha_of latitude }
    ensures least { 1 ≤ result }
    ensures most { result ≤ 10 }
{
    match latitude_row(latitude) {
        Some(row) => row.1,
        None => 10,
    }
}
