//! Where things stand.

ghost use Rattle.std.specs.Prelude.{◌≡◌, ◌<◌, ◌^◌};
ghost use Rattle.timeline_svg.specs.Layout.{column_x, height, lane_y, margin, middle_x, row_y, width};

/// The width of a column.
pub const COLUMN: u128 = 28;

/// The height of the head, above the lanes.
pub const HEAD: u128 = 168;

/// The height of a lane.
pub const LANE: u128 = 76;

/// The height of a row of the figures.
pub const ROW: u128 = 18;

/// The least width of a picture: that of its legend.
pub const LEAST_WIDTH: u128 = 416;

/// The left end of a column, and the width of so many columns.
pub fn column_x(column: usize) -> u128
    ensures value { result ≡ column_x column }
    ensures bound { result < 2 ^ 80 }
{
    COLUMN * column as u128
}

/// The middle of a column.
pub fn middle_x(column: usize) -> u128
    ensures value { result ≡ middle_x column }
    ensures bound { result < 2 ^ 80 }
{
    COLUMN * column as u128 + 14
}

/// The top of a lane. With the number of lanes, the end of all.
pub fn lane_y(lane: usize) -> u128
    ensures value { result ≡ lane_y lane }
    ensures bound { result < 2 ^ 80 }
{
    HEAD + LANE * lane as u128
}

/// A row of the figures, below the first.
pub fn row_y(row: usize) -> u128
    ensures value { result ≡ row_y row }
    ensures bound { result < 2 ^ 80 }
{
    ROW * row as u128
}

/// The width left of column 0, for topics whose longest name has so many letters.
pub fn margin(letters: usize) -> u128
    ensures value { result ≡ margin letters }
    ensures bound { result < 2 ^ 80 }
{
    112 + 8 * letters as u128
}

/// The width of a picture of so many columns.
pub fn width(letters: usize, columns: usize) -> u128
    ensures { result ≡ width letters columns }
{
    (margin(letters) + column_x(columns) + 200).max(LEAST_WIDTH)
}

/// The height of a picture of so many lanes.
pub fn height(lanes: usize) -> u128
    ensures { result ≡ height lanes }
{
    lane_y(lanes) + row_y(lanes) + 200
}
