//! The directory: which frames the bins stand in.

ghost use Rattle.std.specs.Prelude.{◌≡◌, ◌+◌, ◌<◌, ◌≤◌, ◌^◌, length, map, ◌++◌, ◌∷◌, [], vec_capacity};
ghost use Rattle.lert_levels.specs.rows.Rows.{directory_text};

use crate::rows::bin_at::BinAt;
use crate::rows::row::Row;

/// Lays the directory of the rows: for each level the number of its bins, and behind it their frames, oldest first.
pub fn lay_directory(rows: &[Row], directory: &mut Vec<u8>)
    requires { length (directory_text rows.now) ≤ vec_capacity directory.old }
    ensures text { directory.new.items ≡ directory_text rows.now }
    ensures capacity { vec_capacity directory.old ≤ vec_capacity directory.new }
{
    directory.clear();
    for row in rows {
        lay_row(row.bins(), directory);
    }
}

// Lays the part of one level.
fn lay_row(row: &[BinAt], directory: &mut Vec<u8>)
    requires few { length row.now < 2 ^ 8 }
    requires room { length directory.old.items + 1 + length row.now ≤ vec_capacity directory.old }
    ensures text { directory.new.items ≡ directory.old.items ++ (length row.now ∷ map (λ bin. bin.frame) row.now) }
    ensures capacity { vec_capacity directory.old ≤ vec_capacity directory.new }
{
    put(directory, row.len() as u8);
    for bin in row {
        put(directory, bin.frame);
    }
}

// Puts a byte behind the others, where there is room.
fn put(directory: &mut Vec<u8>, byte: u8)
    requires { length directory.old.items < vec_capacity directory.old }
    ensures items { directory.new.items ≡ directory.old.items ++ byte ∷ [] }
    ensures capacity { vec_capacity directory.old ≤ vec_capacity directory.new }
{
    let is_put = directory.push(byte).is_ok();
    prove!(is_put);
}
