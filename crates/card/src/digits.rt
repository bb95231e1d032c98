// A field of bits, and how many numbers a card has.
ghost use Rattle.std.specs.Prelude.{◌+◌, ◌*◌, ◌^◌, ◌<◌, ◌≤◌, ◌≡◌, length};
ghost use Rattle.rules.specs.Refusals.{is_packed};
ghost use Rattle.card.specs.Card.{bits_of_bytes, number_count};
ghost use Rattle.card.specs.Fields.{field_at};
ghost use Rattle.card.specs.Outcome.{stored_of};

use bits::bit;
use rules::{Cols, Rows, Storage};

// The number that some bits from a place on say.
pub(crate) fn field(bytes: &[u8], at: usize, width: usize) -> u64
    requires width_bound { width ≤ 64 }
    requires width_bound_2 { at + width ≤ 8 * length bytes.now }
    requires width_bound_3 { at + width < 2 ^ 64 }
    ensures value { result ≡ field_at at width (bits_of_bytes bytes.now) }
    ensures bound { result < 2 ^ width }
{
    let mut v: u64 = 0;
    // A bit's place counts from `at`: a number in any form.
    for k in 0..width {
        v = v * 2 + bit(bytes, at + k);
    }
    v
}

// How many numbers A has; none where n or m is above 32, as in no card.
pub fn stored(storage: Storage, rows: Rows, cols: Cols) -> usize
    ensures value { result ≡ stored_of storage rows cols }
    ensures bound { result ≤ 1024 }
{
    let m = rows.0;
    let n = cols.0;
    if n > 32 || m > 32 {
        return 0;
    }
    match storage {
        Storage::Dense => m * n,
        Storage::Packed => n * (n + 1) / 2,
    }
}

// How many numbers a card has.
pub(crate) fn number_count(storage: Storage, rows: Rows, cols: Cols) -> usize
    requires rows_bound { rows.0 ≤ 32 }
    requires cols_bound { cols.0 ≤ 32 }
    ensures value { result ≡ number_count (is_packed storage) cols.0 rows.0 }
    ensures bound { result ≤ 1091 }
{
    3 + cols.0 + stored(storage, rows, cols) + rows.0
}
