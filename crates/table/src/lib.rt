// A table of keyed rows, in rows that the caller lends and a count of those in use.
#![tactic(auto)]

ghost use Rattle.std.specs.Prelude.{◌≡◌, ◌<◌, ◌≤◌, Bool, length, IfSome, Decides, nat_eq};
ghost use Rattle.std.specs.Str.{bytes_eq};
ghost use Rattle.table.specs.Rows.{held, first_at, value_under, placed, added, grown, written};
ghost use Rattle.std.proofs.Common.{rules};
ghost use Rattle.std.proofs.lemmas.Slice.Eq.{bytes_eq-Decides};

// What a row can be found by.
pub trait Key: Copy {
    // Whether two keys are one. Kept beside `Eq`, which promises an equivalence only: here equal keys are one and the same.
    ghost same: { Self → Self → Bool };

    fn equals(self, other: Self) -> bool
        ensures { result ≡ same self other };

    ghost decides: { (x y : Self) → Decides (same x y) (x ≡ y) };
}

impl Key for u16 {
    ghost same = { nat_eq };

    ghost decides = { Prim.search rules };

    fn equals(self, other: u16) -> bool {
        self == other
    }
}

impl Key for [u8; 8] {
    ghost same = { bytes_eq };

    ghost decides = { bytes_eq-Decides };

    fn equals(self, other: [u8; 8]) -> bool {
        self == other
    }
}

#[derive(Clone, Copy)]
pub struct Row<K, V> {
    pub key: K,
    pub value: V,
}

// How many of the rows are in use, the first ones. Rows and count stay two things, and are lent as two: a caller can then guard the
// count alone.
#[derive(Clone, Copy)]
pub struct Count {
    pub rows: usize,
}

// No row is free.
#[derive(Clone, Copy)]
pub struct Full;

// The rows that are held: a count past the rows reads as all of them.
pub fn held<'a, K: Copy, V: Copy>(rows: &'a [Row<K, V>], count: &Count) -> &'a [Row<K, V>]
    ensures value { result.now ≡ held count.now rows.now }
    ensures within { length result.now ≤ length rows.now }
{
    &rows[..count.rows.min(rows.len())]
}

// The place of the first held row under the key.
pub fn find<K: Key, V: Copy>(rows: &[Row<K, V>], count: &Count, key: K) -> Option<usize>
    ensures answer { result ≡ first_at K.Key.same key (held count.now rows.now) }
    ensures within { IfSome result (λ i. i < length rows.now) }
{
    held(rows, count).iter().position(|row| row.key.equals(key))
}

// The value of the first held row under the key.
pub fn lookup<K: Key, V: Copy>(rows: &[Row<K, V>], count: &Count, key: K) -> Option<V>
    ensures { result ≡ value_under K.Key.same key (held count.now rows.now) }
{
    let row = held(rows, count).iter().find(|row| row.key.equals(key))?;
    Some(row.value)
}

// Puts a row behind the held ones and tells its place; changes nothing where no row is free.
pub fn insert<K: Key, V: Copy>(
    rows: &mut [Row<K, V>],
    count: &mut Count,
    key: K,
    value: V,
) -> Result<usize, Full>
    ensures answer { result ≡ placed count.old rows.old }
    ensures held { held count.new rows.new ≡ added (record { key = key; value = value }) count.old rows.old }
    ensures count { count.new ≡ grown count.old rows.old }
    ensures rows { rows.new ≡ written (record { key = key; value = value }) count.old rows.old }
{
    let place = count.rows;
    if place >= rows.len() {
        return Err(Full);
    }
    rows[place] = Row { key, value };
    count.rows = place + 1;
    Ok(place)
}
