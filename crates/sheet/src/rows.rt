// Arrays of 128 entries, and sets in rows.
ghost use Rattle.std.specs.Prelude.{◌≡◌, ℕ, ◌<◌, ◌≤◌, length, slice_index_or};
ghost use Rattle.sets.specs.Member.{member};
ghost use Rattle.sheet.specs.Rows.{in_row};

use sets::bits::BitSet;

/// Row `i`, the empty set where there is none.
pub fn row<const W: usize>(rows: &[BitSet<W>], i: usize) -> BitSet<W>
    ensures { (j : ℕ) → member result.words j ≡ in_row rows.now i j }
{
    rows.get(i).copied().unwrap_or(BitSet::empty())
}

// The first `count` entries are what `entry` answers for them, and `fill` stands in the others. With `array::from_fn` the
// promise stayed open.
pub(crate) fn filled<T: Copy, F: Fn(usize) -> T>(fill: T, count: usize, entry: F) -> [T; 128]
    requires few { count ≤ 128 }
    requires can { (i : ℕ) → i < count → F.pre entry i }
    ensures size { length result ≡ 128 }
    ensures entries { (i : ℕ) → i < count → (x : T) × F.post entry i x × ((d : T) → slice_index_or result i d ≡ x) }
    ensures rest { (i : ℕ) → count ≤ i → i < 128 → (d : T) → slice_index_or result i d ≡ fill }
{
    let mut entries = [fill; 128];
    // By an index: of a part of an array that is written through, no promise is found.
    for i in 0..count {
        entries[i] = entry(i);
    }
    entries
}
