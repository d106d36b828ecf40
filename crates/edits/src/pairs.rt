// Pairs of positions, as ties and blocks are.
ghost use Rattle.std.specs.Prelude.{◌≡◌, ℕ, ◌<◌, Bool, true};
ghost use Rattle.sets.specs.Member.{member};
ghost use Rattle.sheet.specs.Rows.{in_row};

use sets::bits::BitSet;
use sheet::Relation;

// The positions that pass with `x`.
fn paired_with<F: Fn(usize, usize) -> bool>(passes: &F, x: usize) -> BitSet<2>
    requires { (y : ℕ) → y < 128 → F.pre passes.now x y }
    ensures test { (y : ℕ) → y < 128 → (passed : Bool) × F.post passes.now x y passed × (member result.words y ≡ passed) }
{
    BitSet::below_where(
        128,
        |y: usize| -> bool
            requires { F.pre passes.now x y }
            ensures { F.post passes.entry.now x y result }
        { passes(x, y) },
    )
}

/// The pairs of positions that pass, in rows.
pub fn rows_of<F: Fn(usize, usize) -> bool>(passes: F) -> Relation
    requires { (x y : ℕ) → x < 128 → y < 128 → F.pre passes x y }
    ensures pairs { (x y : ℕ) → x < 128 → y < 128 → (passed : Bool) × F.post passes x y passed × (in_row result.rows x y ≡ passed) }
    ensures room { (x y : ℕ) → in_row result.rows x y ≡ true → (x < 128) × (y < 128) }
{
    Relation::by_rows(
        |x: usize| -> BitSet<2>
            requires { (y : ℕ) → y < 128 → F.pre passes x y }
            ensures { (y : ℕ) → y < 128 → (passed : Bool) × F.post passes x y passed × (member result.words y ≡ passed) }
        { paired_with(&passes, x) },
    )
}
