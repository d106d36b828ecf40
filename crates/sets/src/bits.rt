// A set of numbers below 64 * W, a bit for each.
ghost use Rattle.std.specs.Prelude.{◌≡◌, ℕ, ◌-◌, ◌*◌, ◌^◌, ◌<◌, min, Bool, true, false, not, ◌&&◌, ◌||◌, length, Decides, MatchBool, MatchOption, bit_and, bit_or, ◌==◌, nat_le, nat_lt, nat_eq, slice_index};
ghost use Rattle.sets.specs.Member.{member, tally};
ghost use Rattle.std.specs.Cmp.{on_per, partial_equiv_from_equiv};
ghost use Rattle.std.specs.Cmp.Lexicographic.{pointwise, nat_list_eq_equiv};

/// Number i is a member where bit i % 64 of word i / 64 is set.
#[derive(Clone, Copy, Eq)]
pub struct BitSet<const W: usize> {
    words: [u64; W],
    ghost size: { length words ≡ W },
    ghost fits: { (k : ℕ) → slice_index words k < 2 ^ 64 },
    // A member is a `usize`, also where 64 * W is none.
    ghost usable: { (i : ℕ) → member words i ≡ true → i < 2 ^ 64 },
}

impl<const W: usize> BitSet<W> {
    /// A set with no member.
    pub fn empty() -> Self
        ensures { (i : ℕ) → member result.words i ≡ false }
    {
        BitSet { words: [0; W] }
    }

    /// The numbers below `k`, as far as there is room.
    pub fn below(k: usize) -> Self
        ensures { (j : ℕ) → member result.words j ≡ (nat_lt j k && nat_lt j (64 * W)) }
    {
        let mut words = [0; W];
        for (i, word) in words.iter_mut().enumerate() {
            *word = low_ones(k.saturating_sub(i.saturating_mul(64)));
        }
        BitSet { words }
    }

    /// The numbers from `first` on and below `end`, as far as there is room.
    pub fn range(first: usize, end: usize) -> Self
        ensures { (j : ℕ) → member result.words j ≡ (nat_le first j && nat_lt j end && nat_lt j (64 * W)) }
    {
        BitSet::below(end).minus(&BitSet::below(first))
    }

    /// The numbers below `k` that pass, as far as there is room. A `filter` would have the same test and the same `insert`.
    pub fn below_where<F: Fn(usize) -> bool>(k: usize, passes: F) -> Self
        requires { (j : ℕ) → j < k → F.pre passes j }
        ensures test { (j : ℕ) → j < k → j < 64 * W → (passed : Bool) × F.post passes j passed × (member result.words j ≡ passed) }
        ensures bound { (j : ℕ) → member result.words j ≡ true → j < k }
    {
        let mut set = BitSet::empty();
        for j in 0..k {
            if passes(j) {
                set.insert(j);
            }
        }
        set
    }

    /// Whether `i` is a member. A number without room is none.
    pub fn has(&self, i: usize) -> bool
        ensures { result ≡ member self.now.words i }
    {
        i / 64 < W && (self.words[i / 64] >> (i % 64)) & 1 == 1
    }

    /// Puts `i` in, and says whether there is room for it. By a bool: a number without room is no fault to any caller.
    pub fn insert(&mut self, i: usize) -> bool
        ensures room { result ≡ nat_lt i (64 * W) }
        ensures members { (j : ℕ) → member self.new.words j ≡ (member self.old.words j || (j == i && nat_lt i (64 * W))) }
    {
        let has_room = i / 64 < W;
        if has_room {
            self.words[i / 64] |= 1 << (i % 64);
        }
        has_room
    }

    /// Takes `i` out; the set stays as it was where `i` is no member.
    pub fn remove(&mut self, i: usize)
        ensures { (j : ℕ) → member self.new.words j ≡ (member self.old.words j && not (j == i)) }
    {
        if i / 64 < W {
            self.words[i / 64] &= !(1 << (i % 64));
        }
    }

    /// The members of either set.
    pub fn union(&self, other: &Self) -> Self
        ensures { (i : ℕ) → member result.words i ≡ (member self.now.words i || member other.now.words i) }
    {
        let or = |x: u64, y: u64| -> u64
            ensures { result ≡ bit_or x y }
        { x | y };
        BitSet {
            words: zip_words(&self.words, &other.words, or),
        }
    }

    /// The members of both sets.
    pub fn intersection(&self, other: &Self) -> Self
        ensures { (i : ℕ) → member result.words i ≡ (member self.now.words i && member other.now.words i) }
    {
        let and = |x: u64, y: u64| -> u64
            ensures { result ≡ bit_and x y }
        { x & y };
        BitSet {
            words: zip_words(&self.words, &other.words, and),
        }
    }

    /// The members that `other` does not have.
    pub fn minus(&self, other: &Self) -> Self
        ensures { (i : ℕ) → member result.words i ≡ (member self.now.words i && not (member other.now.words i)) }
    {
        let minus = |x: u64, y: u64| -> u64
            ensures { result ≡ bit_and x (2 ^ 64 - 1 - y) }
        { x & !y };
        BitSet {
            words: zip_words(&self.words, &other.words, minus),
        }
    }

    /// The lowest member; none where the set is empty.
    pub fn lowest(&self) -> Option<usize>
        ensures { MatchOption result
            ((i : ℕ) → member self.now.words i ≡ false)
            (λ i. (member self.now.words i ≡ true) × ((j : ℕ) → j < i → member self.now.words j ≡ false)) }
    {
        let i = self.words.iter().position(|word| *word != 0)?;
        Some(64 * i + self.words[i].trailing_zeros() as usize)
    }

    /// The highest member; none where the set is empty.
    pub fn highest(&self) -> Option<usize>
        ensures { MatchOption result
            ((i : ℕ) → member self.now.words i ≡ false)
            (λ i. (member self.now.words i ≡ true) × ((j : ℕ) → i < j → member self.now.words j ≡ false)) }
    {
        let i = self.words.iter().rposition(|word| *word != 0)?;
        Some(64 * i + self.words[i].ilog2() as usize)
    }

    /// Whether there is no member.
    pub fn is_empty(&self) -> bool
        ensures { MatchBool result
            ((i : ℕ) → member self.now.words i ≡ false)
            ((i : ℕ) × (member self.now.words i ≡ true)) }
    {
        self.lowest().is_none()
    }

    /// Whether the two sets have a member in common.
    pub fn meets(&self, other: &Self) -> bool
        ensures { MatchBool result
            ((i : ℕ) × ((member self.now.words i && member other.now.words i) ≡ true))
            ((i : ℕ) → (member self.now.words i && member other.now.words i) ≡ false) }
    {
        !self.intersection(other).is_empty()
    }

    /// Whether every member of `other` is one of `self`.
    pub fn contains_all(&self, other: &Self) -> bool
        ensures { MatchBool result
            ((i : ℕ) → member other.now.words i ≡ true → member self.now.words i ≡ true)
            ((i : ℕ) × (member other.now.words i ≡ true) × (member self.now.words i ≡ false)) }
    {
        other.minus(self).is_empty()
    }

    /// How many members there are, or the largest `usize` where every `usize` is one.
    pub fn count(&self) -> usize
        ensures { result ≡ min (tally (member self.now.words) (64 * W)) (2 ^ 64 - 1) }
    {
        let mut total: usize = 0;
        for word in &self.words {
            total = total.saturating_add(word.count_ones() as usize);
        }
        total
    }
}

// Each word of `a` joined with that of `b` in its place. With `zip` nothing is known of what is written.
fn zip_words<F: Fn(u64, u64) -> u64, const W: usize>(
    a: &[u64; W],
    b: &[u64; W],
    join: F,
) -> [u64; W]
    requires { F.IsAlwaysCallable join }
    ensures size { length result ≡ W }
    ensures words { (k : ℕ) → k < W → F.post join (slice_index a.now k) (slice_index b.now k) (slice_index result k) }
{
    let mut words = *a;
    for (i, word) in words.iter_mut().enumerate() {
        *word = join(*word, b[i]);
    }
    words
}

// A word with the lowest `n` bits set, or all of them.
fn low_ones(n: usize) -> u64
    ensures { result ≡ 2 ^ min n 64 - 1 }
{
    if n < 64 { (1 << n) - 1 } else { u64::MAX }
}

// Two sets are equal just where they are one value, and that is just where they have the same members. A derive would not
// promise this.
impl<const W: usize> PartialEq for BitSet<W> {
    ghost eq = { λ a b. pointwise nat_eq a.words b.words };

    ghost laws = { on_per (λ s. s.words) (partial_equiv_from_equiv nat_list_eq_equiv) };

    fn eq(&self, other: &Self) -> bool
        ensures value { result ≡ pointwise nat_eq self.now.words other.now.words }
        ensures same { Decides result (self.now ≡ other.now) }
        ensures members { Decides result ((i : ℕ) → member self.now.words i ≡ member other.now.words i) }
    {
        self.words == other.words
    }
}
