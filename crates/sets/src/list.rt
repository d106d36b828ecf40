// A list with room for N elements.
ghost use Rattle.std.specs.Prelude.{◌≡◌, ◌<◌, ◌≤◌, List, [], ◌∷◌, ◌++◌, length, take, MatchResult, ◌==◌, ⊤};

use std::alloc::AllocError;

/// The elements are the first `len` of `items`; what stands behind them is not looked at. Nothing is allocated, as everywhere
/// below the programs, and a list is copied as a value, which the kit's list of this name is not.
pub struct ArrayVec<T, const N: usize> {
    items: [T; N],
    len: usize,
    ghost ok: { len ≤ N },
    ghost size: { length items ≡ N },
}

impl<T: Copy, const N: usize> ArrayVec<T, N> {
    ghost use Rattle.std.specs.Iterator.{AlwaysYields, IsFinite};
    ghost use Rattle.std.specs.List.{slice_get};
    ghost use Rattle.sets.specs.Contents.{contents};

    /// An empty list; `fill` only fills the room.
    pub fn new(fill: T) -> Self
        ensures { contents result ≡ [] }
    {
        ArrayVec {
            items: [fill; N],
            len: 0,
        }
    }

    /// The items that the iterator yields, as far as there is room; `fill` only fills it.
    pub fn collect<I: Iterator<Item = T>>(fill: T, items: I) -> Self
        requires can { I.can_next items }
        requires finite { IsFinite (I.remaining items) }
        ensures { (all : List T) → AlwaysYields I.next_gives (λ x. x) items all → contents result ≡ take N all }
    {
        let mut list = ArrayVec::new(fill);
        for item in items {
            let _ = list.push(item);
        }
        list
    }

    /// How many elements there are.
    pub fn len(&self) -> usize
        ensures { result ≡ length (contents self.now) }
    {
        self.as_slice().len()
    }

    /// Whether there is no element.
    pub fn is_empty(&self) -> bool
        ensures { result ≡ (length (contents self.now) == 0) }
    {
        self.len() == 0
    }

    /// The element at place `i`, from 0; none past the last.
    pub fn get(&self, i: usize) -> Option<T>
        ensures { result ≡ slice_get (contents self.now) i }
    {
        self.as_slice().get(i).copied()
    }

    /// The elements, first to last.
    pub fn as_slice(&self) -> &[T]
        ensures { result.now ≡ contents self.now }
    {
        &self.items[..self.len]
    }

    /// Puts `x` at the end, or hands it back where there is no room.
    pub fn push(&mut self, x: T) -> Result<(), T>
        ensures { MatchResult result
            (λ _. (length (contents self.old) < N) × (contents self.new ≡ contents self.old ++ x ∷ []))
            (λ e. (length (contents self.old) ≡ N) × (self.new ≡ self.old) × (e ≡ x)) }
    {
        if self.len < N {
            self.items[self.len] = x;
            self.len += 1;
            Ok(())
        } else {
            Err(x)
        }
    }

    /// Takes all elements out.
    pub fn clear(&mut self)
        ensures { contents self.new ≡ [] }
    {
        self.len = 0;
    }
}

// Written out: no derive clones a struct with a type parameter and ghost fields.
impl<T: Copy, const N: usize> Clone for ArrayVec<T, N> {
    ghost is_clone = { λ v w. w ≡ v };

    ghost is_infallible = { λ _. ⊤ };

    fn clone(&self) -> Result<Self, AllocError> {
        Ok(*self)
    }
}

impl<T: Copy, const N: usize> Copy for ArrayVec<T, N> {}

// Two lists are equal where they hold the same elements; what stands behind them is not looked at, so no derive will do.
impl<T: PartialEq + Copy, const N: usize> PartialEq for ArrayVec<T, N> {
    ghost use Rattle.std.specs.Cmp.{on_per};
    ghost use Rattle.std.specs.Cmp.Lexicographic.{lists_per, pointwise};
    ghost use Rattle.sets.specs.Contents.{contents};

    ghost eq = { λ v w. pointwise T.eq (contents v) (contents w) };

    ghost laws = { on_per contents (lists_per T.PartialEq.laws) };

    fn eq(&self, other: &Self) -> bool {
        self.as_slice() == other.as_slice()
    }
}

impl<T: Eq + Copy, const N: usize> Eq for ArrayVec<T, N> {
    ghost use Rattle.std.specs.Cmp.{on_equiv};
    ghost use Rattle.std.specs.Cmp.Lexicographic.{lists_equiv};
    ghost use Rattle.sets.specs.Contents.{contents};

    ghost laws = { on_equiv contents (lists_equiv T.Eq.laws) };
}
