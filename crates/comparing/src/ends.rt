// How often each kind of edit ended in each way.
ghost use Rattle.std.specs.Prelude.{◌≡◌, nat_le};
ghost use Rattle.std.specs.List.{list_all};

use crate::editing::Made;
use crate::tally::Tally;
use edits::Edit;

#[derive(Clone, Copy, Debug, PartialEq, Eq)]
pub enum Kind {
    Swap,
    Group,
    Ungroup,
    Loosen,
    Replace,
}

impl Kind {
    // No `From`: beside a public type it would be public, and owe a contract that could only say the match again.
    pub(crate) fn of(edit: Edit<'_>) -> Self {
        match edit {
            Edit::Swap(_) => Kind::Swap,
            Edit::Group(_, _) => Kind::Group,
            Edit::Ungroup(_, _) => Kind::Ungroup,
            Edit::Loosen(_, _) => Kind::Loosen,
            Edit::Replace(_, _, _) => Kind::Replace,
        }
    }
}

// The kind of an edit, and the number of its refusal; None where it was carried out. A number, since a refusal also names an
// action or a place, and these ends are counted by reason.
#[derive(Clone, Copy, Debug, PartialEq, Eq)]
pub struct End(pub Kind, pub Option<u32>);

// How many ways an edit of a small sheet can end in.
const WAYS: usize = 24;

// Each of them.
const ENDS: [End; WAYS] = [
    End(Kind::Swap, None),
    End(Kind::Swap, Some(1)),
    End(Kind::Swap, Some(6)),
    End(Kind::Group, None),
    End(Kind::Group, Some(1)),
    End(Kind::Group, Some(5)),
    End(Kind::Ungroup, None),
    End(Kind::Ungroup, Some(1)),
    End(Kind::Ungroup, Some(2)),
    End(Kind::Ungroup, Some(3)),
    End(Kind::Ungroup, Some(5)),
    End(Kind::Loosen, None),
    End(Kind::Loosen, Some(1)),
    End(Kind::Loosen, Some(2)),
    End(Kind::Loosen, Some(3)),
    End(Kind::Loosen, Some(6)),
    End(Kind::Loosen, Some(7)),
    End(Kind::Replace, None),
    End(Kind::Replace, Some(1)),
    End(Kind::Replace, Some(2)),
    End(Kind::Replace, Some(3)),
    End(Kind::Replace, Some(5)),
    End(Kind::Replace, Some(8)),
    End(Kind::Replace, Some(9)),
];

// How many edits ended so.
#[derive(Clone, Copy, Debug, PartialEq, Eq)]
pub struct Count {
    pub end: End,
    pub times: usize,
}

// How many sheets were edited, and how their edits ended.
#[derive(Clone, Copy, Debug, PartialEq, Eq)]
pub struct Ends {
    pub sheets: u32,
    pub counts: [Count; WAYS],
}

impl Tally for Ends {
    type Found = Made;

    ghost counted = { λ ends. ends.sheets };

    fn none() -> Self {
        Ends {
            sheets: 0,
            counts: ENDS.map(|end| Count { end, times: 0 }),
        }
    }

    fn add(&mut self, made: Made) {
        for count in self.counts.iter_mut() {
            let ends = made.as_slice().iter();
            let times = ends.filter(|end| **end == count.end).count();
            count.times = count.times.saturating_add(times);
        }
        self.sheets += 1;
    }
}

impl Ends {
    // Whether each kind of edit ended in each of its ways that often.
    pub fn have_all(&self, often: usize) -> bool
        ensures { result ≡ list_all (λ c. nat_le often c.times) self.now.counts }
    {
        self.counts.iter().all(|count| often <= count.times)
    }
}
