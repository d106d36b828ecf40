// How often each kind of call was answered in each way.
ghost use Rattle.std.specs.Prelude.{◌≡◌, ◌&&◌, nat_le};
ghost use Rattle.std.specs.List.{list_all};

use crate::holding::Act;
use comparing::Tally;
use sets::list::ArrayVec;

// Whose slip a call is made by: that of what the run has taken, that of another run, or one that bears nothing.
#[derive(Clone, Copy, Debug, PartialEq, Eq)]
pub enum Whose {
    Own,
    Others,
    Blank,
}

#[derive(Clone, Copy, Debug, PartialEq, Eq)]
pub enum Kind {
    Take,
    BySlip(Act, Whose),
}

// The kind of a call, and the number of its refusal; None where it was carried out.
#[derive(Clone, Copy, Debug, PartialEq, Eq)]
pub struct End(pub Kind, pub Option<u32>);

impl End {
    pub fn is_refused(&self) -> bool {
        self.1.is_some()
    }
}

const DONE: Kind = Kind::BySlip(Act::Done, Whose::Own);

const DONE_BY_OTHERS: Kind = Kind::BySlip(Act::Done, Whose::Others);

const PUT_BACK: Kind = Kind::BySlip(Act::PutBack, Whose::Own);

const PUT_BACK_BY_OTHERS: Kind = Kind::BySlip(Act::PutBack, Whose::Others);

// How many ways a call can end in.
const WAYS: usize = 19;

// Each of them.
const ENDS: [End; WAYS] = [
    End(Kind::Take, None),
    End(Kind::Take, Some(1)),
    End(Kind::Take, Some(10)),
    End(DONE, None),
    End(DONE, Some(2)),
    End(DONE, Some(11)),
    End(DONE, Some(12)),
    End(DONE, Some(13)),
    End(DONE_BY_OTHERS, None),
    End(DONE_BY_OTHERS, Some(2)),
    End(DONE_BY_OTHERS, Some(11)),
    End(DONE_BY_OTHERS, Some(12)),
    End(DONE_BY_OTHERS, Some(13)),
    End(Kind::BySlip(Act::Done, Whose::Blank), Some(11)),
    End(PUT_BACK, None),
    End(PUT_BACK, Some(11)),
    End(PUT_BACK_BY_OTHERS, None),
    End(PUT_BACK_BY_OTHERS, Some(11)),
    End(Kind::BySlip(Act::PutBack, Whose::Blank), Some(11)),
];

// So many calls are made on the runs over one sheet.
pub const CALLS: usize = 48;

// How the calls over one sheet ended, first to last, and how many of its runs came to their end.
#[derive(Clone, Copy)]
pub struct Session {
    pub ends: ArrayVec<End, CALLS>,
    pub finished: usize,
}

// How many calls ended so.
#[derive(Clone, Copy, Debug, PartialEq, Eq)]
pub struct Count {
    pub end: End,
    pub times: usize,
}

// How many sheets were driven, how many runs came to their end, and how the calls ended.
#[derive(Clone, Copy, Debug, PartialEq, Eq)]
pub struct Ends {
    pub sheets: u32,
    pub finished: usize,
    pub counts: [Count; WAYS],
}

impl Tally for Ends {
    type Found = Session;

    ghost counted = { λ ends. ends.sheets };

    fn none() -> Self {
        Ends {
            sheets: 0,
            finished: 0,
            counts: ENDS.map(|end| Count { end, times: 0 }),
        }
    }

    fn add(&mut self, session: Session) {
        for count in self.counts.iter_mut() {
            let ends = session.ends.as_slice().iter();
            let times = ends.filter(|end| **end == count.end).count();
            count.times = count.times.saturating_add(times);
        }
        self.finished = self.finished.saturating_add(session.finished);
        self.sheets += 1;
    }
}

impl Ends {
    // Whether each kind of call ended in each of its ways that often, and that many runs came to their end.
    pub fn have_all(&self, often: usize) -> bool
        ensures { result ≡ (list_all (λ c. nat_le often c.times) self.now.counts && nat_le often self.now.finished) }
    {
        self.have_each(often) && often <= self.finished
    }

    fn have_each(&self, often: usize) -> bool
        ensures { result ≡ list_all (λ c. nat_le often c.times) self.now.counts }
    {
        self.counts.iter().all(|count| often <= count.times)
    }
}
