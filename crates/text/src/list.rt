ghost use Rattle.std.specs.Prelude.{◌≡◌, ℕ, ◌↔◌, List, ◌++◌};
ghost use Rattle.text.specs.Fields.{IsList, IsNumbers, Lacks, commas};
ghost use Rattle.text.specs.Readers.{Exactly, Left, NextGives, behind, unread};

use crate::fault::FieldFault;
use crate::fields::number;
use crate::parts::cut;

// How a list without entries is written.
const NO_ENTRIES: &[u8] = b"-";

/// Reads the numbers of a list one by one.
#[derive(Drop)]
pub struct Entries<'a> {
    // What starts with the next number; nothing where none is left.
    rest: Option<&'a [u8]>,
}

impl<'a> Entries<'a> {
    /// What is left at first is the list that `text` is, if it is one.
    pub fn new(text: &'a [u8]) -> Self
        ensures { (ns : List ℕ) → Left result ns ↔ IsList text.now ns }
    {
        match text {
            NO_ENTRIES => Entries { rest: None },
            _ => Entries { rest: Some(text) },
        }
    }

    /// The next number, if one is left. What is no list is refused, and stays as it is: an iterator would have to end there.
    pub fn next(&mut self) -> Result<Option<u32>, FieldFault>
        ensures { NextGives self.old result self.new }
    {
        // A `?` would answer `None`, and not `Ok(None)`.
        let Some(text) = self.rest else {
            return Ok(None);
        };
        let (front, others) = Self::parted(text);
        let n = number(front).map_err(|_| FieldFault::List)?;
        *self = others;
        Ok(Some(n))
    }

    // The bytes before the first comma, and the entries behind it.
    fn parted(text: &'a [u8]) -> (&'a [u8], Self)
        ensures { (text.now ≡ result.0.now ++ behind (unread result.1)) × Lacks 44 result.0.now }
    {
        match cut(text, b',') {
            Some((front, rest)) => (front, Entries { rest: Some(rest) }),
            None => (text, Entries { rest: None }),
        }
    }
}

/// The same bytes, if they are a list of numbers, which has to rise where `rising` says so.
pub fn numbers(text: &[u8], rising: bool) -> Result<&[u8], FieldFault>
    ensures { Exactly result (λ s. s.now) FieldFault.List (λ bs. (bs ≡ text.now) × ((ns : List ℕ) × IsNumbers rising ns × (bs ≡ commas ns))) }
{
    let mut entries = Entries::new(text);
    // The least number that may come next in a rising list.
    let mut least = 0;
    while let Some(n) = entries.next()? {
        if rising && n < least {
            return Err(FieldFault::List);
        }
        least = n + 1;
    }
    Ok(text)
}
