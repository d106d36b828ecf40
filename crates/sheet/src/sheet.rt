// A sheet: steps in their home order, ties and blocks.
ghost use Rattle.std.specs.Prelude.{ℕ, ◌<◌, slice_index};
ghost use Rattle.orders.specs.Sheets.{Rules};
ghost use Rattle.sets.specs.Contents.{contents};
ghost use Rattle.sheet.specs.Rows.{outlined};

use crate::relation::Relation;
use sets::list::ArrayVec;
use task::LONGEST_LIST;

mod laying;
mod parts;
mod questions;

pub use laying::lay;

/// The action numbers of a sheet's steps.
pub type Steps = ArrayVec<u8, LONGEST_LIST>;

/// A step has an action number below 128. `behind` pairs i with the positions that it is tied before, and `blocks` the first
/// position of each block with its last.
#[derive(Clone, Copy, PartialEq, Eq)]
pub struct Sheet {
    pub steps: Steps,
    pub behind: Relation,
    pub blocks: Relation,
    ghost numbers: { (i : ℕ) → slice_index (contents steps) i < 128 },
    ghost rules: { ∥ Rules (outlined steps behind.rows blocks.rows) ∥₁ },
}
