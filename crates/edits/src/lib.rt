// The edits that move steps, swap and replace, and `apply`, which is any of the five. Each leaves exactly the sheet asked
// for, or refuses and changes nothing.

#![tactic(auto)]

mod applying;
mod edit;
mod pairs;
mod replacing;
mod swapping;

pub use applying::apply;
pub use edit::Edit;
pub use replacing::replace;
pub use shaping::{EditFault, group, loosen, ungroup};
pub use swapping::swap;
