// The edits that leave the steps where they are, and change the ties and blocks: group, ungroup and loosen.
// Each leaves exactly the sheet asked for, or refuses and changes nothing.
#![tactic(auto)]

mod checked;
mod fault;
mod grouping;
mod loosening;
mod run;
mod ungrouping;

pub use checked::adopt;
pub use fault::EditFault;
pub use grouping::group;
pub use loosening::loosen;
pub use ungrouping::ungroup;
