// Runs: a sheet's steps taken and done one by one, over any rig.
#![tactic(auto)]

mod fault;
mod run;
mod slip;
mod state;

pub use fault::{At, RunFault};
pub use run::Run;
pub use slip::Slip;
