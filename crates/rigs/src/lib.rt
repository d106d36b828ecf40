// Rigs: what performs the steps of a sheet.
#![tactic(auto)]

mod fault;
mod lamps;
mod rig;
mod word;

pub use fault::RigFault;
pub use lamps::LampRig;
pub use rig::Rig;
pub use word::WordRig;
