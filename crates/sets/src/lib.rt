// Collections of fixed room that need no allocator: a set of small numbers and a list.
#![tactic(auto)]

pub mod bits;
pub mod list;
#[cfg(test)]
mod tests;
