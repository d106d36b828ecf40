// Many small sheets made at random, each compared with what the definitions say of it: with the list of all its running
// orders, and with the rules of the edits, followed on plain lists.

#![tactic(auto)]

mod checking;
mod choosing;
mod closing;
mod differing;
mod editing;
mod ends;
mod enumeration;
mod facts;
mod lists;
mod model;
mod moving;
mod random;
mod rules;
mod shapes;
mod tally;
mod tasks;
mod verdicts;

pub use checking::{Findings, compare_checks, shaped};
pub use differing::{Difference, Differs};
pub use editing::compare_edits;
pub use ends::{Count, End, Ends, Kind};
pub use enumeration::{Order, Orders, Position, every_order, every_order_as};
pub use facts::PlainFacts;
pub use lists::{MOST_STEPS, Pair, Run};
pub use model::Model;
pub use random::Random;
pub use shapes::{Shape, Shapes};
pub use tally::{Tally, tallied};
pub use tasks::PlainTask;
