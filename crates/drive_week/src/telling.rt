// What a rig did, in the book's names.
use crate::naming::Names;
use crate::watching::Watched;
use rigs::{Rig, RigFault};
use runs::{At, RunFault};
use std::io::{self, Write};
use task::{Facts, Task};

/// The steps of a sheet that a rig is driven over, by their action numbers, and the book's names for what it shows.
#[derive(Clone, Copy)]
pub struct Driven<'a> {
    pub names: &'a Names<'a>,
    pub task: &'a Task,
    pub steps: &'a [u32],
}

impl<'a> Driven<'a> {
    fn action_name(&self, position: usize) -> &'a str {
        let number = self.steps.get(position).copied();
        let name = number.and_then(|number| self.names.actions.get(number as usize).copied());
        name.unwrap_or("?")
    }

    fn fact_name(&self, fact: usize) -> &'a str {
        let name = self.names.facts.get(fact).copied();
        name.unwrap_or("?")
    }

    /// A line for a step that is done: its position, its action, and the facts that stand then.
    fn tell_step<W: Write>(&self, out: &mut W, position: usize, facts: &Facts) -> io::Result<()> {
        write!(out, "{position}\t{}\t", self.action_name(position))?;
        let mut mark = "";
        for fact in 0..self.task.facts {
            if facts.has(fact) {
                write!(out, "{mark}{}", self.fact_name(fact))?;
                mark = ", ";
            }
        }
        writeln!(out)
    }

    /// The line for how it ended.
    fn tell_end<W: Write, R: Rig>(
        &self,
        out: &mut W,
        rig: &R,
        end: Result<(), RunFault>,
    ) -> io::Result<()> {
        match end {
            Ok(()) if rig.stands(&self.task.goal) => {
                writeln!(out, "the goal stands; steps left: {}", rig.left())
            }
            Ok(()) => writeln!(
                out,
                "a goal fact does not stand; steps left: {}",
                rig.left()
            ),
            Err(
                RunFault::Rig(
                    At {
                        position,
                        fault: RigFault::Missing(fact),
                    },
                ),
            ) => writeln!(
                out,
                "{position}\t{}\trefused: {} does not stand",
                self.action_name(position),
                self.fact_name(fact)
            ),
            Err(fault) => writeln!(out, "refused: {fault}"),
        }
    }

    /// A line for each step that was done, by the positions in the order in which they were taken, and one for the end.
    pub fn tell<W: Write, R: Rig>(
        &self,
        out: &mut W,
        order: &[usize],
        rig: &Watched<R>,
        end: Result<(), RunFault>,
    ) -> io::Result<()> {
        for (position, facts) in order.iter().zip(rig.seen.as_slice()) {
            self.tell_step(out, *position, facts)?;
        }
        self.tell_end(out, rig, end)
    }
}
