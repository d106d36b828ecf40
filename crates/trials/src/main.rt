// Loads the books named by the arguments, sound and damaged, and says of each what became of it.

#![tactic(auto)]

use book::load::load;
use sets::list::ArrayVec;
use std::{env, fs};
use task::{BookTariff, Task, price_of_list};

fn trial(rt: &HostRuntime, name: &str) -> anyhow::Result<()> {
    let text = fs::read(rt, name)?;
    let mut task = Task::new();
    let mut plan = ArrayVec::new(0);
    let loaded = load(text.as_slice(), &mut task, &mut plan);
    let facts = task.facts;
    let actions = task.actions.len();
    let steps = plan.len();
    if let Err(fault) = loaded {
        let number = fault.number();
        let line = fault.line();
        println!(rt;
            "{name}: {number} at line {line}, leaving {facts} facts, {actions} actions, {steps} steps"
        )?;
        return Ok(());
    }
    match price_of_list(&BookTariff { task: &task }, plan.as_slice()) {
        Ok(price) => println!(rt;
            "{name}: {facts} facts, {actions} actions, {steps} steps for {price}"
        )?,
        Err(_) => println!(rt; "{name}: too long a plan")?,
    }
    Ok(())
}

fn main(rt: HostRuntime) -> anyhow::Result<()> {
    for name in env::args(&rt)?.skip(1) {
        trial(&rt, name.as_str())?;
    }
    Ok(())
}
