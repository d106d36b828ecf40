// Makes many small sheets with blocks, lists all running orders of each by their definition, and compares what the check
// says with what the list says.

#![tactic(auto)]

use comparing::{Findings, Random, compare_checks};

const SHEETS: u32 = 12000;

fn main(rt: HostRuntime) -> anyhow::Result<()> {
    let mut random = Random { state: 20261117 };
    let findings = Findings(compare_checks(&mut random, SHEETS, |_| 1));
    println!(rt; "{findings}")?;
    Ok(())
}

#[cfg(test)]
mod tests;
