// Compares the check and the edits with their rules on many small sheets: with the list of all running orders, made by
// its definition, and with the rules of the edits, followed on plain lists.

#![tactic(auto)]

use comparing::{Findings, Random, compare_checks, compare_edits};

// How many sheets are checked.
const SHEETS: u32 = 12000;

// How many others are edited.
const EDITED: u32 = 10000;

// How often each kind of edit is to end in each of its ways: a comparison that meets some of them seldom would show little.
const OFTEN: usize = 300;

// A price for an action: one in four is free, and few prices make many equal sums.
fn price(random: &mut Random) -> u32 {
    match random.below(4) {
        0 => 0,
        1 => 1,
        2 => 2,
        _ => 5,
    }
}

fn tell_checks(rt: &HostRuntime, random: &mut Random) -> anyhow::Result<()> {
    let findings = Findings(compare_checks(random, SHEETS, price));
    println!(rt; "{findings}")?;
    Ok(())
}

fn tell_edits(rt: &HostRuntime, random: &mut Random) -> anyhow::Result<()> {
    match compare_edits(random, EDITED, price) {
        Ok(ends) => {
            let all = ends.have_all(OFTEN);
            println!(rt; "{EDITED} sheets edited and compared with the rules: no difference")?;
            println!(rt;
                "every kind of edit accepted, and refused for each of its reasons, {OFTEN} times or more: {all}"
            )?;
        }
        Err(difference) => println!(rt; "the edits differ first at {difference}")?,
    }
    Ok(())
}

fn main(rt: HostRuntime) -> anyhow::Result<()> {
    let mut random = Random { state: 20261117 };
    tell_checks(&rt, &mut random)?;
    tell_edits(&rt, &mut random)
}
