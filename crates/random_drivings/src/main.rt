// Compares drivings with their rules on many small sheets: in every order of the positions, with the list of all running
// orders and with the check; and at random, by two runs over one rig, with the rules followed on plain lists.

#![tactic(auto)]

mod ends;
mod every;
mod holding;
mod plain;
mod refusal;
mod seen;
mod sessions;
mod twins;

use comparing::Random;
use every::drive_every_order;
use sessions::drive_at_random;

// How many sheets are driven in every order.
const SHEETS: u32 = 10000;

// How many others are driven at random.
const OTHERS: u32 = 10000;

// How often each kind of call is to end in each of its ways: a comparison that meets some of them seldom would show little.
const OFTEN: usize = 2000;

fn tell_every_order(rt: &HostRuntime, random: &mut Random) -> anyhow::Result<()> {
    match drive_every_order(random, SHEETS) {
        Ok(shapes) => {
            let varied = shapes.are_varied();
            println!(rt;
                "{SHEETS} sheets driven in every order and compared with all their running orders: no difference"
            )?;
            println!(rt;
                "a quarter or more with several orders, with blocks, with a wanting fact, and with none: {varied}"
            )?;
        }
        Err(difference) => println!(rt;
            "the drivings in every order differ first at {difference}"
        )?,
    }
    Ok(())
}

fn tell_random(rt: &HostRuntime, random: &mut Random) -> anyhow::Result<()> {
    match drive_at_random(random, OTHERS) {
        Ok(ends) => {
            let all = ends.have_all(OFTEN);
            println!(rt;
                "{OTHERS} sheets driven at random and compared with the rules: no difference"
            )?;
            println!(rt;
                "calls by every slip carried out, and refused for each of their reasons, {OFTEN} times or more: {all}"
            )?;
        }
        Err(difference) => println!(rt; "the random drivings differ first at {difference}")?,
    }
    Ok(())
}

fn main(rt: HostRuntime) -> anyhow::Result<()> {
    let mut random = Random { state: 20261117 };
    tell_every_order(&rt, &mut random)?;
    tell_random(&rt, &mut random)
}
