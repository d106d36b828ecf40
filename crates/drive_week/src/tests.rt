use crate::tell;
use std::str;
use std::test::Fail;
use task::Facts;

// Two discs in one drive, and an edit that ends with the sheet as two blocks that may change places.
const BOOK: &[u8] = b"fact\tdrive empty\nfact\tdisc 1 in\nfact\tdisc 2 in\n\
act\tinsert 1\t20\t0\t1\t0\nact\teject 1\t10\t1\t0\t1\nact\tinsert 2\t20\t0\t2\t0\nact\teject 2\t10\t2\t0\t2\n\
start\t0\ngoal\t0\nstep\t0\nstep\t1\nstep\t2\nstep\t3\n\
group\t0\t1\ngroup\t2\t3\nloosen\t1\t2\n";

// No rig has an empty drive.
const REFUSED: &str = "the plan as laid, on a rig of lamps
0\tinsert 1\trefused: drive empty does not stand
the edited sheet, on a word rig, the lowest open position first; saved: 0
0\tinsert 1\trefused: drive empty does not stand
the edited sheet, on a word rig, the highest open position first
2\tinsert 2\trefused: drive empty does not stand
";

#[test]
fn a_rig_that_lacks_a_start_fact_refuses_a_step(rt: HostRuntime) -> Result<(), Fail> {
    let mut lacking = Facts::empty();
    assert!(rt; lacking.insert(0));
    let mut out = Vec::new(rt.alloc());
    assert!(rt; !tell(&mut out, BOOK, &lacking, rt.alloc())?);
    assert_eq!(rt; str::from_utf8(out.as_slice())?, REFUSED);
    Ok(())
}
