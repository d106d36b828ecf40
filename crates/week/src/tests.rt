//! The week of the example with other edits. What is wanted of each follows from the rules.

use crate::answering::{Outcome, answer};
use std::test::Fail;

const WEEK: &[u8] =
    b"fact\tdrive empty\nfact\tdisc 1 in\nfact\tdisc 2 in\nfact\t1 captured\nfact\t2 captured\nact\tinsert 1\t20\t0\t1\t0\nact\tcapture 1\t300\t1\t3\t-\nact\teject 1\t10\t1\t0\t1\nact\tinsert 2\t20\t0\t2\t0\nact\tcapture 2\t300\t2\t4\t-\nact\teject 2\t10\t2\t0\t2\nact\tquick 1\t240\t1\t3\t-\nstart\t0\ngoal\t3,4\nstep\t0\nstep\t1\nstep\t2\nstep\t3\nstep\t4\nstep\t5\n";

const AS_LAID: &[u8] =
    b"price\t660\nstep\t0\t0\nstep\t1\t1\nstep\t2\t2\nstep\t3\t3\nstep\t4\t4\nstep\t5\t5\n";

// The edits, the lines for them, and the listing.
const CASES: [(&[u8], &[u8], &[u8]); 6] = [
    (b"", b"", AS_LAID),
    (
        b"swap\t0\nswap\t6\nswap\t9999999\nswap\t3\n",
        b"no\t1\nno\t1\nno\t1\nno\t6\n",
        AS_LAID,
    ),
    (
        b"loosen\t0\t2\nloosen\t2\t2\nloosen\t5\t6\nungroup\t0\t2\ngroup\t0\t2\ngroup\t1\t3\ngroup\t0\t2\nungroup\t0\t2\n",
        b"no\t7\nno\t1\nno\t1\nno\t5\ndone\t0\nno\t5\nno\t5\ndone\t0\n",
        AS_LAID,
    ),
    (
        b"loosen\t2\t3\ngroup\t0\t2\ngroup\t3\t5\nloosen\t2\t3\nloosen\t2\t3\nswap\t3\nungroup\t0\t2\n",
        b"no\t3\t3\t0\ndone\t0\ndone\t0\ndone\t0\nno\t6\ndone\t0\nno\t3\t3\t0\n",
        b"price\t660\nstep\t0\t3\nstep\t1\t4\nstep\t2\t5\nstep\t3\t0\nstep\t4\t1\nstep\t5\t2\n",
    ),
    (
        b"replace\t1\t0\t6\nreplace\t0\t1\t-\nreplace\t1\t1\t-\nreplace\t1\t1\t6,9999999,7\nreplace\t1\t1\t1\nreplace\t1\t1\t2\n",
        b"no\t1\nno\t5\nno\t8\nno\t2\t9999999\nno\t9\nno\t3\t2\t1\n",
        AS_LAID,
    ),
    (
        b"replace\t1\t1\t6\ngroup\t3\t5\nreplace\t3\t5\t3,4\n",
        b"done\t60\ndone\t0\ndone\t10\n",
        b"price\t590\nstep\t0\t0\nstep\t1\t6\nstep\t2\t2\nstep\t3\t3\nstep\t4\t4\n",
    ),
];

#[test]
fn answers_edits(rt: HostRuntime) -> Result<(), Fail> {
    for (edits, lines, listing) in CASES {
        let mut book = WEEK.to_vec(rt.alloc())?;
        book.extend_from_slice(edits)?;
        let mut want = lines.to_vec(rt.alloc())?;
        want.extend_from_slice(listing)?;
        let mut out = [b'.'; 512];
        let Ok(Outcome::Listed(len)) = answer(book.as_slice(), &mut out) else {
            return Err(Fail::new("the plan is refused, or the buffer too short"));
        };
        assert_eq!(rt; len, want.len());
        assert!(rt; len <= 512);
        assert!(rt; &out[0..len] == want.as_slice());
    }
    Ok(())
}

// Where the buffer is too short, the lines that fit are there, and nothing else is changed.
#[test]
fn keeps_the_lines_that_fit(rt: HostRuntime) {
    let mut out = [b'.'; 12];
    assert!(rt;
        answer(
            b"start\t-\ngoal\t-\nswap\t0\ngroup\t0\t1\nswap\t1\n",
            &mut out,
        )
        .is_err()
    );
    assert!(rt; out == *b"no\t1\nno\t1\n..");
}
