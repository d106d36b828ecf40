//! Each text into a buffer one byte short of it, of its length, and longer.

use super::*;
use std::process::Abort;

/// Checks what a call that writes `text` has answered, and left in a buffer of dots with `room` bytes to write to.
fn holds(
    rt: &impl Abort,
    out: &[u8; 64],
    room: usize,
    got: Result<usize, ShortBuffer>,
    text: &[u8],
) {
    let mut want = [b'.'; 64];
    if room < text.len() {
        assert_eq!(rt; got, Err(ShortBuffer));
    } else {
        assert_eq!(rt; got, Ok(text.len()));
        assert!(rt; text.len() <= 64);
        want[0..text.len()].copy_from_slice(text);
    }
    assert!(rt; *out == want);
}

#[test]
fn listings(rt: HostRuntime) {
    let cases: [(u32, &[u32], &[u8]); 4] = [
        (0, &[], b"price\t0\n"),
        (660, &[], b"price\t660\n"),
        (4294967295, &[7], b"price\t4294967295\nstep\t0\t7\n"),
        (
            10,
            &[0, 4294967295, 1234567890],
            b"price\t10\nstep\t0\t0\nstep\t1\t4294967295\nstep\t2\t1234567890\n",
        ),
    ];
    for (price, steps, text) in cases {
        assert!(rt; 0 < text.len() && text.len() < 62);
        for room in text.len() - 1..text.len() + 3 {
            let mut out = [b'.'; 64];
            let got = listing(price, steps, &mut out[0..room]);
            holds(&rt, &out, room, got, text);
        }
    }
}

#[test]
fn replies(rt: HostRuntime) {
    let cases: [(Reply, &[u8]); 2] = [
        (Reply::Bad { number: 3, line: 0 }, b"bad\t3\t0\n"),
        (
            Reply::Bad {
                number: 99,
                line: 4294967295,
            },
            b"bad\t99\t4294967295\n",
        ),
    ];
    for (what, text) in cases {
        assert!(rt; 0 < text.len() && text.len() < 62);
        for room in text.len() - 1..text.len() + 3 {
            let mut out = [b'.'; 64];
            let got = reply(what, &mut out[0..room]);
            holds(&rt, &out, room, got, text);
        }
    }
    assert_eq!(rt; ShortBuffer.number(), 14);
}
