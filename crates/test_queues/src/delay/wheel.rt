//! How many slots an advance looks at. That a table answers as a sorted list does is shown by scripts (`checks/random_delays.py`).
use super::calls::{advance, arm, delayed};
use crate::expect::expect_same;
use std::process::Abort;
use wq_delay::{Armed, Delay};

/// A jump, how many it pushed, refused and left waiting, and how many slots were looked at for it.
type Jump = (u64, Option<(u32, u32, u32)>, u32);

/// The first advance looks at one slot for one tick.
const JUMPED: &[Jump] = &[
    (1, Some((1, 0, 3)), 1),
    (0, None, 1),
    (257, Some((2, 0, 1)), 256),
    (600, Some((1, 0, 0)), 256),
    (600, Some((0, 0, 0)), 0),
];

fn arm_all<R: Abort>(rt: &R, delay: &mut Delay) {
    for &(item, ticks) in &[(0, 256), (1, 1), (2, 257), (3, 512)] {
        expect_same(rt, arm(delay, item, ticks), Some(Armed::OnTable));
    }
}

/// Each jump pushes so many, and looks at so many slots.
fn check_jumps<R: Abort>(rt: &R, delay: &mut Delay) {
    expect_same(rt, delay.looked(), 0);
    for &(now, said, looked) in JUMPED {
        expect_same(rt, (now, advance(delay, now)), (now, said));
        expect_same(rt, (now, delay.looked()), (now, looked));
    }
}

#[test]
fn looks_at_one_slot_a_tick(rt: HostRuntime) {
    let (owner, sender, mut delay) = delayed(&rt, rt.alloc(), 4, 0);
    arm_all(&rt, &mut delay);
    check_jumps(&rt, &mut delay);
    drop(delay);
    drop(owner);
    drop(sender);
}
