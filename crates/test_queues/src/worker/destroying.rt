//! A destroy that does not come to the end at once.
use crate::expect::expect_same;
use crate::seats::{QUEUED, WAKES};
use crate::worker::steps::{Step, play};
use crate::worker::team::{Fixed, destroy_having_run, new_team};

const THREE: &[Step] = &[
    Step::Queue(0, WAKES),
    Step::Queue(1, QUEUED),
    Step::Queue(2, QUEUED),
];

/// A destroy that comes to its limit gives the worker back, closed, and a second one ends.
#[test]
fn destroy_goes_on(rt: HostRuntime) {
    let mut team = new_team(&rt, rt.alloc(), 4, Fixed::new());
    play(&rt, &mut team.worker, &mut team.first, THREE);
    let Err(unfinished) = team.worker.destroy(2) else {
        panic!(rt; "nothing was left")
    };
    expect_same(&rt, unfinished.left, 1);
    assert!(rt; unfinished.worker.is_closed());
    destroy_having_run(&rt, unfinished.worker, 1, &[0, 1, 2]);
    drop(team.first);
    drop(team.second);
}
