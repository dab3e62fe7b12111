//! Calls of a delay table with one try each, of which some are lost to the steps of another thread.
use super::calls::{advance, arm, cancel, delayed, modify};
use crate::expect::expect_same;
use crate::patience::Patience;
use crate::seats::{churn, pause};
use std::thread::join;
use std::time::Clock;
use wq_delay::{Armed, Delay, Modified};

/// The item that is queued last.
const LAST: u32 = 3;

/// Whether a queueing at once, an item moved to this tick, and an advance to the next tick are contended.
fn are_contended(delay: &mut Delay, tick: u64) -> [bool; 3] {
    let armed = arm(delay, 1, 0) == Some(Armed::Contended);
    arm(delay, 2, 9);
    let modified = modify(delay, 2, 0) == Some(Modified::Contended);
    cancel(delay, 2);
    arm(delay, 2, 1);
    let advanced = advance(delay, tick) == Some((0, 0, 1));
    [armed, modified, advanced]
}

/// Queues the last item, which ends the other thread.
fn queue_last(delay: &mut Delay) {
    for _ in 0..u32::MAX {
        if arm(delay, LAST, 0) != Some(Armed::Contended) {
            break;
        }
    }
}

/// Makes the calls until each was contended, and then ends the other thread.
fn contend<R: Clock>(rt: &R, delay: &mut Delay) -> [bool; 3] {
    let patience = Patience::begin(rt);
    let mut all = [false; 3];
    for tick in 1..u64::MAX {
        let [armed, modified, advanced] = are_contended(delay, tick);
        all = [all[0] || armed, all[1] || modified, all[2] || advanced];
        if all == [true; 3] || patience.is_over(rt) {
            break;
        }
        pause();
    }
    queue_last(delay);
    all
}

/// A try is lost where another thread stepped in between: of an arming without delay, a change of delay to none, and an advance.
#[test]
fn each_call_of_a_table_is_contended(rt: HostRuntime) {
    let (mut owner, mut sender, mut delay) = delayed(&rt, rt.alloc(), 4, 0);
    let (contended, ended) = join(
        &rt,
        || contend(&rt, &mut delay),
        || churn(&mut owner, &mut sender, LAST),
    );
    assert!(rt; ended);
    expect_same(&rt, contended, [true; 3]);
    drop(delay);
    drop(sender);
    drop(owner);
}
