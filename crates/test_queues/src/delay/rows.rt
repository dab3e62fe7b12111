//! Tables of ticks call by call: what no script can ask.
use super::calls::{arm, delayed};
use crate::expect::expect_same;
use crate::seats::{QUEUED, WAKES, queue_once};
use std::process::Abort;
use wq_delay::Armed;
use wq_live::{Answer, Sender};

/// Whether an item is pending.
fn is_pending(sender: &mut Sender, item: u32) -> Option<bool> {
    if item < sender.layout().items {
        Some(sender.is_pending(item))
    } else {
        None
    }
}

/// No item below this one is pending.
fn expect_none_pending<R: Abort>(rt: &R, sender: &mut Sender, items: u32) {
    for item in 0..items {
        expect_same(rt, (item, is_pending(sender, item)), (item, Some(false)));
    }
}

/// A table that is dropped keeps its items.
#[test]
fn dropped_table_keeps_its_items(rt: HostRuntime) {
    let (owner, mut sender, mut delay) = delayed(&rt, rt.alloc(), 4, 0);
    delay.meet(&mut sender);
    expect_same(&rt, arm(&mut delay, 0, 1), Some(Armed::OnTable));
    drop(delay);
    expect_same(&rt, queue_once(&mut sender, 0), Some(Answer::Pending));
    drop(owner);
    drop(sender);
}

/// A table that is dissolved gives its items back.
#[test]
fn dissolved_table_gives_its_items_back(rt: HostRuntime) {
    let (owner, mut sender, mut delay) = delayed(&rt, rt.alloc(), 4, 0);
    for item in 0..4 {
        expect_same(&rt, arm(&mut delay, item, 1), Some(Armed::OnTable));
    }
    let mut other = delay.dissolve();
    expect_none_pending(&rt, &mut sender, 4);
    expect_same(&rt, queue_once(&mut other, 3), Some(WAKES));
    expect_same(&rt, queue_once(&mut sender, 0), Some(QUEUED));
    drop(owner);
    drop(sender);
    drop(other);
}
