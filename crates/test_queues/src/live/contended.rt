//! Calls with one try each, of which some are lost to the steps of another thread.
use crate::expect::expect_same;
use crate::patience::Patience;
use crate::seats::{churn, pause, queue_once, queue_settled, seats};
use std::thread::join;
use std::time::Clock;
use wq_live::{Answer, Posted, Sender};

/// After so many rounds a test looks at the clock.
const ROUNDS: u32 = 1000;

/// The number of the second barrier of 4 items.
const LAST: u32 = 5;

/// Whether a push of an item that was held is contended. It is then held for ever.
fn post_is_contended(sender: &mut Sender, item: u32) -> bool {
    if item < sender.layout().items && sender.hold(item) {
        return sender.post(item, 1) == Posted::Contended;
    }
    false
}

/// Whether a queueing is contended, after which the item came back, so that the next one queues it.
fn queueing_is_contended(sender: &mut Sender, item: u32) -> bool {
    if queue_once(sender, item) != Some(Answer::Contended) {
        return false;
    }
    matches!(queue_settled(sender, item), Some(Answer::Queued { .. }))
}

/// Whether a queueing, a flush and a request to stop are contended.
fn are_contended(sender: &mut Sender) -> [bool; 3] {
    let mut seen = [false; 3];
    seen[0] = queueing_is_contended(sender, 1);
    if 0 < sender.layout().barriers {
        seen[1] = sender.flush_begin(0, 1) == Answer::Contended;
    }
    seen[2] = sender.request_stop(1) == Answer::Contended;
    seen
}

/// Makes the calls until each was contended, for as long as the test has patience, and then ends the other thread.
fn contend<R: Clock>(rt: &R, sender: &mut Sender) -> [bool; 4] {
    let patience = Patience::begin(rt);
    let mut all = [false; 4];
    for round in 0..u32::MAX {
        let [queue, flush, stop] = are_contended(sender);
        let post = post_is_contended(sender, 2);
        all = [
            all[0] || queue,
            all[1] || flush,
            all[2] || stop,
            all[3] || post,
        ];
        if all == [true; 4] || (round % ROUNDS == 0 && patience.is_over(rt)) {
            break;
        }
        pause();
    }
    if 1 < sender.layout().barriers {
        sender.flush_begin(1, u32::MAX);
    }
    all
}

/// A try is lost where another thread stepped in between: of a queueing, a flush, a request to stop, and a push of what is held.
/// The item of the queueing has come back, and is queued then.
#[test]
fn each_call_of_a_sender_is_contended(rt: HostRuntime) {
    let (mut owner, mut first, mut second) = seats(&rt, rt.alloc(), 4, 2);
    let (contended, ended) = join(
        &rt,
        || contend(&rt, &mut first),
        || churn(&mut owner, &mut second, LAST),
    );
    assert!(rt; ended);
    expect_same(&rt, contended, [true; 4]);
    drop(second);
    drop(first);
    drop(owner);
}
