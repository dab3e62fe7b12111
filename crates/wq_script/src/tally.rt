//! What the senders of a script and the delay table have counted.
ghost use Rattle.std.specs.Prelude.{◌≡◌, ◌^◌, ◌≤◌};
ghost use Rattle.wq_script.specs.Counting.{HasTallyRoom, counted, counted_armed, counted_push, counted_modified, counted_posts};

use wq_words::{Answer, Armed, Modified};

// Queueings by the answers that they had. No other seat steps while one is made, so none is contended.
#[derive(Clone, Copy, Debug, PartialEq, Eq)]
pub(crate) struct Tally {
    pub(crate) queued: u64,
    pub(crate) busy: u64,
    pub(crate) refused: u64,
}

impl Tally {
    // Counts a queueing.
    pub(crate) fn queueing(&mut self, answer: Answer)
        requires { HasTallyRoom self.old }
        ensures { self.new ≡ counted answer self.old }
    {
        match answer {
            Answer::Queued { .. } => self.queued += 1,
            Answer::Pending => self.busy += 1,
            Answer::Closed | Answer::Draining => self.refused += 1,
            Answer::Contended => {}
        }
    }

    // Counts an arming: as the queueing that it was, or not at all where the item went on the table or nothing was changed.
    pub(crate) fn arming(&mut self, armed: Armed)
        requires { HasTallyRoom self.old }
        ensures { self.new ≡ counted_armed armed self.old }
    {
        match armed {
            Armed::Queued { first, wakes } => self.queueing(Answer::Queued { first, wakes }),
            Armed::Pending => self.queueing(Answer::Pending),
            Armed::Closed => self.queueing(Answer::Closed),
            Armed::Draining => self.queueing(Answer::Draining),
            Armed::OnTable | Armed::Contended | Armed::TooFar | Armed::Memory => {}
        }
    }

    fn pushing(&mut self, delay: u64)
        requires { HasTallyRoom self.old }
        ensures { self.new ≡ counted_push delay self.old }
    {
        if delay == 0 {
            self.queued += 1;
        }
    }

    // Counts a modification with this delay of an item that was on the table, or was not. While the queue drains an item on the
    // table stays there, and none is refused; another is held and given back.
    pub(crate) fn modification(&mut self, modified: Modified, delay: u64, was_on_table: bool)
        requires { HasTallyRoom self.old }
        ensures { self.new ≡ counted_modified delay was_on_table modified self.old }
    {
        match modified {
            Modified::WasIdle | Modified::Moved => self.pushing(delay),
            Modified::Pending => self.busy += 1,
            Modified::Closed => self.refused += 1,
            Modified::Draining => {
                if !was_on_table {
                    self.refused += 1;
                }
            }
            Modified::Contended | Modified::TooFar | Modified::Memory => {}
        }
    }

    // Counts items that were posted, all of them refused where the queue is closed.
    pub(crate) fn posting(&mut self, is_closed: bool, count: u64)
        requires room { HasTallyRoom self.old }
        requires few { count ≤ 2 ^ 62 }
        ensures { self.new ≡ counted_posts is_closed count self.old }
    {
        if is_closed {
            self.refused += count;
        } else {
            self.queued += count;
        }
    }
}
