//! All seats of a queue, and how each hears what one of them has seen.
ghost use Rattle.std.specs.Prelude.{◌≡◌, ◌<◌, not, List, length, All, slice_index_or, IfOk, MatchOption, ◌≤◌, [], replicate, slice_set};
ghost use Rattle.wq_text.specs.TextLimits.{most_script_senders};
ghost use Rattle.wq_meaning.specs.Arming.{posted_items};
ghost use Rattle.wq_meaning.specs.Execution.{no_follow};
ghost use Rattle.wq_words.specs.declared.layout.Layout.{Layout};
ghost use Rattle.wq_words.specs.declared.event.Event.{Event};
ghost use Rattle.wq_words.specs.Numbers.{barrier_number, stop_number};
ghost use Rattle.wq_live.specs.Known.{Known};
ghost use Rattle.wq_script.specs.Seats.{StaysSilent, AllHear, IsSameTable, AreOne, Publishes, Seated, HasHistory};
ghost use Rattle.wq_script.specs.Asking.{AsksOf, LooksAt, ClosesAs, DrainsNone, RunsAs};
ghost use Rattle.wq_script.specs.Arming.{ArmsAs, CancelsAs, ModifiesAs, IsBackwards, IsPosted};
ghost use Rattle.wq_words.specs.History.{pending, closed};
ghost use Rattle.wq_delay.specs.DelayTable.{on_table};

use crate::executing::execute_row;
use crate::lists::Lists;
use std::alloc::{AllocError, Global};
use wq_delay::{Backwards, Delay};
use wq_live::{Sender, build};
use wq_words::{Answer, Armed, Layout, Modified};
use wq_worker::{Drained, Follow, Worker};

// How often a push is tried. One try is enough: a command is one call taken whole, so no other seat comes between its look and
// its push.
const ONE_TRY: u32 = 1;

// Who queues, who delays and who executes: a queue has no seat but these.
#[derive(Drop)]
pub(crate) struct Seats {
    pub(crate) worker: Worker<Lists>,
    pub(crate) delay: Delay,
    pub(crate) senders: Vec<Sender>,
}

// The delay table's sender meets each of the others in turn.
fn meet_each(delay: &mut Delay, senders: &mut Vec<Sender>)
    requires one { All (λ (k : Known). k.queue ≡ delay.old.sender.queue) senders.old.items }
    ensures delay { StaysSilent delay.old.sender delay.new.sender }
    ensures table { IsSameTable delay.old delay.new }
    ensures senders { AllHear delay.old.sender.seen senders.old.items senders.new.items }
{
    for sender in senders.iter_mut() {
        delay.meet(sender);
    }
}

impl Seats {
    // The seats of a new queue, with a sender for each of the layout's, one for the worker and one for the delay table.
    pub(crate) fn new(alloc: Global, layout: Layout) -> Result<Seats, AllocError>
        requires { layout.senders ≤ most_script_senders }
        ensures seated { IfOk result (λ s. Seated layout s []) }
        ensures lists { IfOk result (λ s. s.worker.work.follows.items ≡ replicate layout.items no_follow) }
        ensures table { IfOk result (λ s. s.delay.table ≡ record { entries = []; tick = 0; next = 0 }) }
    {
        let Ok(wide) = Layout::new(layout.items, layout.barriers, layout.senders + 2) else {
            unreachable!()
        };
        let lists = Lists::new(alloc, layout.items)?;
        let Ok((owner, mut senders)) = build(alloc, wide) else {
            return Err(AllocError);
        };
        let Some(delayer) = senders.pop() else {
            unreachable!()
        };
        let Ok(delay) = Delay::new(alloc, delayer, 0) else {
            return Err(AllocError);
        };
        let Some(sender) = senders.pop() else {
            unreachable!()
        };
        let worker = Worker::new(owner, sender, lists, ONE_TRY);
        Ok(Seats {
            worker,
            delay,
            senders,
        })
    }

    // Afterwards each seat has seen what the sender at the place and the delay table's sender had seen.
    pub(crate) fn publish(&mut self, place: usize)
        requires place { place < length self.old.senders.items }
        requires one { AreOne self.old }
        ensures sender { (d : Known) → Publishes (slice_index_or self.old.senders.items place d).seen self.old self.new }
        ensures delay { Publishes self.old.delay.sender.seen self.old self.new }
    {
        self.delay.meet(&mut self.senders[place]);
        meet_each(&mut self.delay, &mut self.senders);
        self.worker.meet(&mut self.senders[0]);
    }

    // Afterwards each seat has seen what the worker had seen.
    pub(crate) fn publish_worker(&mut self)
        requires some { 0 < length self.old.senders.items }
        requires one { AreOne self.old }
        ensures { Publishes self.old.worker.seen self.old self.new }
    {
        self.worker.meet(&mut self.senders[0]);
        self.publish(0);
    }

    // The sender queues an item, with one try.
    pub(crate) fn queue(&mut self, sender: u32, item: u32) -> Answer
        requires seated { HasHistory self.old }
        requires place { sender < length self.old.senders.items }
        requires item { item < self.old.delay.sender.layout.items }
        ensures { AsksOf sender (λ _. item) result self.old self.new }
    {
        let place = sender as usize;
        let answer = self.senders[place].queue_tries(item, ONE_TRY);
        self.publish(place);
        answer
    }

    // The sender queues a barrier, with one try.
    pub(crate) fn flush(&mut self, sender: u32, barrier: u32) -> Answer
        requires seated { HasHistory self.old }
        requires place { sender < length self.old.senders.items }
        requires barrier { barrier < self.old.delay.sender.layout.barriers }
        ensures { AsksOf sender (λ layout. barrier_number layout barrier) result self.old self.new }
    {
        let place = sender as usize;
        let answer = self.senders[place].flush_begin(barrier, ONE_TRY);
        self.publish(place);
        answer
    }

    // The sender queues the stop item, with one try.
    pub(crate) fn stop(&mut self, sender: u32) -> Answer
        requires seated { HasHistory self.old }
        requires place { sender < length self.old.senders.items }
        ensures { AsksOf sender stop_number result self.old self.new }
    {
        let place = sender as usize;
        let answer = self.senders[place].request_stop(ONE_TRY);
        self.publish(place);
        answer
    }

    // The item's PENDING bit, as the first sender sees it.
    pub(crate) fn is_pending(&mut self, item: u32) -> bool
        requires seated { HasHistory self.old }
        requires some { 0 < length self.old.senders.items }
        requires item { item < self.old.delay.sender.layout.items }
        ensures { LooksAt (λ layout h. pending h item) result self.old self.new }
    {
        let is_pending = self.senders[0].is_pending(item);
        self.publish(0);
        is_pending
    }

    // The barrier's PENDING bit is clear, as the sender sees it.
    pub(crate) fn is_flushed(&mut self, sender: u32, barrier: u32) -> bool
        requires seated { HasHistory self.old }
        requires place { sender < length self.old.senders.items }
        requires barrier { barrier < self.old.delay.sender.layout.barriers }
        ensures { LooksAt (λ layout h. not (pending h (barrier_number layout barrier))) result self.old self.new }
    {
        let place = sender as usize;
        let is_flushed = self.senders[place].flush_done(barrier);
        self.publish(place);
        is_flushed
    }

    // The queue is closed.
    pub(crate) fn is_closed(&self) -> bool
        ensures { (layout : Layout) (h : List Event) → Seated layout self.now h → result ≡ closed h }
    {
        self.worker.is_closed()
    }

    // Closes the queue, and answers how many were taken by that. None where it was closed before.
    pub(crate) fn close(&mut self) -> Option<u64>
        requires seated { HasHistory self.old }
        requires some { 0 < length self.old.senders.items }
        ensures { ClosesAs result self.old self.new }
    {
        if self.worker.is_closed() {
            return None;
        }
        let taken = self.worker.close();
        self.publish_worker();
        Some(taken as u64)
    }

    // A drain without an execution: it begins where the queue is open, and ends where the queue drains and nothing is left.
    // Whether nothing is left.
    pub(crate) fn drain_none(&mut self) -> bool
        requires seated { HasHistory self.old }
        requires some { 0 < length self.old.senders.items }
        ensures { DrainsNone result self.old self.new }
    {
        let drained = self.worker.drain(0);
        self.publish_worker();
        match drained {
            Drained::Empty => true,
            Drained::TooLong { .. } => false,
        }
    }

    // At most so many executions, up to one of the last number. The numbers that were executed.
    pub(crate) fn run(
        &mut self,
        alloc: Global,
        layout: &Layout,
        limit: u32,
        last: Option<u32>,
    ) -> Result<Vec<u32>, AllocError>
        requires seated { (h : List Event) × Seated layout.now self.old h }
        requires some { 0 < length self.old.senders.items }
        ensures { IfOk result (λ ran. RunsAs layout.now limit last ran.items self.old self.new) }
    {
        let ran = execute_row(alloc, &mut self.worker, layout, limit, last)?;
        self.publish_worker();
        Ok(ran)
    }

    // Arms an item, with one try where there is no delay.
    pub(crate) fn arm(&mut self, item: u32, delay: u64) -> Armed
        requires seated { HasHistory self.old }
        requires some { 0 < length self.old.senders.items }
        requires item { item < self.old.delay.sender.layout.items }
        ensures { ArmsAs item delay result self.old self.new }
    {
        self.delay.fit();
        let armed = self.delay.arm(item, delay, ONE_TRY);
        self.publish(0);
        armed
    }

    // Takes an item off the delay table and gives it back. False where it was not there.
    pub(crate) fn cancel(&mut self, item: u32) -> bool
        requires seated { HasHistory self.old }
        requires some { 0 < length self.old.senders.items }
        requires item { item < self.old.delay.sender.layout.items }
        ensures { CancelsAs item result self.old self.new }
    {
        self.delay.fit();
        let was_on_table = self.delay.cancel(item);
        self.publish(0);
        was_on_table
    }

    // Arms an item again that is on the delay table, or posts it where there is no delay, with one try. An item that is not on
    // the table is armed.
    pub(crate) fn modify(&mut self, item: u32, delay: u64) -> Modified
        requires seated { HasHistory self.old }
        requires some { 0 < length self.old.senders.items }
        requires item { item < self.old.delay.sender.layout.items }
        ensures { ModifiesAs item delay result self.old self.new }
    {
        self.delay.fit();
        let modified = self.delay.modify(item, delay, ONE_TRY);
        self.publish(0);
        modified
    }

    // The item is on the delay table.
    pub(crate) fn is_on_table(&self, item: u32) -> bool
        requires { item < self.now.delay.sender.layout.items }
        ensures { result ≡ on_table item self.now.delay.table.entries }
    {
        self.delay.has(item)
    }

    // The items that an advance to this tick would post, in order: none while the queue drains.
    fn posted_at(&self, alloc: Global, tick: u64) -> Result<Vec<u32>, AllocError>
        ensures { IfOk result (λ posted. posted.items ≡ posted_items tick self.now.worker.seen self.now.delay.table) }
    {
        if self.worker.is_draining() {
            return Ok(Vec::new(alloc));
        }
        self.delay.due_list(tick)
    }

    // Sets the tick, and posts what is due, each with one try. The items that were posted, in order: none while the queue
    // drains. None where the tick is before the present one.
    pub(crate) fn advance(
        &mut self,
        alloc: Global,
        tick: u64,
    ) -> Result<Option<Vec<u32>>, AllocError>
        requires seated { HasHistory self.old }
        requires some { 0 < length self.old.senders.items }
        ensures { IfOk result (λ o. MatchOption o (IsBackwards tick self.old self.new) (λ posted. IsPosted tick posted.items self.old self.new)) }
    {
        self.delay.fit();
        let posted = self.posted_at(alloc, tick)?;
        let advanced = self.delay.advance(tick, ONE_TRY);
        self.publish(0);
        match advanced {
            Ok(_) => Ok(Some(posted)),
            Err(Backwards) => Ok(None),
        }
    }

    // From now on the item's function answers this list.
    pub(crate) fn follow(&mut self, item: u32, follow: &Follow)
        ensures worker { self.new.worker ≡ record self.old.worker { work = self.new.worker.work } }
        ensures lists { self.new.worker.work.follows.items ≡ slice_set self.old.worker.work.follows.items item follow.now }
        ensures others { (self.new.delay ≡ self.old.delay) × (self.new.senders ≡ self.old.senders) }
    {
        self.worker
            .adjust(|lists: &mut Lists| lists.set(item, follow));
    }
}
