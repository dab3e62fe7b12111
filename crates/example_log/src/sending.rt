//! Clients, which send messages, and the stop items.
ghost use Rattle.std.specs.Prelude.{◌≡◌, ◌<◌, ◌≤◌, ◌+◌, ◌++◌, [], ◌∷◌, Some, false, cond, length};
ghost use Rattle.wq_value_pool.specs.Known.{IsSame, IsCallerOf};
ghost use Rattle.wq_value_pool.specs.KnownWith.{BringsOrReturns, answer_of};
ghost use Rattle.wq_values.specs.Answers.{Answers};
ghost use Rattle.wq_value_pool.specs.OwnBrought.{queued_value};
ghost use Rattle.example_log.specs.declared.message.Log.TheVariants.{Access, Errors};
ghost use Rattle.example_log.specs.Sent.{own_lines, brings, IsNewClient, WasTurnedAway, IsTurnedAway, HasSent, StopsAlone};

use crate::message::{Line, Log, Message};
use crate::writer::Writer;
use std::sync::Wait;
use std::thread;
use wq_value_pool::{Caller, ValuePool};
use wq_values::{Answer, ValueAnswer, ValueSender, queued_brings, queued_is_accepted};

/// So many items of each log are a client's: as many of its lines wait at a time.
pub(crate) const ITEMS: u32 = 4;

/// The numbers of the logs' queues in their pool.
pub(crate) const ACCESS: u32 = 0;

pub(crate) const ERRORS: u32 = 1;

/// A sender of each log's queue, and a caller that announces both.
#[derive(Drop)]
pub(crate) struct Client {
    pub(crate) access: ValueSender<Line>,
    pub(crate) errors: ValueSender<Line>,
    pub(crate) caller: Caller,
}

/// The senders of a client, and how many of its messages they queued.
#[derive(Drop)]
pub(crate) struct ClientSent {
    pub(crate) access: ValueSender<Line>,
    pub(crate) errors: ValueSender<Line>,
    pub(crate) count: usize,
}

// One queueing. What the sender's own queueings brought grows by the line, if it was queued; else the line comes back.
fn queue_once<R: Wait>(
    rt: &R,
    sender: &mut ValueSender<Line>,
    item: u32,
    line: Line,
) -> ValueAnswer<Line>
    requires item { item < sender.old.known.layout.items }
    ensures same { IsSame sender.old.known sender.new.known }
    ensures brought { own_lines sender.new ≡ own_lines sender.old ++ queued_value line result }
    ensures value { BringsOrReturns item line result sender.new }
    ensures answer { Answers item 0 (answer_of result) sender.old.known sender.new.known }
{
    queued_brings::<Line>();
    sender.queue_value_wait(rt, item, line)
}

// Announces a log's queue where an answer says that it wakes.
fn wake<R: Wait>(
    rt: &R,
    pool: &ValuePool<Line, Writer>,
    caller: &mut Caller,
    number: u32,
    answer: Answer,
)
    requires caller { IsCallerOf pool.now.ready caller.old }
    requires queue { number < length pool.now.workers }
    ensures { IsCallerOf pool.now.ready caller.new }
{
    let Ok(()) = pool.wake(rt, caller, number, answer) else {
        unreachable!()
    };
}

// Queues a line, and announces the queue where that wakes it. While an earlier line of the item waits, or others change the list,
// it is tried again. Whether the line was queued: it is not where the queue takes no more.
fn queue<R: Wait>(
    rt: &R,
    pool: &ValuePool<Line, Writer>,
    sender: &mut ValueSender<Line>,
    caller: &mut Caller,
    number: u32,
    item: u32,
    line: Line,
) -> bool
    requires item { item < sender.old.known.layout.items }
    requires caller { IsCallerOf pool.now.ready caller.old }
    requires queue { number < length pool.now.workers }
    ensures same { IsSame sender.old.known sender.new.known }
    ensures caller { IsCallerOf pool.now.ready caller.new }
    ensures brought { own_lines sender.new ≡ own_lines sender.old ++ cond result (Some line ∷ []) [] }
    ensures turned_away { result ≡ false → WasTurnedAway sender.new.known.number sender.new.known.seen }
{
    let mut line = line;
    for _ in rt.forever() {
        match queue_once(rt, sender, item, line) {
            ValueAnswer::Queued { first, wakes } => {
                wake(rt, pool, caller, number, Answer::Queued { first, wakes });
                return true;
            }
            ValueAnswer::Pending(same) => line = same,
            ValueAnswer::Contended(same) => line = same,
            ValueAnswer::Closed(_refused) => return false,
            ValueAnswer::Draining(_refused) => return false,
        }
        thread::yield_now();
    }
    unreachable!()
}

// Queues a message's line on the queue of its log.
fn send<R: Wait>(
    rt: &R,
    pool: &ValuePool<Line, Writer>,
    client: &mut Client,
    item: u32,
    message: Message,
) -> bool
    requires access { item < client.old.access.known.layout.items }
    requires errors { item < client.old.errors.known.layout.items }
    requires caller { IsCallerOf pool.now.ready client.old.caller }
    requires queues { 2 ≤ length pool.now.workers }
    requires numbers { client.old.errors.known.number ≡ client.old.access.known.number }
    ensures same_access { IsSame client.old.access.known client.new.access.known }
    ensures same_errors { IsSame client.old.errors.known client.new.errors.known }
    ensures caller { IsCallerOf pool.now.ready client.new.caller }
    ensures to_access { own_lines client.new.access ≡ own_lines client.old.access ++ brings Access message result }
    ensures to_errors { own_lines client.new.errors ≡ own_lines client.old.errors ++ brings Errors message result }
    ensures turned_away { result ≡ false
        → IsTurnedAway client.old.access.known.number client.new.access.known.seen client.new.errors.known.seen }
{
    let Message { log, line } = message;
    match log {
        Log::Access => queue(
            rt,
            pool,
            &mut client.access,
            &mut client.caller,
            ACCESS,
            item,
            line,
        ),
        Log::Errors => queue(
            rt,
            pool,
            &mut client.errors,
            &mut client.caller,
            ERRORS,
            item,
            line,
        ),
    }
}

// The item behind this one, of those from the first on.
fn item_behind(item: u32, first: u32) -> u32
    requires within { (first ≤ item) × (item < first + 4) }
    requires fits { first + 4 < 4294967296 }
    ensures within { (first ≤ result) × (result < first + 4) }
{
    if item + 1 < first + ITEMS {
        item + 1
    } else {
        first
    }
}

/// What a client's thread does: it sends its messages in their order, each with the next of its items, from the first on. It ends
/// early where a queue takes no more.
pub(crate) fn send_all<R: Wait>(
    rt: &R,
    pool: &ValuePool<Line, Writer>,
    client: Client,
    first: u32,
    messages: Vec<Message>,
) -> ClientSent
    requires client { IsNewClient pool.now.ready client.access.known.number (first + 4) client }
    requires queues { 2 ≤ length pool.now.workers }
    ensures sent { HasSent client messages.items result }
{
    let mut client = client;
    let mut item = first;
    let mut count = 0usize;
    for message in messages {
        if !send(rt, pool, &mut client, item, message) {
            break;
        }
        item = item_behind(item, first);
        count = count.wrapping_add(1);
    }
    let Client { access, errors, .. } = client;
    ClientSent {
        access,
        errors,
        count,
    }
}

/// Queues a log's stop item, behind all that its queue has accepted, and gives the sender back, of which nothing else was accepted.
pub(crate) fn stop<R: Wait>(
    rt: &R,
    pool: &ValuePool<Line, Writer>,
    caller: &mut Caller,
    number: u32,
    mut sender: ValueSender<Line>,
) -> ValueSender<Line>
    requires caller { IsCallerOf pool.now.ready caller.old }
    requires queue { number < length pool.now.workers }
    requires new { sender.known.seen ≡ [] }
    ensures caller { IsCallerOf pool.now.ready caller.new }
    ensures stops { StopsAlone sender.known result.known }
{
    queued_is_accepted();
    for _ in rt.forever() {
        match sender.request_stop(1) {
            Answer::Contended => {}
            answer => {
                wake(rt, pool, caller, number, answer);
                return sender;
            }
        }
    }
    unreachable!()
}
