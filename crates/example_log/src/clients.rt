//! The clients of both logs, in threads of their own.
ghost use Rattle.std.specs.Prelude.{◌≡◌, ◌+◌, ◌<◌, ◌≤◌, ◌∷◌, [], All, length};
ghost use Rattle.wq_value_pool.specs.Known.{IsCallerOf};
ghost use Rattle.example_log.specs.Sent.{HasSent, IsNewClient, AreNewClients, StopsAlone, HaveSent};

use crate::message::{Line, Message};
use crate::sending::{ACCESS, Client, ClientSent, ERRORS, ITEMS, send_all, stop};
use crate::writer::Writer;
use std::sync::Wait;
use std::thread::{Threads, join};
use wq_value_pool::{Caller, ValuePool};
use wq_values::ValueSender;

// All that a list holds, in its order.
pub(crate) fn all_of<T: Drop, const N: usize>(list: Vec<T>) -> [T; N]
    requires { length list.items ≡ N }
    ensures { result ≡ list.items }
{
    let Ok(all) = <[T; N]>::try_from(list) else {
        unreachable!()
    };
    all
}

// One of the callers that are left.
fn caller_of(pool: &ValuePool<Line, Writer>, callers: &mut Vec<Caller>) -> Caller
    requires some { 0 < length callers.old.items }
    requires all { All (IsCallerOf pool.now.ready) callers.old.items }
    ensures one { IsCallerOf pool.now.ready result }
    ensures all { All (IsCallerOf pool.now.ready) callers.new.items }
    ensures count { length callers.new.items + 1 ≡ length callers.old.items }
{
    let Some(caller) = callers.pop() else {
        unreachable!()
    };
    caller
}

/// Those who queue: two clients, and one that stops both logs behind them.
#[derive(Drop)]
pub(crate) struct Clients {
    pub(crate) first: Client,
    pub(crate) second: Client,
    pub(crate) last: Client,
}

/// The clients of two new queues, with three of the callers.
pub(crate) fn clients_of(
    pool: &ValuePool<Line, Writer>,
    access: Vec<ValueSender<Line>>,
    errors: Vec<ValueSender<Line>>,
    callers: &mut Vec<Caller>,
) -> Clients
    requires senders { (length access.items ≡ 3) × (length errors.items ≡ 3) }
    requires some { 3 ≤ length callers.old.items }
    requires all { All (IsCallerOf pool.now.ready) callers.old.items }
    ensures access { access.items ≡ result.first.access ∷ result.second.access ∷ result.last.access ∷ [] }
    ensures errors { errors.items ≡ result.first.errors ∷ result.second.errors ∷ result.last.errors ∷ [] }
    ensures callers { IsCallerOf pool.now.ready result.first.caller × IsCallerOf pool.now.ready result.second.caller
        × IsCallerOf pool.now.ready result.last.caller }
    ensures all { All (IsCallerOf pool.now.ready) callers.new.items }
{
    let [one, two, three] = all_of::<ValueSender<Line>, 3>(access);
    let [first, second, last] = all_of::<ValueSender<Line>, 3>(errors);
    Clients {
        first: Client {
            access: one,
            errors: first,
            caller: caller_of(pool, callers),
        },
        second: Client {
            access: two,
            errors: second,
            caller: caller_of(pool, callers),
        },
        last: Client {
            access: three,
            errors: last,
            caller: caller_of(pool, callers),
        },
    }
}

// Queues both stop items. The senders come back.
fn stop_both<R: Wait>(
    rt: &R,
    pool: &ValuePool<Line, Writer>,
    last: Client,
) -> (ValueSender<Line>, ValueSender<Line>)
    requires last { IsNewClient pool.now.ready 2 0 last }
    requires queues { 2 ≤ length pool.now.workers }
    ensures access { StopsAlone last.access.known result.0.known }
    ensures errors { StopsAlone last.errors.known result.1.known }
{
    let Client {
        access,
        errors,
        mut caller,
    } = last;
    let access = stop(rt, pool, &mut caller, ACCESS, access);
    let errors = stop(rt, pool, &mut caller, ERRORS, errors);
    (access, errors)
}

/// What the clients sent, and the senders that stopped the logs of accesses and of errors.
#[derive(Drop)]
pub(crate) struct SentAndStopped {
    pub(crate) first: ClientSent,
    pub(crate) second: ClientSent,
    pub(crate) access: ValueSender<Line>,
    pub(crate) errors: ValueSender<Line>,
}

/// The clients send in threads of their own, and when both have ended the stop items follow.
pub(crate) fn send_both<R: Threads + Wait + Sync>(
    rt: &R,
    pool: &ValuePool<Line, Writer>,
    clients: Clients,
    first: Vec<Message>,
    second: Vec<Message>,
) -> SentAndStopped
    requires clients { AreNewClients pool.now.ready clients }
    requires queues { 2 ≤ length pool.now.workers }
    ensures { HaveSent clients first.items second.items result }
{
    let Clients {
        first: one,
        second: two,
        last,
    } = clients;
    let (first, second) = join(
        rt,
        move ||
            requires { IsNewClient pool.now.ready 0 4 one × (2 ≤ length pool.now.workers) }
            ensures { HasSent one first.items result }
        { send_all(rt, pool, one, 0, first) },
        move ||
            requires { IsNewClient pool.now.ready 1 8 two × (2 ≤ length pool.now.workers) }
            ensures { HasSent two second.items result }
        { send_all(rt, pool, two, ITEMS, second) },
    );
    let (access, errors) = stop_both(rt, pool, last);
    SentAndStopped {
        first,
        second,
        access,
        errors,
    }
}
