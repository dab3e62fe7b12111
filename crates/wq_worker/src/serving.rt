//! Steps of a station, one after another.
ghost use Rattle.std.specs.Prelude.{◌≡◌, ℕ};
ghost use mathlib.Core.List.{IsPrefix};
ghost use Rattle.wq_words.specs.History.{accepted, ended, IsClosed, IsShut, IsRunning};
ghost use Rattle.wq_words.specs.Legal.{IsLegal, IsComplete, HasRunOut};
ghost use Rattle.wq_worker.specs.declared.drained.Drained.TheVariants.{Empty, TooLong};
ghost use Rattle.wq_worker.specs.State.{IsSameWorker};
ghost use Rattle.wq_worker.specs.Resting.{HasNoneLeft};
ghost use Rattle.wq_worker.specs.Rows.{RunsSomeBy, RunsOutBy, ServesBy, DrainsBy, Closes, Along};

use crate::drained::Drained;
use crate::patience::Patience;
use crate::ran::Ran;
use crate::station::Station;
use crossbeam_utils::sync::Parker;
use std::sync::Wait;

/// Up to so many executions. How many ended.
pub fn run_some<S: Station>(station: &mut S, limit: u32) -> u32
    ensures runs { RunsSomeBy S.may S.gives limit result (S.state station.old) (S.state station.new) }
    ensures open { ¬ IsShut (S.state station.old).seen → ¬ IsShut (S.state station.new).seen }
    ensures unclosed { ¬ IsClosed (S.state station.old).seen → ¬ IsClosed (S.state station.new).seen }
    ensures same { IsSameWorker (S.state station.old) (S.state station.new) }
    ensures legal { IsLegal (S.state station.new).layout (S.state station.new).seen }
    ensures deals { Along S.deals station.old station.new }
{
    station.legal();
    for done in 0..limit {
        match station.run_one() {
            Ran::Item(_) => {}
            Ran::Barrier(_) => {}
            Ran::Stop => return done + 1,
            Ran::Nothing => return done,
            Ran::Owing(_) => return done,
        }
    }
    limit
}

/// Executes until nothing is left of a queue that takes no push, or so many executions have ended. How many numbers are left.
pub fn run_out<S: Station>(station: &mut S, limit: u32) -> u32
    requires { IsShut (S.state station.old).seen }
    ensures runs { RunsOutBy S.may S.gives limit result (S.state station.old) (S.state station.new) }
    ensures shut { IsShut (S.state station.new).seen }
    ensures done { HasRunOut (S.state station.old).seen → result ≡ 0 }
    ensures same { IsSameWorker (S.state station.old) (S.state station.new) }
    ensures legal { IsLegal (S.state station.new).layout (S.state station.new).seen }
    ensures deals { Along S.deals station.old station.new }
{
    station.legal();
    for _done in 0..limit {
        if station.left() == 0 {
            return 0;
        }
        let _ = station.run_one();
    }
    station.left()
}

/// A drain, which is resumed where nothing is left.
pub fn drain<S: Station>(station: &mut S, limit: u32) -> Drained
    ensures drains { DrainsBy S.may S.gives limit result (S.state station.old) (S.state station.new) }
    ensures open { result ≡ Empty → ¬ IsClosed (S.state station.old).seen → ¬ IsShut (S.state station.new).seen }
    ensures shut { (left : ℕ) → result ≡ TooLong left → IsShut (S.state station.new).seen }
    ensures none { result ≡ Empty → HasNoneLeft (S.state station.new).seen }
    ensures ended { result ≡ Empty → IsPrefix (accepted (S.state station.old).seen) (ended (S.state station.new).seen) }
    ensures complete { result ≡ Empty → IsClosed (S.state station.old).seen → IsComplete (S.state station.new).seen }
    ensures unclosed { ¬ IsClosed (S.state station.old).seen → ¬ IsClosed (S.state station.new).seen }
    ensures same { IsSameWorker (S.state station.old) (S.state station.new) }
    ensures legal { IsLegal (S.state station.new).layout (S.state station.new).seen }
    ensures deals { Along S.deals station.old station.new }
{
    station.drain_where_open();
    let left = run_out::<S>(station, limit);
    if left > 0 {
        return Drained::TooLong { left };
    }
    station.resume_where_draining();
    Drained::Empty
}

/// Executes until the stop item ran, and passes time or parks where nothing waits.
pub fn serve<R: Wait, S: Station>(rt: &R, station: &mut S, parker: &Parker)
    requires open { ¬ IsShut (S.state station.old).seen }
    ensures serves { ServesBy S.may S.gives (S.state station.old) (S.state station.new) }
    ensures open { ¬ IsShut (S.state station.new).seen }
    ensures unclosed { ¬ IsClosed (S.state station.new).seen }
    ensures idle { ¬ IsRunning (S.state station.new).seen }
    ensures same { IsSameWorker (S.state station.old) (S.state station.new) }
    ensures legal { IsLegal (S.state station.new).layout (S.state station.new).seen }
    ensures deals { Along S.deals station.old station.new }
{
    let mut patience = Patience::new(station.spins());
    for _ in rt.forever() {
        match station.run_one() {
            Ran::Stop => return,
            Ran::Nothing => patience.snooze_or_park(rt, parker),
            Ran::Item(_) => patience.after_execution(station.waiting()),
            Ran::Barrier(_) => patience.after_execution(station.waiting()),
            Ran::Owing(_) => {}
        }
    }
    unreachable!()
}

/// Closes the queue where it is not closed.
pub fn close_where_unclosed<S: Station>(station: &mut S)
    ensures closes { Closes (S.state station.old) (S.state station.new) }
    ensures closed { IsClosed (S.state station.new).seen }
    ensures deals { Along S.deals station.old station.new }
{
    if station.is_closed() {
        return;
    }
    station.close();
}
