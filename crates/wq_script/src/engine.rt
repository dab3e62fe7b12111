//! The engine of scripts over the words that threads could share.
ghost use Rattle.std.specs.Prelude.{◌≡◌, ℕ, ◌^◌, ◌≤◌, List, length, IfOk, OnOk, string_bytes};
ghost use Rattle.wq_text.specs.Fits.{Fits};
ghost use Rattle.wq_text.specs.TextLimits.{most_script_senders};
ghost use Rattle.wq_meaning.specs.Commands.{opening_state};
ghost use Rattle.wq_meaning.specs.Report.{counts_of};

use crate::seats::Seats;
use crate::tally::Tally;
use std::alloc::{AllocError, Global};
use wq_meaning::{
    ReportCounts, advance_word, answer_text, armed_text, either, modified_text, write_close,
    write_left, write_line, write_row,
};
use wq_text::{Command, Follow};
use wq_words::Layout;

// All seats of a queue, and what is counted of them. The layout is the script's, whose queue has two senders more.
#[derive(Drop)]
pub(crate) struct Engine {
    layout: Layout,
    seats: Seats,
    tally: Tally,
}

impl Engine {
    ghost use Rattle.wq_script.specs.Engine.{Meets, size, HasStateWithin, EngineDrains, Does};

    // An open queue with nothing in it, and empty lists.
    pub(crate) fn new(alloc: Global, layout: Layout) -> Result<Engine, AllocError>
        requires { layout.senders ≤ most_script_senders }
        ensures layout { IfOk result (λ e. e.layout ≡ layout) }
        ensures meets { IfOk result (λ e. Meets e (opening_state layout)) }
    {
        Ok(Engine {
            layout,
            seats: Seats::new(alloc, layout)?,
            tally: Tally {
                queued: 0,
                busy: 0,
                refused: 0,
            },
        })
    }

    fn queue(&mut self, sender: u32, item: u32, out: &mut String) -> Result<(), AllocError>
        requires fits { Fits self.old.layout (Command.Queue sender item) }
        requires ready { HasStateWithin (2 ^ 60) self.old }
        ensures { OnOk result (Does self.old self.new (string_bytes out.old) (string_bytes out.new) (Command.Queue sender item)) }
    {
        let answer = self.seats.queue(sender, item);
        self.tally.queueing(answer);
        write_line(answer_text(answer), out)
    }

    fn flush(&mut self, sender: u32, barrier: u32, out: &mut String) -> Result<(), AllocError>
        requires fits { Fits self.old.layout (Command.Flush sender barrier) }
        requires ready { HasStateWithin (2 ^ 60) self.old }
        ensures { OnOk result (Does self.old self.new (string_bytes out.old) (string_bytes out.new) (Command.Flush sender barrier)) }
    {
        let answer = self.seats.flush(sender, barrier);
        self.tally.queueing(answer);
        write_line(answer_text(answer), out)
    }

    fn stop(&mut self, sender: u32, out: &mut String) -> Result<(), AllocError>
        requires fits { Fits self.old.layout (Command.Stop sender) }
        requires ready { HasStateWithin (2 ^ 60) self.old }
        ensures { OnOk result (Does self.old self.new (string_bytes out.old) (string_bytes out.new) (Command.Stop sender)) }
    {
        let answer = self.seats.stop(sender);
        self.tally.queueing(answer);
        write_line(answer_text(answer), out)
    }

    fn run(&mut self, alloc: Global, limit: u32, out: &mut String) -> Result<(), AllocError>
        requires fits { Fits self.old.layout (Command.Run limit) }
        requires ready { HasStateWithin (2 ^ 60) self.old }
        ensures { OnOk result (Does self.old self.new (string_bytes out.old) (string_bytes out.new) (Command.Run limit)) }
    {
        let stop = self.layout.stop();
        let ran = self.seats.run(alloc, &self.layout, limit, Some(stop))?;
        write_row(&self.layout, "ran", &ran, out)
    }

    fn drain(&mut self, alloc: Global, limit: u32, out: &mut String) -> Result<(), AllocError>
        requires fits { Fits self.old.layout (Command.Drain limit) }
        requires ready { HasStateWithin (2 ^ 60) self.old }
        ensures { OnOk result (Does self.old self.new (string_bytes out.old) (string_bytes out.new) (Command.Drain limit)) }
    {
        if !self.seats.is_closed() {
            return write_line("not closed", out);
        }
        let ran = self.seats.run(alloc, &self.layout, limit, None)?;
        write_row(&self.layout, "ran", &ran, out)?;
        write_left(self.counts().waiting, out)
    }

    // Makes a drain of at most so many executions, which resumes where nothing is left. The numbers that were executed.
    fn drain_row(&mut self, alloc: Global, limit: u32) -> Result<Vec<u32>, AllocError>
        requires { HasStateWithin (2 ^ 60) self.old }
        ensures { IfOk result (λ ran. EngineDrains limit self.old self.new ran.items) }
    {
        if self.seats.drain_none() {
            return Ok(Vec::new(alloc));
        }
        let ran = self.seats.run(alloc, &self.layout, limit, None)?;
        self.seats.drain_none();
        Ok(ran)
    }

    fn drain_and_resume(
        &mut self,
        alloc: Global,
        limit: u32,
        out: &mut String,
    ) -> Result<(), AllocError>
        requires fits { Fits self.old.layout (Command.DrainAndResume limit) }
        requires ready { HasStateWithin (2 ^ 60) self.old }
        ensures { OnOk result (Does self.old self.new (string_bytes out.old) (string_bytes out.new) (Command.DrainAndResume limit)) }
    {
        let ran = self.drain_row(alloc, limit)?;
        write_row(&self.layout, "ran", &ran, out)?;
        write_left(self.counts().waiting, out)
    }

    fn close(&mut self, out: &mut String) -> Result<(), AllocError>
        requires fits { Fits self.old.layout Command.Close }
        requires ready { HasStateWithin (2 ^ 60) self.old }
        ensures { OnOk result (Does self.old self.new (string_bytes out.old) (string_bytes out.new) Command.Close) }
    {
        let taken = self.seats.close();
        write_close(taken, out)
    }

    fn report(&mut self, out: &mut String) -> Result<(), AllocError>
        requires fits { Fits self.old.layout Command.Report }
        requires ready { HasStateWithin (2 ^ 60) self.old }
        ensures { OnOk result (Does self.old self.new (string_bytes out.old) (string_bytes out.new) Command.Report) }
    {
        self.counts().write(out)
    }

    fn follow(&mut self, item: u32, follow: &Follow)
        requires fits { Fits self.old.layout (Command.Follow item follow.now) }
        requires ready { HasStateWithin (2 ^ 60) self.old }
        ensures { (bytes : List ℕ) → Does self.old self.new bytes bytes (Command.Follow item follow.now) }
    {
        // This call says that a list has four items at most.
        let _ = follow.as_slice();
        self.seats.follow(item, follow);
    }

    fn done(&mut self, sender: u32, barrier: u32, out: &mut String) -> Result<(), AllocError>
        requires fits { Fits self.old.layout (Command.Done sender barrier) }
        requires ready { HasStateWithin (2 ^ 60) self.old }
        ensures { OnOk result (Does self.old self.new (string_bytes out.old) (string_bytes out.new) (Command.Done sender barrier)) }
    {
        let is_flushed = self.seats.is_flushed(sender, barrier);
        write_line(either(is_flushed, "true", "false"), out)
    }

    fn check(&mut self, item: u32, out: &mut String) -> Result<(), AllocError>
        requires fits { Fits self.old.layout (Command.Check item) }
        requires ready { HasStateWithin (2 ^ 60) self.old }
        ensures { OnOk result (Does self.old self.new (string_bytes out.old) (string_bytes out.new) (Command.Check item)) }
    {
        let is_pending = self.seats.is_pending(item);
        write_line(either(is_pending, "pending", "idle"), out)
    }

    fn arm(&mut self, item: u32, delay: u64, out: &mut String) -> Result<(), AllocError>
        requires fits { Fits self.old.layout (Command.Arm item delay) }
        requires ready { HasStateWithin (2 ^ 60) self.old }
        ensures { OnOk result (Does self.old self.new (string_bytes out.old) (string_bytes out.new) (Command.Arm item delay)) }
    {
        let armed = self.seats.arm(item, delay);
        self.tally.arming(armed);
        write_line(armed_text(armed), out)
    }

    fn cancel(&mut self, item: u32, out: &mut String) -> Result<(), AllocError>
        requires fits { Fits self.old.layout (Command.Cancel item) }
        requires ready { HasStateWithin (2 ^ 60) self.old }
        ensures { OnOk result (Does self.old self.new (string_bytes out.old) (string_bytes out.new) (Command.Cancel item)) }
    {
        let was_on_table = self.seats.cancel(item);
        write_line(either(was_on_table, "cancelled", "not on table"), out)
    }

    fn modify(&mut self, item: u32, delay: u64, out: &mut String) -> Result<(), AllocError>
        requires fits { Fits self.old.layout (Command.Modify item delay) }
        requires ready { HasStateWithin (2 ^ 60) self.old }
        ensures { OnOk result (Does self.old self.new (string_bytes out.old) (string_bytes out.new) (Command.Modify item delay)) }
    {
        let was_on_table = self.seats.is_on_table(item);
        let modified = self.seats.modify(item, delay);
        self.tally.modification(modified, delay, was_on_table);
        write_line(modified_text(modified), out)
    }

    fn advance(&mut self, alloc: Global, tick: u64, out: &mut String) -> Result<(), AllocError>
        requires fits { Fits self.old.layout (Command.Advance tick) }
        requires ready { HasStateWithin (2 ^ 60) self.old }
        ensures { OnOk result (Does self.old self.new (string_bytes out.old) (string_bytes out.new) (Command.Advance tick)) }
    {
        let is_closed = self.seats.is_closed();
        let Some(posted) = self.seats.advance(alloc, tick)? else {
            return write_line("false backwards", out);
        };
        self.tally.posting(is_closed, posted.len() as u64);
        write_row(&self.layout, advance_word(is_closed, &posted), &posted, out)
    }

    // The counts of all events so far: the worker's, and those of all other seats.
    fn counts(&self) -> ReportCounts
        requires ready { HasStateWithin (2 ^ 61) self.now }
        ensures { (s : _) → Meets self.now s → size s ≤ 2 ^ 61 → result ≡ counts_of (length s.table.entries) s.history }
    {
        let totals = self.seats.worker.counts();
        let chained = totals.chained as u64;
        let executed = totals.executed as u64;
        let accepted = self.tally.queued + totals.queued as u64 + chained;
        ReportCounts {
            accepted,
            chained,
            executed,
            busy: self.tally.busy + totals.pending as u64,
            refused: self.tally.refused + totals.closed as u64 + totals.draining as u64,
            delayed: self.seats.delay.len() as u64,
            waiting: accepted - executed,
        }
    }

    // Does one command, taken whole, and writes its lines.
    pub(crate) fn execute(
        &mut self,
        alloc: Global,
        command: &Command,
        out: &mut String,
    ) -> Result<(), AllocError>
        requires fits { Fits self.old.layout command.now }
        requires ready { HasStateWithin (2 ^ 60) self.old }
        ensures { OnOk result (Does self.old self.new (string_bytes out.old) (string_bytes out.new) command.now) }
    {
        match command {
            Command::Queue { sender, item } => self.queue(*sender, *item, out),
            Command::Run(limit) => self.run(alloc, *limit, out),
            Command::Close => self.close(out),
            Command::Report => self.report(out),
            Command::Follow { item, follow } => {
                self.follow(*item, follow);
                Ok(())
            }
            Command::Flush { sender, barrier } => self.flush(*sender, *barrier, out),
            Command::Done { sender, barrier } => self.done(*sender, *barrier, out),
            Command::Stop(sender) => self.stop(*sender, out),
            Command::Drain(limit) => self.drain(alloc, *limit, out),
            Command::DrainAndResume(limit) => self.drain_and_resume(alloc, *limit, out),
            Command::Check(item) => self.check(*item, out),
            Command::Arm { item, delay } => self.arm(*item, *delay, out),
            Command::Cancel(item) => self.cancel(*item, out),
            Command::Modify { item, delay } => self.modify(*item, *delay, out),
            Command::Advance(tick) => self.advance(alloc, *tick, out),
        }
    }
}
