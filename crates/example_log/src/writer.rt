//! What a log's queue runs.
ghost use Rattle.std.specs.Prelude.{◌≡◌, ◌∷◌, ◌++◌, [], IfSome};
ghost use Rattle.example_log.specs.Text.{text_of};

use crate::message::Line;
use std::alloc::Global;
use std::marker::Model;
use value_trail::ValueTrail;
use wq_value_worker::{ValueFollow, ValueWork};

/// A work that writes each line behind those before it. Contracts alone see which lines it ran, and which came back to it.
#[derive(Drop)]
pub(crate) struct Writer {
    text: Vec<u8>,
    // Memory could be had for each line.
    is_whole: bool,
    ran: ValueTrail<Line>,
    came_back: ValueTrail<Line>,
}

impl Model for Writer {
    ghost use Rattle.example_log.specs.Text.{WriterState, IsTextOf};

    ghost Value = { WriterState };

    ghost view = { λ w. record {
      text = w.text.items;
      is_whole = w.is_whole;
      ran = w.ran.items;
      came_back = w.came_back.items;
    } };

    ghost invariant = { λ w. IsTextOf w.ran.items w.is_whole w.text.items };
}

impl Writer {
    // A log without a line.
    pub(crate) fn new(alloc: Global) -> Writer
        ensures { result.ran ≡ [] }
    {
        Writer {
            text: Vec::new(alloc),
            is_whole: true,
            ran: ValueTrail::new(),
            came_back: ValueTrail::new(),
        }
    }

    // Writes a line behind those before it, if memory can be had for it, and counts it as run.
    fn append(&mut self, item: u32, line: &Line)
        ensures ran { self.new.ran ≡ self.old.ran ++ (item, line.now) ∷ [] }
        ensures came_back { self.new.came_back ≡ self.old.came_back }
    {
        self.ran = self.ran.and(item, line);
        self.is_whole = self.is_whole && self.text.extend_from_slice(line.as_slice()).is_ok();
    }

    // The text of all lines, if memory could be had for each.
    pub(crate) fn into_text(self) -> Option<Vec<u8>>
        ensures { IfSome result (λ text. text.items ≡ text_of self.ran) }
    {
        if self.is_whole { Some(self.text) } else { None }
    }
}

impl ValueWork<Line> for Writer {
    ghost log = { λ w. w.ran };

    ghost given = { λ w. w.came_back };

    ghost may = { λ w k line pairs u. pairs ≡ [] };

    ghost takes = { λ w k line u. Unit {0} };

    fn run(&mut self, item: u32, line: Line) -> ValueFollow<Line> {
        self.append(item, &line);
        ValueFollow::new()
    }

    fn returned(&mut self, item: u32, line: Line) {
        self.came_back = self.came_back.and(item, &line);
    }
}
