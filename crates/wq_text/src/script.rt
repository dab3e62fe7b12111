//! A script that was read.
ghost use Rattle.std.specs.Prelude.{◌≡◌, ◌≤◌, All, length};
ghost use Rattle.wq_text.specs.Fits.{Fits, All_Fits-prop};
ghost use Rattle.wq_text.specs.TextLimits.{most_bytes, most_script_senders};

use crate::command::Command;
use wq_words::Layout;

/// How many senders a script may have: its queue has two more, the worker's and the delay table's.
pub const MOST_SCRIPT_SENDERS: u32 = 62;

/// The numbers of a queue of at most 62 senders, and what is asked of it in turn: at most 1,048,576 commands, whose senders
/// and items the queue has.
#[derive(Drop)]
pub struct Script {
    layout: Layout,
    commands: Vec<Command>,
    ghost fits: { All (Fits layout) commands.items } by { All_Fits-prop layout commands.items },
    ghost few: { length commands.items ≤ most_bytes },
    ghost few_senders: { layout.senders ≤ most_script_senders },
}

impl Script {
    ghost use Rattle.wq_text.specs.Script.{layout_of, commands_of};

    /// A script of these commands (`Command::fits` is the test of each).
    pub fn new(layout: Layout, commands: Vec<Command>) -> Script
        requires fits { All (Fits layout) commands.items }
        requires few { length commands.items ≤ most_bytes }
        requires few_senders { layout.senders ≤ most_script_senders }
        ensures layout { layout_of result ≡ layout }
        ensures commands { commands_of result ≡ commands.items }
    {
        Script { layout, commands }
    }

    /// The numbers of its queue.
    pub fn layout(&self) -> &Layout
        ensures numbers { result.now ≡ layout_of self.now }
    {
        &self.layout
    }

    /// What is asked of the queue, in turn.
    pub fn commands(&self) -> &[Command]
        ensures asked { result.now ≡ commands_of self.now }
    {
        &self.commands
    }
}
