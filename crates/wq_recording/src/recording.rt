//! What the two kinds of recording have in common.
ghost use Rattle.std.specs.Prelude.{◌≡◌, ◌++◌, [], List, length, slice_get, IfOk, IfErr, OnOk, string_bytes};
ghost use Rattle.wq_words.specs.declared.layout.Layout.{Layout};
ghost use Rattle.wq_words.specs.Counting.{capped};
ghost use Rattle.wq_recording.specs.Verdict.{Rules};
ghost use Rattle.wq_recording.specs.Recording.{ViolatesAmong};

use std::alloc::{AllocError, Global};
use wq_check::Cause;
use wq_text::Language;
use wq_words::Layout;

// A language of recordings: what its lines tell is judged by a checker.
pub(crate) trait Recording: Language {
    // What its lines tell.
    type Event;

    // What is kept of the events that were told.
    type Checker: Drop;

    ghost rules: { Rules Self.Asked Self.Event };

    ghost layout_of: { Self.Checker → Layout };

    // It was told just these events, which are legal.
    ghost is_after: { Self.Checker → List Self.Event → Type 0 };

    // A checker that was told nothing.
    fn checker(alloc: Global, layout: Layout) -> Result<Self::Checker, AllocError>
        ensures new { IfOk result (λ checker. (layout_of checker ≡ layout) × is_after checker []) };

    // Tells the events of a line; of those that are not all legal, the ones before the first that is not.
    fn tell(checker: &mut Self::Checker, asked: Self::Asked) -> Result<(), Cause>
        requires fits { Self.fits (layout_of checker.old) asked }
        ensures layout { layout_of checker.new ≡ layout_of checker.old }
        ensures told { OnOk result ((h : List Self.Event) → is_after checker.old h → is_after checker.new (h ++ rules.tells asked)) }
        ensures stopped { IfErr result (λ cause. (h : List Self.Event) → is_after checker.old h
            → ViolatesAmong rules (layout_of checker.old) h (rules.tells asked) (is_after checker.new) cause) };

    // What an event is called.
    fn word() -> &'static str
        ensures { result.now ≡ rules.word };

    // Writes the lines of what is counted.
    fn write_counts(checker: &Self::Checker, out: &mut String) -> Result<(), AllocError>
        ensures written { OnOk result ((h : List Self.Event) → is_after checker.now h → string_bytes out.new ≡ string_bytes out.old ++ rules.counts h) };

    // How many events were told.
    fn told_count(checker: &Self::Checker) -> u64
        ensures counted { (h : List Self.Event) → is_after checker.now h → result ≡ capped (length h) };

    // How many numbers are left undone.
    fn left_count(checker: &Self::Checker) -> usize
        ensures counted { (h : List Self.Event) → is_after checker.now h → result ≡ length (rules.left h) };

    // The number at this place among them.
    fn left_at(checker: &Self::Checker, place: usize) -> Option<u32>
        ensures left { (h : List Self.Event) → is_after checker.now h → result ≡ slice_get (rules.left h) place };

    ghost begins: { (layout : Layout) → rules.IsLegal layout [] };

    ghost legal: { (checker : Self.Checker) (h : List Self.Event) → is_after checker h → rules.IsLegal (layout_of checker) h };
}
