//! What is said of a recording is one thing, and a written history reads back as that history.
ghost use Rattle.wq_recording.specs.History.{history_grammar};
ghost use Rattle.wq_recording.specs.HistoryReport.{history_rules};
ghost use Rattle.wq_recording.specs.ReadBack.{TellsItsEvent, TellsItsEvents, IsLegalAsText, IsFoundLegal, IsNeverRefused};
ghost use Rattle.wq_recording.specs.Trace.{trace_grammar};
ghost use Rattle.wq_recording.specs.TraceReport.{trace_rules};
ghost use Rattle.wq_recording.specs.Verdict.{recording_line, HasOneVerdict, IsDecidedByLine, IsDecidedByLength};

/// One thing at most is said of a text, as a history and as a trace, and where a line decides, nothing behind it changes that;
/// of one that is too long, nothing behind its first 4,097 bytes. A law, which computes nothing.
pub fn one_verdict()
    ensures history { HasOneVerdict (recording_line history_grammar) history_rules }
    ensures trace { HasOneVerdict (recording_line trace_grammar) trace_rules }
    ensures history_decided { IsDecidedByLine (recording_line history_grammar) history_rules }
    ensures trace_decided { IsDecidedByLine (recording_line trace_grammar) trace_rules }
    ensures history_too_long { IsDecidedByLength history_grammar history_rules }
    ensures trace_too_long { IsDecidedByLength trace_grammar trace_rules }
{}

/// What is written of a history whose seats and numbers are the layout's says just that history when it is read as a recording,
/// event by event and as a whole: where its events are legal, the text is found legal and is never refused. A law, which
/// computes nothing.
pub fn histories_read_back()
    ensures event { TellsItsEvent }
    ensures events { TellsItsEvents }
    ensures legal { IsLegalAsText }
    ensures found { IsFoundLegal }
    ensures accepted { IsNeverRefused }
{}
