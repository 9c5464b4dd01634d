//! Laws of the reply.
ghost use Rattle.qk_engine.specs.Laws.{GreedyDecidesOnlyShrinks, GreedyIsForFiles, OneReply, SomeReply, WindowDecidesOnlyWorkLines, WindowDecidesWorkLines, WorkersDecideNothing};

/// The number of workers decides nothing of the reply.
pub fn workers_decide_nothing()
    ensures { WorkersDecideNothing }
{}

/// The window decides nothing of the reply but its lines on work.
pub fn window_decides_work_lines()
    ensures { WindowDecidesWorkLines }
{}

/// Where the work is told, the window decides its lines alone.
pub fn window_decides_only_work_lines()
    ensures { WindowDecidesOnlyWorkLines }
{}

/// Greedy shrinking decides nothing but what failures are shrunk to: status, tests, discards, tables and failing attempts are the same.
pub fn greedy_decides_only_shrinks()
    ensures { GreedyDecidesOnlyShrinks }
{}

/// Greedy shrinking decides nothing of a replay and of generated properties.
pub fn greedy_is_for_files()
    ensures { GreedyIsForFiles }
{}

/// Words and the bytes of their file have one reply at most, unless a report is wanted with `--greedy`.
pub fn replies_are_one()
    ensures { OneReply }
{}

/// All words and all bytes of their file have a reply.
pub fn replies_exist()
    ensures { SomeReply }
{}
