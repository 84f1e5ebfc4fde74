ghost use Rattle.hg_storm.specs.Ends.{FatesLast};
ghost use Rattle.hg_storm.specs.Keeping.{MakingKeepsFates, WaitingKeepsFates};

/// A law: where others than a seat only marked, what came of the messages taken through it came of them in the node's whole
/// history, and each row that the node took is that of such a message.
pub fn fates_last<V>()
    ensures { FatesLast V }
{}

/// A law: calls through a seat that take no message leave what came of those that were taken, where they add nothing or
/// make a row.
pub fn calls_keep_fates<V>()
    ensures waits { WaitingKeepsFates V }
    ensures makes { MakingKeepsFates V }
{}
