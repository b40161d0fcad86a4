//! The laws of made tables, over all numbers and counts of legs. Each function is a law: its contract is the statement,
//! and it does nothing.
ghost use Rattle.table_maker.specs.Laws.{MadeRead, MadeShort};

/// Made tables read, by any settings of a period of one day, and all their legs on the first fleet are a legal assignment.
pub fn made_read()
    ensures { MadeRead }
{}

/// No made text is longer than a file of tables may be.
pub fn made_short()
    ensures { MadeShort }
{}
