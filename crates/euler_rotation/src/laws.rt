//! The laws of prefixes. Each function is a law: its contract is the statement, and it does nothing.
ghost use Rattle.euler_rotation.specs.Laws.{BelowIsOften, TestedIsClean};
ghost use Rattle.euler_rotation.specs.PrefixLaws.{EachPrefixIsEntry, EntriesArePrefixes, EntriesRise, NoEntryTwice};

/// Nights stay below so many days without maintenance exactly where of any so many one after another one is for
/// maintenance.
pub fn below_is_often()
    ensures { BelowIsOften }
{}

/// The test of a turn passes exactly where the turn is clean.
pub fn tested_is_clean()
    ensures { TestedIsClean }
{}

/// What the preorder lists are prefixes: legs of the order from its first one on, each once, by clean turns beside the
/// pairs, with nights that come to maintenance often enough. None of them stands twice.
pub fn entries_are_prefixes()
    ensures prefixes { EntriesArePrefixes }
    ensures once { NoEntryTwice }
{}

/// Each prefix in these words is one of them. Of two the later one goes on behind the earlier one, or has, where they part,
/// a leg that stands later in the order.
pub fn prefixes_are_entries()
    ensures each { EachPrefixIsEntry }
    ensures rising { EntriesRise }
{}
