//! Laws of the spelling, proved where nothing runs.

ghost use Rattle.replica_entries.specs.Laws.{OneEntryARun, OneRunAnEntry};

/// A run of bytes spells at most one entry.
pub fn one_entry_a_run()
    ensures { OneEntryARun }
{}

/// An entry has one run of bytes.
pub fn one_run_an_entry()
    ensures { OneRunAnEntry }
{}
