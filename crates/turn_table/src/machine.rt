//! What the table is generic in.
ghost use Rattle.std.specs.Prelude.{ℕ, List};
ghost use Rattle.turn_table.specs.Meaning.{Meaning, ReadsTouched, LeavesOthers};

use std::marker::Brand;

/// What lies in the slots of a table, and what openings, entries and states mean. The two laws are all that the table asks of it. No value of
/// it is read: it goes into the table and comes back out of it.
pub trait Machine: Drop {
    /// What lies in a slot.
    type Value: Drop;

    ghost meaning: { Meaning Self.Value };

    ghost reads_touched: { ReadsTouched meaning };

    ghost leaves_others: { LeavesOthers meaning };
}

/// A test of lists of numbers. Who opens a table picks which openings pass, and who commits which entries pass, by `Brand`. Nothing of it is
/// there at run time.
pub trait Entered {
    ghost is: { List ℕ → Type 0 };
}

impl Entered for Brand {
    ghost is = { λ _. Unit {0} };
}
