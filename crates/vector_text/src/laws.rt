// What holds of every text.
ghost use Rattle.std.specs.Prelude.{◌≡◌, List, ℕ};
ghost use Rattle.vector_text.specs.declared.case.Family.{Family};
ghost use Rattle.vector_text.specs.declared.case.Case.{Case};
ghost use Rattle.vector_text.specs.Printing.{IsPrintable, ReadsAgain};
ghost use Rattle.vector_text.specs.Text.{Entry, EndsOnce, Vector, entries};

/// A text has one list of entries: at most one fits it. A call does nothing.
pub fn one_reading()
    ensures { (family : Family) (text : List ℕ) (a b : List Entry) → Vector family text a → Vector family text b → a ≡ b }
{}

/// The entries of a text are cases and skipped groups, and then its end or its first fault, which is the last. A call does
/// nothing.
pub fn ends_once()
    ensures { (family : Family) (text : List ℕ) → EndsOnce (entries family text) }
{}

/// The text of a case has that case alone, at its third line, where the strings that are not printed are empty. A call does nothing.
pub fn printed_reads()
    ensures { (case : Case) → IsPrintable case → ReadsAgain case }
{}
