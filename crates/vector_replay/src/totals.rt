// How replaying a text ends.
use vector_text::TextRefusal;

/// How many cases passed and differed, and how many groups were skipped.
#[derive(Clone, Copy, Debug, PartialEq, Eq)]
pub struct Totals {
    pub passed: u64,
    pub differed: u64,
    pub skipped: u64,
}

/// Why a text was not replayed to its end.
#[derive(Clone, Copy, Debug, PartialEq, Eq)]
pub enum ReplayRefusal {
    /// The text has a fault, or a case has lengths that CTR_DRBG refuses (7, at the line of its COUNT), or the source failed.
    Text(TextRefusal),
    /// The output failed, so often by now.
    WriteFault { count: u64 },
    /// No memory was left.
    OutOfMemory,
}
