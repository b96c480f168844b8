// What is set of a source, and what its calls answer.
use health_tests::{Cutoffs, Test};
use rbg_bytes::Cond;

/// What is set of a source: the min-entropy of a sample, `num / den` bits, by its assessment; the cutoffs of the health tests, in
/// samples (SP 800-90B 4.4.1, 4.4.2); the samples of the start-up tests, 1 to 65,536 (4.3); and the conditioning component
/// (3.1.5.1.1).
#[derive(Clone, Copy, Debug, PartialEq, Eq)]
pub struct SourceRow {
    pub num: u32,
    pub den: u32,
    pub cutoffs: Cutoffs,
    pub startup: u32,
    pub cond: Cond,
}

/// Whether a source may be drawn from: it wasn't started, or its last start was not passed; it runs; or a health test
/// alarmed, at the sample with this index, counted from 0 since the source was opened (SP 800-90B 4.3).
#[derive(Clone, Copy, Debug, PartialEq, Eq)]
pub enum SourceMode {
    Idle,
    Running,
    Alarmed { index: u64, test: Test },
}

impl SourceMode {
    ghost use Rattle.std.specs.Prelude.{◌≡◌};
    ghost use Rattle.entropy_source.specs.Views.{error_of};

    // Why a source in this mode is in error, if it is.
    #[must_use]
    pub fn cause(self) -> Option<Cause>
        ensures { result ≡ error_of self }
    {
        match self {
            SourceMode::Idle => Some(Cause::NotStarted),
            SourceMode::Running => None,
            SourceMode::Alarmed { index, test } => Some(Cause::Alarm { index, test }),
        }
    }
}

/// Why a source is in error.
#[derive(Clone, Copy, Debug, PartialEq, Eq)]
pub enum Cause {
    NotStarted,
    Alarm { index: u64, test: Test },
}

/// Why a start or a draw was refused: 2^60 samples would be passed; the source isn't running; a read failed; a sample that
/// was read now is the first alarm; or the samples ended, and so many were missing of the block or of the start-up.
#[derive(Clone, Copy, Debug, PartialEq, Eq)]
pub enum SourceRefusal {
    SourceSpent { taken: u64, need: u64 },
    InError { cause: Cause },
    SourceFault { count: u64 },
    HealthFailed { index: u64, test: Test },
    WantOfEntropy { missing: u32 },
}

/// The places of the samples that a draw took, from the first up to the one behind the last, counted from 0 since the source
/// was opened.
#[derive(Clone, Copy, Debug, PartialEq, Eq)]
pub struct Range {
    pub from: u64,
    pub to: u64,
}
