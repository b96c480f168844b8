// The reply to what a source refused.
ghost use Rattle.std.specs.Prelude.{◌≡◌};
ghost use Rattle.tree_rules.specs.Replies.{test_number};
ghost use Rattle.tree_rules.specs.Fits.{source_reply};

use entropy_source::{Cause, SourceRefusal};
use health_tests::Test;
use tree_rules::Reply;

/// The reply to what source j refused.
pub fn source_reply(j: u8, why: SourceRefusal) -> Reply
    ensures { result ≡ source_reply j why }
{
    match why {
        SourceRefusal::SourceSpent { taken, need } => refused(10, taken, need),
        SourceRefusal::InError { cause } => match cause {
            Cause::NotStarted => refused(11, 0, 0),
            Cause::Alarm { index, test } => refused(11, test_number(test), index),
        },
        SourceRefusal::SourceFault { count } => refused(12, count, u64::from(j)),
        SourceRefusal::HealthFailed { index, test } => refused(13, index, test_number(test)),
        SourceRefusal::WantOfEntropy { missing } => refused(14, u64::from(missing), u64::from(j)),
    }
}

fn refused(code: u8, a: u64, b: u64) -> Reply
    ensures { result ≡ record { code = code; a = a; b = b; len = 0 } }
{
    Reply { code, a, b, len: 0 }
}

fn test_number(test: Test) -> u64
    ensures { result ≡ test_number test }
{
    match test {
        Test::Repetition => 1,
        Test::Proportion => 2,
    }
}
