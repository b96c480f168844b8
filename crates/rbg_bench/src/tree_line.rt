// The line that is printed for work on a tree.
ghost use Rattle.std.specs.Prelude.{string_bytes, IfOk};
ghost use Rattle.rbg_bench.specs.TreeJobs.{IsServed};
ghost use Rattle.rbg_bench.specs.TreeLines.{IsTreeLine};

use crate::calls::outcome_of_calls;
use crate::draws::outcome_of_draws;
use crate::tree_job::TreeJob;
use std::alloc::{AllocError, Global};
use std::io;
use tree_config::TreePlan;
use tree_core::Call;

// Why work on a tree came to nothing.
#[derive(Drop)]
pub enum Unserved {
    OutOfMemory,
    // A seed is too short, the plan has no source, or a start or a draw was refused.
    Refused,
}

impl From<AllocError> for Unserved {
    fn from(_: AllocError) -> Unserved {
        Unserved::OutOfMemory
    }
}

// The line of work on a tree of this plan.
pub fn tree_line(alloc: Global, plan: TreePlan, job: TreeJob) -> Result<String, Unserved>
    requires { IsServed job }
    ensures { IfOk result (λ line. IsTreeLine plan job (string_bytes line)) }
{
    match job {
        TreeJob::Calls {
            node,
            bytes,
            pr,
            times,
        } => {
            let call = Call::Generate {
                node,
                count: bytes,
                strength: 0,
                pr,
            };
            match outcome_of_calls(alloc, plan, &call, times) {
                Ok(outcome) => Ok(outcome.line(alloc)?),
                Err(_) => Err(Unserved::Refused),
            }
        }
        TreeJob::Draws { bytes, times } => {
            let mut out = vec![in alloc; 0u8; bytes]?;
            match outcome_of_draws(&plan, times, &mut out) {
                Some(outcome) => Ok(outcome.line(alloc)?),
                None => Err(Unserved::Refused),
            }
        }
    }
}
