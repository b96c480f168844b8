// What is read from files: the front of one, and the plan of a configuration.
ghost use Rattle.std.specs.Prelude.{◌≡◌, ◌≤◌, ◌<◌, length, take, IfOk, IfErr};
ghost use Rattle.rbg_bytes.specs.Streams.{HasCause};
ghost use Rattle.rbgtree.specs.Files.{BeginsFile, IsWholeFile};
ghost use Rattle.rbgtree.specs.Check.{IsPlanOf, HasNoPlan, HasPlanCause};

use crate::status::Status;
use crate::world::World;
use rbg_bytes::Failed;
use std::alloc::Global;
use tree_config::{PlanRefusal, TreePlan};

/// The bytes of a configuration that are read: the most that one may have, and one more.
const CONFIG_LEN: usize = 65_537;

/// Reads the front of a file, as many bytes as fit, and says how many there were.
pub fn read_front<W: World>(world: &mut W, name: &str, front: &mut [u8]) -> Result<usize, Failed>
    requires { 0 < length front.old }
    ensures bound { IfOk result (λ have. have ≤ length front.old) }
    ensures full { IfOk result (λ have. have ≡ length front.old → BeginsFile (W.files world.old) name.now front.new) }
    ensures short { IfOk result (λ have. have < length front.old → IsWholeFile (W.files world.old) name.now (take have front.new)) }
    ensures files { W.files world.new ≡ W.files world.old }
    ensures recordings { W.recordings world.new ≡ W.recordings world.old }
    ensures cause { HasCause (W.faults world.old) (W.faults world.new) result }
{
    let mut have = 0;
    'reads: while have < front.len() {
        let count = world.read_file(name, have as u64, &mut front[have..])?;
        if count == 0 {
            return Ok(have);
        }
        have += count;
    }
    Ok(have)
}

// The plan of the configuration in a file, which is read into this buffer, or how the program ends without one.
fn plan_in<W: World>(
    alloc: Global,
    name: &str,
    world: &mut W,
    text: &mut [u8],
) -> Result<TreePlan, Status>
    requires { length text.old ≡ 65537 }
    ensures plan { IfOk result (IsPlanOf (W.files world.old) name.now) }
    ensures ended { IfErr result (HasNoPlan (W.files world.old) name.now) }
    ensures files { W.files world.new ≡ W.files world.old }
    ensures recordings { W.recordings world.new ≡ W.recordings world.old }
    ensures cause { HasPlanCause (W.faults world.old) (W.faults world.new) result }
{
    let Ok(have) = read_front(world, name, text) else {
        return Err(Status::OpenFault {
            count: world.fault_count(),
        });
    };
    match TreePlan::read(alloc, &text[..have]) {
        Ok(plan) => Ok(plan),
        Err(PlanRefusal::Fault(fault)) => Err(Status::Config(fault)),
        Err(PlanRefusal::OutOfMemory) => Err(Status::Memory),
    }
}

/// The plan of the configuration in a file, or how the program ends without one.
pub fn read_plan<W: World>(alloc: Global, name: &str, world: &mut W) -> Result<TreePlan, Status>
    ensures plan { IfOk result (IsPlanOf (W.files world.old) name.now) }
    ensures ended { IfErr result (HasNoPlan (W.files world.old) name.now) }
    ensures files { W.files world.new ≡ W.files world.old }
    ensures recordings { W.recordings world.new ≡ W.recordings world.old }
    ensures cause { HasPlanCause (W.faults world.old) (W.faults world.new) result }
{
    let Ok(mut text) = vec![in alloc; 0u8; CONFIG_LEN] else {
        return Err(Status::Memory);
    };
    plan_in(alloc, name, world, &mut text)
}
