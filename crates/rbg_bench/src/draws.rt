// Draws on a source.
ghost use Rattle.std.specs.Prelude.{◌≡◌, ◌≤◌, ◌<◌, ◌^◌, length, IfOk, IfSome};
ghost use Rattle.tree_rules.specs.Slots.{source_row};
ghost use Rattle.entropy_source.specs.declared.answers.SourceMode.{SourceMode};
ghost use Rattle.rbg_bench.specs.Draws.{HaveGiven, DrewOn};

use crate::outcome::Outcome;
use crate::ramp::Ramp;
use entropy_source::{EntropySource, SourceRefusal, SourceRow};
use sample_source::Samples;
use sha2::{Digest, Sha256};
use tree_config::TreePlan;

// Draws so many bytes as the buffer has room for, so many times. It ends at the first draw that is refused.
fn draw_all<S: Samples>(
    source: &mut EntropySource<S>,
    times: u32,
    out: &mut [u8],
) -> Result<Outcome, SourceRefusal>
    requires running { source.old.mode ≡ SourceMode.Running }
    requires some { 0 < length out.old }
    requires bound { length out.old ≤ 4096 }
    ensures { IfOk result (λ outcome. HaveGiven S.told S.faults S.reads (length out.old) times source.old source.new outcome) }
{
    let mut digest = Sha256::new();
    for i in 0..times {
        source.draw(out)?;
        digest.update(&*out);
    }
    Ok(Outcome {
        done: times,
        digest: digest.finalize(),
    })
}

// Source 0 of a plan, which is not started, where the plan has one.
fn source_of(plan: &TreePlan) -> Option<EntropySource<Ramp>>
    ensures { IfSome result (λ source. source.row ≡ source_row plan.now 0) }
{
    if plan.sources() == 0 {
        return None;
    }
    let planned = plan.source(0);
    let row = SourceRow {
        num: planned.num,
        den: planned.den,
        cutoffs: planned.cutoffs,
        startup: planned.startup,
        cond: planned.cond,
    };
    Some(EntropySource::open(Ramp::new(), row))
}

// Starts source 0 of a plan and draws on it so many times, as many bytes as the buffer has room for. None where the plan has no source, or
// where one of these is refused.
pub fn outcome_of_draws(plan: &TreePlan, times: u32, out: &mut [u8]) -> Option<Outcome>
    requires some { 0 < length out.old }
    requires bound { length out.old ≤ 4096 }
    ensures { IfSome result (λ outcome. DrewOn plan.now (length out.old) times outcome) }
{
    let mut source = source_of(plan)?;
    if source.start().is_err() {
        return None;
    }
    draw_all(&mut source, times, out).ok()
}
