// The line that is printed.
ghost use Rattle.std.specs.Prelude.{◌≡◌, ◌≤◌, string_bytes, IfOk};
ghost use Rattle.rbg_bench.specs.Jobs.{IsInRange};
ghost use Rattle.rbg_bench.specs.Lines.{line_of, low_cutoffs, totals_text};
ghost use Rattle.rbg_bench.specs.Samples.{generated};
ghost use Rattle.rbg_bench.specs.Runs.{totals_of};
ghost use Rattle.rbg_bench.specs.declared.job.Job.{Job};

use crate::job::{Form, Job, Mechanism, Primitive};
use crate::outputs::{digest_of_mechanism, digest_of_reseeds};
use crate::primitives::{digest_of_zeros, encrypted, four_encrypted};
use crate::runs::{self, Totals};
use crate::samples;
use health_tests::Cutoffs;
use std::alloc::{AllocError, Global};

// The SHA-256 of all that the generates give, one after another.
fn generates(
    alloc: Global,
    mechanism: Mechanism,
    bytes: usize,
    times: u32,
) -> Result<String, AllocError>
    requires { bytes ≤ 65536 }
    ensures { IfOk result (λ line. string_bytes line ≡ line_of (Job.Generates mechanism bytes times)) }
{
    let mut out = vec![in alloc; 0u8; bytes]?;
    hex::encode(alloc, digest_of_mechanism(mechanism, times, &mut out))
}

// The same of generates that each come after a reseed.
fn reseeds(
    alloc: Global,
    mechanism: Mechanism,
    bytes: usize,
    times: u32,
) -> Result<String, AllocError>
    requires { bytes ≤ 65536 }
    ensures { IfOk result (λ line. string_bytes line ≡ line_of (Job.Reseeds mechanism bytes times)) }
{
    let mut out = vec![in alloc; 0u8; bytes]?;
    hex::encode(alloc, digest_of_reseeds(mechanism, times, &mut out))
}

// What the primitive gives.
fn repeats(alloc: Global, primitive: Primitive, times: u32) -> Result<String, AllocError>
    ensures { IfOk result (λ line. string_bytes line ≡ line_of (Job.Repeats primitive times)) }
{
    match primitive {
        Primitive::AesBlock => hex::encode(alloc, encrypted(times)),
        Primitive::FourAesBlocks => hex::encode(alloc, four_encrypted(times)),
        Primitive::HashOfZeros => hex::encode(alloc, digest_of_zeros(times)),
    }
}

// How many samples are tested, and how many of the runs alarm.
fn totals(alloc: Global, form: Form, samples: usize, times: u32) -> Result<Totals, AllocError>
    requires some { 1 ≤ samples }
    requires bound { samples ≤ 16777216 }
    requires times { times ≤ 1000000 }
    ensures { IfOk result (λ totals. totals ≡ totals_of low_cutoffs times (generated samples 0)) }
{
    // Low enough that some run alarms: five equal samples, and eight of a window's 512 like its first.
    let Ok(cutoffs) = Cutoffs::new(5, 512, 8) else {
        unreachable!();
    };
    let mut items = vec![in alloc; 0u8; samples]?;
    samples::fill(&mut items);
    Ok(runs::run(form, cutoffs, times, &mut items))
}

// These counts as a text.
fn totals_text(alloc: Global, totals: Totals) -> Result<String, AllocError>
    ensures { IfOk result (λ line. string_bytes line ≡ totals_text totals) }
{
    let samples = totals.samples;
    let alarms = totals.alarms;
    format!(in alloc; "{samples} samples, {alarms} alarms")
}

// The line of a job.
pub fn line_of(alloc: Global, job: Job) -> Result<String, AllocError>
    requires { IsInRange job }
    ensures { IfOk result (λ line. string_bytes line ≡ line_of job) }
{
    match job {
        Job::Generates(mechanism, bytes, times) => generates(alloc, mechanism, bytes, times),
        Job::Reseeds(mechanism, bytes, times) => reseeds(alloc, mechanism, bytes, times),
        Job::Repeats(primitive, times) => repeats(alloc, primitive, times),
        Job::Tests(form, samples, times) => totals_text(
            alloc,
            totals(alloc, form, samples, times)?,
        ),
    }
}
