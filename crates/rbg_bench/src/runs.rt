// The health tests over samples.
ghost use Rattle.std.specs.Prelude.{◌≡◌, ◌<◌, ◌≤◌, ◌+◌, ◌^◌, length, IfSome};
ghost use Rattle.health_tests.specs.Windows.{first_alarm};
ghost use Rattle.rbg_bench.specs.Runs.{with_run, totals_of};

use crate::job::Form;
use health_tests::{Alarm, Cutoffs, Tests, first_alarm_goes_on};

// How many samples were tested, and in how many runs the tests alarmed.
#[derive(Clone, Copy)]
pub struct Totals {
    pub samples: u64,
    pub alarms: u32,
}

// The first alarm, where the tests get one sample a call.
#[inline(never)]
fn by_step(cutoffs: Cutoffs, samples: &[u8]) -> Option<Alarm>
    ensures alarm { result ≡ first_alarm cutoffs samples.now }
    ensures place { IfSome result (λ alarm. alarm.at < length samples.now) }
{
    // For its clause alone.
    first_alarm_goes_on();
    let mut tests = Tests::fresh(cutoffs);
    for at in 0..samples.len() {
        if let Some(test) = tests.step(samples[at]) {
            return Some(Alarm { at, test });
        }
    }
    None
}

// The first alarm, where the tests get all samples in one call.
#[inline(never)]
fn by_slice(cutoffs: Cutoffs, samples: &[u8]) -> Option<Alarm>
    ensures alarm { result ≡ first_alarm cutoffs samples.now }
    ensures place { IfSome result (λ alarm. alarm.at < length samples.now) }
{
    Tests::fresh(cutoffs).step_all(samples)
}

// The first alarm, in one of the forms.
fn alarm_by(form: Form, cutoffs: Cutoffs, samples: &[u8]) -> Option<Alarm>
    ensures alarm { result ≡ first_alarm cutoffs samples.now }
    ensures place { IfSome result (λ alarm. alarm.at < length samples.now) }
{
    match form {
        Form::Step => by_step(cutoffs, samples),
        Form::Slice => by_slice(cutoffs, samples),
    }
}

impl Totals {
    // With a run over so many samples, up to its first alarm.
    fn with(self, alarm: Option<Alarm>, samples: usize) -> Totals
        requires place { IfSome alarm (λ alarm. alarm.at < samples) }
        requires samples { self.samples < 2 ^ 63 }
        requires alarms { self.alarms < 2 ^ 31 }
        requires bound { samples < 2 ^ 32 }
        ensures value { result ≡ with_run alarm samples self }
        ensures samples { result.samples ≤ self.samples + samples }
        ensures alarms { result.alarms ≤ self.alarms + 1 }
    {
        match alarm {
            Some(alarm) => Totals {
                samples: self.samples + (alarm.at + 1) as u64,
                alarms: self.alarms + 1,
            },
            None => Totals {
                samples: self.samples + samples as u64,
                alarms: self.alarms,
            },
        }
    }
}

// Runs the tests over the samples so many times, each time with the run's number modulo 256 as the first of them.
pub fn run(form: Form, cutoffs: Cutoffs, times: u32, samples: &mut [u8]) -> Totals
    requires some { 1 ≤ length samples.old }
    requires bound { length samples.old ≤ 16777216 }
    requires times { times ≤ 1000000 }
    ensures { result ≡ totals_of cutoffs times samples.old }
{
    let mut totals = Totals {
        samples: 0,
        alarms: 0,
    };
    for number in 0..times {
        samples[0] = (number % 256) as u8;
        totals = totals.with(alarm_by(form, cutoffs, samples), samples.len());
    }
    totals
}
