// The tests on a whole list of samples, by their definition. Slow, and as plain as the definition.
ghost use Rattle.std.specs.Prelude.{◌≡◌, ◌<◌, ◌==◌, length};
ghost use Rattle.std.specs.List.{list_all};
ghost use Rattle.health_tests.specs.Windows.{repeats, crowded, alarm_at, first_alarm};

use crate::Cutoffs;

/// A continuous test: the repetition count test (SP 800-90B 4.4.1) or the adaptive proportion test (4.4.2).
#[derive(Clone, Copy, Debug, PartialEq, Eq)]
pub enum Test {
    Repetition,
    Proportion,
}

/// An alarm: at which sample, counted from 0, and of which test.
#[derive(Clone, Copy, Debug, PartialEq, Eq)]
pub struct Alarm {
    pub at: usize,
    pub test: Test,
}

/// Whether the `cutoff` samples that end at place `at` are there and are equal (SP 800-90B 4.4.1).
#[tactic(auto, unfolding(crate::specs::Windows::repeats))]
pub fn repeats(cutoff: usize, samples: &[u8], at: usize) -> bool
    requires { at < length samples.now }
    ensures { result ≡ repeats cutoff samples.now at }
{
    if at + 1 < cutoff {
        return false;
    }
    are_all(&samples[at + 1 - cutoff..at + 1], samples[at])
}

// Whether all samples are this one.
fn are_all(samples: &[u8], this: u8) -> bool
    ensures { result ≡ list_all (λ s. s == this) samples.now }
{
    samples.iter().all(|sample| *sample == this)
}

/// Whether in the window of place `at` the samples up to this place that equal the window's first, which counts too, are
/// `cutoff` or more. Windows follow one another from place 0 on (SP 800-90B 4.4.2).
#[tactic(auto, unfolding(crate::specs::Windows::crowded))]
pub fn crowded(window: usize, cutoff: usize, samples: &[u8], at: usize) -> bool
    requires some { 0 < window }
    requires within { at < length samples.now }
    ensures { result ≡ crowded window cutoff samples.now at }
{
    let from = at / window * window;
    samples[from..at + 1]
        .iter()
        .filter(|sample| **sample == samples[from])
        .count()
        >= cutoff
}

// The alarm at a place.
fn alarm_at(cutoffs: Cutoffs, samples: &[u8], at: usize) -> Option<Test>
    requires { at < length samples.now }
    ensures { result ≡ alarm_at cutoffs samples.now at }
{
    if repeats(cutoffs.rct() as usize, samples, at) {
        Some(Test::Repetition)
    } else if crowded(
        cutoffs.window() as usize,
        cutoffs.apt() as usize,
        samples,
        at,
    ) {
        Some(Test::Proportion)
    } else {
        None
    }
}

/// The first alarm of a list of samples, found by looking at the windows of every place in turn.
pub fn first_alarm(cutoffs: Cutoffs, samples: &[u8]) -> Option<Alarm>
    ensures { result ≡ first_alarm cutoffs samples.now }
{
    for at in 0..samples.len() {
        if let Some(test) = alarm_at(cutoffs, samples, at) {
            return Some(Alarm { at, test });
        }
    }
    None
}
