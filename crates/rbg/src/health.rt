// The continuous health tests on a state in the caller's memory.
ghost use Rattle.std.specs.Prelude.{◌≡◌, ◌≢◌, ◌+◌, ◌*◌, Some, None, MatchResult};
ghost use Rattle.std.specs.Int.{div_ceil};
ghost use Rattle.health_tests.specs.declared.windows.Test.{Test};
ghost use Rattle.health_tests.specs.declared.windows.Alarm.{Alarm};
ghost use Rattle.health_tests.specs.Numbers.{tail_step, tail_after};
ghost use Rattle.rbg.specs.Health.{limits_in, tail_in, with_tail, with_alarm, begun, begin_status, held_status, test_status, alarm_number, alarm_at, alarm_in, cutoff_status};

use crate::status::{
    ALARMED, BAD_APT, BAD_RATE, BAD_RCT, BAD_TESTS, BAD_WINDOW, DONE, PROPORTION, REPETITION,
};
use health_tests::{Cut, Cutoffs, Tail, Test, Tests, rct_cutoff};

/// The health tests of one noise source in the caller's memory, 24 bytes without padding: the cutoffs, the five numbers kept of
/// the samples before, and the alarm, 0 for none, 1 for repetition, 2 for proportion.
#[repr(C)]
#[derive(Drop)]
pub struct RbgTests {
    pub rct: u32,
    pub run: u32,
    pub place: u32,
    pub alarm: u32,
    pub window: u16,
    pub apt: u16,
    pub equal: u16,
    pub last: u8,
    pub first: u8,
}

// The tests of a state, or the status that stands against a step.
fn resumed(tests: &RbgTests) -> Result<Tests, u32>
    ensures { MatchResult result
        (λ t. (held_status tests.now ≡ DONE) × (t ≡ record { cutoffs = limits_in tests.now; tail = tail_in tests.now }))
        (λ status. (status ≡ held_status tests.now) × (status ≢ DONE)) }
{
    let Ok(cutoffs) = Cutoffs::new(tests.rct, tests.window, tests.apt) else {
        return Err(BAD_TESTS);
    };
    let tail = Tail {
        run: tests.run,
        place: tests.place,
        equal: tests.equal,
        last: tests.last,
        first: tests.first,
    };
    let Some(kept) = Tests::resumed(cutoffs, tail) else {
        return Err(BAD_TESTS);
    };
    if tests.alarm > 2 {
        return Err(BAD_TESTS);
    }
    if tests.alarm != 0 {
        return Err(ALARMED);
    }
    Ok(kept)
}

// Writes other numbers into a state.
fn put(tests: &mut RbgTests, tail: Tail)
    ensures { tests.new ≡ with_tail tests.old tail }
{
    tests.run = tail.run;
    tests.place = tail.place;
    tests.equal = tail.equal;
    tests.last = tail.last;
    tests.first = tail.first;
}

// Writes an alarm into a state, and gives its status.
fn raise(tests: &mut RbgTests, test: Test) -> u32
    ensures state { tests.new ≡ with_alarm tests.old test }
    ensures status { result ≡ test_status test }
{
    match test {
        Test::Repetition => {
            tests.alarm = 1;
            REPETITION
        }
        Test::Proportion => {
            tests.alarm = 2;
            PROPORTION
        }
    }
}

/// Begins the tests with these cutoffs: of a run of `rct` equal samples, at least 2, and of `apt` samples in a window, at least 2 and at
/// most the window, which is 512 or 1024 (SP 800-90B 4.4.1 and 4.4.2). The first of the three that doesn't fit is refused.
#[unsafe(no_mangle)]
pub extern "C" fn rbg_tests_begin(tests: &mut RbgTests, rct: u32, window: u16, apt: u16) -> u32
    ensures status { result ≡ begin_status rct window apt }
    ensures refused { result ≢ DONE → tests.new ≡ tests.old }
    ensures state { result ≡ DONE → tests.new ≡ begun rct window apt }
{
    match Cutoffs::new(rct, window, apt) {
        Err(bad) => match bad.which {
            Cut::Rct => BAD_RCT,
            Cut::Window => BAD_WINDOW,
            Cut::Apt => BAD_APT,
        },
        Ok(_) => {
            *tests = RbgTests {
                rct,
                run: 0,
                place: 0,
                alarm: 0,
                window,
                apt,
                equal: 0,
                last: 0,
                first: 0,
            };
            DONE
        }
    }
}

/// Takes one sample more (SP 800-90B 4.4). The alarm comes at the very sample that reaches a cutoff, and is kept in the state, whose
/// other numbers stay as before the sample; it is to be begun anew.
#[unsafe(no_mangle)]
pub extern "C" fn rbg_tests_step(tests: &mut RbgTests, sample: u8) -> u32
    ensures refused { held_status tests.old ≢ DONE → (result ≡ held_status tests.old) × (tests.new ≡ tests.old) }
    ensures quiet { held_status tests.old ≡ DONE → alarm_at tests.old sample ≡ None →
        (result ≡ DONE) × (tests.new ≡ with_tail tests.old (tail_step tests.old.window (tail_in tests.old) sample)) }
    ensures alarmed { (test : Test) → held_status tests.old ≡ DONE → alarm_at tests.old sample ≡ Some test →
        (result ≡ test_status test) × (tests.new ≡ with_alarm tests.old test) }
{
    match resumed(tests) {
        Err(status) => status,
        Ok(mut kept) => match kept.step(sample) {
            Some(test) => raise(tests, test),
            None => {
                put(tests, kept.numbers());
                DONE
            }
        },
    }
}

/// Takes samples in a row, up to the first that alarms, whose place among them, counted from 0, is written. After an alarm the state's
/// numbers are as before the call.
#[unsafe(no_mangle)]
pub extern "C" fn rbg_tests_step_all(tests: &mut RbgTests, samples: &[u8], at: &mut usize) -> u32
    ensures refused { held_status tests.old ≢ DONE → (result ≡ held_status tests.old) × (tests.new ≡ tests.old) × (at.new ≡ at.old) }
    ensures quiet { held_status tests.old ≡ DONE → alarm_in tests.old samples.now ≡ None →
        (result ≡ DONE) × (tests.new ≡ with_tail tests.old (tail_after tests.old.window (tail_in tests.old) samples.now)) × (at.new ≡ at.old) }
    ensures alarmed { (alarm : Alarm) → held_status tests.old ≡ DONE → alarm_in tests.old samples.now ≡ Some alarm →
        (result ≡ test_status alarm.test) × (tests.new ≡ with_alarm tests.old alarm.test) × (at.new ≡ alarm.at) }
{
    match resumed(tests) {
        Err(status) => status,
        Ok(mut kept) => match kept.step_all(samples) {
            Some(alarm) => {
                *at = alarm.at;
                raise(tests, alarm.test)
            }
            None => {
                put(tests, kept.numbers());
                DONE
            }
        },
    }
}

/// Writes the cutoff of the repetition count test, `1 + ceil(a / H)`, for a false alarm once in 2^a samples of `H = num / den` bits of
/// min-entropy each (SP 800-90B 4.4.1): a from 1 to 64, num from 1 to 8000, den from 1 to 1000.
#[unsafe(no_mangle)]
pub extern "C" fn rbg_rct_cutoff(a: u32, num: u32, den: u32, cutoff: &mut u32) -> u32
    ensures status { result ≡ cutoff_status a num den }
    ensures refused { result ≢ DONE → cutoff.new ≡ cutoff.old }
    ensures value { result ≡ DONE → cutoff.new ≡ 1 + div_ceil (a * den) num }
{
    if a == 0 || a > 64 || num == 0 || num > 8000 || den == 0 || den > 1000 {
        return BAD_RATE;
    }
    *cutoff = rct_cutoff(a, num, den);
    DONE
}
