// Worked examples of the cutoffs and of both tests, and the three ways to the first alarm side by side.
ghost use Rattle.std.specs.Prelude.{◌≤◌, length};

use crate::{Alarm, BadCutoff, Cut, Cutoffs, Test, Tests, first_alarm, rct_cutoff};
use std::test::Fail;

// The first alarm, from sample to sample.
fn stepped(cutoffs: Cutoffs, samples: &[u8]) -> Option<Alarm> {
    let mut tests = Tests::fresh(cutoffs);
    for (at, sample) in samples.iter().enumerate() {
        if let Some(test) = tests.step(*sample) {
            return Some(Alarm { at, test });
        }
    }
    None
}

// The first alarm, by the samples before a place and those from there on.
fn in_two(cutoffs: Cutoffs, samples: &[u8], cut: usize) -> Option<Alarm>
    requires { cut ≤ length samples.now }
{
    let mut tests = Tests::fresh(cutoffs);
    if let Some(alarm) = tests.step_all(&samples[..cut]) {
        return Some(alarm);
    }
    let alarm = tests.step_all(&samples[cut..])?;
    Some(Alarm {
        at: cut + alarm.at,
        test: alarm.test,
    })
}

// What each way says.
fn ways(cutoffs: Cutoffs, samples: &[u8]) -> [Option<Alarm>; 3] {
    [
        stepped(cutoffs, samples),
        in_two(cutoffs, samples, samples.len() / 2),
        first_alarm(cutoffs, samples),
    ]
}

// The same answer of each.
fn all(at: usize, test: Test) -> [Option<Alarm>; 3] {
    [
        Some(Alarm { at, test }),
        Some(Alarm { at, test }),
        Some(Alarm { at, test }),
    ]
}

#[test]
fn cutoffs_are_refused_in_order(rt: HostRuntime) -> Result<(), Fail> {
    for (rct, window, apt, which, value) in [
        (1, 513, 1, Cut::Rct, 1),
        (0, 512, 2, Cut::Rct, 0),
        (2, 513, 1, Cut::Window, 513),
        (2, 0, 0, Cut::Window, 0),
        (2, 512, 513, Cut::Apt, 513),
        (2, 1024, 1025, Cut::Apt, 1025),
        (2, 1024, 1, Cut::Apt, 1),
    ] {
        assert_eq!(rt;
            Cutoffs::new(rct, window, apt),
            Err(BadCutoff { which, value })
        );
    }
    let least = Cutoffs::new(2, 512, 2)?;
    assert_eq!(rt; (least.rct(), least.window(), least.apt()), (2, 512, 2));
    let most = Cutoffs::new(u32::MAX, 1024, 1024)?;
    assert_eq!(rt;
        (most.rct(), most.window(), most.apt()),
        (u32::MAX, 1024, 1024)
    );
    for (a, num, den, cutoff) in [
        (30, 1, 1, 31),
        (20, 8, 1, 4),
        (20, 1, 2, 41),
        (1, 8000, 1, 2),
        (64, 1, 1000, 64001),
    ] {
        assert_eq!(rt; rct_cutoff(a, num, den), cutoff);
    }
    Ok(())
}

#[test]
fn runs_alarm_at_the_cutoff(rt: HostRuntime) -> Result<(), Fail> {
    let four = Cutoffs::new(4, 512, 257)?;
    assert_eq!(rt; ways(four, &[7, 7, 7, 7]), all(3, Test::Repetition));
    assert_eq!(rt; ways(four, &[7, 7, 7, 8, 7]), [None, None, None]);
    assert_eq!(rt; ways(four, &[0, 0, 0]), [None, None, None]);
    let two = Cutoffs::new(2, 512, 257)?;
    assert_eq!(rt; ways(two, &[1, 2, 2]), all(2, Test::Repetition));
    // Where both tests alarm at one sample, repetition is the answer.
    let each = Cutoffs::new(4, 512, 4)?;
    assert_eq!(rt; ways(each, &[7, 7, 7, 7]), all(3, Test::Repetition));
    Ok(())
}

#[test]
fn windows_follow_one_another(rt: HostRuntime) -> Result<(), Fail> {
    let cutoffs = Cutoffs::new(31, 512, 257)?;
    let mut samples = [5u8; 513];
    for at in 0..513 {
        samples[at] = if at % 2 == 0 { 5 } else { 6 };
    }
    assert_eq!(rt; ways(cutoffs, &samples), [None, None, None]);
    samples[511] = 5;
    assert_eq!(rt; ways(cutoffs, &samples), all(511, Test::Proportion));
    // A window that slides would count the samples 5 at places 1 and 512 together.
    for at in 2..512 {
        samples[at] = if at % 2 == 0 { 6 } else { 7 };
    }
    samples[0] = 1;
    samples[1] = 5;
    samples[512] = 5;
    assert_eq!(rt;
        ways(Cutoffs::new(4, 512, 2)?, &samples),
        [None, None, None]
    );
    Ok(())
}

#[test]
fn alarms_come_at_each_place(rt: HostRuntime) -> Result<(), Fail> {
    let cutoffs = Cutoffs::new(3, 512, 4)?;
    let mut quiet = [0u8; 530];
    for at in 0..530 {
        quiet[at] = (at % 251) as u8;
    }
    assert_eq!(rt; ways(cutoffs, &quiet), [None, None, None]);
    for at in 2..530 {
        let mut samples = quiet;
        samples[at - 2] = 255;
        samples[at - 1] = 255;
        samples[at] = 255;
        assert_eq!(rt;
            ways(cutoffs, &samples[..at + 1]),
            all(at, Test::Repetition)
        );
        if at % 512 >= 6 {
            samples[at / 512 * 512] = 255;
            samples[at - 4] = 255;
            samples[at - 3] = 254;
            samples[at - 1] = 254;
            assert_eq!(rt;
                ways(cutoffs, &samples[..at + 1]),
                all(at, Test::Proportion)
            );
        }
    }
    Ok(())
}

#[test]
fn pieces_end_anywhere(rt: HostRuntime) -> Result<(), Fail> {
    let cutoffs = Cutoffs::new(3, 512, 5)?;
    let mut samples = [0u8; 530];
    for at in 0..530 {
        samples[at] = (at % 251) as u8;
    }
    for at in 521..524 {
        samples[at] = 255;
    }
    for cut in 0..531 {
        assert_eq!(rt;
            in_two(cutoffs, &samples, cut),
            Some(Alarm {
                at: 523,
                test: Test::Repetition
            })
        );
    }
    // Of the second window's first, the fourth sample like it is the fifth with it.
    for at in [514, 516, 518, 520] {
        samples[at] = samples[512];
    }
    for cut in 0..531 {
        assert_eq!(rt;
            in_two(cutoffs, &samples, cut),
            Some(Alarm {
                at: 520,
                test: Test::Proportion
            })
        );
    }
    Ok(())
}
