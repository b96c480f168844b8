// Sources over the counting samples, whose blocks and codes an independent implementation computes.
ghost use Rattle.std.specs.Prelude.{◌≡◌, ◌≤◌, ◌-◌, ◌^◌, Err, IfErr};
ghost use Rattle.entropy_source.specs.Causes.{IfSpent};

use crate::{Cause, EntropySource, Range, SourceMode, SourceRefusal, SourceRow};
use health_tests::{Cutoffs, Test};
use rbg_bytes::Cond;
use sample_source::{Faulty, Recorded, Samples};
use std::alloc::Global;
use std::test::Fail;

// The blocks of the 40 samples from 1024, 1064 and 1104 on.
const FIRST: [u8; 32] = [
    0x19, 0xac, 0x47, 0x68, 0xec, 0x22, 0x63, 0x28, 0x77, 0xf0, 0x47, 0xd6, 0xd0, 0x67, 0xce, 0x1d,
    0x32, 0xe1, 0xd3, 0x02, 0x3b, 0xfb, 0x61, 0xb7, 0x69, 0xc9, 0x0e, 0x87, 0x9a, 0xf5, 0xa1, 0x78,
];

const SECOND: [u8; 32] = [
    0x18, 0x07, 0xbf, 0xa4, 0xef, 0x52, 0xca, 0x37, 0x82, 0x7a, 0x79, 0x5e, 0x00, 0xe1, 0xa5, 0x09,
    0xb3, 0x5e, 0xcd, 0x2d, 0xf9, 0x12, 0x0b, 0x7b, 0x1b, 0xe6, 0x61, 0x7a, 0x4e, 0xd3, 0x0b, 0x5f,
];

const THIRD: [u8; 32] = [
    0x07, 0x70, 0x50, 0xa3, 0xc3, 0x86, 0xc3, 0x3f, 0x51, 0xc2, 0xa5, 0xfa, 0x65, 0x19, 0x3c, 0xd5,
    0x9f, 0x94, 0x32, 0x3d, 0xc3, 0xfd, 0xc8, 0xa5, 0xd6, 0xee, 0x90, 0x52, 0x5c, 0x28, 0x0f, 0x80,
];

// The block of the 24 samples from 1024 on.
const OF_DF: [u8; 16] = [
    0x1e, 0x0d, 0x43, 0xd4, 0x74, 0x06, 0xc7, 0xd9, 0xa7, 0x3e, 0x97, 0xf5, 0x55, 0x00, 0x40, 0xcd,
];

// So many samples, the one at place k being k mod 251, but 9 at the places from .. to.
fn counting(alloc: Global, total: usize, from: usize, to: usize) -> Result<Vec<u8>, Fail> {
    let mut samples = Vec::new(alloc);
    for place in 0..total {
        let sample = if from <= place && place < to {
            9
        } else {
            (place % 251) as u8
        };
        samples.push(sample)?;
    }
    Ok(samples)
}

// A source with samples of 8 bits, and cutoffs 4 and 257 of 512.
fn opened<S: Samples>(samples: S, startup: u32, cond: Cond) -> Result<EntropySource<S>, Fail>
    requires low { 1 ≤ startup }
    requires high { startup ≤ 65536 }
{
    let cutoffs = Cutoffs::new(4, 512, 257)?;
    Ok(EntropySource::open(
        samples,
        SourceRow {
            num: 8,
            den: 1,
            cutoffs,
            startup,
            cond,
        },
    ))
}

// The numbers of a source: taken, blocks, mode, faults.
fn numbers<S: Samples>(source: &EntropySource<S>) -> (u64, u64, SourceMode, u64) {
    (
        source.taken(),
        source.blocks(),
        source.mode(),
        source.fault_count(),
    )
}

// An alarm of a run.
fn run_at(index: u64) -> SourceMode {
    SourceMode::Alarmed {
        index,
        test: Test::Repetition,
    }
}

// The refusal of a source in this mode.
fn in_error(cause: Cause) -> SourceRefusal {
    SourceRefusal::InError { cause }
}

#[test]
fn blocks_follow_the_start(rt: HostRuntime) -> Result<(), Fail> {
    let samples = Recorded::new(counting(rt.alloc(), 1200, 0, 0)?);
    let mut source = opened(samples, 1024, Cond::HmacSha256)?;
    assert_eq!(rt; numbers(&source), (0, 0, SourceMode::Idle, 0));
    assert_eq!(rt; source.start(), Ok(()));
    assert_eq!(rt; numbers(&source), (1024, 0, SourceMode::Running, 0));
    let mut out = [0u8; 48];
    assert_eq!(rt; source.need(48), 80);
    assert_eq!(rt;
        source.draw(&mut out),
        Ok(Range {
            from: 1024,
            to: 1104
        })
    );
    assert!(rt; out.starts_with(&FIRST));
    assert!(rt; SECOND.starts_with(out.get(32..).ok_or("too few bytes")?));
    assert_eq!(rt; numbers(&source), (1104, 2, SourceMode::Running, 0));
    let mut next = [0u8; 32];
    assert_eq!(rt;
        source.draw(&mut next),
        Ok(Range {
            from: 1104,
            to: 1144
        })
    );
    assert_eq!(rt; next, THIRD);
    // 56 samples are left: one block, and 16 of the next.
    assert_eq!(rt;
        source.draw(&mut out),
        Err(SourceRefusal::WantOfEntropy { missing: 24 })
    );
    assert_eq!(rt; numbers(&source), (1200, 4, SourceMode::Running, 0));
    Ok(())
}

#[test]
fn blocks_of_the_derivation_function(rt: HostRuntime) -> Result<(), Fail> {
    let samples = Faulty::new(counting(rt.alloc(), 1200, 0, 0)?, 7, Vec::new(rt.alloc()));
    let mut source = opened(samples, 1024, Cond::DfAes256)?;
    assert_eq!(rt; source.start(), Ok(()));
    let mut out = [0u8; 16];
    assert_eq!(rt;
        source.draw(&mut out),
        Ok(Range {
            from: 1024,
            to: 1048
        })
    );
    assert_eq!(rt; out, OF_DF);
    let mut more = [0u8; 17];
    assert_eq!(rt; source.need(17), 48);
    assert_eq!(rt;
        source.draw(&mut more),
        Ok(Range {
            from: 1048,
            to: 1096
        })
    );
    assert_eq!(rt; numbers(&source), (1096, 3, SourceMode::Running, 0));
    Ok(())
}

#[test]
fn small_pieces_give_the_same_blocks(rt: HostRuntime) -> Result<(), Fail> {
    for piece in [1usize, 3, 39, 40, 41, 4096] {
        let samples = Faulty::new(
            counting(rt.alloc(), 1200, 0, 0)?,
            piece,
            Vec::new(rt.alloc()),
        );
        let mut source = opened(samples, 1024, Cond::HmacSha256)?;
        assert_eq!(rt; source.start(), Ok(()));
        let mut out = [0u8; 64];
        assert_eq!(rt;
            source.draw(&mut out),
            Ok(Range {
                from: 1024,
                to: 1104
            })
        );
        assert!(rt; out.starts_with(&FIRST));
        assert!(rt; out.ends_with(&SECOND));
    }
    Ok(())
}

#[test]
fn no_bytes_change_nothing(rt: HostRuntime) -> Result<(), Fail> {
    let samples = Recorded::new(counting(rt.alloc(), 40, 0, 0)?);
    let mut source = opened(samples, 1024, Cond::HmacSha256)?;
    let mut none = [0u8; 0];
    assert_eq!(rt; source.draw(&mut none), Ok(Range { from: 0, to: 0 }));
    assert_eq!(rt; numbers(&source), (0, 0, SourceMode::Idle, 0));
    let mut some = [7u8; 3];
    assert_eq!(rt; source.draw(&mut some), Err(in_error(Cause::NotStarted)));
    assert_eq!(rt; some, [7, 7, 7]);
    assert_eq!(rt; numbers(&source), (0, 0, SourceMode::Idle, 0));
    Ok(())
}

#[test]
fn an_alarm_in_the_start_up(rt: HostRuntime) -> Result<(), Fail> {
    let samples = Recorded::new(counting(rt.alloc(), 65536, 1020, 1024)?);
    let mut source = opened(samples, 1024, Cond::HmacSha256)?;
    assert_eq!(rt;
        source.start(),
        Err(SourceRefusal::HealthFailed {
            index: 1023,
            test: Test::Repetition
        })
    );
    assert_eq!(rt; numbers(&source), (1024, 0, run_at(1023), 0));
    let mut out = [0u8; 32];
    let cause = Cause::Alarm {
        index: 1023,
        test: Test::Repetition,
    };
    assert_eq!(rt; source.draw(&mut out), Err(in_error(cause)));
    assert_eq!(rt; numbers(&source), (1024, 0, run_at(1023), 0));
    assert_eq!(rt; source.start(), Ok(()));
    assert_eq!(rt; numbers(&source), (2048, 0, SourceMode::Running, 0));
    Ok(())
}

#[test]
fn an_alarm_in_a_draw(rt: HostRuntime) -> Result<(), Fail> {
    let samples = Recorded::new(counting(rt.alloc(), 65536, 1150, 1154)?);
    let mut source = opened(samples, 1024, Cond::HmacSha256)?;
    assert_eq!(rt; source.start(), Ok(()));
    let mut out = [0u8; 96];
    assert_eq!(rt;
        source.draw(&mut out),
        Ok(Range {
            from: 1024,
            to: 1144
        })
    );
    // The block of the places 1144 to 1183 has the run. All samples of that read are taken.
    assert_eq!(rt;
        source.draw(&mut out),
        Err(SourceRefusal::HealthFailed {
            index: 1153,
            test: Test::Repetition
        })
    );
    assert_eq!(rt; numbers(&source), (1184, 3, run_at(1153), 0));
    assert_eq!(rt; source.start(), Ok(()));
    assert_eq!(rt; numbers(&source), (2208, 3, SourceMode::Running, 0));
    Ok(())
}

#[test]
fn the_run_is_not_kept_across_a_start(rt: HostRuntime) -> Result<(), Fail> {
    // Three equal samples end the first start-up, and three begin the second.
    let samples = Recorded::new(counting(rt.alloc(), 65536, 1021, 1027)?);
    let mut source = opened(samples, 1024, Cond::HmacSha256)?;
    assert_eq!(rt; source.start(), Ok(()));
    assert_eq!(rt; source.start(), Ok(()));
    assert_eq!(rt; numbers(&source), (2048, 0, SourceMode::Running, 0));
    // A draw goes on with the run of the start-up.
    let samples = Recorded::new(counting(rt.alloc(), 65536, 1021, 1027)?);
    let mut source = opened(samples, 1024, Cond::HmacSha256)?;
    assert_eq!(rt; source.start(), Ok(()));
    let mut out = [0u8; 32];
    assert_eq!(rt;
        source.draw(&mut out),
        Err(SourceRefusal::HealthFailed {
            index: 1024,
            test: Test::Repetition
        })
    );
    assert_eq!(rt; numbers(&source), (1064, 0, run_at(1024), 0));
    Ok(())
}

#[test]
fn samples_end(rt: HostRuntime) -> Result<(), Fail> {
    let samples = Recorded::new(counting(rt.alloc(), 1103, 0, 0)?);
    let mut source = opened(samples, 1024, Cond::HmacSha256)?;
    assert_eq!(rt; source.start(), Ok(()));
    let mut out = [0u8; 48];
    assert_eq!(rt;
        source.draw(&mut out),
        Err(SourceRefusal::WantOfEntropy { missing: 1 })
    );
    // The block that was made does not stay in the bytes.
    assert_eq!(rt; out, [0u8; 48]);
    assert_eq!(rt; numbers(&source), (1103, 1, SourceMode::Running, 0));
    assert_eq!(rt;
        source.start(),
        Err(SourceRefusal::WantOfEntropy { missing: 1024 })
    );
    assert_eq!(rt; numbers(&source), (1103, 1, SourceMode::Idle, 0));
    Ok(())
}

#[test]
fn a_read_fails(rt: HostRuntime) -> Result<(), Fail> {
    let alloc = rt.alloc();
    let samples = Faulty::new(counting(alloc, 65536, 0, 0)?, 4096, vec![in alloc; 1u64]?);
    let mut source = opened(samples, 1024, Cond::HmacSha256)?;
    assert_eq!(rt; source.start(), Ok(()));
    let mut out = [0u8; 32];
    assert_eq!(rt;
        source.draw(&mut out),
        Err(SourceRefusal::SourceFault { count: 1 })
    );
    assert_eq!(rt; numbers(&source), (1024, 0, SourceMode::Running, 1));
    assert_eq!(rt;
        source.draw(&mut out),
        Ok(Range {
            from: 1024,
            to: 1064
        })
    );
    assert_eq!(rt; out, FIRST);
    Ok(())
}

#[test]
fn a_refused_block_enters_no_other(rt: HostRuntime) -> Result<(), Fail> {
    // The start-up takes the reads 0 to 43, and the first block the reads 44, of 24 samples, and 45, which fails.
    let alloc = rt.alloc();
    let samples = Faulty::new(
        counting(alloc, 65536, 0, 0)?,
        24,
        vec![in alloc; 45u64, 48]?,
    );
    let mut source = opened(samples, 1040, Cond::HmacSha256)?;
    assert_eq!(rt; source.start(), Ok(()));
    let mut out = [0u8; 32];
    assert_eq!(rt;
        source.draw(&mut out),
        Err(SourceRefusal::SourceFault { count: 1 })
    );
    assert_eq!(rt; numbers(&source), (1064, 0, SourceMode::Running, 1));
    assert_eq!(rt;
        source.draw(&mut out),
        Ok(Range {
            from: 1064,
            to: 1104
        })
    );
    assert_eq!(rt; out, SECOND);
    assert_eq!(rt;
        source.start(),
        Err(SourceRefusal::SourceFault { count: 2 })
    );
    assert_eq!(rt; numbers(&source), (1104, 1, SourceMode::Idle, 2));
    Ok(())
}

// A start at 2^60 samples less 1,023 with a start-up of 1,024, over any samples: it is one sample too many. No source is ever
// seen in that state, so this is proved and not run.
#[allow(dead_code)]
fn a_start_one_sample_too_far<S: Samples>(
    source: &mut EntropySource<S>,
) -> Result<(), SourceRefusal>
    requires taken { source.old.taken ≡ 2 ^ 60 - 1023 }
    requires startup { source.old.row.startup ≡ 1024 }
    ensures { (result ≡ Err (SourceRefusal.SourceSpent (2 ^ 60 - 1023) 1024)) × (source.new ≡ source.old) }
{
    source.start()
}

// The same one sample earlier: it is no cause to refuse.
#[allow(dead_code)]
fn a_start_up_to_the_last_sample<S: Samples>(
    source: &mut EntropySource<S>,
) -> Result<(), SourceRefusal>
    requires taken { source.old.taken ≡ 2 ^ 60 - 1024 }
    requires startup { source.old.row.startup ≡ 1024 }
    ensures { IfErr result (λ why. IfSpent why (λ taken need. ⊥)) }
{
    source.start()
}
