// Samples that are read, tested and counted, for the start-up or for one block.
ghost use Rattle.std.specs.Prelude.{◌≡◌, ◌≤◌, ◌<◌, ◌+◌, ◌-◌, ◌^◌, ℕ, List, [], ◌∷◌, Some, length, take, min, IsSome, OnOk, IfOk};
ghost use Rattle.health_tests.specs.Numbers.{no_tail};
ghost use Rattle.entropy_source.specs.Source.{need_of};
ghost use Rattle.entropy_source.specs.Views.{IsSource, opened_view, source_state, HasStarted};
ghost use Rattle.entropy_source.specs.Scaffolding.{Comes, WarmsUp, EndsStart};

use crate::answers::{SourceMode, SourceRefusal, SourceRow};
use conditioner::{block_len, need};
use health_tests::Tests;
use sample_source::Samples;
use std::marker::Model;

// A source but for the room where samples are read to.
#[derive(Drop)]
pub struct Intake<S: Samples> {
    pub samples: S,
    pub row: SourceRow,
    pub tests: Tests,
    pub taken: u64,
    pub blocks: u64,
    pub alarms: u64,
    pub mode: SourceMode,
}

impl<S: Samples> Model for Intake<S> {
    ghost use Rattle.std.specs.Prelude.{◌≡◌, ◌≤◌, ◌^◌};
    ghost use Rattle.entropy_source.specs.Views.{SourceView, kept_tail, IsSound};

    ghost Value = { SourceView S };

    ghost view = { λ i. record {
      row = i.row;
      taken = i.taken;
      blocks = i.blocks;
      alarms = i.alarms;
      mode = i.mode;
      tail = kept_tail i.mode i.tests.tail;
      samples = i.samples;
    } };

    ghost invariant = { λ i. IsSound i.row × (i.tests.cutoffs ≡ i.row.cutoffs) × (i.taken ≤ 2 ^ 60) × (i.blocks ≤ i.taken) × (i.alarms ≤ i.taken) };
}

impl<S: Samples> Intake<S> {
    // A source that isn't started.
    pub fn open(samples: S, row: SourceRow) -> Intake<S>
        requires num_low { 1 ≤ row.num }
        requires num_high { row.num ≤ 8000 }
        requires den_low { 1 ≤ row.den }
        requires den_high { row.den ≤ 1000 }
        requires startup_low { 1 ≤ row.startup }
        requires startup_high { row.startup ≤ 65536 }
        ensures { result ≡ opened_view row no_tail samples }
    {
        let _ = row.cutoffs.window();
        Intake {
            samples,
            row,
            tests: Tests::fresh(row.cutoffs),
            taken: 0,
            blocks: 0,
            alarms: 0,
            mode: SourceMode::Idle,
        }
    }

    pub fn taken(&self) -> u64
        ensures taken { result ≡ self.now.taken }
        ensures source { IsSource self.now }
    {
        self.taken
    }

    pub fn blocks(&self) -> u64
        ensures blocks { result ≡ self.now.blocks }
        ensures source { IsSource self.now }
    {
        self.blocks
    }

    pub fn mode(&self) -> SourceMode
        ensures mode { result ≡ self.now.mode }
        ensures source { IsSource self.now }
    {
        self.mode
    }

    pub fn startup(&self) -> u32
        ensures { result ≡ self.now.row.startup }
    {
        self.row.startup
    }

    pub fn fault_count(&self) -> u64
        ensures { result ≡ S.faults self.now.samples }
    {
        self.samples.fault_count()
    }

    // The samples that a draw of so many bytes takes.
    pub fn need(&self, bytes: u32) -> u64
        ensures samples { result ≡ need_of self.now.row (bytes ∷ []) }
        ensures range { result ≤ 2 ^ 47 }
    {
        let blocks = u64::from(bytes).div_ceil(block_len(self.row.cond) as u64);
        blocks * u64::from(need(self.row.cond, self.row.num, self.row.den))
    }

    // One read for what a block or the start-up lacks, 4,096 samples at most, to the front of the buffer. All its samples are
    // counted, and tested up to the first alarm.
    pub fn read(&mut self, lacks: u32, buffer: &mut [u8]) -> Result<usize, SourceRefusal>
        requires buffer { length buffer.old ≡ 4096 }
        requires lacking { 0 < lacks }
        requires room { self.old.taken + lacks ≤ 2 ^ 60 }
        requires tested { IsSome self.old.tail }
        ensures comes { Comes S.told S.faults S.reads self.old.row lacks (λ count. lacks - count) (λ count. take count buffer.new)
            result self.old self.new }
        ensures count { IfOk result (λ count. (0 < count) × (count ≤ min 4096 lacks)) }
        ensures row { self.new.row ≡ self.old.row }
    {
        let asked = lacks.min(4096) as usize;
        let count = match self.samples.read(&mut buffer[..asked]) {
            Ok(count) => count,
            Err(_) => {
                return Err(SourceRefusal::SourceFault {
                    count: self.samples.fault_count(),
                });
            }
        };
        if count == 0 {
            return Err(SourceRefusal::WantOfEntropy { missing: lacks });
        }
        let from = self.taken;
        self.taken += count as u64;
        match self.tests.step_all(&buffer[..count]) {
            None => Ok(count),
            Some(alarm) => {
                let index = from + alarm.at as u64;
                self.alarms += 1;
                self.mode = SourceMode::Alarmed {
                    index,
                    test: alarm.test,
                };
                Err(SourceRefusal::HealthFailed {
                    index,
                    test: alarm.test,
                })
            }
        }
    }

    // Begins a start.
    fn begin(&mut self)
        ensures { self.new ≡ record self.old { mode = SourceMode.Idle; tail = Some no_tail } }
    {
        self.tests = Tests::fresh(self.row.cutoffs);
        self.mode = SourceMode::Idle;
    }

    // Ends a start that was passed.
    fn run(&mut self)
        requires { IsSome self.old.tail }
        ensures { self.new ≡ record self.old { mode = SourceMode.Running } }
    {
        self.mode = SourceMode::Running;
    }

    // Reads the samples of the start-up, which are tested and thrown away.
    fn warm_up(&mut self, buffer: &mut [u8]) -> Result<(), SourceRefusal>
        requires buffer { length buffer.old ≡ 4096 }
        requires room { self.old.taken + self.old.row.startup ≤ 2 ^ 60 }
        requires tested { IsSome self.old.tail }
        ensures comes { WarmsUp S.told S.faults S.reads self.old.row result self.old self.new }
        ensures tested { OnOk result (IsSome self.new.tail) }
        ensures row { self.new.row ≡ self.old.row }
    {
        let mut lacks = self.row.startup;
        while lacks > 0 {
            match self.read(lacks, buffer) {
                Ok(count) => lacks -= count as u32,
                Err(why) => return Err(why),
            }
        }
        Ok(())
    }

    // A start: the tests are fresh, and it is passed where all samples of the start-up were read and none is an alarm.
    pub fn start(&mut self, buffer: &mut [u8]) -> Result<(), SourceRefusal>
        requires buffer { length buffer.old ≡ 4096 }
        requires room { self.old.taken + self.old.row.startup ≤ 2 ^ 60 }
        ensures acts { HasStarted S.told S.faults S.reads result self.old self.new }
        ensures ends { EndsStart self.old.row result (source_state S.told S.faults self.old) (source_state S.told S.faults self.new) }
        ensures row { self.new.row ≡ self.old.row }
    {
        self.begin();
        match self.warm_up(buffer) {
            Ok(()) => {
                self.run();
                Ok(())
            }
            Err(why) => Err(why),
        }
    }
}
