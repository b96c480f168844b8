// The source with its calls.
ghost use Rattle.std.specs.Prelude.{◌≡◌, ◌≤◌, ◌<◌, ◌+◌, ◌^◌, ℕ, [], ◌∷◌, length, Some, Ok, Err, OnOk, IfErr, IfSome};
ghost use Rattle.rbg_bytes.specs.Streams.{Rose};
ghost use Rattle.health_tests.specs.Numbers.{no_tail};
ghost use Rattle.entropy_source.specs.Source.{need_of, need_of_block};
ghost use Rattle.entropy_source.specs.Views.{opened_view, source_state, IsSource, HasStarted, HasDrawn, error_of};
ghost use Rattle.entropy_source.specs.Causes.{IfSpent, IfInError, IfFault, IfHealthFailed, IfWant, IsLetGo};

use crate::answers::{Range, SourceMode, SourceRefusal, SourceRow};
use crate::intake::Intake;
use sample_source::Samples;
use std::marker::Model;

// The most samples that are ever taken of a source.
const MOST_SAMPLES: u64 = 1 << 60;

/// An entropy source over the samples of a noise source. Contracts see what is set of it, the samples taken since it was
/// opened, its blocks and its alarms in number, its mode, what its tests keep until they alarm, and its samples.
#[derive(Drop)]
pub struct EntropySource<S: Samples> {
    intake: Intake<S>,
    buffer: [u8; 4096],
}

impl<S: Samples> Model for EntropySource<S> {
    ghost use Rattle.entropy_source.specs.Views.{SourceView};

    ghost Value = { SourceView S };

    ghost view = { λ e. e.intake };
}

impl<S: Samples> EntropySource<S> {
    /// A source over these samples, none of which are read yet. It isn't started.
    pub fn open(samples: S, row: SourceRow) -> EntropySource<S>
        requires num_low { 1 ≤ row.num }
        requires num_high { row.num ≤ 8000 }
        requires den_low { 1 ≤ row.den }
        requires den_high { row.den ≤ 1000 }
        requires startup_low { 1 ≤ row.startup }
        requires startup_high { row.startup ≤ 65536 }
        ensures { result ≡ opened_view row no_tail samples }
    {
        EntropySource {
            intake: Intake::open(samples, row),
            buffer: [0; 4096],
        }
    }

    /// Starts the source, also where it runs or is in error (SP 800-90B 4.3): the tests begin anew, and the samples of the
    /// start-up are read, as many at once as are lacking and at most 4,096, tested and thrown away. It is passed, and the source
    /// runs, exactly where no read failed, the samples did not end and none of them is an alarm; where it is refused otherwise
    /// than by an alarm, it is idle. Where more than 2^60 samples would be taken, nothing changes.
    pub fn start(&mut self) -> Result<(), SourceRefusal>
        ensures spent { 2 ^ 60 < self.old.taken + self.old.row.startup →
            (result ≡ Err (SourceRefusal.SourceSpent self.old.taken self.old.row.startup)) × (self.new ≡ self.old) }
        ensures acts { self.old.taken + self.old.row.startup ≤ 2 ^ 60 →
            HasStarted S.told S.faults S.reads result self.old self.new }
        ensures row { self.new.row ≡ self.old.row }

        // What is so after each answer, and with it the cause of each refusal.
        ensures passed { OnOk result ((self.new.mode ≡ SourceMode.Running) × (self.new.taken ≡ self.old.taken + self.old.row.startup)
            × (S.faults self.new.samples ≡ S.faults self.old.samples)) }
        ensures only_spent { IfErr result (λ why. IfSpent why (λ taken need. 2 ^ 60 < self.old.taken + self.old.row.startup)) }
        ensures never_in_error { IfErr result (λ why. IfInError why (λ cause. ⊥)) }
        ensures fault { IfErr result (λ why. IfFault why (λ count. Rose (S.faults self.old.samples) (S.faults self.new.samples)
            × (count ≡ S.faults self.new.samples) × (self.new.mode ≡ SourceMode.Idle))) }
        ensures failed { IfErr result (λ why. IfHealthFailed why (λ index test. (S.faults self.new.samples ≡ S.faults self.old.samples)
            × (self.new.mode ≡ SourceMode.Alarmed index test))) }
        ensures want { IfErr result (λ why. IfWant why (λ missing. (S.faults self.new.samples ≡ S.faults self.old.samples)
            × (self.new.mode ≡ SourceMode.Idle) × (0 < missing) × (missing ≤ self.old.row.startup))) }
    {
        let taken = self.intake.taken();
        let startup = self.intake.startup();
        if taken + u64::from(startup) > MOST_SAMPLES {
            return Err(SourceRefusal::SourceSpent {
                taken,
                need: u64::from(startup),
            });
        }
        self.intake.start(&mut self.buffer)
    }

    /// Fills `out`, at most 4,096 bytes, with the first bytes of conditioned blocks (SP 800-90B 3.1.5), each made of the next
    /// samples, and gives the places of these samples. The rest of the last block is let go. Of no bytes it does nothing.
    /// Otherwise it is refused where more than 2^60 samples would be taken, and then where the source isn't running, and
    /// nothing changes. Where a refusal comes while samples are read, those taken enter no later block, and `out` holds zeros;
    /// after an alarm no more is read, and the source is in error until its next start, and else it still runs. A read asks for
    /// as many samples as the present block lacks, at most 4,096.
    pub fn draw(&mut self, out: &mut [u8]) -> Result<Range, SourceRefusal>
        requires { length out.old ≤ 4096 }
        ensures none { length out.old ≡ 0 → (result ≡ Ok (record { from = self.old.taken; to = self.old.taken })) × (self.new ≡ self.old) }
        ensures spent { 0 < length out.old → 2 ^ 60 < self.old.taken + need_of self.old.row (length out.old ∷ []) →
            (result ≡ Err (SourceRefusal.SourceSpent self.old.taken (need_of self.old.row (length out.old ∷ []))))
            × (self.new ≡ self.old) × (out.new ≡ out.old) }
        ensures error { 0 < length out.old → self.old.taken + need_of self.old.row (length out.old ∷ []) ≤ 2 ^ 60 →
            IfSome (error_of self.old.mode) (λ cause. (result ≡ Err (SourceRefusal.InError cause)) × (self.new ≡ self.old) × (out.new ≡ out.old)) }
        ensures acts { 0 < length out.old → self.old.taken + need_of self.old.row (length out.old ∷ []) ≤ 2 ^ 60 →
            self.old.mode ≡ SourceMode.Running → HasDrawn S.told S.faults S.reads (length out.old) out.new result self.old self.new }
        ensures row { self.new.row ≡ self.old.row }
        ensures out { IfErr result (λ why. IsLetGo why out.old out.new) }

        // What is so after each answer, and with it the cause of each refusal.
        ensures drawn { OnOk result ((self.new.mode ≡ self.old.mode) × (self.new.taken ≡ self.old.taken + need_of self.old.row (length out.old ∷ []))
            × (S.faults self.new.samples ≡ S.faults self.old.samples)) }
        ensures only_spent { IfErr result (λ why. IfSpent why (λ taken need.
            (0 < length out.old) × (2 ^ 60 < self.old.taken + need_of self.old.row (length out.old ∷ [])))) }
        ensures only_in_error { IfErr result (λ why. IfInError why (λ cause. (0 < length out.old) × (error_of self.old.mode ≡ Some cause))) }
        ensures fault { IfErr result (λ why. IfFault why (λ count. Rose (S.faults self.old.samples) (S.faults self.new.samples)
            × (count ≡ S.faults self.new.samples) × (self.new.mode ≡ SourceMode.Running))) }
        ensures failed { IfErr result (λ why. IfHealthFailed why (λ index test. (S.faults self.new.samples ≡ S.faults self.old.samples)
            × (self.new.mode ≡ SourceMode.Alarmed index test))) }
        ensures want { IfErr result (λ why. IfWant why (λ missing. (S.faults self.new.samples ≡ S.faults self.old.samples)
            × (self.new.mode ≡ SourceMode.Running) × (0 < missing) × (missing ≤ need_of_block self.old.row))) }
    {
        let from = self.intake.taken();
        if out.is_empty() {
            return Ok(Range { from, to: from });
        }
        let need = self.intake.need(out.len() as u32);
        if from + need > MOST_SAMPLES {
            return Err(SourceRefusal::SourceSpent { taken: from, need });
        }
        if let Some(cause) = self.intake.mode().cause() {
            return Err(SourceRefusal::InError { cause });
        }
        self.intake.draw(out, &mut self.buffer)
    }

    /// The samples that a draw of so many bytes takes.
    pub fn need(&self, bytes: u32) -> u64
        ensures samples { result ≡ need_of self.now.row (bytes ∷ []) }
        ensures range { result ≤ 2 ^ 47 }
    {
        self.intake.need(bytes)
    }

    /// The samples taken since the source was opened, at most 2^60, those of starts and of refused draws among them.
    pub fn taken(&self) -> u64
        ensures taken { result ≡ self.now.taken }
        ensures source { IsSource self.now }
    {
        self.intake.taken()
    }

    /// The conditioned blocks made since the source was opened.
    pub fn blocks(&self) -> u64
        ensures blocks { result ≡ self.now.blocks }
        ensures source { IsSource self.now }
    {
        self.intake.blocks()
    }

    /// Whether the source may be drawn from.
    pub fn mode(&self) -> SourceMode
        ensures mode { result ≡ self.now.mode }
        ensures source { IsSource self.now }
    {
        self.intake.mode()
    }

    /// How often a read of the samples failed, up to 2^64 - 1.
    pub fn fault_count(&self) -> u64
        ensures { result ≡ S.faults self.now.samples }
    {
        self.intake.fault_count()
    }
}
