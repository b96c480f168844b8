// The tests that go from sample to sample.
ghost use Rattle.std.specs.Prelude.{◌≡◌, ◌<◌, ℕ, List, [], ◌∷◌, ◌++◌, length, OnSome, IfSome, IfNone, is_some};

use crate::numbers::Tail;
use crate::{Alarm, Cutoffs, Test};
use std::marker::Model;

/// Both continuous tests over the samples since `fresh` (SP 800-90B 4.4). They keep the cutoffs and five numbers, and stand
/// for a list of samples without an alarm: contracts see these numbers, and by them the lists that have them.
#[derive(Drop)]
pub struct Tests {
    cutoffs: Cutoffs,
    tail: Tail,
}

impl Model for Tests {
    ghost use Rattle.health_tests.specs.Stands.{Standing, StandsForSome};

    ghost Value = { Standing };

    ghost view = { λ t. record { cutoffs = t.cutoffs; tail = t.tail } };

    ghost invariant = { λ t. StandsForSome (record { cutoffs = t.cutoffs; tail = t.tail }) };
}

impl Tests {
    ghost use Rattle.health_tests.specs.Windows.{first_alarm, alarm_in};
    ghost use Rattle.health_tests.specs.Numbers.{no_tail, tail_step, tail_after, alarm_by, alarm_from};
    ghost use Rattle.health_tests.specs.Stands.{StandsFor, StandsForSome, placed};
    ghost use Rattle.health_tests.specs.Left.{is_left};

    /// Tests that have seen no sample.
    pub fn fresh(cutoffs: Cutoffs) -> Tests
        ensures value { result ≡ record { cutoffs = cutoffs; tail = no_tail } }
        ensures empty { StandsFor result [] }
    {
        Tests {
            cutoffs,
            tail: Tail::EMPTY,
        }
    }

    /// The alarm that one more sample raises, if it does: `Repetition` where the last samples, as many as `rct` says, are
    /// equal, and otherwise `Proportion` where of the window's samples so far `apt` or more equal its first. The tests alarm at
    /// the very sample at which a cutoff is reached. After an alarm they stand as before the sample, and are to be begun anew.
    #[inline]
    pub fn step(&mut self, sample: u8) -> Option<Test>
        ensures cutoffs { self.new.cutoffs ≡ self.old.cutoffs }

        // What is answered is the first alarm of any list for which the tests stand, with the sample added.
        ensures alarm { (x : List ℕ) → StandsFor self.old x →
            first_alarm self.old.cutoffs (x ++ sample ∷ []) ≡ placed (length x) result }
        ensures quiet { IfNone result ((x : List ℕ) → StandsFor self.old x → StandsFor self.new (x ++ sample ∷ [])) }
        ensures alarmed { OnSome result (self.new ≡ self.old) }

        // The same by the numbers, for callers that keep no list.
        ensures answer { result ≡ alarm_by self.old.cutoffs (tail_step self.old.cutoffs.window self.old.tail sample) }
        ensures numbers { IfNone result (self.new.tail ≡ tail_step self.old.cutoffs.window self.old.tail sample) }

        ensures stands { StandsForSome self.new }
    {
        // For its clause alone.
        self.cutoffs.are_sound();
        self.tail.add(self.cutoffs, sample)
    }

    /// The first alarm among samples that follow, if there is one, with its place among them, counted from 0: what `step` says
    /// of each of them in turn, up to the first that alarms. After an alarm the tests stand as before the call, and are to be
    /// begun anew.
    pub fn step_all(&mut self, samples: &[u8]) -> Option<Alarm>
        ensures cutoffs { self.new.cutoffs ≡ self.old.cutoffs }

        // What is answered is the first alarm, behind any list for which the tests stand, among the samples that follow it.
        ensures alarm { (x : List ℕ) → StandsFor self.old x → alarm_in self.old.cutoffs x samples.now ≡ result }
        ensures grown { IfNone result ((x : List ℕ) → StandsFor self.old x → StandsFor self.new (x ++ samples.now)) }
        ensures alarmed { OnSome result (self.new ≡ self.old) }

        // The same by the numbers, for callers that keep no list.
        ensures answer { result ≡ alarm_from self.old.cutoffs self.old.tail samples.now }
        ensures place { IfSome result (λ alarm. alarm.at < length samples.now) }
        ensures numbers { IfNone result (self.new.tail ≡ tail_after self.old.cutoffs.window self.old.tail samples.now) }

        ensures stands { StandsForSome self.new }
    {
        // For its clause alone.
        self.cutoffs.are_sound();
        let mut next = self.tail;
        let answer = next.go_on(self.cutoffs, samples);
        if answer.is_none() {
            self.tail = next;
        }
        answer
    }

    /// The five numbers that the tests keep of the samples before.
    pub fn numbers(&self) -> Tail
        ensures { result ≡ self.now.tail }
    {
        self.tail
    }

    /// Tests that stand where these numbers say, for a caller that keeps them elsewhere. There are none where no list of samples
    /// without an alarm leaves such numbers.
    pub fn resumed(cutoffs: Cutoffs, tail: Tail) -> Option<Tests>
        ensures value { IfSome result (λ t. t ≡ record { cutoffs = cutoffs; tail = tail }) }
        ensures refused { IfNone result (¬ StandsForSome (record { cutoffs = cutoffs; tail = tail })) }
        ensures test { is_some result ≡ is_left cutoffs tail }
    {
        // For its clause alone.
        cutoffs.are_sound();
        if !tail.is_left(cutoffs) {
            return None;
        }
        Some(Tests { cutoffs, tail })
    }
}
