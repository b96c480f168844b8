// The five numbers that the tests keep of a list of samples.
ghost use Rattle.std.specs.Prelude.{◌≡◌, ◌<◌, ◌+◌, ◌-◌, ◌*◌, ◌^◌, true, false, length, IfSome, IfNone, OnSome};
ghost use Rattle.health_tests.specs.Blocks.{AllDiffer};
ghost use Rattle.health_tests.specs.Left.{filled, can_spread};

use crate::{Alarm, Cutoffs, Test};

// How many samples are looked at side by side.
const BLOCK: usize = 16;

/// What the tests need of the samples before: the length of the run of equal samples at the end, the place in its window of
/// the sample to come, of the last sample's window how many samples equal its first, the last sample, and that first one.
#[derive(Clone, Copy)]
pub struct Tail {
    pub run: u32,
    pub place: u32,
    pub equal: u16,
    pub last: u8,
    pub first: u8,
}

impl Tail {
    ghost use Rattle.health_tests.specs.Blocks.{GoesPast};
    ghost use Rattle.health_tests.specs.Left.{is_left, is_blank, is_begun, fits_window};
    ghost use Rattle.health_tests.specs.Numbers.{IsBelow, tail_step, tail_after, alarm_by, alarm_from};

    /// The numbers of no sample.
    pub const EMPTY: Tail = Tail {
        run: 0,
        place: 0,
        equal: 0,
        last: 0,
        first: 0,
    };

    /// The numbers with samples added, up to the first alarm among them.
    #[inline]
    pub fn go_on(&mut self, cutoffs: Cutoffs, samples: &[u8]) -> Option<Alarm>
        requires below { IsBelow cutoffs self.old }
        ensures answer { result ≡ alarm_from cutoffs self.old samples.now }
        ensures place { IfSome result (λ alarm. alarm.at < length samples.now) }
        ensures numbers { IfNone result (self.new ≡ tail_after cutoffs.window self.old samples.now) }
    {
        let blocks = samples.len() / BLOCK;
        for i in 0..blocks {
            let at = i * BLOCK;
            if let Some(alarm) = self.add_block(cutoffs, &samples[at..at + BLOCK]) {
                return Some(Alarm {
                    at: at + alarm.at,
                    test: alarm.test,
                });
            }
        }
        let at = blocks * BLOCK;
        match self.add_each(cutoffs, &samples[at..]) {
            Some(alarm) => Some(Alarm {
                at: at + alarm.at,
                test: alarm.test,
            }),
            None => None,
        }
    }

    // Adds the samples of a block, up to the first alarm among them.
    #[inline]
    fn add_block(&mut self, cutoffs: Cutoffs, samples: &[u8]) -> Option<Alarm>
        requires length { length samples.now ≡ 16 }
        requires below { IsBelow cutoffs self.old }
        ensures answer { result ≡ alarm_from cutoffs self.old samples.now }
        ensures place { IfSome result (λ alarm. alarm.at < length samples.now) }
        ensures numbers { IfNone result (self.new ≡ tail_after cutoffs.window self.old samples.now) }
        ensures below { IfNone result (IsBelow cutoffs self.new) }
    {
        if self.goes_past(cutoffs, samples) {
            return None;
        }
        self.add_each(cutoffs, samples)
    }

    // Adds a whole block within a window, where no sample of it is like the one before it or like the window's first. Then none
    // can alarm, and the numbers need only its last. Nearly all blocks are such; the comparisons are made side by side.
    #[inline]
    fn goes_past(&mut self, cutoffs: Cutoffs, samples: &[u8]) -> bool
        requires length { length samples.now ≡ 16 }
        requires place { self.old.place < 2 ^ 16 }
        ensures past { result ≡ true → GoesPast cutoffs self.old samples.now self.new }
        ensures kept { result ≡ false → self.new ≡ self.old }
    {
        let place = self.place + BLOCK as u32;
        if self.place == 0
            || place >= u32::from(cutoffs.window())
            || is_like(self.last, self.first, samples)
        {
            return false;
        }
        self.run = 1;
        self.place = place;
        self.last = samples[BLOCK - 1];
        true
    }

    // Adds samples one by one, up to the first alarm among them.
    #[inline]
    fn add_each(&mut self, cutoffs: Cutoffs, samples: &[u8]) -> Option<Alarm>
        requires below { IsBelow cutoffs self.old }
        ensures answer { result ≡ alarm_from cutoffs self.old samples.now }
        ensures place { IfSome result (λ alarm. alarm.at < length samples.now) }
        ensures numbers { IfNone result (self.new ≡ tail_after cutoffs.window self.old samples.now) }
        ensures below { IfNone result (IsBelow cutoffs self.new) }
    {
        for at in 0..samples.len() {
            if let Some(test) = self.count(cutoffs, samples[at]) {
                return Some(Alarm { at, test });
            }
        }
        None
    }

    // One sample more, unless it alarms, by what the sample is like. `add` says the same by another body, since each is the faster one
    // where it stands (bench/health): one sample a call takes 1.20 times as long by this one, and a slice 1.27 times as long by that one.
    #[inline]
    fn count(&mut self, cutoffs: Cutoffs, sample: u8) -> Option<Test>
        requires below { IsBelow cutoffs self.old }
        ensures answer { result ≡ alarm_by cutoffs (tail_step cutoffs.window self.old sample) }
        ensures numbers { IfNone result (self.new ≡ tail_step cutoffs.window self.old sample) }
    {
        let mut run = 1;
        if sample == self.last {
            run += self.run;
            if run >= cutoffs.rct() {
                return Some(Test::Repetition);
            }
        }
        if self.place == 0 {
            self.first = sample;
            self.equal = 1;
        } else if sample == self.first {
            let equal = self.equal + 1;
            if equal >= cutoffs.apt() {
                return Some(Test::Proportion);
            }
            self.equal = equal;
        }
        self.run = run;
        self.last = sample;
        self.place += 1;
        if self.place == u32::from(cutoffs.window()) {
            self.place = 0;
        }
        None
    }

    /// One sample more, unless it alarms. The usual sample lies within its window, and is like neither the last one nor the
    /// window's first: then neither test can alarm, and three comparisons are all that it takes.
    #[inline]
    pub fn add(&mut self, cutoffs: Cutoffs, sample: u8) -> Option<Test>
        requires below { IsBelow cutoffs self.old }
        ensures answer { result ≡ alarm_by cutoffs (tail_step cutoffs.window self.old sample) }
        ensures numbers { IfNone result (self.new ≡ tail_step cutoffs.window self.old sample) }
        ensures alarmed { OnSome result (self.new ≡ self.old) }
    {
        if sample != self.last
            && sample != self.first
            && self.place.wrapping_sub(1) < u32::from(cutoffs.window()) - 2
        {
            self.run = 1;
            self.last = sample;
            self.place += 1;
            return None;
        }
        let next = self.with(cutoffs.window(), sample);
        let alarm = next.alarm(cutoffs);
        if alarm.is_none() {
            *self = next;
        }
        alarm
    }

    // The numbers with one sample more. They come and go by value and not at a place in memory, so that a caller's loop can keep
    // its own in registers as long as the samples are of the usual kind.
    #[cold]
    #[inline(never)]
    fn with(self, window: u16, sample: u8) -> Tail
        requires run { self.run < 2 ^ 32 - 1 }
        requires equal { self.equal < 2 ^ 16 - 1 }
        requires place { self.place < window }
        ensures { result ≡ tail_step window self sample }
    {
        let mut next = self;
        next.run = if sample == self.last { self.run + 1 } else { 1 };
        next.last = sample;
        if self.place == 0 {
            next.first = sample;
            next.equal = 1;
        } else if sample == self.first {
            next.equal = self.equal + 1;
        }
        next.place = self.place + 1;
        if next.place == u32::from(window) {
            next.place = 0;
        }
        next
    }

    // The alarm at the last sample.
    #[inline]
    fn alarm(self, cutoffs: Cutoffs) -> Option<Test>
        ensures { result ≡ alarm_by cutoffs self }
    {
        if self.run >= cutoffs.rct() {
            Some(Test::Repetition)
        } else if self.equal >= cutoffs.apt() {
            Some(Test::Proportion)
        } else {
            None
        }
    }

    /// Whether some list of samples without an alarm leaves these numbers.
    pub fn is_left(&self, cutoffs: Cutoffs) -> bool
        ensures { result ≡ is_left cutoffs self.now }
    {
        self.is_blank() || self.is_begun(cutoffs)
    }

    // Whether they are the numbers of no sample.
    fn is_blank(&self) -> bool
        ensures { result ≡ is_blank self.now }
    {
        self.run == 0 && self.place == 0 && self.equal == 0 && self.last == 0 && self.first == 0
    }

    // Whether they are the numbers of one sample or more.
    fn is_begun(&self, cutoffs: Cutoffs) -> bool
        ensures { result ≡ is_begun cutoffs self.now }
    {
        let (rct, window) = (cutoffs.rct(), u32::from(cutoffs.window()));
        self.run >= 1
            && self.run < rct
            && self.place < window
            && self.equal < cutoffs.apt()
            && self.fits_window(rct, window, filled(window, self.place))
    }

    // Whether the run, the count, the last sample and the first fit a window with so many samples so far.
    fn fits_window(&self, rct: u32, window: u32, many: u32) -> bool
        ensures { result ≡ fits_window rct window many self.now }
    {
        let equal = u32::from(self.equal);
        if many <= self.run {
            self.last == self.first
                && equal == many
                && u64::from(self.run) < u64::from(many) + u64::from(window)
        } else if self.last == self.first {
            can_spread(rct, many - 1 - self.run, equal.saturating_sub(self.run))
        } else {
            can_spread(rct, many - self.run, equal)
        }
    }
}

// Whether a sample of a block is like the one before it, of which the first is given, or like a certain one.
#[inline]
fn is_like(before: u8, certain: u8, block: &[u8]) -> bool
    requires { length block.now ≡ 16 }
    ensures { result ≡ false → AllDiffer before certain block.now }
{
    let mut like = false;
    let mut last = before;
    for i in 0..BLOCK {
        like |= (block[i] == last) | (block[i] == certain);
        last = block[i];
    }
    like
}

// How many samples the last sample's window has so far.
fn filled(window: u32, place: u32) -> u32
    ensures { result ≡ filled window place }
{
    if place == 0 { window } else { place }
}

// Whether `like` samples can stand among so many, the first of which is one of them, with no run of them that reaches the cutoff.
fn can_spread(rct: u32, many: u32, like: u32) -> bool
    ensures { result ≡ can_spread rct many like }
{
    1 <= like && like <= many && u64::from(many) < rows(many - like, rct)
}

// As many rows as there are unlike samples, and one more, each as long as the cutoff.
fn rows(unlike: u32, rct: u32) -> u64
    ensures { result ≡ unlike * rct + rct }
{
    u64::from(unlike) * u64::from(rct) + u64::from(rct)
}
