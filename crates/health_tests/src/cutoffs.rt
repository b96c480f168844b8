// The cutoffs of both tests.
ghost use Rattle.std.specs.Prelude.{◌≡◌, ◌≤◌, ◌+◌, ◌*◌, MatchOption, Ok, Err};
ghost use Rattle.std.specs.Int.{div_ceil};

use std::marker::Model;

/// A number of the cutoffs: that of the repetition count test, the window and the count of the adaptive proportion test.
#[derive(Clone, Copy, Debug, PartialEq, Eq)]
pub enum Cut {
    Rct,
    Window,
    Apt,
}

/// The number that was refused, and which it is.
#[derive(Clone, Copy, Debug, PartialEq, Eq)]
pub struct BadCutoff {
    pub which: Cut,
    pub value: u64,
}

/// The cutoffs of a source, in samples (SP 800-90B 4.4.1 and 4.4.2).
#[derive(Clone, Copy, Debug, PartialEq, Eq)]
pub struct Cutoffs {
    rct: u32,
    window: u16,
    apt: u16,
}

impl Model for Cutoffs {
    ghost use Rattle.health_tests.specs.Cutoffs.{Limits, AreSound};

    ghost Value = { Limits };

    ghost view = { λ c. record { rct = c.rct; window = c.window; apt = c.apt } };

    ghost invariant = { λ c. AreSound (record { rct = c.rct; window = c.window; apt = c.apt }) };

    ghost inverse = { λ v. record { rct = v.rct; window = v.window; apt = v.apt } };
}

impl Cutoffs {
    ghost use Rattle.health_tests.specs.Cutoffs.{AreSound, refused};

    /// Cutoffs of a run of `rct` equal samples, at least 2, and of `apt` samples in a window, at least 2 and at most the
    /// window, which is 512 or 1024. The first of the three that doesn't fit is refused.
    pub fn new(rct: u32, window: u16, apt: u16) -> Result<Cutoffs, BadCutoff>
        ensures { MatchOption (refused rct window apt) (result ≡ Ok (record { rct = rct; window = window; apt = apt })) (λ bad. result ≡ Err bad) }
    {
        if rct < 2 {
            return Err(BadCutoff {
                which: Cut::Rct,
                value: u64::from(rct),
            });
        }
        if window != 512 && window != 1024 {
            return Err(BadCutoff {
                which: Cut::Window,
                value: u64::from(window),
            });
        }
        if apt < 2 || window < apt {
            return Err(BadCutoff {
                which: Cut::Apt,
                value: u64::from(apt),
            });
        }
        Ok(Cutoffs { rct, window, apt })
    }

    // That the cutoffs are those that `new` accepts. It is called for this clause alone.
    #[inline]
    pub(crate) fn are_sound(&self)
        ensures { AreSound self.now }
    {
        let _ = &self.rct;
    }

    /// The length of a run of equal samples that alarms.
    #[inline]
    pub fn rct(&self) -> u32
        ensures value { result ≡ self.now.rct }
        ensures sound { AreSound self.now }
    {
        self.rct
    }

    /// The length of a window, 512 or 1024.
    #[inline]
    pub fn window(&self) -> u16
        ensures value { result ≡ self.now.window }
        ensures range { (512 ≤ result) × (result ≤ 1024) }
        ensures sound { AreSound self.now }
    {
        self.window
    }

    /// How many samples of a window equal to its first alarm, the first included.
    #[inline]
    pub fn apt(&self) -> u16
        ensures value { result ≡ self.now.apt }
        ensures sound { AreSound self.now }
    {
        self.apt
    }
}

/// The cutoff of the repetition count test, `1 + ceil(a / H)`, for a false alarm once in 2^a samples of `H = num / den` bits
/// of min-entropy each (SP 800-90B 4.4.1).
pub fn rct_cutoff(a: u32, num: u32, den: u32) -> u32
    requires a_low { 1 ≤ a }
    requires a_high { a ≤ 64 }
    requires num_low { 1 ≤ num }
    requires num_high { num ≤ 8000 }
    requires den_low { 1 ≤ den }
    requires den_high { den ≤ 1000 }
    ensures { result ≡ 1 + div_ceil (a * den) num }
{
    1 + (a * den).div_ceil(num)
}
