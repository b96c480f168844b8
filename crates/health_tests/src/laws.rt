// Laws on lists of samples and their numbers: each is a function without a body, whose contract is the law. No program calls
// them; they tie the definitions to one another, and to what is built above them.
ghost use Rattle.std.specs.Prelude.{◌≡◌, ◌<◌, ◌≤◌, ◌+◌, ◌-◌, ◌*◌, ◌↔◌, ℕ, List, [], ◌++◌, length, slice_index, IsTrue, Option, None, Some, true};
ghost use Rattle.health_tests.specs.declared.windows.Alarm.{Alarm};
ghost use Rattle.health_tests.specs.Cutoffs.{Limits, AreSound};
ghost use Rattle.health_tests.specs.Windows.{repeats, window_start, first_alarm, alarm_in, further, IsFirst};
ghost use Rattle.health_tests.specs.Numbers.{tail_of, no_tail, tail_after, alarm_from};
ghost use Rattle.health_tests.specs.declared.numbers.Tail.{Tail};
ghost use Rattle.health_tests.specs.Stands.{StandsForSome};
ghost use Rattle.health_tests.specs.Left.{is_left};

/// A repetition at a place says that the samples up to it, as many as the cutoff, are all like its own (SP 800-90B 4.4.1).
pub fn repetition_is_a_run()
    ensures { (c : ℕ) (x : List ℕ) (k : ℕ) → k < length x →
        (IsTrue (repeats c x k) ↔ ((c ≤ k + 1) × ((j : ℕ) → j < c → slice_index x (k - j) ≡ slice_index x k))) }
{}

/// Windows follow one another from place 0 on, without a gap and without overlap (SP 800-90B 4.4.2).
pub fn windows_follow()
    ensures { (w n r : ℕ) → r < w → window_start w (n * w + r) ≡ n * w }
{}

/// The first alarm is the alarm of the least place that has one, and none where no place has one.
pub fn first_alarm_is_least()
    ensures { (c : Limits) (x : List ℕ) (o : Option Alarm) → ((first_alarm c x ≡ o) ↔ IsFirst c x o) }
{}

/// An alarm stays the first one whatever follows; behind samples without one, it is the first of those that follow.
pub fn first_alarm_goes_on()
    ensures stays { (c : Limits) (x y : List ℕ) (a : Alarm) → first_alarm c x ≡ Some a → first_alarm c (x ++ y) ≡ Some a }
    ensures later { (c : Limits) (x y : List ℕ) → first_alarm c x ≡ None → first_alarm c (x ++ y) ≡ further (length x) (alarm_in c x y) }
{}

/// The numbers of no sample.
pub fn numbers_begin()
    ensures { (w : ℕ) → tail_of w [] ≡ no_tail }
{}

/// The numbers of a longer list are those of the list, with the samples added one by one.
pub fn numbers_grow()
    ensures { (w : ℕ) (x y : List ℕ) → tail_after w (tail_of w x) y ≡ tail_of w (x ++ y) }
{}

/// The first alarm by the numbers is that of the whole list.
pub fn numbers_tell()
    ensures { (c : Limits) (x y : List ℕ) → alarm_from c (tail_of c.window x) y ≡ alarm_in c x y }
{}

/// For a list without an alarm, the first alarm of a longer one depends on it through its numbers alone, and its length.
pub fn numbers_are_enough()
    ensures { (c : Limits) (x y : List ℕ) → first_alarm c x ≡ None →
        first_alarm c (x ++ y) ≡ further (length x) (alarm_from c (tail_of c.window x) y) }
{}

/// Exactly the numbers that the test `is_left` passes are those of some list of samples without an alarm, at sound cutoffs.
pub fn samples_leave_numbers()
    ensures { (c : Limits) (t : Tail) → AreSound c → ((is_left c t ≡ true) ↔ StandsForSome (record { cutoffs = c; tail = t })) }
{}
