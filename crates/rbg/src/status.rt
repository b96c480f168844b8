// What a call answers, and the numbers by which C names the kinds. `include/rbg.h` has the same numbers.

/// The call did its work.
pub const DONE: u32 = 0;

/// The reseed counter is above the reseed interval.
pub const RESEED_REQUIRED: u32 = 1;

/// The state is none that a call leaves: its kind is unknown, its counter is 0, or its reserved number isn't.
pub const BAD_STATE: u32 = 2;

/// No kind has this number.
pub const BAD_KIND: u32 = 3;

/// The interval is 0 or above 2^48.
pub const BAD_INTERVAL: u32 = 4;

/// The entropy has more than 65,536 bytes.
pub const LONG_ENTROPY: u32 = 5;

/// The nonce has more than 65,536 bytes.
pub const LONG_NONCE: u32 = 6;

/// The personalization string or the additional input has more than 65,536 bytes.
pub const LONG_STRING: u32 = 7;

/// More than 65,536 bytes were asked for.
pub const LONG_OUTPUT: u32 = 8;

/// The numbers are none that a begin or a step leaves: cutoffs that are refused, numbers that no samples without an alarm
/// leave, or an unknown alarm.
pub const BAD_TESTS: u32 = 9;

/// The tests alarmed before, and are to be begun anew.
pub const ALARMED: u32 = 10;

/// The cutoff of the repetition count test is below 2.
pub const BAD_RCT: u32 = 11;

/// The window is neither 512 nor 1024.
pub const BAD_WINDOW: u32 = 12;

/// The cutoff of the adaptive proportion test is below 2 or above the window.
pub const BAD_APT: u32 = 13;

/// The false alarm's exponent is not 1 to 64, or the entropy is not of 1 to 8000 over 1 to 1000.
pub const BAD_RATE: u32 = 14;

/// The repetition count test alarms at this sample.
pub const REPETITION: u32 = 15;

/// The adaptive proportion test alarms at this sample.
pub const PROPORTION: u32 = 16;
