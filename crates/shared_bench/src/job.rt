// What the words ask for.
ghost use Rattle.std.specs.Prelude.{◌≡◌, ◌≤◌, ◌∷◌, [], ℕ, List, map, decimal, string_bytes, Some, IfSome};
ghost use Rattle.shared_bench.specs.declared.job.Job.{Job};

// How many callers, how many bytes each call asks for, and how many calls each caller makes.
#[derive(Clone, Copy)]
pub struct Job {
    pub callers: u8,
    pub bytes: u32,
    pub times: u32,
}

// The job, where there are three words, CALLERS is 0 to 64, BYTES 8 to 65,536 and TIMES 1 to 1,000,000.
pub fn read_job(words: &[String]) -> Option<Job>
    ensures callers { IfSome result (λ job. job.callers ≤ 64) }
    ensures bytes { IfSome result (λ job. (8 ≤ job.bytes) × (job.bytes ≤ 65536)) }
    ensures times { IfSome result (λ job. (1 ≤ job.times) × (job.times ≤ 1000000)) }

    // Numbers in decimal, within these ranges, are read as they are.
    ensures read { (callers bytes times : ℕ) → map string_bytes words.now ≡ decimal callers ∷ decimal bytes ∷ decimal times ∷ [] →
        callers ≤ 64 → 8 ≤ bytes → bytes ≤ 65536 → 1 ≤ times → times ≤ 1000000 →
        result ≡ Some (record { callers = callers; bytes = bytes; times = times }) }
{
    let [callers, bytes, times] = words else {
        return None;
    };
    let callers = number(callers.as_str(), 0, 64)?;
    let bytes = number(bytes.as_str(), 8, 65_536)?;
    let times = number(times.as_str(), 1, 1_000_000)?;
    Some(Job {
        callers: callers as u8,
        bytes: bytes as u32,
        times: times as u32,
    })
}

// The number that a word writes in decimal, where it is in this range.
fn number(word: &str, least: u64, most: u64) -> Option<u64>
    ensures read { (n : ℕ) → least ≤ n → n ≤ most → word.now ≡ decimal n → result ≡ Some n }
    ensures range { IfSome result (λ n. (least ≤ n) × (n ≤ most)) }
{
    let number = word.parse::<u64>().ok()?;
    if number < least {
        return None;
    }
    if number > most {
        return None;
    }
    Some(number)
}
