// What the words ask for.
ghost use Rattle.std.specs.Prelude.{◌≡◌, ◌≤◌, ◌∷◌, [], ℕ, List, map, decimal, string_bytes, Some, IfSome};
ghost use Rattle.turn_bench.specs.declared.job.Job.{Job};

// How many callers, how many calls of each, and how many rounds of work in each call.
#[derive(Clone, Copy)]
pub struct Job {
    pub callers: u8,
    pub times: u32,
    pub rounds: u32,
}

// The job, where there are three words, CALLERS is 1 to 4, TIMES 1 to 100,000,000 and WORK 0 to 1,000,000.
pub fn read_job(words: &[String]) -> Option<Job>
    ensures callers { IfSome result (λ job. (1 ≤ job.callers) × (job.callers ≤ 4)) }
    ensures times { IfSome result (λ job. (1 ≤ job.times) × (job.times ≤ 100000000)) }

    // Numbers in decimal, within these ranges, are read as they are.
    ensures read { (callers times rounds : ℕ) → map string_bytes words.now ≡ decimal callers ∷ decimal times ∷ decimal rounds ∷ [] →
        1 ≤ callers → callers ≤ 4 → 1 ≤ times → times ≤ 100000000 → rounds ≤ 1000000 →
        result ≡ Some (record { callers = callers; times = times; rounds = rounds }) }
{
    let [callers, times, rounds] = words else {
        return None;
    };
    let callers = number(callers.as_str(), 1, 4)?;
    let times = number(times.as_str(), 1, 100_000_000)?;
    let rounds = number(rounds.as_str(), 0, 1_000_000)?;
    Some(Job {
        callers: callers as u8,
        times: times as u32,
        rounds: rounds as u32,
    })
}

// The number that a word writes in decimal, where it is in this range.
fn number(word: &str, least: u64, most: u64) -> Option<u64>
    ensures read { (n : ℕ) → least ≤ n → n ≤ most → word.now ≡ decimal n → result ≡ Some n }
    ensures range { IfSome result (λ n. (least ≤ n) × (n ≤ most)) }
{
    let number = word.parse::<u64>().ok()?;
    if number < least {
        return None;
    }
    if number > most {
        return None;
    }
    Some(number)
}

#[cfg(test)]
mod tests {
    use super::read_job;
    use std::test::Fail;

    // Whether these words are a job.
    fn is_job(rt: &HostRuntime, text: &str) -> Result<bool, Fail> {
        let mut words = Vec::new(rt.alloc());
        for word in text.split(' ') {
            words.push(word.to_string(rt.alloc())?)?;
        }
        Ok(read_job(&words).is_some())
    }

    #[test]
    fn words_have_limits(rt: HostRuntime) -> Result<(), Fail> {
        for (text, is) in [
            ("1 1 0", true),
            ("4 100000000 1000000", true),
            ("0 1 0", false),
            ("5 1 0", false),
            ("1 0 0", false),
            ("1 100000001 0", false),
            ("1 1 1000001", false),
            ("1 1", false),
            ("1 1 1 1", false),
        ] {
            assert_eq!(rt; is_job(&rt, text)?, is);
        }
        Ok(())
    }
}
