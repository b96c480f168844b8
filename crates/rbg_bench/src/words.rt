// The number that a word writes.
ghost use Rattle.std.specs.Prelude.{◌≤◌, ℕ, IfSome, IfNone};
ghost use Rattle.rbg_bench.specs.Words.{Writes};

// The number that a word writes in decimal, where it is in this range.
pub fn number(word: &str, least: u64, most: u64) -> Option<u64>
    ensures read { IfSome result (λ n. Writes word.now n × (least ≤ n) × (n ≤ most)) }
    ensures refused { IfNone result ((n : ℕ) → Writes word.now n → least ≤ n → n ≤ most → ⊥) }
{
    let Ok(number) = word.parse::<u64>() else {
        return None;
    };
    if number < least {
        return None;
    }
    if number > most {
        return None;
    }
    Some(number)
}
