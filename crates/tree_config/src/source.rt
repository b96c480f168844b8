// Reading a source's table.
ghost use Rattle.std.specs.Prelude.{◌≡◌, ◌≤◌, ◌⊎◌, IfOk, codes};
ghost use Rattle.toml.specs.Data.{get_member};
ghost use Rattle.toml.specs.View.{table_view};
ghost use Rattle.tree_config.specs.Fields.{required, number_within};
ghost use Rattle.tree_config.specs.declared.fault.Field.TheVariants as field;
ghost use Rattle.tree_config.specs.Source.{source_at, is_true, rct_of, den_fits, window_of};

use crate::choices::conditioner;
use crate::fault::Field;
use crate::fields::{at, check, flag_or, has, name, number, number_or};
use crate::keys::{Level, has_only};
use crate::plan::SourcePlan;
use health_tests::{Cutoffs, rct_cutoff};
use toml::{Table, Value};

// Whether the boolean true stands at a key, and no other value.
fn is_true(table: &Table, key: &str) -> bool
    ensures { result ≡ is_true (get_member key.now (table_view table.now)) }
{
    match at(table, key) {
        Some(Value::Boolean(value)) => *value,
        _ => false,
    }
}

// Whether a sample can hold num / den bits of min-entropy: at most 8, and at most 1 where it is binary.
fn den_fits(table: &Table, num: u32, den: u32) -> Result<(), Field>
    requires { den ≤ 1000 }
    ensures value { result ≡ den_fits num den (get_member (codes "binary") (table_view table.now)) }
{
    if num > 8 * den {
        return Err(Field::Den);
    }
    if is_true(table, "binary") && num > den {
        return Err(Field::Den);
    }
    Ok(())
}

// The cutoff of the repetition count test, given or computed (SP 800-90B 4.4.1): exactly one of its keys has to be there.
fn rct(table: &Table, num: u32, den: u32) -> Result<u32, Field>
    requires num_range { 1 ≤ num × num ≤ 8000 }
    requires den_range { 1 ≤ den × den ≤ 1000 }
    ensures value { result ≡ rct_of num den (get_member (codes "rct") (table_view table.now)) (get_member (codes "rct_a") (table_view table.now)) }
    ensures range { IfOk result (λ n. 2 ≤ n) }
{
    match (has(table, "rct"), has(table, "rct_a")) {
        (true, false) => {
            let given = number(table, "rct", 2, 4294967295, Field::Rct)?;
            Ok(given as u32)
        }
        (false, true) => {
            let a = number(table, "rct_a", 1, 64, Field::RctA)?;
            Ok(rct_cutoff(a as u32, num, den))
        }
        _ => Err(Field::Rct),
    }
}

// The window of the adaptive proportion test, in samples (SP 800-90B 4.4.2).
#[tactic(auto, unfolding(crate::specs::Source::window_of))]
fn window_of(binary: bool) -> u16
    ensures value { result ≡ window_of binary }
    ensures two { (result ≡ 512) ⊎ (result ≡ 1024) }
{
    if binary { 1024 } else { 512 }
}

// The cutoff of the adaptive proportion test, within its window.
fn apt(table: &Table, binary: bool) -> Result<u16, Field>
    ensures value { result ≡ required field.Apt (number_within 2 (window_of binary)) (get_member (codes "apt") (table_view table.now)) }
    ensures range { IfOk result (λ n. 2 ≤ n × n ≤ window_of binary) }
{
    let window = window_of(binary);
    let apt = number(table, "apt", 2, u64::from(window), Field::Apt)?;
    Ok(apt as u16)
}

// These cutoffs, none of which is refused.
fn sound(rct: u32, window: u16, apt: u16) -> Cutoffs
    requires run { 2 ≤ rct }
    requires windows { (window ≡ 512) ⊎ (window ≡ 1024) }
    requires count { 2 ≤ apt × apt ≤ window }
    ensures { result ≡ record { rct = rct; window = window; apt = apt } }
{
    match Cutoffs::new(rct, window, apt) {
        Ok(cutoffs) => cutoffs,
        Err(_) => unreachable!(),
    }
}

/// The source that a table says, by the version, or the first field at fault.
#[tactic(auto, unfolding(crate::specs::Source::source_at))]
pub(crate) fn source(table: &Table, version: u8) -> Result<SourcePlan, Field>
    ensures { result ≡ source_at version (table_view table.now) }
{
    let samples = name(table, "samples", Field::Samples)?;
    let num = number(table, "num", 1, 8000, Field::Num)? as u32;
    let den = number(table, "den", 1, 1000, Field::Den)? as u32;
    den_fits(table, num, den)?;
    let binary = flag_or(table, "binary", false, Field::Binary)?;
    let rct = rct(table, num, den)?;
    let apt = apt(table, binary)?;
    let startup = number_or(table, "startup", 1024, 65536, 1024, Field::Startup)? as u32;
    let cond = conditioner(table, "conditioner", version, Field::Conditioner)?;
    check(has_only(table, Level::Source(version)), Field::Unknown)?;
    let cutoffs = sound(rct, window_of(binary), apt);
    Ok(SourcePlan {
        samples,
        num,
        den,
        cutoffs,
        startup,
        cond,
    })
}
