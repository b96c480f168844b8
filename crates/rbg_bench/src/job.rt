// What the words ask for.
ghost use Rattle.std.specs.Prelude.{◌≡◌, ◌≤◌, ◌∷◌, [], ℕ, map, string_bytes, IfSome, IfNone};
ghost use Rattle.rbg_bench.specs.Words.{mechanism_name, primitive_name, form_name};
ghost use Rattle.rbg_bench.specs.Jobs.{AsksFor, IsInRange};
ghost use Rattle.rbg_bench.specs.declared.job.Mechanism.{Mechanism};
ghost use Rattle.rbg_bench.specs.declared.job.Primitive.{Primitive};
ghost use Rattle.rbg_bench.specs.declared.job.Form.{Form};
ghost use Rattle.rbg_bench.specs.declared.job.Job.{Job};

use crate::words::number;
use ctr_drbg::KeyLen;
use hmac_core::Hash;

// HMAC_DRBG over a hash function, or CTR_DRBG with AES and the derivation function.
#[derive(Clone, Copy)]
pub enum Mechanism {
    OverHash(Hash),
    OverAes(KeyLen),
}

// One block of AES-128 or four at once of AES-256 (FIPS 197), or SHA-256 (FIPS 180-4) of a piece of 65,536 bytes.
#[derive(Clone, Copy)]
pub enum Primitive {
    AesBlock,
    FourAesBlocks,
    HashOfZeros,
}

// How the health tests get the samples: one a call, or all in one call.
#[derive(Clone, Copy)]
pub enum Form {
    Step,
    Slice,
}

// The work, and how many times it is done.
#[derive(Clone, Copy)]
pub enum Job {
    // Generates of so many bytes.
    Generates(Mechanism, usize, u32),
    // The same, each after a reseed.
    Reseeds(Mechanism, usize, u32),
    // One primitive again and again.
    Repeats(Primitive, u32),
    // The health tests over so many samples.
    Tests(Form, usize, u32),
}

// The mechanism that a word names.
fn mechanism_named(word: &str) -> Option<Mechanism>
    ensures named { IfSome result (λ mechanism. word.now ≡ mechanism_name mechanism) }
    ensures unnamed { IfNone result ((mechanism : Mechanism) → word.now ≡ mechanism_name mechanism → ⊥) }
{
    match word {
        "hmac-sha-224" => Some(Mechanism::OverHash(Hash::Sha224)),
        "hmac-sha-256" => Some(Mechanism::OverHash(Hash::Sha256)),
        "hmac-sha-384" => Some(Mechanism::OverHash(Hash::Sha384)),
        "hmac-sha-512" => Some(Mechanism::OverHash(Hash::Sha512)),
        "hmac-sha-512-224" => Some(Mechanism::OverHash(Hash::Sha512_224)),
        "hmac-sha-512-256" => Some(Mechanism::OverHash(Hash::Sha512_256)),
        "ctr-aes-128" => Some(Mechanism::OverAes(KeyLen::K16)),
        "ctr-aes-192" => Some(Mechanism::OverAes(KeyLen::K24)),
        "ctr-aes-256" => Some(Mechanism::OverAes(KeyLen::K32)),
        _ => None,
    }
}

// The primitive that a word names.
fn primitive_named(word: &str) -> Option<Primitive>
    ensures named { IfSome result (λ primitive. word.now ≡ primitive_name primitive) }
    ensures unnamed { IfNone result ((primitive : Primitive) → word.now ≡ primitive_name primitive → ⊥) }
{
    match word {
        "aes-128-block" => Some(Primitive::AesBlock),
        "aes-256-four-blocks" => Some(Primitive::FourAesBlocks),
        "sha-256" => Some(Primitive::HashOfZeros),
        _ => None,
    }
}

// The form that a word names.
fn form_named(word: &str) -> Option<Form>
    ensures named { IfSome result (λ form. word.now ≡ form_name form) }
    ensures unnamed { IfNone result ((form : Form) → word.now ≡ form_name form → ⊥) }
{
    match word {
        "health-step" => Some(Form::Step),
        "health-slice" => Some(Form::Slice),
        _ => None,
    }
}

// The generates that three words ask for: up to 65,536 bytes, 1 to 1,000,000 times.
fn generates(name: &str, bytes: &str, times: &str) -> Option<Job>
    ensures asked { IfSome result (λ job. AsksFor (name.now ∷ bytes.now ∷ times.now ∷ []) job × IsInRange job) }
    ensures refused { IfNone result ((m : Mechanism) (b t : ℕ) →
        AsksFor (name.now ∷ bytes.now ∷ times.now ∷ []) (Job.Generates m b t) → IsInRange (Job.Generates m b t) → ⊥) }
{
    let mechanism = mechanism_named(name)?;
    let bytes = number(bytes, 0, 65_536)?;
    let times = number(times, 1, 1_000_000)?;
    Some(Job::Generates(mechanism, bytes as usize, times as u32))
}

// The generates after reseeds that four words ask for: up to 65,536 bytes, 1 to 1,000,000 times.
fn reseeds(first: &str, name: &str, bytes: &str, times: &str) -> Option<Job>
    ensures asked { IfSome result (λ job. AsksFor (first.now ∷ name.now ∷ bytes.now ∷ times.now ∷ []) job × IsInRange job) }
    ensures refused { IfNone result ((m : Mechanism) (b t : ℕ) →
        AsksFor (first.now ∷ name.now ∷ bytes.now ∷ times.now ∷ []) (Job.Reseeds m b t) → IsInRange (Job.Reseeds m b t) → ⊥) }
{
    if first != "reseeded" {
        return None;
    }
    let mechanism = mechanism_named(name)?;
    let bytes = number(bytes, 0, 65_536)?;
    let times = number(times, 1, 1_000_000)?;
    Some(Job::Reseeds(mechanism, bytes as usize, times as u32))
}

// The repeats that two words ask for: 1 to 100,000,000.
fn repeats(name: &str, times: &str) -> Option<Job>
    ensures asked { IfSome result (λ job. AsksFor (name.now ∷ times.now ∷ []) job × IsInRange job) }
    ensures refused { IfNone result ((p : Primitive) (t : ℕ) →
        AsksFor (name.now ∷ times.now ∷ []) (Job.Repeats p t) → IsInRange (Job.Repeats p t) → ⊥) }
{
    let primitive = primitive_named(name)?;
    let times = number(times, 1, 100_000_000)?;
    Some(Job::Repeats(primitive, times as u32))
}

// The runs of the health tests that three words ask for: over 1 to 16,777,216 samples, 1 to 1,000,000 times.
fn tests(name: &str, samples: &str, times: &str) -> Option<Job>
    ensures asked { IfSome result (λ job. AsksFor (name.now ∷ samples.now ∷ times.now ∷ []) job × IsInRange job) }
    ensures refused { IfNone result ((f : Form) (s t : ℕ) →
        AsksFor (name.now ∷ samples.now ∷ times.now ∷ []) (Job.Tests f s t) → IsInRange (Job.Tests f s t) → ⊥) }
{
    let form = form_named(name)?;
    let samples = number(samples, 1, 16_777_216)?;
    let times = number(times, 1, 1_000_000)?;
    Some(Job::Tests(form, samples as usize, times as u32))
}

// The job that the words ask for, where they ask for one that is in range.
pub fn read_job(words: &[String]) -> Option<Job>
    ensures asked { IfSome result (λ job. AsksFor (map string_bytes words.now) job × IsInRange job) }
    ensures refused { IfNone result ((job : Job) → AsksFor (map string_bytes words.now) job → IsInRange job → ⊥) }
{
    match words {
        [name, times] => repeats(name.as_str(), times.as_str()),
        [name, size, times] => {
            let name_text = name.as_str();
            let size_text = size.as_str();
            let times_text = times.as_str();
            match generates(name_text, size_text, times_text) {
                Some(job) => Some(job),
                None => tests(name_text, size_text, times_text),
            }
        }
        [first, name, size, times] => reseeds(
            first.as_str(),
            name.as_str(),
            size.as_str(),
            times.as_str(),
        ),
        _ => None,
    }
}
