// Laws of the definition, apart from the code.
ghost use Rattle.std.specs.Prelude.{◌≡◌, ◌≤◌, ◌<◌, ℕ};
ghost use Rattle.aes_core.specs.Field.{inverse, times};
ghost use Rattle.aes_core.specs.Examples.{MeetsExamples};

/// The definition that `Aes` is proved against gives the blocks of FIPS 197, appendix C, for each length of a key. It is
/// computed from the definition alone; a call does nothing.
pub fn meets_examples()
    ensures { MeetsExamples }
{}

/// The product of a byte other than 0 and its inverse in the field is 1. A call does nothing.
pub fn inverts_bytes()
    ensures { (x : ℕ) → 1 ≤ x → x < 256 → times x (inverse x) ≡ 1 }
{}
