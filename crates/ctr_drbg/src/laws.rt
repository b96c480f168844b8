// Laws of the definitions, apart from the code.
ghost use Rattle.std.specs.Prelude.{◌≡◌, ℕ, List, length, replicate};
ghost use Rattle.ctr_drbg.specs.CtrDrbg.{generated, plus_one, Working};
ghost use Rattle.ctr_drbg.specs.declared.seeds.Mode.{Mode};

/// What a generate is said to give has as many bytes as are asked, whatever the state. A call does nothing.
pub fn keeps_lengths()
    ensures { (mode : Mode) (additional : List ℕ) (n : ℕ) (s : Working) → length (generated mode additional n s) ≡ n }
{}

/// After sixteen bytes ff, V is sixteen bytes 00. A call does nothing.
pub fn wraps_around()
    ensures { plus_one (replicate 16 0xff) ≡ replicate 16 0x00 }
{}
