// The samples of the health tests.
ghost use Rattle.std.specs.Prelude.{◌≡◌, length};
ghost use Rattle.rbg_bench.specs.Samples.{next, generated};

const FACTOR: u64 = 6_364_136_223_846_793_005;

const SUMMAND: u64 = 1_442_695_040_888_963_407;

// The generator's next state.
fn next(state: u64) -> u64
    ensures { result ≡ next state }
{
    state.wrapping_mul(FACTOR).wrapping_add(SUMMAND)
}

// Fills the slice with the top bytes of the generator's states after 0.
pub fn fill(samples: &mut [u8])
    ensures { samples.new ≡ generated (length samples.old) 0 }
{
    let mut state = 0;
    for at in 0..samples.len() {
        state = next(state);
        samples[at] = (state >> 56) as u8;
    }
}
