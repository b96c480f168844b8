// What work on a tree comes to.
ghost use Rattle.std.specs.Prelude.{◌≡◌, string_bytes, IfOk};
ghost use Rattle.rbg_bench.specs.Calls.{outcome_line};

use std::alloc::{AllocError, Global};

// How often it was done, and the SHA-256 of all bytes that it gave.
#[derive(Drop)]
pub struct Outcome {
    pub done: u32,
    pub digest: [u8; 32],
}

impl Outcome {
    // The line that is printed.
    pub fn line(&self, alloc: Global) -> Result<String, AllocError>
        ensures { IfOk result (λ line. string_bytes line ≡ outcome_line self.now) }
    {
        let done = self.done;
        let digest = hex::encode(alloc, self.digest)?;
        format!(in alloc; "{done} done, {digest}")
    }
}
