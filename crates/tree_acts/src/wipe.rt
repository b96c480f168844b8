// Bytes that are let go.
ghost use Rattle.std.specs.Prelude.{◌≡◌, length, replicate};

// Fills a buffer with zeros.
pub(crate) fn wipe(out: &mut [u8])
    ensures { out.new ≡ replicate (length out.old) 0 }
{
    out.fill(0);
}
