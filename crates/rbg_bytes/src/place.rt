// Bytes put at a place, and bytes xored.
ghost use Rattle.std.specs.Prelude.{◌≡◌, ◌≤◌, ◌+◌, ◌-◌, ◌++◌, length, take, drop, min};
ghost use Rattle.rbg_bytes.specs.Xor.{xor_bytes};

/// Puts bytes at a place of a buffer in which they fit. What stands before and behind them stays as it is.
pub fn put_at(out: &mut [u8], at: usize, bytes: &[u8])
    requires { at + length bytes.now ≤ length out.old }
    ensures front { take (at + length bytes.now) out.new ≡ take at out.old ++ bytes.now }
    ensures behind { drop (at + length bytes.now) out.new ≡ drop (at + length bytes.now) out.old }
{
    out[at..at + bytes.len()].copy_from_slice(bytes);
}

/// Puts bytes at the front of a buffer in which they fit. What stands behind them stays as it is.
pub fn put_front(out: &mut [u8], bytes: &[u8])
    requires { length bytes.now ≤ length out.old }
    ensures front { take (length bytes.now) out.new ≡ bytes.now }
    ensures behind { drop (length bytes.now) out.new ≡ drop (length bytes.now) out.old }
{
    put_at(out, 0, bytes);
}

/// Puts as many of the bytes as there is room for at a place of a buffer, and says how many. What stands before and behind
/// them stays as it is.
pub fn put_fitting(out: &mut [u8], at: usize, bytes: &[u8]) -> usize
    requires { at ≤ length out.old }
    ensures count { result ≡ min (length bytes.now) (length out.old - at) }
    ensures front { take (at + length bytes.now) out.new ≡ take at out.old ++ take (length out.old - at) bytes.now }
    ensures behind { drop (at + length bytes.now) out.new ≡ drop (at + length bytes.now) out.old }
{
    let count = bytes.len().min(out.len() - at);
    put_at(out, at, &bytes[..count]);
    count
}

/// Xors each byte of a buffer with the one at its place in a row of the same length.
pub fn xor_bytes(out: &mut [u8], bytes: &[u8])
    requires { length bytes.now ≡ length out.old }
    ensures { out.new ≡ xor_bytes out.old bytes.now }
{
    for i in 0..out.len() {
        out[i] ^= bytes[i];
    }
}
