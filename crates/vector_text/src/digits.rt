// Hexadecimal digits in a buffer.
ghost use Rattle.std.specs.Prelude.{◌≡◌, ◌≤◌, ◌+◌, ◌*◌, ◌++◌, length, take, drop, Some, Ok};
ghost use Rattle.std.specs.Bool.{OnTrue};
ghost use Rattle.hex.specs.Hex.{decode_of, encode_lower, hex_digit_value};

// Fills a row with the digits of bytes.
fn fill_digits(bytes: &[u8], out: &mut [u8])
    requires { length out.old ≡ 2 * length bytes.now }
    ensures { out.new ≡ encode_lower bytes.now }
{
    match hex::encode_to_slice(bytes, out) {
        Ok(()) => {}
        Err(_) => unreachable!(),
    }
}

/// Puts the lower case digits of bytes at a place of a buffer in which they fit. What stands before and behind them stays as it is.
pub fn put_digits(out: &mut [u8], at: usize, bytes: &[u8])
    requires { at + 2 * length bytes.now ≤ length out.old }
    ensures front { take (at + 2 * length bytes.now) out.new ≡ take at out.old ++ encode_lower bytes.now }
    ensures behind { drop (at + 2 * length bytes.now) out.new ≡ drop (at + 2 * length bytes.now) out.old }
{
    fill_digits(bytes, &mut out[at..at + 2 * bytes.len()]);
}

// The value of each character that is a digit, of either case, and 255 for every other.
const VALUES: [u8; 256] = [
    255, 255, 255, 255, 255, 255, 255, 255, 255, 255, 255, 255, 255, 255, 255, 255, 255, 255, 255,
    255, 255, 255, 255, 255, 255, 255, 255, 255, 255, 255, 255, 255, 255, 255, 255, 255, 255, 255,
    255, 255, 255, 255, 255, 255, 255, 255, 255, 255, 0, 1, 2, 3, 4, 5, 6, 7, 8, 9, 255, 255, 255,
    255, 255, 255, 255, 10, 11, 12, 13, 14, 15, 255, 255, 255, 255, 255, 255, 255, 255, 255, 255,
    255, 255, 255, 255, 255, 255, 255, 255, 255, 255, 255, 255, 255, 255, 255, 255, 10, 11, 12, 13,
    14, 15, 255, 255, 255, 255, 255, 255, 255, 255, 255, 255, 255, 255, 255, 255, 255, 255, 255,
    255, 255, 255, 255, 255, 255, 255, 255, 255, 255, 255, 255, 255, 255, 255, 255, 255, 255, 255,
    255, 255, 255, 255, 255, 255, 255, 255, 255, 255, 255, 255, 255, 255, 255, 255, 255, 255, 255,
    255, 255, 255, 255, 255, 255, 255, 255, 255, 255, 255, 255, 255, 255, 255, 255, 255, 255, 255,
    255, 255, 255, 255, 255, 255, 255, 255, 255, 255, 255, 255, 255, 255, 255, 255, 255, 255, 255,
    255, 255, 255, 255, 255, 255, 255, 255, 255, 255, 255, 255, 255, 255, 255, 255, 255, 255, 255,
    255, 255, 255, 255, 255, 255, 255, 255, 255, 255, 255, 255, 255, 255, 255, 255, 255, 255, 255,
    255, 255, 255, 255, 255, 255, 255, 255, 255, 255, 255, 255, 255, 255, 255, 255, 255, 255, 255,
    255, 255, 255,
];

// The value of a digit of either case, and more than 15 for another character. A look-up has no branch that depends on the digit,
// which a processor could not foresee.
fn digit(c: u8) -> u8
    ensures { result ≤ 15 → hex_digit_value c ≡ Some result }
{
    VALUES[c as usize]
}

/// Fills a row with the bytes that digits write, twice as many as it has, and says whether all characters were digits.
pub fn decode_row(digits: &[u8], out: &mut [u8]) -> bool
    requires { length digits.now ≡ 2 * length out.old }
    ensures { OnTrue result (decode_of digits.now ≡ Ok out.new) }
{
    'bytes: for i in 0..out.len() {
        let high = digit(digits[2 * i]);
        let low = digit(digits[2 * i + 1]);
        if high > 15 || low > 15 {
            return false;
        }
        out[i] = high * 16 + low;
    }
    true
}
