// The conditioning components by name.

/// A vetted conditioning component (SP 800-90B 3.1.5.1.1): HMAC over SHA-256, or Block_Cipher_df with AES-256.
#[derive(Clone, Copy, Debug, PartialEq, Eq)]
pub enum Cond {
    HmacSha256,
    DfAes256,
}
