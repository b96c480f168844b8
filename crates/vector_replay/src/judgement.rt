// What a run says of a case.

/// What a run says of a case.
#[derive(Clone, Copy, Debug, PartialEq, Eq)]
pub enum Verdict {
    /// The second output is the bytes that the case wants.
    Same,
    /// It is not.
    Differs,
    /// CTR_DRBG without the derivation function refuses the length of a string that the run uses.
    BadLengths,
}
