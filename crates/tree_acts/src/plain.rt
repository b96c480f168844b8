// Trees in plain numbers, for tests.
/// What a refusal reads of a node: whether it is instantiated, its reseed counter, and whether it keeps a seed that was not used.
#[derive(Clone, Copy, Debug, PartialEq, Eq)]
pub struct PlainNode {
    pub live: bool,
    pub counter: u64,
    pub has_seed: bool,
}
