// What is made of replies.

/// A line that shows each, or the bytes that replies to Generate give.
#[derive(Clone, Copy, Debug, PartialEq, Eq)]
pub enum Way {
    Show,
    Bytes,
}
