// Blanks at the ends of a text, and a text parted at its first `=`.
ghost use Rattle.std.specs.Prelude.{◌≡◌, option_map, position};
ghost use Rattle.vector_text.specs.Trims.{Parts, is_blank, is_equals, parted, without_first, without_last};

/// What counts as a blank.
#[derive(Clone, Copy, Debug, PartialEq, Eq)]
pub enum Blank {
    Space,
    SpaceOrTab,
}

impl Blank {
    /// Whether a byte is one.
    pub fn is(self, byte: u8) -> bool
        ensures { result ≡ is_blank self byte }
    {
        match self {
            Blank::Space => byte == b' ',
            Blank::SpaceOrTab => byte == b' ' || byte == b'\t',
        }
    }
}

/// A text without the blanks that it begins with.
pub fn without_first(blank: Blank, text: &[u8]) -> &[u8]
    ensures { result.now ≡ without_first (is_blank blank) text.now }
{
    for (i, byte) in text.iter().enumerate() {
        if !blank.is(*byte) {
            return &text[i..];
        }
    }
    &[]
}

/// A text without the blanks that it ends with.
pub fn without_last(blank: Blank, text: &[u8]) -> &[u8]
    ensures { result.now ≡ without_last (is_blank blank) text.now }
{
    let mut end = text.len();
    while 0 < end {
        if !blank.is(text[end - 1]) {
            return &text[..end];
        }
        end -= 1;
    }
    &[]
}

// Where the first `=` of a text stands.
fn equals_at(text: &[u8]) -> Option<usize>
    ensures { result ≡ position is_equals text.now }
{
    text.iter().position(|byte| *byte == b'=')
}

/// What stands before the first `=` of a text and behind it, without the spaces beside it.
pub fn parted(text: &[u8]) -> Option<(&[u8], &[u8])>
    ensures { option_map (λ p. record { name = p.0.now; value = p.1.now }) result ≡ parted text.now }
{
    match equals_at(text) {
        Some(at) => Some((
            without_last(Blank::Space, &text[..at]),
            without_first(Blank::Space, &text[at + 1..]),
        )),
        None => None,
    }
}
