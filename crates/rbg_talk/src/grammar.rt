// What lines are made of, and what can be wrong with one.
ghost use Rattle.std.specs.Prelude.{◌≡◌, ◌≤◌, length};
ghost use Rattle.rbg_talk.specs.Words.{name_of, op_of, operation_numbered};
ghost use Rattle.rbg_talk.specs.Calls.{object, counted, takes};

/// What a tree is asked.
#[derive(Clone, Copy, Debug, PartialEq, Eq)]
pub enum Operation {
    Instantiate,
    Generate,
    Reseed,
    Uninstantiate,
    Start,
    Status,
}

/// A number of a line.
#[derive(Clone, Copy, Debug, PartialEq, Eq)]
pub enum Number {
    Node,
    Source,
    Count,
    Strength,
}

/// An option, by the word that names it.
#[derive(Clone, Copy, Debug, PartialEq, Eq)]
pub enum Word {
    Pr,
    StrengthWord,
    StringWord,
}

/// What is wrong with a line.
#[derive(Clone, Copy, Debug, PartialEq, Eq)]
pub enum Fault {
    /// It has more than 9,000 bytes.
    LongLine,
    /// Its first word names no operation.
    NoOperation,
    /// A word that must be this number isn't one, or isn't there.
    NoNumber(Number),
    /// The word behind `string` isn't pairs of hexadecimal digits, or isn't there.
    NoHex,
    /// A string has more than 4,096 bytes.
    LongString,
    /// A word names no option.
    NoOption,
    /// The operation doesn't take this option.
    NotTaken(Word),
    /// An option stands a second time.
    Twice(Word),
}

impl Operation {
    /// The operation with this number in frames, one of 1 to 6.
    pub fn numbered(op: u8) -> Operation
        ensures { result ≡ operation_numbered op }
    {
        match op {
            1 => Operation::Instantiate,
            2 => Operation::Generate,
            3 => Operation::Reseed,
            4 => Operation::Uninstantiate,
            5 => Operation::Start,
            _ => Operation::Status,
        }
    }

    /// The operation's number in frames.
    pub fn op(self) -> u8
        ensures { result ≡ op_of self }
    {
        match self {
            Operation::Instantiate => 1,
            Operation::Generate => 2,
            Operation::Reseed => 3,
            Operation::Uninstantiate => 4,
            Operation::Start => 5,
            Operation::Status => 6,
        }
    }

    /// The word for the operation, at most 13 bytes.
    pub fn name(self) -> &'static str
        ensures text { result.now ≡ name_of self }
        ensures len { length result.now ≤ 13 }
    {
        match self {
            Operation::Instantiate => "instantiate",
            Operation::Generate => "generate",
            Operation::Reseed => "reseed",
            Operation::Uninstantiate => "uninstantiate",
            Operation::Start => "start",
            Operation::Status => "status",
        }
    }

    /// What the operation is on: a node, or a source.
    pub fn object(self) -> Number
        ensures { result ≡ object self }
    {
        match self {
            Operation::Instantiate => Number::Node,
            Operation::Generate => Number::Node,
            Operation::Reseed => Number::Node,
            Operation::Uninstantiate => Number::Node,
            Operation::Start => Number::Source,
            Operation::Status => Number::Node,
        }
    }

    /// Whether the operation has a count.
    pub fn is_counted(self) -> bool
        ensures { result ≡ counted self }
    {
        match self {
            Operation::Instantiate => false,
            Operation::Generate => true,
            Operation::Reseed => false,
            Operation::Uninstantiate => false,
            Operation::Start => false,
            Operation::Status => false,
        }
    }

    /// Whether the operation takes the option.
    pub fn takes(self, option: Word) -> bool
        ensures { result ≡ takes self option }
    {
        match option {
            Word::Pr => self.takes_pr(),
            Word::StrengthWord => self.takes_strength(),
            Word::StringWord => self.takes_string(),
        }
    }

    // Whether the operation takes prediction resistance.
    fn takes_pr(self) -> bool
        ensures { result ≡ takes self Word.Pr }
    {
        match self {
            Operation::Instantiate => false,
            Operation::Generate => true,
            Operation::Reseed => true,
            Operation::Uninstantiate => false,
            Operation::Start => false,
            Operation::Status => false,
        }
    }

    // Whether the operation takes a strength.
    fn takes_strength(self) -> bool
        ensures { result ≡ takes self Word.StrengthWord }
    {
        match self {
            Operation::Instantiate => true,
            Operation::Generate => true,
            Operation::Reseed => false,
            Operation::Uninstantiate => false,
            Operation::Start => false,
            Operation::Status => false,
        }
    }

    // Whether the operation takes a string.
    fn takes_string(self) -> bool
        ensures { result ≡ takes self Word.StringWord }
    {
        match self {
            Operation::Instantiate => true,
            Operation::Generate => true,
            Operation::Reseed => true,
            Operation::Uninstantiate => false,
            Operation::Start => false,
            Operation::Status => false,
        }
    }
}
