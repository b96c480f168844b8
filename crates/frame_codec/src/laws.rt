//! Laws of frames, each the contract of a function that does nothing.

ghost use Rattle.std.specs.Prelude.{◌≡◌, ◌≤◌, ◌+◌, ◌++◌, [], ◌∷◌, List, ℕ, length};
ghost use Rattle.frame_codec.specs.declared.decoder.Step.{Step};
ghost use Rattle.frame_codec.specs.declared.reply_decoder.ReplyStep.{ReplyStep};
ghost use Rattle.frame_codec.specs.Frames.{Asked, Replied, IsFrame, IsReply, IsScript, BeginsWith, IsBadAt};
ghost use Rattle.frame_codec.specs.Decoding.{Begun, Steps, Feeds, Reads, ReadsOn};
ghost use Rattle.frame_codec.specs.Replying.{Replying, ReplySteps, ReplyReads, ReplyReadsOn};

/// No request frame begins another, and each is of one request with one string.
pub fn one_request()
    ensures { (b more : List ℕ) (r q : Asked) →
        IsFrame b r → IsFrame (b ++ more) q → (r ≡ q) × (more ≡ []) }
{}

/// No reply frame begins another, and each is of one head with one payload.
pub fn one_reply()
    ensures { (b more : List ℕ) (p q : Replied) →
        IsReply b p → IsReply (b ++ more) q → (p ≡ q) × (more ≡ []) }
{}

/// Bytes are frames in a row and a part of a frame in one way at most.
pub fn one_script()
    ensures { (b : List ℕ) (rs others : List Asked) (rest rest' : List ℕ) →
        IsScript b rs rest → IsScript b others rest' → (rs ≡ others) × (rest ≡ rest') }
{}

/// The requests of a longer list of bytes go on from those of a shorter.
pub fn longer_script()
    ensures { (b more : List ℕ) (rs others : List Asked) (rest rest' : List ℕ) →
        IsScript b rs rest → IsScript (b ++ more) others rest' →
        (later : List Asked) × (others ≡ rs ++ later) }
{}

/// Bytes have one bad byte at most, after the same requests and with the same number.
pub fn one_bad()
    ensures { (b : List ℕ) (rs others : List Asked) (offset why offset' why' : ℕ) →
        IsBadAt b rs offset why → IsBadAt b others offset' why' →
        (rs ≡ others) × (offset ≡ offset') × (why ≡ why') }
{}

/// Bytes with a bad byte are no script.
pub fn script_or_bad()
    ensures { (b : List ℕ) (rs others : List Asked) (rest : List ℕ) (offset why : ℕ) →
        IsScript b rs rest → IsBadAt b others offset why → ⊥ }
{}

/// A bad byte stays where it is, whatever follows.
pub fn bad_stays()
    ensures { (b more : List ℕ) (rs : List Asked) (offset why : ℕ) →
        IsBadAt b rs offset why → IsBadAt (b ++ more) rs offset why }
{}

/// The frames with which bytes begin stay, whatever follows.
pub fn beginning_stays()
    ensures { (b more : List ℕ) (rs : List Asked) → BeginsWith b rs → BeginsWith (b ++ more) rs }
{}

/// A push is a feed of one byte.
pub fn one_byte()
    ensures { (old : Begun) (byte : ℕ) (step : Step) (new : Begun) →
        Steps old byte step new → Feeds old (byte ∷ []) 1 step new }
{}

/// However the bytes are cut, feeds read a script on: within a frame, to the end of the next, or to the bad byte.
pub fn reads_on()
    ensures { (b : List ℕ) (rs : List Asked) (bytes : List ℕ) (taken : ℕ) →
        (old : Begun) (step : Step) (new : Begun) → Reads b rs old →
        taken ≤ length bytes → new.offset ≡ old.offset + taken →
        Feeds old bytes taken step new → ReadsOn b rs bytes taken step new }
{}

/// Each byte of a stream of replies is within a frame, or ends one, or is bad.
pub fn reply_reads_on()
    ensures { (b : List ℕ) (ps : List Replied) (rest : List ℕ) (byte : ℕ) →
        (old : Replying) (step : ReplyStep) (new : Replying) → ReplyReads b ps rest old →
        new.offset ≡ old.offset + 1 → ReplySteps old byte step new →
        ReplyReadsOn b ps rest byte step new }
{}
