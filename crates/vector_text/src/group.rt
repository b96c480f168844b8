// A group of field lines, as the case that it becomes.
ghost use Rattle.std.specs.Prelude.{◌≡◌, ◌≤◌, List, ℕ, [], length, nat_eq, nat_lt};
ghost use Rattle.std.specs.Bool.{OnTrue};
ghost use Rattle.vector_text.specs.Groups.{begun, has_place, with_value, is_whole, case_of, first, second};
ghost use Rattle.vector_text.specs.Gathered.{once, twice, group_of, grown};

use crate::case::{Case, Mech};
use crate::shape::Field;
use rbg_bytes::Fixed;

/// How often each name stood so far.
#[derive(Clone, Copy, Debug, PartialEq, Eq)]
pub struct Stood {
    pub entropy: bool,
    pub nonce: bool,
    pub pers: bool,
    pub reseed: bool,
    pub add_reseed: bool,
    pub add: u8,
    pub entropy_pr: u8,
    pub returned: bool,
}

impl Stood {
    const NONE: Stood = Stood {
        entropy: false,
        nonce: false,
        pers: false,
        reseed: false,
        add_reseed: false,
        add: 0,
        entropy_pr: 0,
        returned: false,
    };
}

/// The values of a group so far. A string whose line has not come yet holds anything.
#[derive(Drop)]
pub struct Gathered {
    pub case: Case,
    pub stood: Stood,
}

// No bytes.
fn empty() -> Fixed<4096>
    ensures { result ≡ [] }
{
    Fixed::of(&[])
}

// Keeps the bytes of a line that may stand once, and says whether it may.
fn put_once(stood: &mut bool, value: &mut Fixed<4096>, bytes: &[u8]) -> bool
    requires { length bytes.now ≤ 4096 }
    ensures may { result ≡ nat_lt (length (once stood.old value.old)) 1 }
    ensures values { once stood.new value.new ≡ grown result bytes.now (once stood.old value.old) }
{
    if *stood {
        return false;
    }
    *stood = true;
    *value = Fixed::of(bytes);
    true
}

// Keeps the bytes of a line that may stand twice, and says whether it may.
fn put_twice(
    stood: &mut u8,
    first: &mut Fixed<4096>,
    second: &mut Fixed<4096>,
    bytes: &[u8],
) -> bool
    requires { length bytes.now ≤ 4096 }
    ensures may { result ≡ nat_lt (length (twice stood.old first.old second.old)) 2 }
    ensures values { twice stood.new first.new second.new ≡ grown result bytes.now (twice stood.old first.old second.old) }
{
    match *stood {
        0 => {
            *stood = 1;
            *first = Fixed::of(bytes);
            true
        }
        1 => {
            *stood = 2;
            *second = Fixed::of(bytes);
            true
        }
        _ => false,
    }
}

// Whether a line that may stand twice has stood twice.
fn has_both(stood: u8) -> bool
    ensures { (a b : List ℕ) → result ≡ nat_eq (length (twice stood a b)) 2 }
{
    match stood {
        0 => false,
        1 => false,
        _ => true,
    }
}

impl Gathered {
    /// No group yet.
    pub fn new() -> Gathered {
        Gathered {
            case: Case {
                line: 0,
                count: 0,
                mech: Mech::Hmac(hmac_core::Hash::Sha256),
                pr: false,
                entropy: empty(),
                nonce: empty(),
                pers: empty(),
                has_reseed: false,
                reseed: empty(),
                add_reseed: empty(),
                add1: empty(),
                add2: empty(),
                pr1: empty(),
                pr2: empty(),
                returned: empty(),
            },
            stood: Stood::NONE,
        }
    }

    /// A group begins at this line, with this value of COUNT.
    pub fn begin(&mut self, line: u64, count: u64, mech: Mech, pr: bool)
        ensures { group_of self.new ≡ begun line count mech pr }
    {
        self.case.line = line;
        self.case.count = count;
        self.case.mech = mech;
        self.case.pr = pr;
        self.stood = Stood::NONE;
    }

    /// Keeps the bytes of a field line, and says whether it may stand.
    pub fn take(&mut self, field: Field, bytes: &[u8]) -> bool
        requires { length bytes.now ≤ 4096 }
        ensures may { result ≡ has_place field (group_of self.old) }
        ensures group { OnTrue result (group_of self.new ≡ with_value field bytes.now (group_of self.old)) }
    {
        let case = &mut self.case;
        let stood = &mut self.stood;
        match field {
            Field::EntropyInput => put_once(&mut stood.entropy, &mut case.entropy, bytes),
            Field::Nonce => put_once(&mut stood.nonce, &mut case.nonce, bytes),
            Field::PersonalizationString => put_once(&mut stood.pers, &mut case.pers, bytes),
            Field::EntropyInputReseed => put_once(&mut stood.reseed, &mut case.reseed, bytes),
            Field::AdditionalInputReseed => {
                put_once(&mut stood.add_reseed, &mut case.add_reseed, bytes)
            }
            Field::AdditionalInput => {
                put_twice(&mut stood.add, &mut case.add1, &mut case.add2, bytes)
            }
            Field::EntropyInputPr => {
                put_twice(&mut stood.entropy_pr, &mut case.pr1, &mut case.pr2, bytes)
            }
            Field::ReturnedBits => put_once(&mut stood.returned, &mut case.returned, bytes),
        }
    }

    /// Whether no field is missing that must stand.
    pub fn is_whole(&self) -> bool
        ensures { result ≡ is_whole (group_of self.now) }
    {
        self.stood.entropy
            && self.stood.returned
            && (!self.case.pr || has_both(self.stood.entropy_pr))
    }

    /// The group has ended, and each string whose line is missing is empty.
    pub fn finish(&mut self)
        ensures { self.new.case ≡ case_of (group_of self.old) }
    {
        finish_once(self.stood.entropy, &mut self.case.entropy);
        finish_once(self.stood.nonce, &mut self.case.nonce);
        finish_once(self.stood.pers, &mut self.case.pers);
        self.case.has_reseed = self.stood.reseed;
        finish_once(self.stood.reseed, &mut self.case.reseed);
        finish_once(self.stood.add_reseed, &mut self.case.add_reseed);
        finish_twice(self.stood.add, &mut self.case.add1, &mut self.case.add2);
        finish_twice(
            self.stood.entropy_pr,
            &mut self.case.pr1,
            &mut self.case.pr2,
        );
        finish_once(self.stood.returned, &mut self.case.returned);
    }
}

// Empties a string. One that is empty stays as it is, since a new one costs as much as 4,096 bytes.
fn clear(value: &mut Fixed<4096>)
    ensures { value.new ≡ [] }
{
    if value.as_slice().len() != 0 {
        *value = empty();
    }
}

// Empties a string whose line is missing.
fn finish_once(stood: bool, value: &mut Fixed<4096>)
    ensures { value.new ≡ first (once stood value.old) }
{
    if !stood {
        clear(value);
    }
}

// Empties the strings of two lines that are missing.
fn finish_twice(stood: u8, one: &mut Fixed<4096>, other: &mut Fixed<4096>)
    ensures one { one.new ≡ first (twice stood one.old other.old) }
    ensures other { other.new ≡ second (twice stood one.old other.old) }
{
    match stood {
        0 => {
            clear(one);
            clear(other);
        }
        1 => clear(other),
        _ => {}
    }
}
