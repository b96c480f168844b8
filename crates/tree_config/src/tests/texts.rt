// The sample configurations, and tables of texts with what they come to.
use crate::{PlanRefusal, TreePlan};
use std::alloc::Global;
use std::test::Fail;

/// One source, a node that draws on it, and a child of that node.
pub const NODE_WITH_A_CHILD: &str = "version = 1
opening = \"none\"
[[source]]
samples = \"ramp\"
num = 8
den = 1
rct = 4
apt = 257
[[node]]
kind = \"rbg2\"
drbg = \"hmac-sha-256\"
interval = 2
source = 0
[[node]]
kind = \"child\"
drbg = \"ctr-aes-256\"
interval = 1
parent = 0
";

/// Two sources, a node on each, and a child of each node.
pub const TWO_SOURCES: &str = "version = 1
[[source]]
samples = \"ramp\"
num = 8
den = 1
rct = 4
apt = 257
[[source]]
samples = \"ramp\"
num = 8
den = 1
rct = 4
apt = 257
[[node]]
kind = \"rbg2\"
drbg = \"hmac-sha-256\"
interval = 50
source = 0
[[node]]
kind = \"rbg2\"
drbg = \"hmac-sha-256\"
interval = 50
source = 1
[[node]]
kind = \"child\"
drbg = \"hmac-sha-256\"
interval = 100
parent = 0
[[node]]
kind = \"child\"
drbg = \"hmac-sha-256\"
interval = 100
parent = 1
";

/// Both constructions of an RBG3, an RBG1, and a child of it.
pub const RBG3_AND_RBG1: &str = "version = 1
[[source]]
samples = \"ramp\"
num = 8
den = 1
rct = 4
apt = 257
[[node]]
kind = \"rbg3-xor\"
drbg = \"hmac-sha-256\"
interval = 1000
source = 0
[[node]]
kind = \"rbg3-rs\"
drbg = \"hmac-sha-256\"
interval = 1000
source = 0
[[node]]
kind = \"rbg1\"
drbg = \"hmac-sha-256\"
interval = 2
seed = \"s48\"
[[node]]
kind = \"child\"
drbg = \"ctr-aes-128\"
interval = 10
parent = 2
";

/// The plan, where there is memory.
pub fn plan_of(alloc: Global, text: &str) -> Result<TreePlan, Fail> {
    match TreePlan::read(alloc, text.as_bytes()) {
        Ok(plan) => Ok(plan),
        Err(_) => Err(Fail::from("refused")),
    }
}

/// What bytes come to: `plan`, or the fault with all its numbers.
pub fn outcome(alloc: Global, text: &[u8]) -> Result<String, Fail> {
    match TreePlan::read(alloc, text) {
        Ok(_) => Ok(String::from_str(alloc, "plan")?),
        Err(PlanRefusal::Fault(fault)) => Ok(format!(in alloc; "{fault:?}")?),
        Err(PlanRefusal::OutOfMemory) => Err(Fail::from("out of memory")),
    }
}

/// Whether bytes come to this.
pub fn comes_to(alloc: Global, text: &[u8], want: &str) -> Result<bool, Fail> {
    let got = outcome(alloc, text)?;
    Ok(got.as_str() == want)
}

/// What is printed where bytes are refused.
fn printed(alloc: Global, text: &[u8]) -> Result<String, Fail> {
    match TreePlan::read(alloc, text) {
        Ok(_) => Ok(String::from_str(alloc, "plan")?),
        Err(refusal) => Ok(format!(in alloc; "{refusal}")?),
    }
}

/// The two parts of a row, before and behind the mark.
pub fn cut<'a>(row: &'a str, mark: &str) -> Result<(&'a str, &'a str), Fail> {
    match row.split_once(mark) {
        Some(parts) => Ok(parts),
        None => Err(Fail::from("a row without its mark")),
    }
}

/// The text with another word in the place of each of these.
pub fn replaced(alloc: Global, text: &str, from: &str, to: &str) -> Result<String, Fail> {
    Ok(text.replace(alloc, from, to)?)
}

// The text with a change, `FROM -> TO`, in which a `;` stands for the end of a line.
fn changed(alloc: Global, text: &str, change: &str) -> Result<String, Fail> {
    let (from, to) = cut(change, " -> ")?;
    let from = replaced(alloc, from, ";", "\n")?;
    let to = replaced(alloc, to, ";", "\n")?;
    replaced(alloc, text, &from, &to)
}

/// What a text comes to of which this field of this place is at fault, or none for a `-`.
pub fn fault_at(alloc: Global, place: &str, field: &str) -> Result<String, Fail> {
    if field == "-" {
        return Ok(String::from_str(alloc, "plan")?);
    }
    Ok(format!(in alloc; "BadField {{ place: {place}, field: {field} }}")?)
}

// Whether a row holds: a change of the text, ` : `, and the field of the place that is then at fault, or a `-` for none.
fn holds(alloc: Global, text: &str, place: &str, row: &str) -> Result<bool, Fail> {
    let (change, field) = cut(row, " : ")?;
    let text = changed(alloc, text, change)?;
    let want = fault_at(alloc, place, field)?;
    comes_to(alloc, text.as_bytes(), want.as_str())
}

/// The first row of a table that does not hold, each row being a line of it; empty where all hold.
pub fn first_miss<'a>(
    alloc: Global,
    text: &str,
    place: &str,
    table: &'a str,
) -> Result<&'a str, Fail> {
    for row in table.lines() {
        if !holds(alloc, text, place, row)? {
            return Ok(row);
        }
    }
    Ok("")
}

// Whether a row prints as it says: a change of the text, ` : `, and what is printed then.
fn prints(alloc: Global, text: &str, row: &str) -> Result<bool, Fail> {
    let (change, want) = cut(row, " : ")?;
    let text = changed(alloc, text, change)?;
    let got = printed(alloc, text.as_bytes())?;
    Ok(got.as_str() == want)
}

/// The first row of a table whose change of the text does not print as the row says; empty where all do.
pub fn first_misprint<'a>(alloc: Global, text: &str, table: &'a str) -> Result<&'a str, Fail> {
    for row in table.lines() {
        if !prints(alloc, text, row)? {
            return Ok(row);
        }
    }
    Ok("")
}

// The line of a rung, `WRONG | RIGHT | FIELD`.
fn rung_line(row: &str, right: bool) -> Result<&str, Fail> {
    let (wrong, rest) = cut(row, " | ")?;
    let (good, _) = cut(rest, " | ")?;
    Ok(if right { good } else { wrong })
}

// A text of which the first lines are right and the others wrong.
fn climbed(alloc: Global, head: &str, ladder: &str, right: usize) -> Result<String, Fail> {
    let mut text = String::from_str(alloc, head)?;
    for (i, row) in ladder.lines().enumerate() {
        text.push_str(rung_line(row, i < right)?)?;
        text.push_str("\n")?;
    }
    Ok(text)
}

// Whether the field of a rung is named where the rows before it are right, and it and those behind it are wrong.
fn named(alloc: Global, text: &str, place: &str, row: &str) -> Result<bool, Fail> {
    let (_, rest) = cut(row, " | ")?;
    let (_, field) = cut(rest, " | ")?;
    let want = fault_at(alloc, place, field)?;
    comes_to(alloc, text.as_bytes(), want.as_str())
}

/// The first row of a ladder whose field is not named where the rows before it are right, and it and those behind it are wrong.
pub fn first_slip<'a>(
    alloc: Global,
    head: &str,
    place: &str,
    ladder: &'a str,
) -> Result<&'a str, Fail> {
    for (i, row) in ladder.lines().enumerate() {
        let text = climbed(alloc, head, ladder, i)?;
        if !named(alloc, text.as_str(), place, row)? {
            return Ok(row);
        }
    }
    Ok("")
}
