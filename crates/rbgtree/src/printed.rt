// The lines that `check` prints.
ghost use Rattle.std.specs.Prelude.{◌≡◌};
ghost use Rattle.std.specs.List.{flat_map};
ghost use Rattle.rbg_bytes.specs.Streams.{HasCause, TakesAll};
ghost use Rattle.rbgtree.specs.Printed.{source_text, node_text};

use rbg_bytes::{ByteSink, Failed, Kind, Line};
use tree_config::{NodeKind, drbg_name};
use tree_core::Reply;

/// What is printed of a source: its number, its cutoffs, window and start-up, the samples of a block and those taken since it
/// was opened, and the answer to its start.
#[derive(Clone, Copy)]
pub struct SourceLine {
    pub number: u8,
    pub rct: u32,
    pub window: u16,
    pub apt: u16,
    pub startup: u32,
    pub block: u32,
    pub taken: u64,
    pub answer: Reply,
}

/// What is printed of a node: its number, its kind and that of its DRBG, its reseed interval, and how deep it stands.
#[derive(Clone, Copy)]
pub struct NodeLine {
    pub number: u16,
    pub kind: NodeKind,
    pub drbg: Kind,
    pub interval: u64,
    pub depth: u8,
}

// Puts a source's line together.
#[tactic(auto, unfolding(crate::specs::Printed::source_text))]
fn source_text(source: &SourceLine) -> Line
    ensures { result ≡ source_text source.now }
{
    let mut line = Line::new();
    line.text("source ");
    line.number(u64::from(source.number));
    line.text(" rct ");
    line.number(u64::from(source.rct));
    line.text(" window ");
    line.number(u64::from(source.window));
    line.text(" apt ");
    line.number(u64::from(source.apt));
    line.text(" startup ");
    line.number(u64::from(source.startup));
    line.text(" block ");
    line.number(u64::from(source.block));
    line.text(" taken ");
    line.number(source.taken);
    line.text(" code ");
    line.number(u64::from(source.answer.code));
    line.text(" a ");
    line.number(source.answer.a);
    line.text(" b ");
    line.number(source.answer.b);
    line.text("\n");
    line
}

// Puts a node's line together.
#[tactic(auto, unfolding(crate::specs::Printed::node_text))]
fn node_text(node: &NodeLine) -> Line
    ensures { result ≡ node_text node.now }
{
    let mut line = Line::new();
    line.text("node ");
    line.number(u64::from(node.number));
    line.text(" ");
    line.text(node.kind.name());
    line.text(" ");
    line.text(drbg_name(node.drbg));
    line.text(" strength ");
    line.number(u64::from(node.drbg.strength()));
    line.text(" interval ");
    line.number(node.interval);
    line.text(" depth ");
    line.number(u64::from(node.depth));
    line.text("\n");
    line
}

/// Prints a source's line in one write.
fn print_source<O: ByteSink>(source: &SourceLine, output: &mut O) -> Result<(), Failed>
    ensures bytes { TakesAll (O.out output.old) (O.out output.new) result (source_text source.now) }
    ensures cause { HasCause (O.faults output.old) (O.faults output.new) result }
{
    let line = source_text(source);
    output.write_all(line.as_bytes())
}

/// Prints the sources' lines, each in one write.
pub fn print_sources<O: ByteSink>(sources: &[SourceLine], output: &mut O) -> Result<(), Failed>
    ensures bytes { TakesAll (O.out output.old) (O.out output.new) result (flat_map source_text sources.now) }
    ensures cause { HasCause (O.faults output.old) (O.faults output.new) result }
{
    for source in sources {
        match print_source(source, output) {
            Ok(()) => {}
            Err(failed) => return Err(failed),
        }
    }
    Ok(())
}

/// Prints a node's line in one write.
pub fn print_node<O: ByteSink>(node: &NodeLine, output: &mut O) -> Result<(), Failed>
    ensures bytes { TakesAll (O.out output.old) (O.out output.new) result (node_text node.now) }
    ensures cause { HasCause (O.faults output.old) (O.faults output.new) result }
{
    let line = node_text(node);
    output.write_all(line.as_bytes())
}
