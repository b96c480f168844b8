// The lines that `load` prints: of calls that were made, and of the counts of a tree.
ghost use Rattle.std.specs.Prelude.{◌≡◌, ◌++◌, length};
ghost use Rattle.rbg_bytes.specs.Streams.{HasCause, TakesAll};
ghost use Rattle.tree_rules.specs.History.{States};
ghost use Rattle.tree_core.specs.Solo.{StandIn};
ghost use Rattle.rbgtree.specs.Counts.{calls_text, live_text, node_counts_text, source_counts_text, node_counts_lines, source_counts_lines, counts_lines};

use rbg_bytes::{ByteSink, Failed, Line};
use rbg_nodes::NodeCounts;
use sample_source::Samples;
use tree_core::{SoloTree, SourceCounts};
use tree_load::CallsMade;

// Puts the two lines of calls together.
#[tactic(auto, unfolding(crate::specs::Counts::calls_text))]
fn calls_text(calls: u64, made: &CallsMade) -> Line
    ensures { result ≡ calls_text calls made.now.done made.now.refused }
{
    let mut line = Line::new();
    line.text("calls ");
    line.number(calls);
    line.text("\n");
    line.text("done ");
    line.number(made.done);
    line.text(" refused ");
    line.number(made.refused);
    line.text("\n");
    line
}

// Whether a node is instantiated, as a digit.
fn live_text(live: bool) -> &'static str
    ensures { result.now ≡ live_text live }
{
    match live {
        false => "0",
        true => "1",
    }
}

// Puts the line of a node's counts together.
#[tactic(auto, unfolding(crate::specs::Counts::node_counts_text))]
fn node_counts_text(node: u16, counts: &NodeCounts) -> Line
    ensures { result ≡ node_counts_text node counts.now }
{
    let mut line = Line::new();
    line.text("node ");
    line.number(u64::from(node));
    line.text(" live ");
    line.text(live_text(counts.live));
    line.text(" counter ");
    line.number(counts.counter);
    line.text(" seeds ");
    line.number(counts.seeds);
    line.text(" gives ");
    line.number(counts.gives);
    line.text("\n");
    line
}

// Puts the line of a source's counts together.
#[tactic(auto, unfolding(crate::specs::Counts::source_counts_text))]
fn source_counts_text(source: u8, counts: &SourceCounts) -> Line
    ensures { result ≡ source_counts_text source counts.now.taken counts.now.blocks }
{
    let mut line = Line::new();
    line.text("source ");
    line.number(u64::from(source));
    line.text(" taken ");
    line.number(counts.taken);
    line.text(" blocks ");
    line.number(counts.blocks);
    line.text("\n");
    line
}

// Prints how many calls were made, and how many of them were Done and how many refused, in one write.
fn print_calls<O: ByteSink>(calls: u64, made: &CallsMade, output: &mut O) -> Result<(), Failed>
    ensures bytes { TakesAll (O.out output.old) (O.out output.new) result (calls_text calls made.now.done made.now.refused) }
    ensures cause { HasCause (O.faults output.old) (O.faults output.new) result }
{
    let line = calls_text(calls, made);
    output.write_all(line.as_bytes())
}

// Prints the line of a node in one write.
fn print_node<O: ByteSink>(node: u16, counts: &NodeCounts, output: &mut O) -> Result<(), Failed>
    ensures bytes { TakesAll (O.out output.old) (O.out output.new) result (node_counts_text node counts.now) }
    ensures cause { HasCause (O.faults output.old) (O.faults output.new) result }
{
    let line = node_counts_text(node, counts);
    output.write_all(line.as_bytes())
}

// Prints the line of a source in one write.
fn print_source<O: ByteSink>(
    source: u8,
    counts: &SourceCounts,
    output: &mut O,
) -> Result<(), Failed>
    ensures bytes { TakesAll (O.out output.old) (O.out output.new) result (source_counts_text source counts.now.taken counts.now.blocks) }
    ensures cause { HasCause (O.faults output.old) (O.faults output.new) result }
{
    let line = source_counts_text(source, counts);
    output.write_all(line.as_bytes())
}

// Prints the lines of all nodes.
fn print_nodes<S: Samples, O: ByteSink>(tree: &SoloTree<S>, output: &mut O) -> Result<(), Failed>
    ensures bytes { (s : States) → StandIn S.told S.faults tree.now.plan s tree.now.nodes tree.now.sources →
        TakesAll (O.out output.old) (O.out output.new) result (node_counts_lines tree.now.plan s) }
    ensures cause { HasCause (O.faults output.old) (O.faults output.new) result }
{
    for node in 0..tree.plan().nodes() {
        match print_node(node, &tree.node_counts(node), output) {
            Ok(()) => {}
            Err(failed) => return Err(failed),
        }
    }
    Ok(())
}

// Prints the lines of all sources.
fn print_sources<S: Samples, O: ByteSink>(tree: &SoloTree<S>, output: &mut O) -> Result<(), Failed>
    ensures bytes { (s : States) → StandIn S.told S.faults tree.now.plan s tree.now.nodes tree.now.sources →
        TakesAll (O.out output.old) (O.out output.new) result (source_counts_lines tree.now.plan s) }
    ensures cause { HasCause (O.faults output.old) (O.faults output.new) result }
{
    for source in 0..tree.plan().sources() {
        match print_source(source, &tree.source_counts(source), output) {
            Ok(()) => {}
            Err(failed) => return Err(failed),
        }
    }
    Ok(())
}

// Prints a line of the counts of each node and of each source, each in one write.
fn print_counts<S: Samples, O: ByteSink>(tree: &SoloTree<S>, output: &mut O) -> Result<(), Failed>
    ensures bytes { (s : States) → StandIn S.told S.faults tree.now.plan s tree.now.nodes tree.now.sources →
        TakesAll (O.out output.old) (O.out output.new) result (counts_lines tree.now.plan s) }
    ensures cause { HasCause (O.faults output.old) (O.faults output.new) result }
{
    match print_nodes(tree, output) {
        Ok(()) => print_sources(tree, output),
        Err(failed) => Err(failed),
    }
}

/// Prints how many calls were made, with how many of them were Done and how many refused, and then the counts of the tree.
pub fn print_load<S: Samples, O: ByteSink>(
    calls: u64,
    made: &CallsMade,
    tree: &SoloTree<S>,
    output: &mut O,
) -> Result<(), Failed>
    ensures bytes { (s : States) → StandIn S.told S.faults tree.now.plan s tree.now.nodes tree.now.sources →
        TakesAll (O.out output.old) (O.out output.new) result (calls_text calls made.now.done made.now.refused ++ counts_lines tree.now.plan s) }
    ensures cause { HasCause (O.faults output.old) (O.faults output.new) result }
{
    match print_calls(calls, made, output) {
        Ok(()) => print_counts(tree, output),
        Err(failed) => Err(failed),
    }
}
