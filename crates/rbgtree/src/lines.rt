// The lines that say how the program ended, by their shapes.
ghost use Rattle.std.specs.Prelude.{◌≡◌, ◌≤◌, ◌+◌, ◌++◌, length, codes, decimal};
ghost use Rattle.tree_config.specs.Names.{place_text};
ghost use Rattle.rbgtree.specs.Statuses.{malformed_line, seed_short_line, text_fault_line, fault_text};

use rbg_bytes::Line;
use tree_config::{ConfigFault, Field, Place};

/// A text.
pub fn plain(text: &str) -> Line
    requires { length text.now ≤ 512 }
    ensures { result ≡ text.now }
{
    let mut line = Line::new();
    line.text(text);
    line
}

/// A number between two texts.
pub fn numbered(before: &str, number: u64, after: &str) -> Line
    requires before { length before.now ≤ 200 }
    requires after { length after.now ≤ 200 }
    ensures { result ≡ before.now ++ decimal number ++ after.now }
{
    let mut line = Line::new();
    line.text(before);
    line.number(number);
    line.text(after);
    line
}

/// Where a malformed frame is, and why.
pub fn malformed(offset: u64, why: u8) -> Line
    ensures { result ≡ malformed_line offset why }
{
    let mut line = Line::new();
    line.text("malformed frame at ");
    line.number(offset);
    line.text(", why ");
    line.number(u64::from(why));
    line.text("\n");
    line
}

/// Where a text that is replayed has a fault, and which.
pub fn text_fault(fault: u64, why: u8) -> Line
    ensures { result ≡ text_fault_line fault why }
{
    let mut line = Line::new();
    line.text("text fault at line ");
    line.number(fault);
    line.text(", why ");
    line.number(u64::from(why));
    line.text("\n");
    line
}

/// How long a node's seed is, and how long it must be.
pub fn seed_short(node: u16, have: u64, need: u64) -> Line
    ensures { result ≡ seed_short_line node have need }
{
    let mut line = Line::new();
    line.text("seed of node ");
    line.number(u64::from(node));
    line.text(" has ");
    line.number(have);
    line.text(" of ");
    line.number(need);
    line.text(" bytes\n");
    line
}

// Adds a place of a configuration, at most 27 bytes.
fn add_place(line: &mut Line, place: Place)
    requires { length line.old + 27 ≤ 512 }
    ensures value { line.new ≡ line.old ++ place_text place }
    ensures len { length line.new ≤ length line.old + 27 }
{
    match place {
        Place::Top => line.text("top"),
        Place::Source(number) => {
            line.text("source ");
            line.number(u64::from(number));
        }
        Place::Node(number) => {
            line.text("node ");
            line.number(u64::from(number));
        }
    }
}

// A field at fault, and where.
fn bad_field(place: Place, field: Field) -> Line
    ensures { result ≡ codes "configuration: " ++ fault_text (ConfigFault.BadField place field) ++ codes "\n" }
{
    let mut line = Line::new();
    line.text("configuration: bad field ");
    line.text(field.name());
    line.text(" at ");
    add_place(&mut line, place);
    line.text("\n");
    line
}

/// What is wrong with a configuration.
pub fn config_fault(fault: ConfigFault) -> Line
    ensures { result ≡ codes "configuration: " ++ fault_text fault ++ codes "\n" }
{
    match fault {
        ConfigFault::TooLarge { .. } => plain("configuration: too large\n"),
        ConfigFault::BadToml => plain("configuration: not TOML\n"),
        ConfigFault::BadField { place, field } => bad_field(place, field),
        ConfigFault::TooMany { nodes: true, .. } => plain("configuration: too many nodes\n"),
        ConfigFault::TooMany { nodes: false, .. } => plain("configuration: too many sources\n"),
        ConfigFault::NoSuchParent { node, .. } => {
            numbered(
                "configuration: no such parent at node ",
                u64::from(node),
                "\n",
            )
        }
        ConfigFault::Cycle { node } => {
            numbered("configuration: cycle at node ", u64::from(node), "\n")
        }
        ConfigFault::TooDeep { node } => {
            numbered("configuration: too deep at node ", u64::from(node), "\n")
        }
        ConfigFault::StrengthRises { node, .. } => {
            numbered(
                "configuration: strength rises at node ",
                u64::from(node),
                "\n",
            )
        }
    }
}
