// The samples that a call needs.
ghost use Rattle.std.specs.Prelude.{◌≡◌, ◌≤◌, ◌<◌, ◌^◌, ◌+◌, ◌*◌, ◌∷◌, ℕ, List, length, map, sum, max, if◌then◌else◌, IfSome};
ghost use Rattle.std.specs.Int.{div_ceil};
ghost use Rattle.tree_config.specs.declared.plan.Origin.{Origin};
ghost use Rattle.tree_config.specs.Planned.{IsSource};
ghost use Rattle.entropy_source.specs.Source.{blocks_for, need_of, need_of_block};
ghost use Rattle.rbg_nodes.specs.Node.{entropy_len};
ghost use Rattle.tree_rules.specs.Slots.{node_plan, source_row_of};
ghost use Rattle.tree_rules.specs.Links.{wanted, must_seed};
ghost use Rattle.tree_acts.specs.Plain.{link_of, are_some, draws_on};

use crate::step::{Asked, Step};
use conditioner::{block_len, need};
use tree_config::{NodeKind, Origin, SourcePlan, TreePlan};

// The blocks of so many bytes.
fn blocks(source: &SourcePlan, bytes: u32) -> u64
    ensures count { result ≡ blocks_for (source_row_of source.now) bytes }
    ensures range { result ≤ bytes + 1 }
{
    u64::from(bytes).div_ceil(block_len(source.cond) as u64)
}

impl Step {
    /// The chunks in which an RBG3(RS) gives so many bytes.
    pub fn chunks(self, len: u32) -> u32
        ensures count { result ≡ max 1 (div_ceil len (entropy_len self.row)) }
        ensures range { (1 ≤ result) × (result ≤ len + 1) }
    {
        len.div_ceil(self.entropy_len()).max(1)
    }

    /// Whether it draws on its source.
    pub fn draws(self, pr: bool) -> bool
        ensures { (o : Origin) → result ≡ are_some (wanted pr (link_of self o)) }
    {
        match self.asked {
            Asked::Rest => false,
            Asked::Instantiate => true,
            Asked::Reseed => true,
            Asked::Give { len } => match self.row.kind {
                NodeKind::Rbg3Rs => true,
                NodeKind::Rbg3Xor => self.must_seed(pr) || len > 0,
                _ => self.must_seed(pr),
            },
        }
    }

    // The blocks of a reseed before it gives, where it must be seeded.
    fn reseed_blocks(self, source: &SourcePlan, pr: bool) -> u64
        ensures count { (o : Origin) → result ≡ (if must_seed pr (link_of self o) then blocks_for (source_row_of source.now) (entropy_len self.row) else 0) }
        ensures range { result ≤ 33 }
    {
        if self.must_seed(pr) {
            blocks(source, self.entropy_len())
        } else {
            0
        }
    }

    // The blocks that it draws.
    fn blocks(self, source: &SourcePlan, pr: bool) -> u64
        ensures count { (o : Origin) → result ≡ sum (map (λ n. blocks_for (source_row_of source.now) n) (wanted pr (link_of self o))) }
        ensures range { result ≤ 2 ^ 40 }
    {
        match self.asked {
            Asked::Rest => 0,
            Asked::Instantiate => blocks(source, self.seeding_len()),
            Asked::Reseed => blocks(source, self.seeding_len()),
            Asked::Give { len } => match self.row.kind {
                NodeKind::Rbg3Rs => {
                    u64::from(self.chunks(len)) * blocks(source, self.entropy_len() + 8)
                }
                NodeKind::Rbg3Xor => self.reseed_blocks(source, pr) + blocks(source, len),
                _ => self.reseed_blocks(source, pr),
            },
        }
    }
}

impl Step {
    /// The samples that it draws on a source that is in range.
    pub fn samples(self, source: &SourcePlan, pr: bool) -> u64
        requires planned { IsSource source.now }
        ensures count { (o : Origin) → result ≡ need_of (source_row_of source.now) (wanted pr (link_of self o)) }
        ensures range { result ≤ 2 ^ 60 }
    {
        self.blocks(source, pr) * u64::from(need(source.cond, source.num, source.den))
    }
}

/// The number of the source on which the last node draws, if it draws.
pub fn source_of(plan: &TreePlan, end: Step, pr: bool) -> Option<u8>
    requires there { end.slot < length plan.now.nodes }
    ensures number { result ≡ draws_on pr (link_of end (node_plan plan.now end.slot).origin) }
    ensures there { IfSome result (λ j. j < length plan.now.sources) }
{
    if !end.is_alive() {
        return None;
    }
    if !end.draws(pr) {
        return None;
    }
    let _tree = plan.nodes();
    match &plan.node(end.slot).origin {
        Origin::Source(j) => Some(*j),
        _ => None,
    }
}
