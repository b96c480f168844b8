// Laws on texts and their plans: each is a function without a body, whose contract is the law. No program calls them; they tie
// the definitions to one another, and to what is built above them.
ghost use Rattle.std.specs.Prelude.{◌≡◌, ℕ, List, Option, Some, Result, Ok};
ghost use Rattle.rbg_bytes.specs.declared.kind.Kind.{Kind};
ghost use Rattle.rbg_bytes.specs.declared.cond.Cond.{Cond};
ghost use Rattle.toml.specs.Data.{string};
ghost use Rattle.tree_config.specs.declared.plan.NodeKind.{NodeKind};
ghost use Rattle.tree_config.specs.declared.fault.ConfigFault.{ConfigFault};
ghost use Rattle.tree_config.specs.Fields.{one_of};
ghost use Rattle.tree_config.specs.Names.{node_kind_text, node_kind_names, drbg_text, drbg_names, cond_text, cond_names};
ghost use Rattle.tree_config.specs.Graph.{HasDepth};
ghost use Rattle.tree_config.specs.Tree.{Tree, Plan};
ghost use Rattle.tree_config.specs.Planned.{IsPlanned};

/// A text has at most one plan or fault.
pub fn one_plan()
    ensures { (text : List ℕ) (r s : Result Tree ConfigFault) → Plan text r → Plan text s → r ≡ s }
{}

/// The plan of a text is in range, and its seed files have names.
pub fn plans_are_in_range()
    ensures { (text : List ℕ) (tree : Tree) → Plan text (Ok tree) → IsPlanned 1 tree }
{}

/// A node has at most one depth.
pub fn one_depth()
    ensures { (parents : List (Option ℕ)) (n d e : ℕ) → HasDepth parents n d → HasDepth parents n e → d ≡ e }
{}

/// A name that is printed is read as what it was printed for, in every version of the configuration that has it.
pub fn names_read_back()
    ensures node_kinds { (kind : NodeKind) → one_of node_kind_names (string (node_kind_text kind)) ≡ Some kind }
    ensures drbgs { (kind : Kind) → one_of drbg_names (string (drbg_text kind)) ≡ Some kind }
    ensures conds { (version : ℕ) (cond : Cond) → one_of (cond_names version) (string (cond_text cond)) ≡ Some cond }
{}
