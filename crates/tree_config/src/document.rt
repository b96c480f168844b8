// Reading a text as TOML.
ghost use Rattle.toml.specs.View.{table_view};
ghost use Rattle.tree_config.specs.Rows.{Gives, document_of};

use crate::fault::{ConfigFault, PlanRefusal};
use std::alloc::Global;
use toml::Table;

/// The table that a text is: at most 65,536 bytes, UTF-8 and TOML.
#[tactic(auto, unfolding(crate::specs::Rows::document_of), using(crate::proofs::Texts::texts))]
pub(crate) fn document(alloc: Global, text: &[u8]) -> Result<Table, PlanRefusal>
    ensures { Gives table_view result (document_of text.now) }
{
    if text.len() > 65536 {
        return Err(PlanRefusal::Fault(ConfigFault::TooLarge { limit: 65536 }));
    }
    let text = match str::from_utf8(text) {
        Ok(text) => text,
        Err(_) => return Err(PlanRefusal::Fault(ConfigFault::BadToml)),
    };
    match toml::table_from_str(alloc, text) {
        Ok(table) => Ok(table),
        Err(e) => {
            if e.is_memory() {
                Err(PlanRefusal::OutOfMemory)
            } else {
                Err(PlanRefusal::Fault(ConfigFault::BadToml))
            }
        }
    }
}
