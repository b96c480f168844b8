//! The table and its rule.
use crate::machine::Machine;
use crate::view::View;
use atomic_table::{Table, TableRule};
use std::alloc::Global;
use std::marker::{Model, PhantomData};
use std::snapshot::Snapshot;
use std::sync::atomic::AtomicU64;

/// What a table was made of: the number of callers, and the values.
pub(crate) type Given<V> = (u8, Snapshot<Vec<Option<V>>>);

/// The rule of turns, from the making of the table on.
pub struct Ruled<M> {
    machine: PhantomData<M>,
}

impl<M: Machine> TableRule<Option<M::Value>, View, Given<M::Value>> for Ruled<M> {
    ghost use Rattle.turn_table.specs.Kept.{Kept};
    ghost use Rattle.turn_table.specs.Views.{blank};

    ghost holds = { λ key. Kept M.meaning (key.0, key.1.value.items) };

    ghost first = { λ key. blank key.0 };
}

/// A table of turns, which threads share by reference. Contracts see the machine, the table's name with its number of slots, and the number of
/// callers that it was opened for.
#[derive(Drop)]
pub struct Turns<M: Machine> {
    pub(crate) machine: M,
    pub(crate) table: Table<Option<M::Value>, View, Given<M::Value>, Ruled<M>, Global>,
    // How many passes sleep, or are about to, until some turn is free: while none does, a turn is given back without a wake.
    pub(crate) waiting: AtomicU64,
}

impl<M: Machine> Model for Turns<M> {
    ghost use Rattle.std.specs.Prelude.{◌≡◌, ◌+◌, ◌*◌, ◌<◌, ◌≤◌};
    ghost use Rattle.turn_table.specs.Passes.{Board};

    ghost Value = { Board M };

    ghost view = { λ t. record { machine = t.machine; table = t.table.shared.table_id; callers = t.table.shared.key.0 } };

    ghost invariant = { λ t. (t.table.shared.table_id.words ≡ 8 + 8 * t.table.shared.table_id.slots) × (t.table.shared.table_id.slots ≤ 65535) × (0 < t.table.shared.key.0) };
}
