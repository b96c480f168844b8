//! A caller's pass.
ghost use Rattle.std.specs.Prelude.{◌≡◌, [], length};
ghost use Rattle.turn_table.specs.Passes.{AtRest};

use crate::machine::Machine;
use crate::view::View;
use atomic_table::Seat;
use std::marker::Model;

/// The pass of one caller, which may go to another thread. Contracts see the table that it belongs to, and what it knows: the front of the
/// history that it has seen, its own entries in it, and the turns that it has.
#[derive(Drop)]
pub struct Pass<M: Machine> {
    pub(crate) seat: Seat<Option<M::Value>, View>,
    pub(crate) caller: u8,
    pub(crate) calls: u64,
    // Keeps passes that stand in a row in lines of their own of a processor's cache.
    pub(crate) apart: [u64; 6],
}

impl<M: Machine> Model for Pass<M> {
    ghost use Rattle.std.specs.Prelude.{◌≡◌, [], length};
    ghost use Rattle.turn_table.specs.Passes.{Standing, AtRest};

    ghost Value = { Standing };

    ghost view = { λ p. record { table = p.seat.table_id; view = p.seat.me.0 } };

    ghost invariant = { λ p. (p.seat.me.1 ≡ []) × (p.caller ≡ p.seat.me.0.number) × (p.calls ≡ length p.seat.me.0.mine) × AtRest p.seat.table_id.slots p.seat.me.0 };
}

impl<M: Machine> Pass<M> {
    /// The number of its caller, 1 to the number of callers. No two passes of a table have the same.
    pub fn caller(&self) -> u8
        ensures { result ≡ self.now.view.number }
    {
        self.caller
    }

    /// How many entries it has made.
    pub fn calls(&self) -> u64
        ensures { result ≡ length self.now.view.mine }
    {
        self.calls
    }

    // Its seat, and what is known of a pass between two calls.
    pub(crate) fn into_seat(self) -> Seat<Option<M::Value>, View>
        ensures seat { (result.table_id ≡ self.table) × (result.me ≡ (self.view, [])) }
        ensures rest { AtRest self.table.slots self.view }
    {
        let Pass {
            seat,
            caller: _,
            calls: _,
            apart: _,
        } = self;
        seat
    }
}
