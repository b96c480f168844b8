//! A table is closed.
ghost use Rattle.std.specs.Prelude.{◌≡◌, ◌<◌, ◌≤◌, [], All, IfErr, IfOk, Some, length, map, true, vec_capacity};
ghost use Rattle.turn_table.specs.Views.{joined};
ghost use Rattle.turn_table.specs.Passes.{AtRest, IsIdle, opening_of};
ghost use Rattle.turn_table.specs.Closes.{Closes, Gathered, IsLast, Leaves};

use crate::machine::Machine;
use crate::pass::Pass;
use crate::plays::Glue;
use crate::table::Turns;
use crate::view::View;
use atomic_table::Seat;
use std::alloc::Global;

/// What a closed table leaves: the machine, the value of each slot, and the number of entries.
#[derive(Drop)]
pub struct TableClosed<M: Machine> {
    pub machine: M,
    pub values: Vec<M::Value>,
    pub calls: u64,
}

/// There was no memory for the values. The table and the passes come back as they were.
#[derive(Drop)]
pub struct CloseRefused<M: Machine> {
    pub turns: Turns<M>,
    pub passes: Vec<Pass<M>>,
}

impl<M: Machine> Turns<M> {
    // A seat takes in a pass that has no turn, whose caller ends.
    fn take_in(&self, seat: &mut Seat<Option<M::Value>, View>, other: Pass<M>)
        requires own { (seat.old.table_id ≡ self.now.table) × (other.table ≡ self.now.table) }
        requires live { seat.old.me.0.live ≡ true }
        requires idle { other.view.leases ≡ [] }
        ensures own { seat.new.table_id ≡ seat.old.table_id }
        ensures joined { seat.new.me ≡ (joined seat.old.me.0 other.view, seat.old.me.1) }
        ensures rest { AtRest other.table.slots other.view }
    {
        self.table.shared.join_seat::<Glue>(seat, other.into_seat());
    }

    // All passes become one.
    fn gather(&self, mut passes: Vec<Pass<M>>) -> Seat<Option<M::Value>, View>
        requires idle { All (λ p. (p.table ≡ self.now.table) × IsIdle (opening_of passes.items) self.now.callers p.view) passes.items }
        requires some { 0 < length passes.items }
        ensures own { result.table_id ≡ self.now.table }
        ensures gathered { Gathered (opening_of passes.items) self.now.callers passes.items result.me.0 }
    {
        let Some(first) = passes.pop() else {
            unreachable!()
        };
        let mut seat = first.into_seat();
        while let Some(other) = passes.pop() {
            self.take_in(&mut seat, other);
        }
        seat
    }

    // Takes the table apart.
    fn finish(self, seat: Seat<Option<M::Value>, View>, mut values: Vec<M::Value>) -> TableClosed<M>
        requires own { seat.table_id ≡ self.table }
        requires last { IsLast seat.me.0 }
        requires room { (values.items ≡ []) × (self.table.slots ≤ vec_capacity values) }
        ensures machine { result.machine ≡ self.machine }
        ensures count { length result.values.items ≡ self.table.slots }
        ensures end { Leaves M.meaning seat.me.0 result.calls (map Some result.values.items) }
    {
        let Turns {
            machine,
            table,
            waiting: _,
        } = self;
        let mut closed = table.close_with(seat);
        let calls = closed.word(0);
        let mut next = 0;
        while next < closed.slot_count() {
            match closed.take(next) {
                Some(value) => values.push_reserved(value),
                None => unreachable!(),
            }
            next += 1;
        }
        closed.free();
        TableClosed {
            machine,
            values,
            calls,
        }
    }

    /// Ends the table. It takes as many passes as it was opened with callers, none of which has a turn, and gives back the value of each slot
    /// and the number of entries.
    pub fn close(
        self,
        alloc: Global,
        passes: Vec<Pass<M>>,
    ) -> Result<TableClosed<M>, CloseRefused<M>>
        requires idle { All (λ p. (p.table ≡ self.table) × IsIdle (opening_of passes.items) self.callers p.view) passes.items }
        requires all { length passes.items ≡ self.callers }
        ensures machine { IfOk result (λ r. r.machine ≡ self.machine) }
        ensures count { IfOk result (λ r. length r.values.items ≡ self.table.slots) }
        ensures closed { IfOk result (λ r. Closes M.meaning (opening_of passes.items) passes.items r.calls r.values.items) }
        ensures refused { IfErr result (λ r. (r.turns ≡ self) × (r.passes ≡ passes)) }
    {
        let Ok(values) = Vec::with_capacity(alloc, self.table.slot_count()) else {
            return Err(CloseRefused {
                turns: self,
                passes,
            });
        };
        let seat = self.gather(passes);
        Ok(self.finish(seat, values))
    }
}
