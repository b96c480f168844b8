//! A table is opened.
ghost use Rattle.std.specs.Prelude.{◌≡◌, ◌+◌, ◌*◌, ◌<◌, ◌≤◌, ℕ, List, [], length, map, replicate, Some, All, IfOk, vec_len, vec_capacity, true};
ghost use mathlib.Core.Option.{some};
ghost use lib.ListN.{get_elem?};
ghost use Rattle.turn_table.specs.Views.{blank, opener, numbered, kept_after, newcomer};
ghost use Rattle.turn_table.specs.Passes.{IsNew, IsUndrawn};
ghost use Rattle.turn_table.specs.Opens.{MayOpen, MayBegin, Opens};

use crate::machine::{Entered, Machine};
use crate::pass::Pass;
use crate::plays::{Cut, Draw, Open};
use crate::table::{Given, Ruled, Turns};
use crate::view::View;
use atomic_table::{Seat, Table};
use std::alloc::{AllocError, Global};
use std::snapshot::Snapshot;
use std::sync::atomic::AtomicU64;

/// There was no memory.
#[derive(Drop)]
pub struct OutOfMemory;

fn zeros(alloc: Global, count: usize) -> Result<Vec<u64>, AllocError>
    ensures { IfOk result (λ v. v.items ≡ replicate count 0) }
{
    vec![in alloc; 0; count]
}

// Each value in a place of its own.
fn places<V: Drop>(alloc: Global, values: Vec<V>) -> Result<Vec<Option<V>>, AllocError>
    ensures { IfOk result (λ v. v.items ≡ map Some values.items) }
{
    let mut slots = Vec::with_capacity(alloc, values.len())?;
    for value in values {
        slots.push(Some(value))?;
    }
    Ok(slots)
}

// A table that is not open yet, and its first seat.
fn make<M: Machine>(
    alloc: Global,
    values: Vec<M::Value>,
    callers: u8,
) -> Result<
    (
        Table<Option<M::Value>, View, Given<M::Value>, Ruled<M>, Global>,
        Seat<Option<M::Value>, View>,
    ),
    OutOfMemory,
>
    requires { vec_len values ≤ 65535 }
    ensures seat { IfOk result (λ r. (r.1.table_id ≡ r.0.shared.table_id) × (r.1.me ≡ (blank callers, []))) }
    ensures counts { IfOk result (λ r. (r.0.shared.table_id.slots ≡ vec_len values) × (r.0.shared.table_id.words ≡ 8 + 8 * vec_len values)) }
    ensures given { IfOk result (λ r. (r.0.shared.key.0 ≡ callers) × (r.0.shared.key.1.value.items ≡ map Some values.items)) }
{
    let count = values.len();
    let Ok(words) = zeros(alloc, 8 + 8 * count) else {
        return Err(OutOfMemory);
    };
    let Ok(slots) = places(alloc, values) else {
        return Err(OutOfMemory);
    };
    let given = (callers, Snapshot::of(&slots));
    match Table::new(alloc, words.as_slice(), slots, &given) {
        Ok(made) => Ok(made),
        Err(_) => Err(OutOfMemory),
    }
}

// The first step: from now on the seat knows the opening, and the rule of turns holds.
fn begin<M: Machine, E: Entered>(
    table: &Table<Option<M::Value>, View, Given<M::Value>, Ruled<M>, Global>,
    seat: &mut Seat<Option<M::Value>, View>,
)
    requires own { seat.old.table_id ≡ table.now.shared.table_id }
    requires words { 0 < table.now.shared.table_id.words }
    requires blank { seat.old.me ≡ (blank table.now.shared.key.0, []) }
    requires callers { (0 < table.now.shared.key.0) × (table.now.shared.key.0 ≤ 64) }
    requires opening { MayBegin M.meaning E.is table.now.shared.key.1.value.items }
    ensures own { seat.new.table_id ≡ seat.old.table_id }
    ensures opened { (o : List ℕ) × E.is o × M.meaning.legal o × (seat.new.me ≡ (opener o table.entry.now.shared.key.0, [])) }
{
    table.shared.load::<Open<M, E>>(seat, 0);
}

impl<M: Machine> Turns<M> {
    /// A table of these values, one for each slot, and a pass for each of 1 to 64 callers. There are at most 65,535 slots. The opening is one
    /// that passes the test `E`, is legal, and for whose states the values stand.
    pub fn open<E: Entered>(
        alloc: Global,
        machine: M,
        values: Vec<M::Value>,
        callers: u8,
    ) -> Result<(Turns<M>, Vec<Pass<M>>), OutOfMemory>
        requires callers { (0 < callers) × (callers ≤ 64) }
        requires slots { vec_len values ≤ 65535 }
        requires opening { MayOpen M.meaning E.is values.items }
        ensures table { IfOk result (λ r. (r.0.machine ≡ machine) × (r.0.callers ≡ callers) × (r.0.table.slots ≡ vec_len values)) }
        ensures passes { IfOk result (λ r. Opens M.meaning E.is callers r.0.table r.1.items) }
    {
        let Ok(passes) = Vec::with_capacity(alloc, callers as usize) else {
            return Err(OutOfMemory);
        };
        match make::<M>(alloc, values, callers) {
            Ok((table, mut seat)) => {
                begin::<M, E>(&table, &mut seat);
                let turns = Turns {
                    machine,
                    table,
                    waiting: AtomicU64::new(0),
                };
                let passes = turns.deal(seat, passes, callers);
                Ok((turns, passes))
            }
            Err(OutOfMemory) => Err(OutOfMemory),
        }
    }

    // Draws a number, and makes the pass.
    fn draw(&self, mut seat: Seat<Option<M::Value>, View>) -> Pass<M>
        requires own { seat.table_id ≡ self.now.table }
        requires undrawn { IsUndrawn seat.me }
        ensures own { result.table ≡ seat.table_id }
        ensures drawn { (n : ℕ) × (0 < n) × (n ≤ seat.me.0.callers) × (result.view ≡ numbered n seat.me.0) }
    {
        let before = self.table.shared.fetch_add::<Draw>(&mut seat, 1, 1);
        Pass {
            seat,
            caller: (before + 1) as u8,
            calls: 0,
            apart: [0; 6],
        }
    }

    // Cuts off a seat for one more caller.
    fn cut(&self, seat: &mut Seat<Option<M::Value>, View>) -> Seat<Option<M::Value>, View>
        requires own { seat.old.table_id ≡ self.now.table }
        requires some_left { (seat.old.me.0.live ≡ true) × (0 < seat.old.me.0.left) }
        ensures own { (seat.new.table_id ≡ seat.old.table_id) × (result.table_id ≡ seat.old.table_id) }
        ensures kept { seat.new.me ≡ (kept_after seat.old.me.0, seat.old.me.1) }
        ensures cut { result.me ≡ (newcomer seat.old.me.0, []) }
    {
        self.table.shared.split_seat::<Cut>(seat)
    }

    // A pass for each caller.
    fn deal(
        &self,
        mut seat: Seat<Option<M::Value>, View>,
        mut passes: Vec<Pass<M>>,
        callers: u8,
    ) -> Vec<Pass<M>>
        requires own { seat.table_id ≡ self.now.table }
        requires room { (passes.items ≡ []) × (callers ≤ vec_capacity passes) × (0 < callers) × (callers ≤ 64) }
        requires first { seat.me ≡ (opener seat.me.0.opening callers, []) }
        ensures count { vec_len result ≡ callers }
        ensures each { All (λ p. (p.table ≡ self.now.table) × IsNew seat.me.0.opening callers p.view) result.items }
    {
        for next in 1..callers {
            let extra = self.cut(&mut seat);
            passes.push_reserved(self.draw(extra));
        }
        passes.push_reserved(self.draw(seat));
        passes
    }
}
