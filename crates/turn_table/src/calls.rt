//! What a pass does at the table.
ghost use Rattle.std.specs.Prelude.{◌≡◌, ◌+◌, ◌*◌, ◌<◌, ◌^◌, IfErr, IfOk, length};
ghost use Rattle.turn_table.specs.Calls.{Looks, Takes, Meets, MayCommit, Commits, MayPut};
ghost use Rattle.turn_table.specs.Views.{HasTurn, freed};

use crate::machine::{Entered, Machine};
use crate::pass::Pass;
use crate::plays::{Commit, Fetch, Glance, Look, Release, Rest, Take};
use crate::table::Turns;
use std::hint::spin_loop;
use std::sync::Wait;
use std::sync::atomic::Ordering;

// A pass that waits looks so often before a sleep, with so many pauses between two looks: some 60 microseconds in all.
const LOOKS: u32 = 128;

const PAUSES: u32 = 32;

fn pause() {
    for _ in 0..PAUSES {
        spin_loop();
    }
}

/// Who has the turn of a slot, and for which target.
#[derive(Clone, Copy, Debug, PartialEq, Eq)]
pub struct Held {
    pub slot: u16,
    pub holder: u8,
    pub target: u16,
}

impl<M: Machine> Turns<M> {
    /// The number of entries, which the pass has seen then.
    pub fn look(&self, pass: &mut Pass<M>) -> u64
        requires own { pass.old.table ≡ self.now.table }
        ensures own { pass.new.table ≡ pass.old.table }
        ensures looked { Looks M.meaning pass.old.view pass.new.view }
        ensures count { result ≡ length pass.new.view.seen }
    {
        self.table.shared.load::<Look<M>>(&mut pass.seat, 0)
    }

    /// Adds one entry behind the whole history, which the pass has seen then. It is one that passes the test `E`, bears the pass's number,
    /// touches only slots whose turns the pass has, and fits their states. A pass commits at most 2^40 entries.
    pub fn commit<E: Entered>(&self, pass: &mut Pass<M>)
        requires own { pass.old.table ≡ self.now.table }
        requires room { length pass.old.view.mine < 2 ^ 40 }
        requires entry { MayCommit M.meaning E.is pass.old.view }
        ensures own { pass.new.table ≡ pass.old.table }
        ensures committed { Commits M.meaning E.is pass.old.view pass.new.view }
    {
        self.table
            .shared
            .fetch_add::<Commit<M, E>>(&mut pass.seat, 0, 1);
        pass.calls += 1;
    }

    /// Takes the turn of a slot on the path of the target, with the slot's value. `Held` says which other caller a step of this call found to
    /// have it. It never waits.
    pub fn try_take(&self, pass: &mut Pass<M>, slot: u16, target: u16) -> Result<M::Value, Held>
        requires own { pass.old.table ≡ self.now.table }
        requires slots { (slot < self.now.table.slots) × (target < self.now.table.slots) }
        requires path { M.meaning.path pass.old.view.opening slot target }
        requires free { HasTurn pass.old.view slot → ⊥ }
        ensures own { pass.new.table ≡ pass.old.table }
        ensures took { IfOk result (λ x. Takes M.meaning slot target x pass.old.view pass.new.view) }
        ensures held { IfErr result (λ h. (h.slot ≡ slot) × Meets M.meaning slot h.target h.holder pass.old.view pass.new.view) }
    {
        let word = 1 + target as u64 + 65536 * pass.caller as u64;
        let index = slot as usize;
        let turn = 8 + 8 * slot as usize;
        let shared = &self.table.shared;
        let found = shared.compare_exchange::<Take<M>>(&mut pass.seat, turn, 0, word);
        if found != 0 {
            let holder = ((found - 1) / 65536) as u8;
            let target = ((found - 1) % 65536) as u16;
            return Err(Held {
                slot,
                holder,
                target,
            });
        }
        let value = shared.exchange(&mut pass.seat, index, None);
        shared.load::<Rest>(&mut pass.seat, turn);
        match value {
            Some(value) => Ok(value),
            None => unreachable!(),
        }
    }

    /// Puts a value that stands for the slot's state home, and gives the turn back. Who waits for it is woken.
    pub fn put_back(&self, pass: &mut Pass<M>, slot: u16, value: M::Value)
        requires own { pass.old.table ≡ self.now.table }
        requires turn { MayPut M.meaning slot value pass.old.view }
        ensures own { pass.new.table ≡ pass.old.table }
        ensures freed { pass.new.view ≡ freed slot pass.old.view }
    {
        let index = slot as usize;
        let turn = 8 + 8 * slot as usize;
        let shared = &self.table.shared;
        shared.load::<Fetch>(&mut pass.seat, turn);
        drop(shared.exchange(&mut pass.seat, index, Some(value)));
        shared.swap::<Release>(&mut pass.seat, turn, 0);
        if self.waiting.load(Ordering::SeqCst) != 0 {
            shared.wake_all(turn);
        }
    }

    // Looks at the word of a turn.
    fn glance(&self, pass: &mut Pass<M>, slot: u16) -> u64
        requires own { pass.old.table ≡ self.now.table }
        requires slot { slot < self.now.table.slots }
        ensures own { pass.new.table ≡ pass.old.table }
        ensures looked { Looks M.meaning pass.old.view pass.new.view }
    {
        self.table
            .shared
            .load::<Glance<M>>(&mut pass.seat, 8 + 8 * slot as usize)
    }

    // Looks at the turn for a short time, as long as another pass has it.
    fn spin(&self, slot: u16)
        requires { slot < self.now.table.slots }
    {
        for _ in 0..LOOKS {
            if self.table.shared.peek(8 + 8 * slot as usize) == 0 {
                return;
            }
            pause();
        }
    }

    // Sleeps until it is woken, unless the turn is free.
    fn sleep<R: Wait>(&self, rt: &R, slot: u16)
        requires { slot < self.now.table.slots }
    {
        let turn = 8 + 8 * slot as usize;
        let shared = &self.table.shared;
        self.waiting.fetch_add(1, Ordering::SeqCst);
        let word = shared.peek(turn);
        if word != 0 {
            shared.park(rt, turn, (word % 4294967296) as u32);
        }
        self.waiting.fetch_sub(1, Ordering::SeqCst);
    }

    /// Waits until the turn of a slot was seen free. Another pass may have taken it since. The pass has seen the whole history then. It looks
    /// for a short time before each sleep.
    #[tactic(auto, using(crate::proofs::Looking::sees_same, crate::proofs::Looking::sees_on, crate::proofs::Looking::looks_on))]
    pub fn wait_for<R: Wait>(&self, rt: &R, pass: &mut Pass<M>, slot: u16)
        requires own { pass.old.table ≡ self.now.table }
        requires slot { slot < self.now.table.slots }
        ensures own { pass.new.table ≡ pass.old.table }
        ensures looked { Looks M.meaning pass.old.view pass.new.view }
    {
        for _ in rt.forever() {
            self.spin(slot);
            if self.glance(pass, slot) == 0 {
                return;
            }
            self.sleep(rt, slot);
        }
        unreachable!()
    }
}
