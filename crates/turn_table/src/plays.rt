//! The steps on a table, by what each tells the pass that makes it.
use crate::machine::{Entered, Machine};
use crate::view::View;
use atomic_table::{Join, Play, Split};
use std::marker::PhantomData;

/// The first step of all: the table is open.
pub(crate) struct Open<M, E> {
    machine: PhantomData<(M, E)>,
}

impl<M: Machine, E: Entered> Play<Option<M::Value>, View> for Open<M, E> {
    ghost use Rattle.turn_table.specs.Steps.{opened};

    ghost then = { opened M.meaning E.is };
}

/// A number is drawn from word 1.
pub(crate) struct Draw;

impl<V> Play<Option<V>, View> for Draw {
    ghost use Rattle.turn_table.specs.Steps.{drew};

    ghost then = { drew };
}

/// A pass is cut off.
pub(crate) struct Cut;

impl Split<View> for Cut {
    ghost use Rattle.turn_table.specs.Views.{kept_after, newcomer};

    ghost left = { kept_after };

    ghost right = { newcomer };
}

/// A load of word 0.
pub(crate) struct Look<M> {
    machine: PhantomData<M>,
}

impl<M: Machine> Play<Option<M::Value>, View> for Look<M> {
    ghost use Rattle.turn_table.specs.Steps.{looked};

    ghost then = { looked M.meaning };
}

/// A load of a turn's word by a pass that waits.
pub(crate) struct Glance<M> {
    machine: PhantomData<M>,
}

impl<M: Machine> Play<Option<M::Value>, View> for Glance<M> {
    ghost use Rattle.turn_table.specs.Steps.{glanced};

    ghost then = { glanced M.meaning };
}

/// A turn's word is exchanged, if it is 0.
pub(crate) struct Take<M> {
    machine: PhantomData<M>,
}

impl<M: Machine> Play<Option<M::Value>, View> for Take<M> {
    ghost use Rattle.turn_table.specs.Steps.{taken};

    ghost then = { taken M.meaning };
}

/// The slot that was taken goes back to its place, empty.
pub(crate) struct Rest;

impl<V> Play<Option<V>, View> for Rest {
    ghost use Rattle.turn_table.specs.Steps.{rested};

    ghost then = { rested };
}

/// Word 0 counts one entry more.
pub(crate) struct Commit<M, E> {
    machine: PhantomData<(M, E)>,
}

impl<M: Machine, E: Entered> Play<Option<M::Value>, View> for Commit<M, E> {
    ghost use Rattle.turn_table.specs.Steps.{committed};

    ghost then = { committed M.meaning E.is };
}

/// The slot leaves its place once more.
pub(crate) struct Fetch;

impl<V> Play<Option<V>, View> for Fetch {
    ghost use Rattle.turn_table.specs.Steps.{fetched};

    ghost then = { fetched };
}

/// A turn's word is 0 again, and the slot is at home.
pub(crate) struct Release;

impl<V> Play<Option<V>, View> for Release {
    ghost use Rattle.turn_table.specs.Steps.{released};

    ghost then = { released };
}

/// A pass takes in another.
pub(crate) struct Glue;

impl Join<View> for Glue {
    ghost use Rattle.turn_table.specs.Views.{joined, gone};

    ghost both = { joined };

    ghost spent = { gone };
}
