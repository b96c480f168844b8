// A turn that another caller has.

/// A call found the turn of this slot held: by this other caller, for this target, on whose path the slot lies. Slots are numbered as the plan's
/// nodes, and behind them its sources.
#[derive(Clone, Copy, Debug, PartialEq, Eq)]
pub struct Busy {
    pub slot: u16,
    pub holder: u8,
    pub target: u16,
}
