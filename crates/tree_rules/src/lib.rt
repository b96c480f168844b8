//! The rules of the tree of generators: what its calls and their histories are, and the laws above them. No call with its effect
//! stands here.
//!
//! - `call`: the calls of a tree;
//! - `reply`: the answer to a call;
//! - `laws`: what holds of every entry that is right, and of every history of such entries;
//! - `causes`: which reply comes and why, and what it leaves;
//! - `openings`: plans in range, and histories behind the opening calls;
//! - `lists`: openings, entries and states as lists of numbers, for a table of turns.
#![tactic(auto)]

mod call;
mod causes;
mod laws;
mod lists;
mod openings;
mod reply;

pub use call::Call;
pub use causes::{
    done_calls_give_their_blocks, free_calls_are_done, free_calls_are_not_refused,
    generates_give_what_is_asked, rbg1s_end_their_chains, refusals_come_by_the_table,
    refused_calls_are_served, replies_have_causes, replies_leave, running_sources_are_tested,
};
pub use laws::{
    chains_lie_on_paths, depths_count_paths, entries_leave_other_slots, entries_read_their_chain,
    histories_are_legal, histories_have_parts, no_sample_is_used_twice, refusals_change_no_node,
    right_is_fitting, running_sources_had_no_alarm, sources_are_quiet_after_alarms,
    sources_draw_or_start, states_are_folds,
};
pub use lists::{
    entries_may_be_committed, entries_touch_their_lists, histories_of_lists_are_histories,
    lists_have_one_reading,
};
pub use openings::{
    chains_are_in_range, counts_are_small, histories_are_right_as_a_whole, histories_go_on,
    paths_are_short, served_calls_go_on,
};
pub use reply::{Reply, ReplyRow};
