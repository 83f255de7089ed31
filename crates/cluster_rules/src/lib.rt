//! The rules of a cluster, as definitions: which logs are runs of it, with their laws and cases. `docs/CLUSTER.md` tells them.
#![tactic(auto)]

mod cases;
mod laws;
mod refusals;

pub use cases::{early_park, empty_main, small_cache, three_writes, two_adds, two_writers};
pub use laws::{
    cached_word_is_arrived, cached_word_is_last_write, cut_is_run, dirty_word_is_unsent,
    each_event_is_allowed, each_position_is_allowed, own_past_decides, resident_page_arrived,
    stored_word_is_last_change, stored_word_is_start_word, what_runs_hold_fits,
    what_turns_hold_fits, with_one_more_turn,
};
pub use refusals::{
    another_reply_is_refused, dropping_a_dirty_page_is_refused, grant_before_reconcile_is_refused,
    keeping_a_page_at_take_up_is_refused, keeping_an_ask_of_an_idle_node_is_refused,
    sending_a_clean_word_is_refused, sync_before_its_join_is_refused, taking_twice_is_refused,
};
