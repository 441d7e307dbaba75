// Settings, outcomes and answers as words, for callers in other languages; wire_rules' specs/Wire says which word is what.
#![tactic(auto)]

mod answers;
mod outcomes;
mod settings;

pub use answers::{tell_asked, tell_bad, tell_delivered, tell_ranked, tell_released, tell_set_up};
pub use outcomes::{is_outcome, read_outcome};
pub use settings::{
    BUDDY_WORDS, LIST_WORDS, is_narrow, is_settings, narrow, read_buddy, read_free_list,
};
