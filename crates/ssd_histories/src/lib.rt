//! What the past of a channel means: which rows, pages, levels, looks and room it leaves, which entries may follow it, which calls
//! it holds and what each answers. It keeps no state, and knows neither how a history is printed nor how an image is laid out.
#![tactic(auto)]

mod block_laws;
mod call_examples;
mod history_examples;
mod history_laws;
mod history_room_examples;
mod look_laws;
mod room_examples;
mod unlawful_examples;

pub use block_laws::{blocks_after_entry, one_of_each, reserve_is_not_worn};
pub use call_examples::{
    collect_replies, example_picks_followed, example_rounds, read_replies, write_replies,
};
pub use history_examples::{
    collection, collects, example_sizes, faulted_sense, pinned_victim, simple_histories,
    worn_channel,
};
pub use history_laws::{histories_reverse, lawful_before_last, rows_after_entry};
pub use history_room_examples::{example_collections_room, example_looks_room};
pub use look_laws::{
    copies_are_fresh, erases_spare_looks, open_looks_stand, pinned_pages_stay, rows_name_used,
};
pub use room_examples::{example_picks, example_room, example_slots, example_table};
pub use unlawful_examples::{unlawful_collections, unlawful_looks, unlawful_writes};
