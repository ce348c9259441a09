//! The shared types of the controller and its geometry, and the definitions that all contracts cite. It keeps no
//! state: it knows neither the cells of a die nor the rows of a page map.
#![tactic(auto)]

mod base;
mod cell_examples;
mod cell_law;
mod code_examples;
mod contents;
mod decoding_laws;
mod entry;
mod head;
mod items;
mod kind;
mod ladder_laws;
mod look;
mod memory;
mod page_examples;
mod page_laws;
mod place;
mod policy_view;
mod reply;
mod row;
mod shape;
mod slot;
mod stop;
mod stripe_laws;
mod superblock;
mod tag;
mod trace;
mod weak;
mod word;

pub use base::{BlockBase, ChannelBase};
pub use cell_examples::{noise_from_zero, senses_of_a_byte};
pub use cell_law::CellLaw;
pub use code_examples::{example_bits, example_fault, example_word};
pub use contents::Contents;
pub use decoding_laws::{
    accepted_rows_are_layers, found_words_are_codewords, layer_keeps_bounds, row_rule_is_bounded,
};
pub use entry::Entry;
pub use head::ImageHead;
pub use items::Items;
pub use kind::Kind;
pub use ladder_laws::ladders_end;
pub use look::Look;
pub use memory::Memory;
pub use page_examples::{
    example_kept_codewords, example_page_words, example_payloads, example_stripe_sum,
    example_stripes, example_values,
};
pub use page_laws::{
    codes_make_a_word, heads_differ, others_give_the_word, payloads_give_their_bytes,
    values_are_taken,
};
pub use place::Place;
pub use policy_view::{PolicyKind, PolicyView};
pub use reply::{CallKind, RefreshReply, Reply};
pub use row::Row;
pub use shape::{Shape, ShapeFault};
pub use slot::Slot;
pub use stop::{ServeStop, StepStop};
pub use stripe_laws::{
    data_dies_are_the_others, due_pages_add_up, due_pages_rise, faultless_sizes_are_within,
    slots_and_data_places_match,
};
pub use superblock::{SbInfo, SbState};
pub use tag::Tag;
pub use trace::{Content, Trace, TraceCall, Verb};
pub use weak::Weak;
pub use word::Word;
