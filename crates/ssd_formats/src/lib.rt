//! The formats: image, trace, histories, replies and summary as text, the words of the command line, and generated work. It keeps no
//! state and reads nothing: it says what bytes mean, and which fault is the first.
#![tactic(auto)]

mod generated_examples;
mod image_examples;
mod image_laws;
mod number_laws;
mod text_examples;
mod text_laws;
mod trace_examples;
mod word_examples;

pub use generated_examples::{example_generated_head, example_generated_work};
pub use image_examples::{
    example_contents_faults, example_image, example_image_faults, example_image_lists,
    example_input, example_page_in_image, example_saved_image, example_short_images,
    example_two_words_image,
};
pub use image_laws::{
    contents_are_read, heads_are_read, heads_are_within_limits, images_are_read,
    read_contents_have_spellings, read_heads_have_spellings,
};
pub use number_laws::numbers_are_read;
pub use text_examples::{
    example_histories_read, example_kinds, example_kinds_read, example_numbers, example_replies,
    example_runs,
};
pub use text_laws::texts_tell_histories;
pub use trace_examples::{
    example_contents, example_trace, example_trace_faults, example_trace_limits,
};
pub use word_examples::{example_statuses, example_words};
