//! The laws of parts of a content: there is nothing to run. That files are split and joined is tried by transcripts of
//! the program.
use td_extract::{accounts_are_of_the_range, sound_parts_are_sound};
use td_join::{
    accounts_are_of_either, parts_are_apart, parts_join_to_the_whole, sound_contents_join,
    splits_join_back,
};

#[test]
fn laws_of_parts_hold() {
    accounts_are_of_the_range();
    sound_parts_are_sound();
    accounts_are_of_either();
    sound_contents_join();
    parts_join_to_the_whole();
    parts_are_apart();
    splits_join_back();
}
