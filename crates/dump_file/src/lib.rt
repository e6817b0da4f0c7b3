// A dump file: its 88 words, from the bytes of the file.
#![tactic(auto)]

pub mod load;
