//! Lines of words with what they mean, and the texts of the tool's written description. It has tests alone, and stands
//! apart so that the crates of words and texts are proved without them.
//!
//! Tested: `tool_words` and `state_text`, by the lines of words and the texts of the written description.
#![tactic(auto)]

#[cfg(test)]
mod fault_tests;
#[cfg(test)]
mod text_tests;
#[cfg(test)]
mod word_tests;
