//! What the words of a command line mean, by their grammar. The crate has laws alone.
//!
//! Proved: words mean a command just where they are a command and settings that it takes (`words_by_their_grammar`).
//! Each setting is a flag, or a name and its value joined by `=` or apart. It is put in once with a value of its
//! option, and together they aren't too many instructions. Every other list means nothing (clause `means`). Settings of
//! different options may change places (`commute`), a value means the same joined and apart (`joined`), and an option
//! set twice means nothing, whatever follows (`twice`).
#![tactic(auto)]

pub mod laws;
