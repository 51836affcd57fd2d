//! Reads a description file from any token source.

#![tactic(auto)]

mod decode;
mod frames;
mod modes;
mod nesting;
mod parser;
mod paths;
mod tokenizer;
