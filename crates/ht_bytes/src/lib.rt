//! Tests of the layer of bytes, `hw_io` and `hf_split`, with values from outside. It has no code of its own.
#![tactic(auto)]

#[cfg(test)]
mod frames;
#[cfg(test)]
mod outside;
