// Text for the tools: put at a place of a buffer, byte for byte.
#![tactic(auto)]

pub mod glyphs;
mod promises;
