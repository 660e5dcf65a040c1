//! What the programs share: the text that they read, how a run ends, the help, and the session of `bitm_vectors`.
#![tactic(auto)]

// What is in each file:
// - `help`: what `bitm` says where help is wanted, and its version
// - `runs`: where a run reads from, its status and its messages
// - `session`: commands over a vector of bits, answered line by line
// - `text`: the text that the programs read
pub mod help;
pub mod runs;
pub mod session;
pub mod text;
