//! What the program `bitm` says of its commands where help is wanted, and its version.
// What is in each file:
// - `program`: what is written, and the status
// - `texts`: what is said of each topic
// - `topic`: the topic that the arguments name
mod program;
mod texts;
mod topic;

pub use program::start;
pub use texts::VERSION;
pub use topic::{Topic, topic_in};
