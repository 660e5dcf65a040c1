//! How samples are built and read, for code that stores them elsewhere or that reads samples which may be wrong. No
//! function here requires that the tables match the words; each says its answer where they do.

pub use bitm_strategies::{Summary, first_entry, items_in, sample_from};
