//! How a sequence is built and queried by code that keeps the parts itself, as in mapped or received memory. No
//! function here requires that the parts form a sequence: what is required of lengths, a caller can test.

pub use crate::checking::is_rising;
pub use crate::making::{largest_of, low_width, write_low, write_upper};
pub use crate::searching::{count_at_zero, index_in_bucket, item_at_one, join_digits};
