//! Tests of a text index beside a walk over the text: that a text is indexed where there is memory, that its suffixes
//! are sorted by induction, which no clause says, and counts worked out by hand.
//!
//! They stand in a crate of their own, since a crate with tests is proved twice.
// What is in each file:
// - `orders`: the order of suffixes, by induction and by comparing
// - `positions`: where patterns stand and what the text is, beside a walk over the text
// - `texts`: texts of each kind, all their short patterns, and what no index is made of
#[cfg(test)]
mod orders;
#[cfg(test)]
mod positions;
#[cfg(test)]
mod texts;
