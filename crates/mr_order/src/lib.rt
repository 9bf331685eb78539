//! Items in order, in chunks of vectors, each found by its place.
//!
//! [`Ordered`] keeps items in strict order, and is seen as a list. It begins as one chunk of at most 64 items. Once it needs more
//! it is chunks in levels of at most 32 parts, each of which knows how many items it has, so that an item is found by its place,
//! put in and taken past some dozens of parts. A search halves the places, and is compared with as few items as a search in an
//! array.
#![tactic(auto)]

mod chunk;
mod cutting;
mod descent;
mod grow;
mod iter;
mod level;
mod locate;
mod ordered;
mod part;
mod parts;
mod places;
mod query;
mod replace;
mod root;
mod seek;
mod shrink;

pub use iter::Iter;
pub use ordered::Ordered;
pub use query::{Query, Steps};
