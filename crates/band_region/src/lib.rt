//! Sets of pixels of the plane, as lists of rectangles in bands (Microsoft, Regions).
#![tactic(auto)]

mod bands;
mod columns;
mod covering;
mod law;
mod pieces;
mod region;

pub use law::one_list_in_bands;
pub use region::Region;
