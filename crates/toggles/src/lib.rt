//! A toggle list: keys of any kind with a total order, in a slice that the caller lends. The keys that were toggled an odd number of
//! times are present; they stand in rising order at the front of the slice, and the places behind them are spare.

#![tactic(auto)]

pub mod full;
pub mod list;
pub mod search;

pub use full::Full;
pub use list::Toggles;
pub use search::find_place;
