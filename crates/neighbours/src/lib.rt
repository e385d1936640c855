// Free neighbours: two boxes that join into one, the first pair of a list that joins, and a list in which all that join are joined.
#![tactic(auto)]

mod joining;
mod neighbour;
mod pairs;

pub use joining::join_all;
