// What a matching is told of a run is noted in its lent memory, in constant time each but for the search of an entry.
#![tactic(auto)]

pub mod telling;
