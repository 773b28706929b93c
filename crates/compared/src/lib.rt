// A designer's list and the run of an accepted description: the fourth buffer is laid out, the list is judged, the run is made and told, and its ending answered.
#![tactic(auto)]

mod endings;
pub mod runs;
