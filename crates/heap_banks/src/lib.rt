// Banks over tables on the heap, each table just long enough for its stations.
#![tactic(auto)]

pub mod make;
pub mod pile;
pub mod stop;
