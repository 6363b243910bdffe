// Trials of the banks and layers, each on two or three stations.
#![tactic(auto)]

#[cfg(test)]
mod calls;
#[cfg(test)]
mod heaped;
#[cfg(test)]
mod makes;
#[cfg(test)]
mod piles;
