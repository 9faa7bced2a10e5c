// The edges of every limit, executed.
#![tactic(auto)]

#[cfg(test)]
mod bench;
#[cfg(test)]
mod corrections;
#[cfg(test)]
mod holds;
#[cfg(test)]
mod lines;
#[cfg(test)]
mod makings;
#[cfg(test)]
mod memory;
#[cfg(test)]
mod periods;
#[cfg(test)]
mod runs;
#[cfg(test)]
mod totals;
#[cfg(test)]
mod writing;
