// Tests over the public calls of the other crates.
#![tactic(auto)]

#[cfg(test)]
mod direct;
#[cfg(test)]
mod entries;
#[cfg(test)]
mod fast;
#[cfg(test)]
mod faults;
#[cfg(test)]
mod transforms;
