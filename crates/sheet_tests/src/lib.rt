// The sheet reader on examples. A crate of its own, so that its proof is not paid again with every change of the reader.
#![tactic(auto)]

#[cfg(test)]
mod faults;
#[cfg(test)]
mod reports;
#[cfg(test)]
mod sheets;
