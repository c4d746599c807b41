// Grounds on examples whose numbers were worked out beforehand, apart from this program.
#![tactic(auto)]

#[cfg(test)]
mod asked;
#[cfg(test)]
mod grids;
#[cfg(test)]
mod piles;
