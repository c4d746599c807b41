// The plan on examples whose answers were worked out beforehand, apart from this program.
#![tactic(auto)]

#[cfg(test)]
mod desk;
#[cfg(test)]
mod detours;
#[cfg(test)]
mod drives;
#[cfg(test)]
mod sample;
