// What no print of a program shows of the floor: a floor of weights, and calls that are made as one list.
#![tactic(auto)]

#[cfg(test)]
mod evenings;
#[cfg(test)]
mod weights;
