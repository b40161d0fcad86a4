//! Calls of the libraries of fields, times, subproblems, fractions and judged trees, of which no run of the program tells the
//! answer. There is no code here but that of the tests.
#![tactic(auto)]

#[cfg(test)]
mod assertions;
#[cfg(test)]
mod fields;
#[cfg(test)]
mod fractions;
#[cfg(test)]
mod judged_trees;
#[cfg(test)]
mod leg_times;
#[cfg(test)]
mod model;
#[cfg(test)]
mod subproblems;
