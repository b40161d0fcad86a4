//! Calls of the libraries that find bounds, of which no run of the program tells the answer: runs and ends over lines by hand,
//! lifts just at their limits, and the steps that suffice. There is no code here but that of the tests.
#![tactic(auto)]

#[cfg(test)]
mod assertions;
#[cfg(test)]
mod end_checks;
#[cfg(test)]
mod end_finds;
#[cfg(test)]
mod finishing;
#[cfg(test)]
mod hint_lifts;
#[cfg(test)]
mod islands;
#[cfg(test)]
mod lift_limits;
#[cfg(test)]
mod lifting;
#[cfg(test)]
mod lifts;
#[cfg(test)]
mod lines;
#[cfg(test)]
mod pivoting;
#[cfg(test)]
mod run_duals;
