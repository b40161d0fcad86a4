//! Calls of the libraries of turns, islands and made tables, of which no run of the program tells the answer. There is no code
//! here but that of the tests.
#![tactic(auto)]

#[cfg(test)]
mod assertions;
#[cfg(test)]
mod islands;
#[cfg(test)]
mod made;
#[cfg(test)]
mod segments;
#[cfg(test)]
mod standing;
