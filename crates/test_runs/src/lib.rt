//! Runs in which a call of the outside fails, over a desk and a sink in memory; and the desks and sinks themselves. There is no
//! code here but that of the tests. What a run of the built program can show stands in `.ci/rows`.
#![tactic(auto)]

#[cfg(test)]
mod assertions;
#[cfg(test)]
mod calls;
#[cfg(test)]
mod desk;
#[cfg(test)]
mod folders;
#[cfg(test)]
mod rows;
#[cfg(test)]
mod searched;
