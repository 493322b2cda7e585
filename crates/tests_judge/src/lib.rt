//! The tests of `trace_judge`, through its public calls alone. It ships nothing.
//!
//! `first_caller` judges a run. `rows` compares runs with their answers: `answers` has runs of one list
//! of lines, and of several, `fills` those in which the judge fills in events, `applied` those whose
//! first line says when configs count, `names` those whose servers and contents are texts, `bounds`
//! those with fields and names at their bounds, `malformed` those with a line that is no event, and
//! `contradicted` those whose answer names the lines that a refused line contradicts. `chart` has runs
//! of which a chart is drawn.
#![tactic(auto)]

#[cfg(test)]
mod answers;
#[cfg(test)]
mod applied;
#[cfg(test)]
mod bounds;
#[cfg(test)]
mod chart;
#[cfg(test)]
mod contradicted;
#[cfg(test)]
mod fills;
#[cfg(test)]
mod first_caller;
#[cfg(test)]
mod malformed;
#[cfg(test)]
mod names;
#[cfg(test)]
mod rows;
