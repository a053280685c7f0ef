//! Tests of runs by workers: lists of events, and the totals in which messages are combined.
#![tactic(auto)]

#[cfg(test)]
mod ends;
#[cfg(test)]
mod random_events;
#[cfg(test)]
mod runs;
#[cfg(test)]
mod samples;
#[cfg(test)]
mod worked_events;
#[cfg(test)]
mod worked_totals;
