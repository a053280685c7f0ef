//! Tests of workers: whole runs beside the run on one thread, the gate, and what a superstep delivers.
#![tactic(auto)]

#[cfg(test)]
mod batch_rows;
#[cfg(test)]
mod batches;
#[cfg(test)]
mod calls;
#[cfg(test)]
mod ends;
#[cfg(test)]
mod gates;
#[cfg(test)]
mod runs;
#[cfg(test)]
mod samples;
#[cfg(test)]
mod steps;
