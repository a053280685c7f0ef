//! Tests across crates: of the whole program, by its one public call over streams and files in memory, and of texts and
//! their verdicts.
#![tactic(auto)]

#[cfg(test)]
mod argument_reductions;
#[cfg(test)]
mod calls;
#[cfg(test)]
mod checks;
#[cfg(test)]
mod compare;
#[cfg(test)]
mod compiled;
#[cfg(test)]
mod cuts;
#[cfg(test)]
mod example_programs;
#[cfg(test)]
mod faults;
#[cfg(test)]
mod first;
#[cfg(test)]
mod gates;
#[cfg(test)]
mod hostile;
#[cfg(test)]
mod image_rows;
#[cfg(test)]
mod inputs;
#[cfg(test)]
mod language;
#[cfg(test)]
mod loops;
#[cfg(test)]
mod matrix_market;
#[cfg(test)]
mod observers;
#[cfg(test)]
mod phases;
#[cfg(test)]
mod readings;
#[cfg(test)]
mod reductions;
#[cfg(test)]
mod searches;
#[cfg(test)]
mod teams;
#[cfg(test)]
mod totals;
#[cfg(test)]
mod values;
#[cfg(test)]
mod words;
#[cfg(test)]
mod workers;
