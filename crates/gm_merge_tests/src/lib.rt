//! Tests of passes over images: what comes out as text, and that runs stay the same.
#![tactic(auto)]

#[cfg(test)]
mod long;
#[cfg(test)]
mod merged_runs;
#[cfg(test)]
mod merged_texts;
#[cfg(test)]
mod samples;
