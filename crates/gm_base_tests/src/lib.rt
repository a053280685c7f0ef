//! Tests of what everything stands on: streams and files, values, observers, mailboxes.
#![tactic(auto)]

#[cfg(test)]
mod adapters;
#[cfg(test)]
mod compare;
#[cfg(test)]
mod files;
#[cfg(test)]
mod mailboxes;
#[cfg(test)]
mod observers;
#[cfg(test)]
mod streams;
#[cfg(test)]
mod values;
