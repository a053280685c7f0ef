//! Tests of vertex programs: their texts, their rules, the machine that runs them.
#![tactic(auto)]

#[cfg(test)]
mod batches;
#[cfg(test)]
mod compare;
#[cfg(test)]
mod image_rules;
#[cfg(test)]
mod image_texts;
#[cfg(test)]
mod machine;
#[cfg(test)]
mod node_steps;
#[cfg(test)]
mod owners;
#[cfg(test)]
mod replies;
#[cfg(test)]
mod rule_names;
#[cfg(test)]
mod texts;
#[cfg(test)]
mod written_and_read;
