//! The whole program over streams and files in memory, and tables of its answers.

/// The first words of what is written, each with the name of the status with which a call ends that writes it.
pub const STATUSES: &str = "
refused Refused
program Refused
usage: Usage
graph BadInput
argument BadInput
image BadInput
fault Fault
cut Cut
absent ReadFault
read ReadFault
";
