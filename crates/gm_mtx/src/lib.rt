//! Matrix Market texts: a text becomes the graph that it stands for, or the fault of its first faulty line. Read are
//! sparse matrices without symmetry whose entries are integers or have no value; the format is described at
//! <https://math.nist.gov/MatrixMarket/formats.html>.
//!
//! The work is linear in the bytes and the nodes. The rows of the entries are made as long as the size line says, but
//! never longer than the bytes of the text allow.
#![tactic(auto)]

mod faults;
mod fields;
mod headers;
mod laws;
mod loads;
mod sizes;
mod tables;

pub use faults::MtxFault;
pub use laws::rows_are_worked;
pub use loads::consume_mtx;
