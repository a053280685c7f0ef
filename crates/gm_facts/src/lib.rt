//! What passes ask of expressions, bodies and inner loops, as `gm_forms` and `gm_loop_laws` define it: what can fault, what is
//! read and through which nodes, what is changed, and at which end of its edges an inner loop may be evaluated.
#![tactic(auto)]

pub mod changes;
pub mod faults;
pub mod reads;
pub mod ways;
