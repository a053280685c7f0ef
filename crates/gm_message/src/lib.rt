//! The messages of a program's loops: what kinds there are, and what each carries.
//!
//! A loop over neighbours is evaluated at its outer node or at the receiver of a message (`inner`), a reduction to a
//! property of another node is sent (`ways`), and a message carries what its receiver reads of the sender (`loads`).
//! `plan_messages` goes over the tree once, and gives the plan that `gm_lowering` defines (`Plans`).
#![tactic(auto)]

mod inner;
mod loads;
mod plans;
mod variables;
mod ways;

pub use inner::is_here;
pub use loads::{Load, carried};
pub use plans::{KindPlan, Plan, plan_messages};
pub use variables::{is_global, is_register, target_type, type_at, variable_at};
pub use ways::{Way, way_of};
