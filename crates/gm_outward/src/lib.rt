//! Conditions that a loop asks at its node before it looks at the node's edges: the fifth step of the compiler.
//!
//! `outward` takes a program in the last form (`is_flipped`). Where the body of an inner loop is one reduction under conditions
//! that cannot fault, these join the inner loop's filter. Then, where the body of a loop is one inner loop, the conditions at the
//! front of that loop's filter that are the outer node's alone join the loop's mask: they are asked once, and not for each
//! edge, and a node where one fails sends nothing. Only what stands before the first condition that can fault moves.
//!
//! The pass is a function on trees in `specs/` (`outward`), the code that gives what this function gives, and a law: the result
//! means the same for every graph, all arguments and every bound, keeps what every pass keeps (`IsSane`), and stays in its
//! form. The tree is changed in place, and no part is copied.
#![tactic(auto)]

mod conditions;
mod gathered;
pub mod outward;
