//! Which programs may have the bodies of their loops cut into pieces.
//!
//! What `gm_cut` asks of a program before it cuts is here a law: it follows from what every pass keeps and from what the
//! passes before give. The facts that these give, and that each keeps them, are laws too.
#![tactic(auto)]

pub mod laws;
