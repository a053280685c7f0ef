//! The names of the rules, as they are printed.

use crate::compare::same;
use gm_image::ImageRule;
use std::alloc::{AllocError, Global};
use std::test::Fail;

// The rules in order.
fn rules() -> [ImageRule; 10] {
    [
        ImageRule::I1,
        ImageRule::I2,
        ImageRule::I3,
        ImageRule::I4,
        ImageRule::I5,
        ImageRule::I6,
        ImageRule::I7,
        ImageRule::I8,
        ImageRule::I9,
        ImageRule::I10,
    ]
}

// The names of some rules, each with a space behind it.
fn names_of(alloc: Global, rules: &[ImageRule]) -> Result<String, AllocError> {
    let mut names = String::new(alloc);
    for rule in rules {
        let name = format!(in alloc; "{rule} ")?;
        names.push_str(name.as_str())?;
    }
    Ok(names)
}

#[test]
fn rules_have_names(rt: HostRuntime) -> Result<(), Fail> {
    let names = names_of(rt.alloc(), &rules())?;
    same(
        &rt,
        names.as_str(),
        "I1 I2 I3 I4 I5 I6 I7 I8 I9 I10 ",
        "names",
    );
    Ok(())
}
