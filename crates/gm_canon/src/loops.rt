//! The parallel loops around a part, and what they allow.

ghost use Rattle.std.specs.Prelude.{◌≡◌, map};
ghost use Rattle.gm_ast.specs.Loops as Defined;
ghost use Rattle.gm_ast.specs.Canonical as Canonical;
ghost use Rattle.gm_ast.specs.Canonical.{nesting_broken};
ghost use Rattle.gm_canon.specs.Around.{loop_of, code_of, refused_as};

use gm_ast::tree::{Domain, Head};
use gm_base::Rule;

// Which parallel code a loop makes of a part: a loop's body or filter, the body of a search or its filter, a
// reduction's filter or braces, the value of a group assignment.
#[derive(Clone, Copy, PartialEq, Eq, Debug)]
pub enum Code {
    Body,
    Search,
    Filter,
    Reduction,
    Group,
}

// A parallel loop around a part, with its iterator, for a group assignment the graph.
#[derive(Clone, Copy, Debug)]
pub struct Loop {
    pub code: Code,
    pub iterator: u32,
}

// Whether this is parallel code.
pub fn is_parallel(loops: &[Loop]) -> bool
    ensures { result ≡ Canonical.is_parallel (map loop_of loops.now) }
{
    match loops {
        [] => false,
        [_, ..] => true,
    }
}

// Whether this is an inner body.
pub fn is_inner(loops: &[Loop]) -> bool
    ensures { result ≡ Canonical.is_inner (map loop_of loops.now) }
{
    match loops {
        [] => false,
        [_] => false,
        [_, _, ..] => true,
    }
}

// Whether this is directly in an outermost loop.
pub fn is_directly_parallel(loops: &[Loop]) -> bool
    ensures { result ≡ Canonical.is_directly_parallel (map loop_of loops.now) }
{
    match loops {
        [] => false,
        [_] => true,
        [_, _, ..] => false,
    }
}

// Whether a variable is the iterator of one of some loops.
pub fn iterates(loops: &[Loop], variable: u32) -> bool
    ensures { result ≡ Canonical.iterates (map loop_of loops.now) variable }
{
    for each in loops {
        if each.iterator == variable {
            return true;
        }
    }
    false
}

// Whether a variable is the iterator of the inner loop in whose body this is.
pub fn is_inner_iterator(loops: &[Loop], variable: u32) -> bool
    ensures { result ≡ Canonical.is_inner_iterator (map loop_of loops.now) variable }
{
    match loops {
        [] => false,
        [_] => false,
        [_, inner, ..] => inner.code == Code::Body && inner.iterator == variable,
    }
}

// Whether the levels around a variable's node are known: it is the iterator of a search, in its body.
pub fn has_levels(loops: &[Loop], variable: u32) -> bool
    ensures { result ≡ Canonical.has_levels (map loop_of loops.now) variable }
{
    match loops {
        [] => false,
        [outermost, ..] => outermost.code == Code::Search && variable == outermost.iterator,
    }
}

// Whether a range is all nodes.
fn is_nodes(domain: Domain) -> bool
    ensures { result ≡ Defined.is_nodes domain }
{
    domain == Domain::Nodes
}

// Whether a range asks for the levels of a search.
pub fn asks_levels(domain: Domain) -> bool
    ensures { result ≡ Defined.asks_levels domain }
{
    match domain {
        Domain::UpNbrs | Domain::DownNbrs => true,
        Domain::Nodes | Domain::OutNbrs | Domain::InNbrs => false,
    }
}

// The rule that a loop or reduction breaks by where it stands.
pub fn nesting(loops: &[Loop], head: Head) -> Option<Rule>
    ensures { refused_as result head.place ≡ nesting_broken (map loop_of loops.now) head }
{
    match loops {
        [] => {
            if is_nodes(head.domain) {
                None
            } else {
                Some(Rule::C1)
            }
        }
        [outermost] => {
            if is_nodes(head.domain) || head.owner != outermost.iterator {
                Some(Rule::C2)
            } else {
                None
            }
        }
        [_, _, ..] => Some(Rule::C3),
    }
}
