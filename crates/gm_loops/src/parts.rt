//! The two parts of an expression's value, and how operators join them.

ghost use Rattle.std.specs.Prelude.{◌≡◌, ◌∷◌, []};
ghost use Rattle.gm_value.specs.Reductions.{close};
ghost use Rattle.gm_value.specs.Operations.{is_true, result1, result2};
ghost use Rattle.gm_semantics.specs.Faults.{first};
ghost use Rattle.gm_semantics.specs.Expressions.{plain, early, settled, one_of, two_of, both, either, choice};
ghost use Rattle.gm_loops.specs.Parts.{parts, combined_by, located_by, read_by};

use gm_ast::tree::Key;
use gm_base::Place;
use gm_semantics::faults::Fault;
use gm_value::{
    FaultKind, Op1, Op2, Reduce, Value, apply1, apply2, total_add, total_close, total_unit,
    totals_have_room,
};

/// A value or a fault.
pub type Answer = Result<Value, Fault>;

// An expression's value in two parts: the first fault of what is hoisted, and what the rest gives.
#[derive(Clone, Copy)]
pub(crate) struct Evaluated {
    pub hoisted: Option<Fault>,
    pub rest: Answer,
}

/// Whether a value is True: its number is above 0.
#[inline(always)]
pub fn is_true(value: Value) -> bool
    ensures { result ≡ is_true value }
{
    match value {
        Value::Flag(holds) => holds,
        _ => value.number() > 0,
    }
}

// An operation's result, or its fault at its place.
pub(crate) fn located(key: Key, place: Place, result_here: Result<Value, FaultKind>) -> Answer
    ensures { result ≡ located_by key place result_here }
{
    match result_here {
        Ok(value) => Ok(value),
        Err(kind) => Err(Fault {
            kind,
            shown: place,
            key,
            place,
        }),
    }
}

// The first fault of two parts in order.
pub(crate) fn first(a: Option<Fault>, b: Option<Fault>) -> Option<Fault>
    ensures { result ≡ first a b }
{
    match a {
        None => b,
        Some(_) => a,
    }
}

// The fault of an answer.
fn fault_of(answer: Answer) -> Option<Fault>
    ensures { result ≡ (early answer).hoisted }
{
    match answer {
        Ok(_) => None,
        Err(fault) => Some(fault),
    }
}

impl Evaluated {
    // An answer of the rest.
    pub fn plain(answer: Answer) -> Self
        ensures { parts result ≡ plain answer }
    {
        Evaluated {
            hoisted: None,
            rest: answer,
        }
    }

    // An answer that is hoisted.
    pub fn early(answer: Answer) -> Self
        ensures { parts result ≡ early answer }
    {
        Evaluated {
            hoisted: fault_of(answer),
            rest: answer,
        }
    }

    // A read through a node variable, which a sequential phase hoists.
    pub fn read(parallel: bool, answer: Answer) -> Self
        ensures { parts result ≡ read_by parallel answer }
    {
        if parallel {
            Evaluated::plain(answer)
        } else {
            Evaluated::early(answer)
        }
    }

    // The value of both parts.
    pub fn settled(self) -> Answer
        ensures { result ≡ settled (parts self) }
    {
        match self.hoisted {
            None => self.rest,
            Some(fault) => Err(fault),
        }
    }

    // An operation on one part.
    pub fn one(self, op: Op1, key: Key, place: Place) -> Self
        ensures { parts result ≡ one_of (parts self) (λ v. located_by key place (result1 op v)) }
    {
        Evaluated {
            hoisted: self.hoisted,
            rest: one_answer(op, key, place, self.rest),
        }
    }

    // An operation on two parts.
    pub fn two(self, op: Op2, key: Key, place: Place, other: Evaluated) -> Self
        ensures { parts result ≡ two_of (parts self) (parts other) (λ x y. located_by key place (result2 op x y)) }
    {
        Evaluated {
            hoisted: first(self.hoisted, other.hoisted),
            rest: two_answers(op, key, place, self.rest, other.rest),
        }
    }

    // `&&`, which asks the right side where the left is True.
    pub fn both(self, other: Evaluated) -> Self
        ensures { parts result ≡ both (parts self) (parts other) }
    {
        let rest = match self.rest {
            Ok(value) => if is_true(value) {
                other.rest
            } else {
                self.rest
            },
            Err(_) => self.rest,
        };
        Evaluated {
            hoisted: first(self.hoisted, other.hoisted),
            rest,
        }
    }

    // `||`, which asks the right side where the left is False.
    pub fn either(self, other: Evaluated) -> Self
        ensures { parts result ≡ either (parts self) (parts other) }
    {
        let rest = match self.rest {
            Ok(value) => if is_true(value) {
                self.rest
            } else {
                other.rest
            },
            Err(_) => self.rest,
        };
        Evaluated {
            hoisted: first(self.hoisted, other.hoisted),
            rest,
        }
    }

    // A value combined with another by a reduction's operator at a place. The operators of And and Or ask the other
    // only where the first leaves it open.
    pub fn combined(self, reduce: Reduce, key: Key, place: Place, other: Evaluated) -> Self
        ensures { parts result ≡ combined_by reduce key place (parts self) (parts other) }
    {
        match reduce {
            Reduce::And => self.both(other),
            Reduce::Or => self.either(other),
            _ => Evaluated {
                hoisted: first(self.hoisted, other.hoisted),
                rest: closed_answers(reduce, key, place, self.rest, other.rest),
            },
        }
    }

    // `?:`, which asks one of its branches.
    pub fn choice(self, yes: Evaluated, no: Evaluated) -> Self
        ensures { parts result ≡ choice (parts self) (parts yes) (parts no) }
    {
        let rest = match self.rest {
            Ok(value) => if is_true(value) { yes.rest } else { no.rest },
            Err(_) => self.rest,
        };
        Evaluated {
            hoisted: first(self.hoisted, first(yes.hoisted, no.hoisted)),
            rest,
        }
    }
}

// A held value combined with one more by a reduction.
fn closed_one(reduce: Reduce, held: Value, member: Value) -> Result<Value, FaultKind>
    ensures { result ≡ close reduce held (member ∷ []) }
{
    totals_have_room();
    let none = total_unit(reduce, held.type_of());
    total_close(reduce, held, total_add(reduce, none, member))
}

// What a reduction's operator gives on two answers.
fn closed_answers(reduce: Reduce, key: Key, place: Place, a: Answer, b: Answer) -> Answer
    ensures { result ≡ (two_of (plain a) (plain b) (λ x y. located_by key place (close reduce x (y ∷ [])))).rest }
{
    match (a, b) {
        (Ok(x), Ok(y)) => located(key, place, closed_one(reduce, x, y)),
        (Ok(_), Err(fault)) => Err(fault),
        (Err(fault), _) => Err(fault),
    }
}

// What an operation on an answer gives.
fn one_answer(op: Op1, key: Key, place: Place, a: Answer) -> Answer
    ensures { result ≡ (one_of (plain a) (λ v. located_by key place (result1 op v))).rest }
{
    match a {
        Ok(x) => located(key, place, apply1(op, x)),
        Err(fault) => Err(fault),
    }
}

// What an operation on two answers gives.
fn two_answers(op: Op2, key: Key, place: Place, a: Answer, b: Answer) -> Answer
    ensures { result ≡ (two_of (plain a) (plain b) (λ x y. located_by key place (result2 op x y))).rest }
{
    match (a, b) {
        (Ok(x), Ok(y)) => located(key, place, apply2(op, x, y)),
        (Ok(_), Err(fault)) => Err(fault),
        (Err(fault), _) => Err(fault),
    }
}
