//! The elements of a reduction, taken one by one.

ghost use Rattle.std.specs.Prelude.{◌≡◌, ◌∷◌, ◌++◌, [], IfOk, List, Result, false};
ghost use Rattle.gm_value.specs.declared.values.Value.{Value};
ghost use Rattle.gm_value.specs.declared.values.VType.{VType};
ghost use Rattle.gm_value.specs.Totals.{HasRoom, IsTotal};
ghost use Rattle.gm_semantics.specs.declared.faults.Fault.{Fault};
ghost use Rattle.gm_semantics.specs.Faults.{then_with};
ghost use Rattle.gm_semantics.specs.Expressions.{Answer as SomeAnswer, reduce_of, members_of, closed, element, reduction};
ghost use Rattle.gm_loops.specs.Runnings.{listed, passes, Runs};

use crate::parts::{Answer, is_true};
use gm_ast::surface::ReductionWord;
use gm_ast::tree::Fold;
use gm_semantics::faults::Fault;
use gm_totals::{lesser, total_fault};
use gm_value::{Reduce, Total, VType, Value, total_add, total_close, total_unit, unit};

// What an element of a reduction gives: a member of the bag, nothing, or a fault.
pub(crate) type Element = Result<Option<Value>, Fault>;

// What the elements of a reduction come to so far: their least fault, and their total.
#[derive(Clone, Copy)]
pub(crate) struct Running {
    pub fault: Option<Fault>,
    pub total: Total,
}

// The reduction that a word stands for.
pub(crate) fn reduce_of(word: ReductionWord) -> Reduce
    ensures { result ≡ reduce_of word }
{
    match word {
        ReductionWord::Sum | ReductionWord::Count => Reduce::Sum,
        ReductionWord::Product => Reduce::Product,
        ReductionWord::Min => Reduce::Min,
        ReductionWord::Max => Reduce::Max,
        ReductionWord::Exist => Reduce::Or,
        ReductionWord::All => Reduce::And,
    }
}

// What an element's value puts into the bag: for Count a 1 where it is True.
#[inline(always)]
fn member_of(word: ReductionWord, value: Value) -> Option<Value>
    ensures { listed (Ok result) ≡ Ok (members_of word value) }
{
    match word {
        ReductionWord::Count => {
            if is_true(value) {
                Some(Value::I32(1))
            } else {
                None
            }
        }
        _ => Some(value),
    }
}

// A total with the member that a value is, if it is one.
#[inline(always)]
pub(crate) fn added(word: ReductionWord, reduce: Reduce, total: Total, value: Value) -> Total
    requires { HasRoom total }
    ensures { (t : VType) (bag : List Value) → IsTotal reduce t total bag → IsTotal reduce t result (members_of word value ++ bag) }
{
    match member_of(word, value) {
        Some(member) => total_add(reduce, total, member),
        None => total,
    }
}

// Whether a filter passes an element.
pub(crate) fn passes(test: Answer) -> bool
    ensures { result ≡ passes test }
{
    match test {
        Ok(value) => is_true(value),
        Err(_) => false,
    }
}

// What an element puts into the bag: nothing where the filter does not pass it.
pub(crate) fn element(word: ReductionWord, test: Answer, body: Answer) -> Element
    ensures element { listed result ≡ element word test body }
{
    match test {
        Err(fault) => Err(fault),
        Ok(passed) => {
            if is_true(passed) {
                match body {
                    Ok(value) => Ok(member_of(word, value)),
                    Err(fault) => Err(fault),
                }
            } else {
                Ok(None)
            }
        }
    }
}

impl Running {
    // No element.
    pub fn new(reduce: Reduce, vtype: VType) -> Self
        ensures { Runs reduce vtype result [] }
    {
        Running {
            fault: None,
            total: total_unit(reduce, vtype),
        }
    }

    // One element before the others.
    pub fn with(self, reduce: Reduce, element: Element) -> Self
        requires { HasRoom self.total }
        ensures { (t : VType) (elements : List (Result (List Value) Fault)) → Runs reduce t self elements → Runs reduce t result (listed element ∷ elements) }
    {
        match element {
            Err(fault) => Running {
                fault: lesser(fault, self.fault),
                total: self.total,
            },
            Ok(None) => self,
            Ok(Some(value)) => Running {
                fault: self.fault,
                total: total_add(reduce, self.total, value),
            },
        }
    }

    // The value of a reduction of all its elements.
    pub fn closed(self, fold: &Fold) -> Answer
        requires { HasRoom self.total }
        ensures { (elements : List (Result (List Value) Fault)) → Runs (reduce_of fold.now.word) fold.now.vtype self elements → result ≡ reduction fold.now elements }
    {
        match self.fault {
            Some(fault) => Err(fault),
            None => closed_total(fold, self.total),
        }
    }
}

// The value of a reduction whose total is closed.
pub(crate) fn closed_total(fold: &Fold, total: Total) -> Answer
    requires { HasRoom total }
    ensures { (bag : List Value) → IsTotal (reduce_of fold.now.word) fold.now.vtype total bag → result ≡ closed fold.now bag }
{
    let reduce = reduce_of(fold.word);
    match total_close(reduce, unit(reduce, fold.vtype), total) {
        Ok(value) => Ok(value),
        Err(_) => Err(total_fault(fold.total)),
    }
}
