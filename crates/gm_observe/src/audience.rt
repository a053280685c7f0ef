//! Several observers, told and asked one after another.

ghost use Rattle.std.specs.Prelude.{◌≡◌, ◌∷◌, [], ◌++◌, OnOk, OnErr, map, take, length};
ghost use Rattle.std.specs.List.{flat_map};
ghost use Rattle.gm_observe.specs.Audience.{told_to_all, IsToldToSome, reports};

use crate::notes::Note;
use crate::observers::Observer;
use gm_base::NoMemory;

// Tells one observer about one superstep. `NoMemory` leaves the notes that it holds as they were.
fn tell(observer: &mut Box<dyn Observer>, n: Note) -> Result<(), NoMemory>
    ensures told { OnOk result (seen observer.new ≡ seen observer.old ++ n ∷ []) }
    ensures untold { OnErr result (seen observer.new ≡ seen observer.old) }
    ensures same_way { says_of observer.new ≡ says_of observer.old }
{
    observer.note(n)
}

/// Tells all observers about one superstep, in their order. After `NoMemory` those before one of them know of it,
/// and that one and those behind it do not.
pub fn tell_all(observers: &mut [Box<dyn Observer>], n: Note) -> Result<(), NoMemory>
    ensures told { OnOk result (map (λ o. seen o) observers.new ≡ told_to_all (n ∷ []) (map (λ o. seen o) observers.old)) }
    ensures part { OnErr result (IsToldToSome n (map (λ o. seen o) observers.old) (map (λ o. seen o) observers.new)) }
    ensures same_ways { map (λ o. says_of o) observers.new ≡ map (λ o. says_of o) observers.old }
{
    for observer in observers.iter_mut() {
        tell(observer, n)?;
    }
    Ok(())
}

// Writes the report of one observer behind a text. `NoMemory` leaves the text as it was.
fn put_report(observer: &Box<dyn Observer>, text: &mut Vec<u8>) -> Result<(), NoMemory>
    ensures reported { OnOk result (text.new.items ≡ text.old.items ++ says_of observer.now (seen observer.now)) }
    ensures unreported { OnErr result (text.new.items ≡ text.old.items) }
{
    observer.report(text)
}

// Writes the reports of observers behind a text. `NoMemory` may leave some of them there.
fn put_reports(observers: &[Box<dyn Observer>], text: &mut Vec<u8>) -> Result<(), NoMemory>
    ensures reported { OnOk result (text.new.items ≡ text.old.items ++ flat_map (λ o. says_of o (seen o)) observers.now) }
    ensures kept { OnErr result (take (length text.old.items) text.new.items ≡ text.old.items) }
{
    for observer in observers {
        put_report(observer, text)?;
    }
    Ok(())
}

/// Writes the reports of all observers, in their order, behind what `out` holds: each in its way, of the notes
/// that it holds. `NoMemory` leaves `out` as it was.
pub fn report_all(observers: &[Box<dyn Observer>], out: &mut Vec<u8>) -> Result<(), NoMemory>
    ensures reported { OnOk result (out.new.items ≡ out.old.items ++ reports (map (λ o. says_of o) observers.now) (map (λ o. seen o) observers.now)) }
    ensures unreported { OnErr result (out.new.items ≡ out.old.items) }
{
    let before = out.len();
    let written = put_reports(observers, out);
    if written.is_err() {
        out.truncate(before);
    }
    written
}
