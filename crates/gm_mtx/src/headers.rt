//! The header, which is the first line of a text.

ghost use Rattle.std.specs.Prelude.{◌≡◌};
ghost use Rattle.gm_fields.specs.Fields.{fields};
ghost use Rattle.gm_mtx.specs.MatrixMarket.{values_named, is_general, header_in};

use crate::faults::LineFault;
use crate::fields::is_word;
use gm_fields::cut_field;

// What a header says of the values of entries.
#[derive(Clone, Copy, Debug, PartialEq, Eq)]
pub enum EntryValues {
    // Each entry has a whole number or a truth value.
    Integer,
    // No entry has a value.
    Pattern,
}

// What a word says of the values of entries.
fn values_named(word: &[u8]) -> Result<EntryValues, LineFault>
    ensures { result ≡ values_named word.now }
{
    if is_word(word, b"integer") {
        Ok(EntryValues::Integer)
    } else if is_word(word, b"pattern") {
        Ok(EntryValues::Pattern)
    } else {
        Err(LineFault::Unsupported)
    }
}

// Whether fields of a header are those of a sparse matrix without symmetry.
fn is_general(object: &[u8], format: &[u8], symmetry: &[u8]) -> bool
    ensures { result ≡ is_general object.now format.now symmetry.now }
{
    is_word(object, b"matrix") && is_word(format, b"coordinate") && is_word(symmetry, b"general")
}

// What a header says of the values of entries.
pub fn header_in(line: &[u8]) -> Result<EntryValues, LineFault>
    ensures { result ≡ header_in (fields line.now) }
{
    let Some((banner, rest)) = cut_field(line) else {
        return Err(LineFault::BadHeader);
    };
    let Some((object, rest)) = cut_field(rest) else {
        return Err(LineFault::BadHeader);
    };
    let Some((format, rest)) = cut_field(rest) else {
        return Err(LineFault::BadHeader);
    };
    let Some((values, rest)) = cut_field(rest) else {
        return Err(LineFault::BadHeader);
    };
    let Some((symmetry, rest)) = cut_field(rest) else {
        return Err(LineFault::BadHeader);
    };
    if cut_field(rest).is_some() {
        return Err(LineFault::BadHeader);
    }
    if !is_word(banner, b"%%MatrixMarket") {
        return Err(LineFault::BadHeader);
    }
    if !is_general(object, format, symmetry) {
        return Err(LineFault::Unsupported);
    }
    values_named(values)
}
