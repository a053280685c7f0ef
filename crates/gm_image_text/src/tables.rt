//! Looking words up in their tables.

ghost use Rattle.std.specs.Prelude.{◌≡◌, map, bytes_eq};
ghost use Rattle.gm_image_text.specs.Tables.{row_in};
ghost use Rattle.gm_image_text.specs.Giving.{GivesLine};

use crate::faults::LineStop;

// The two hold the same bytes.
pub fn same(a: &[u8], b: &[u8]) -> bool
    ensures { result ≡ bytes_eq a.now b.now }
{
    *a == *b
}

// What the table has beside this word.
fn word_in<T: Copy>(table: &[(&[u8], T)], word: &[u8]) -> Option<T>
    ensures { result ≡ row_in (map (λ row. (row.0.now, row.1)) table.now) word.now }
{
    for (known, meaning) in table {
        if same(known, word) {
            return Some(*meaning);
        }
    }
    None
}

// What the table has beside this word, which is bad where the table does not have it.
pub fn known<T: Copy>(table: &[(&[u8], T)], word: &[u8]) -> Result<T, LineStop>
    ensures { GivesLine (λ x. x) result (row_in (map (λ row. (row.0.now, row.1)) table.now) word.now) }
{
    match word_in(table, word) {
        Some(meaning) => Ok(meaning),
        None => Err(LineStop::Bad),
    }
}
