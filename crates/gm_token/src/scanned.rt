//! The tokens of a text.

ghost use Rattle.std.specs.Prelude.{◌≡◌, ◌+◌, ◌<◌, ◌≤◌, length, take, drop, slice_get, option_map, Some};

use crate::limits::MAX_NUMBER;
use crate::numbers::number_value;
use crate::words::{TokenKind, Word};
use gm_base::Place;
use std::marker::Model;

/// A token as it is kept: its word, where its bytes stand in the text, and its place.
#[derive(Drop)]
pub(crate) struct Row {
    pub(crate) word: Word,
    pub(crate) offset: u32,
    pub(crate) length: u32,
    pub(crate) place: Place,
}

/// The tokens of a text in their order, which contracts see as the list of their words, places and bytes. It
/// borrows the text.
#[derive(Drop)]
pub struct Tokens<'a> {
    pub(crate) text: &'a [u8],
    pub(crate) rows: Vec<Row>,
    pub(crate) end: Place,
}

// The bytes of a row's token.
fn bytes_of<'a>(text: &'a [u8], row: &Row) -> &'a [u8]
    requires { row.now.offset + row.now.length ≤ length text.now }
    ensures { result.now ≡ take row.now.length (drop row.now.offset text.now) }
{
    let from = row.offset as usize;
    let to = from + row.length as usize;
    &text[from..to]
}

impl<'a> Model for Tokens<'a> {
    ghost use Rattle.gm_token.specs.Tokens.{Listing};

    ghost Value = { Listing };

    ghost use Rattle.gm_token.specs.Rows.{listing_of, AreSound};

    ghost view = { listing_of };

    ghost invariant = { AreSound };
}

impl<'a> Tokens<'a> {
    ghost use Rattle.gm_token.specs.Words.{kind_of};
    ghost use Rattle.gm_token.specs.Tokens.{words_of, places_of, texts_of};
    ghost use Rattle.gm_token.specs.Limits.{greatest_number};
    ghost use Rattle.gm_token.specs.Spellings.{decimal_value};
    ghost use Rattle.gm_token.specs.declared.words.Word.TheVariants.{Number};

    /// How many tokens there are.
    pub fn len(&self) -> usize
        ensures { result ≡ length self.now.tokens }
    {
        self.rows.len()
    }

    /// What the grammar sees of the token at an index, from 0.
    pub fn word(&self, i: usize) -> Word
        requires { i < length self.now.tokens }
        ensures { slice_get (words_of self.now) i ≡ Some result }
    {
        self.rows[i].word
    }

    /// What kind of token stands at an index, from 0.
    pub fn kind(&self, i: usize) -> TokenKind
        requires { i < length self.now.tokens }
        ensures { option_map kind_of (slice_get (words_of self.now) i) ≡ Some result }
    {
        self.word(i).kind()
    }

    /// The place of the first byte of the token at an index, from 0.
    pub fn place(&self, i: usize) -> Place
        requires { i < length self.now.tokens }
        ensures { slice_get (places_of self.now) i ≡ Some result }
    {
        self.rows[i].place
    }

    /// The bytes of the token at an index, from 0.
    pub fn text(&self, i: usize) -> &[u8]
        requires { i < length self.now.tokens }
        ensures { slice_get (texts_of self.now) i ≡ Some result.now }
    {
        bytes_of(self.text, &self.rows[i])
    }

    /// The number at an index, from 0, where the token there is one.
    pub fn number(&self, i: usize) -> u64
        requires { slice_get (words_of self.now) i ≡ Some Number }
        ensures value { option_map decimal_value (slice_get (texts_of self.now) i) ≡ Some result }
        ensures limit { result ≤ greatest_number }
    {
        number_value(bytes_of(self.text, &self.rows[i])).unwrap()
    }

    /// The place after the last byte of the text.
    pub fn end(&self) -> Place
        ensures { result ≡ self.now.end }
    {
        self.end
    }
}
