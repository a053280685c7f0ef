//! Reading one token.

ghost use Rattle.std.specs.Prelude.{◌≡◌, ℕ, ◌+◌, ◌≤◌, ◌<◌, ◌^◌, length, drop, is_some, IfOk, IfSome, Option};
ghost use Rattle.std.specs.Option.{option_and_then};
ghost use Rattle.gm_token.specs.declared.words.Word.{Word};
ghost use Rattle.gm_token.specs.declared.words.Word.TheVariants.{Inf};
ghost use Rattle.gm_token.specs.Tokens.{words_of};
ghost use Rattle.gm_ast.specs.SurfaceTree.{name_of};
ghost use Rattle.gm_parse.specs.Terminals.{number_of, The, AnyName, fits};
ghost use Rattle.gm_parse.specs.Grammar.{Rule, Of, Reduction, Statement, TypeName, Expression, loop_word_sign, the, a_name};
ghost use Rattle.gm_parse.specs.Foresight.{next, starts};
ghost use Rattle.gm_parse.specs.Goes.{Goes, Sees, IsChoiceOf, end_of};
ghost use Rattle.gm_parse.specs.Trees.{ReadsWord, ReadsAs, ReadsName};
ghost use Rattle.gm_parse.specs.Refused.{place_at};

use crate::around::Around;
use crate::faults::Fault;
use gm_ast::surface::Name;
use gm_base::Place;
use gm_token::{Tokens, Word};
use std::alloc::Global;

/// What a token stands for, and the token's place.
#[derive(Clone, Copy, Debug, PartialEq, Eq)]
pub struct Placed<T> {
    pub value: T,
    pub place: Place,
}

// The number by which words are compared.
fn number_of(word: Word) -> u8
    ensures { result ≡ number_of word }
{
    word as u8
}

// Whether the word is the one that is wanted.
fn is(word: Word, wanted: Word) -> bool
    ensures { result ≡ fits (The wanted) word }
{
    number_of(wanted) == number_of(word)
}

// Whether the word is a name, be it the word of a range.
fn is_name(word: Word) -> bool
    ensures { result ≡ fits AnyName word }
{
    number_of(word) < 7
}

/// The word of the token at an index, if there is one.
pub fn peek(tokens: &Tokens, at: usize) -> Option<Word>
    ensures word { result ≡ next (drop at (words_of tokens.now)) }
    ensures there { IfSome result (λ _. (at < length tokens.now.tokens) × (at + 1 < 2 ^ 64)) }
{
    if at < tokens.len() {
        Some(tokens.word(at))
    } else {
        None
    }
}

/// The place of the token at an index, or the end of the text.
pub fn place_at(tokens: &Tokens, at: usize) -> Place
    ensures { result ≡ place_at tokens.now at }
{
    if at < tokens.len() {
        tokens.place(at)
    } else {
        tokens.end()
    }
}

/// Whether this word comes next.
pub fn next_is(tokens: &Tokens, at: usize, wanted: Word) -> bool
    ensures { Sees (words_of tokens.now) at (the wanted) result }
{
    match peek(tokens, at) {
        None => false,
        Some(word) => is(word, wanted),
    }
}

/// Whether `INF` comes next.
pub fn next_is_inf(tokens: &Tokens, at: usize) -> bool
    ensures { Sees (words_of tokens.now) at (the Inf) result }
{
    next_is(tokens, at, Word::Inf)
}

/// Whether a name comes next.
pub fn next_is_name(tokens: &Tokens, at: usize) -> bool
    ensures { Sees (words_of tokens.now) at a_name result }
{
    match peek(tokens, at) {
        None => false,
        Some(word) => is_name(word),
    }
}

/// Reads this word, and gives the index after it.
pub fn skip(tokens: &Tokens, at: usize, wanted: Word, around: Around) -> Result<usize, Fault>
    ensures goes { Goes (the wanted) around (words_of tokens.now) at result }
    ensures tree { IfOk result (λ after. ReadsWord (The wanted) (drop at tokens.now.tokens) (place_at tokens.now at) (drop after tokens.now.tokens)) }
    ensures next { IfOk result (λ after. (after ≡ at + 1) × (after ≤ length tokens.now.tokens) × (around.statements ≤ 64)) }
{
    let Some(word) = peek(tokens, at) else {
        return Err(Fault::Syntax(at));
    };
    if !is(word, wanted) {
        Err(Fault::Syntax(at))
    } else if around.is_too_deep(at) {
        Err(Fault::TooDeep(at))
    } else {
        Ok(at + 1)
    }
}

/// Reads this word: its place, and the index after it.
pub fn eat(
    tokens: &Tokens,
    at: usize,
    wanted: Word,
    around: Around,
) -> Result<(Place, usize), Fault>
    ensures goes { Goes (the wanted) around (words_of tokens.now) at (end_of result) }
    ensures tree { IfOk result (λ read. ReadsWord (The wanted) (drop at tokens.now.tokens) read.0 (drop read.1 tokens.now.tokens)) }
    ensures next { IfOk result (λ read. (read.1 ≡ at + 1) × (read.1 ≤ length tokens.now.tokens) × (around.statements ≤ 64)) }
{
    let after = skip(tokens, at, wanted, around)?;
    Ok((place_at(tokens, at), after))
}

/// Reads a word that stands for something, if one was found: what it stands for, and the index after it.
pub fn choose<T: Copy + Drop>(
    tokens: &Tokens,
    at: usize,
    around: Around,
    found: Option<T>,
) -> Result<(Placed<T>, usize), Fault>
    ensures goes { (x : Rule) → IsChoiceOf x (is_some found) (next (drop at (words_of tokens.now))) → Goes x around (words_of tokens.now) at (end_of result) }
    ensures tree { (meaning : Word → Option T) → found ≡ option_and_then meaning (next (drop at (words_of tokens.now))) → IfOk result (λ read. ReadsAs meaning (drop at tokens.now.tokens) read.0.value read.0.place (drop read.1 tokens.now.tokens)) }
    ensures next { IfOk result (λ read. (read.1 ≡ at + 1) × (read.1 ≤ length tokens.now.tokens) × (around.statements ≤ 64)) }
{
    let Some(value) = found else {
        return Err(Fault::Syntax(at));
    };
    if at >= tokens.len() {
        Err(Fault::Syntax(at))
    } else if around.is_too_deep(at) {
        Err(Fault::TooDeep(at))
    } else {
        let place = place_at(tokens, at);
        Ok((Placed { value, place }, at + 1))
    }
}

/// Reads a name, and gives the index after it.
pub fn eat_name(
    alloc: Global,
    tokens: &Tokens,
    at: usize,
    around: Around,
) -> Result<(Name, usize), Fault>
    ensures goes { Goes a_name around (words_of tokens.now) at (end_of result) }
    ensures tree { IfOk result (λ read. ReadsName (drop at tokens.now.tokens) (name_of read.0) (drop read.1 tokens.now.tokens)) }
    ensures next { IfOk result (λ read. (read.1 ≡ at + 1) × (read.1 ≤ length tokens.now.tokens) × (around.statements ≤ 64)) }
{
    let Some(word) = peek(tokens, at) else {
        return Err(Fault::Syntax(at));
    };
    if !is_name(word) {
        return Err(Fault::Syntax(at));
    }
    if around.is_too_deep(at) {
        return Err(Fault::TooDeep(at));
    }
    let place = place_at(tokens, at);
    let mut text = Vec::new(alloc);
    text.extend_from_slice(tokens.text(at))?;
    Ok((Name { text, place }, at + 1))
}

// Whether a reduction may begin with the word.
#[tactic(auto, unfolding(crate::specs::Foresight::begins))]
fn begins_reduction(word: Word) -> bool
    ensures { result ≡ starts word (Of Reduction) }
{
    match word {
        Word::Sum => true,
        Word::Product => true,
        Word::Min => true,
        Word::Max => true,
        Word::All => true,
        Word::Exist => true,
        Word::Count => true,
        _ => false,
    }
}

/// Whether a reduction comes next.
pub fn next_is_reduction(tokens: &Tokens, at: usize) -> bool
    ensures { Sees (words_of tokens.now) at (Of Reduction) result }
{
    match peek(tokens, at) {
        None => false,
        Some(word) => begins_reduction(word),
    }
}

// Whether a statement may begin with the word.
#[tactic(auto, unfolding(crate::specs::Foresight::begins))]
fn begins_statement(word: Word) -> bool
    ensures { result ≡ starts word (Of Statement) }
{
    match word {
        Word::Name => true,
        Word::Nodes => true,
        Word::Nbrs => true,
        Word::OutNbrs => true,
        Word::InNbrs => true,
        Word::UpNbrs => true,
        Word::DownNbrs => true,
        Word::Semicolon => true,
        Word::IntType => true,
        Word::LongType => true,
        Word::BoolType => true,
        Word::Graph => true,
        Word::DGraph => true,
        Word::Node => true,
        Word::Edge => true,
        Word::NP => true,
        Word::NodeProp => true,
        Word::NodeProperty => true,
        Word::EP => true,
        Word::EdgeProp => true,
        Word::EdgeProperty => true,
        Word::LeftBrace => true,
        Word::Foreach => true,
        Word::For => true,
        Word::If => true,
        Word::While => true,
        Word::Do => true,
        Word::InBFS => true,
        Word::Less => true,
        Word::Return => true,
        _ => false,
    }
}

/// Whether a statement comes next.
pub fn next_is_statement(tokens: &Tokens, at: usize) -> bool
    ensures { Sees (words_of tokens.now) at (Of Statement) result }
{
    match peek(tokens, at) {
        None => false,
        Some(word) => begins_statement(word),
    }
}

// Whether a type may begin with the word.
#[tactic(auto, unfolding(crate::specs::Foresight::begins))]
fn begins_type(word: Word) -> bool
    ensures { result ≡ starts word (Of TypeName) }
{
    match word {
        Word::IntType => true,
        Word::LongType => true,
        Word::BoolType => true,
        Word::Graph => true,
        Word::DGraph => true,
        Word::Node => true,
        Word::Edge => true,
        Word::NP => true,
        Word::NodeProp => true,
        Word::NodeProperty => true,
        Word::EP => true,
        Word::EdgeProp => true,
        Word::EdgeProperty => true,
        _ => false,
    }
}

/// Whether a type comes next.
pub fn next_is_type(tokens: &Tokens, at: usize) -> bool
    ensures { Sees (words_of tokens.now) at (Of TypeName) result }
{
    match peek(tokens, at) {
        None => false,
        Some(word) => begins_type(word),
    }
}

// Whether an expression may begin with the word.
#[tactic(auto, unfolding(crate::specs::Foresight::begins))]
fn begins_expression(word: Word) -> bool
    ensures { result ≡ starts word (Of Expression) }
{
    match word {
        Word::Name => true,
        Word::Nodes => true,
        Word::Nbrs => true,
        Word::OutNbrs => true,
        Word::InNbrs => true,
        Word::UpNbrs => true,
        Word::DownNbrs => true,
        Word::LeftParen => true,
        Word::Plus => true,
        Word::Minus => true,
        Word::Bang => true,
        Word::Inf => true,
        Word::Number => true,
        Word::True => true,
        Word::False => true,
        Word::Nil => true,
        Word::Sum => true,
        Word::Product => true,
        Word::Min => true,
        Word::Max => true,
        Word::All => true,
        Word::Exist => true,
        Word::Count => true,
        _ => false,
    }
}

/// Whether an expression comes next.
pub fn next_is_expression(tokens: &Tokens, at: usize) -> bool
    ensures { Sees (words_of tokens.now) at (Of Expression) result }
{
    match peek(tokens, at) {
        None => false,
        Some(word) => begins_expression(word),
    }
}

// Whether the word is that of a loop.
fn begins_loop(word: Word) -> bool
    ensures { result ≡ starts word loop_word_sign }
{
    matches!(word, Word::Foreach | Word::For)
}

/// Whether the word of a loop comes next.
pub fn next_is_loop(tokens: &Tokens, at: usize) -> bool
    ensures { Sees (words_of tokens.now) at loop_word_sign result }
{
    match peek(tokens, at) {
        None => false,
        Some(word) => begins_loop(word),
    }
}
