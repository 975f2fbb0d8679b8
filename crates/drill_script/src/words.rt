// Readers of the words of a line.
ghost use Rattle.std.specs.Prelude.{◌≡◌, ◌≢◌, Err, ◌≤◌, ◌<◌, length, None, Some, IfOk, IfSome, MatchOption, option_map, ◌++◌, ◌∷◌, []};
ghost use Rattle.std.specs.String.{string_bytes};
ghost use Rattle.sticky_routes.specs.AsModel.{cookie_of};
ghost use Rattle.wiki_model.specs.Script.{unescaped};
ghost use Rattle.wiki_model.specs.Limits.{replicas_max};
ghost use Rattle.drill_script.specs.declared.words.LineFault.TheVariants.{Memory};
ghost use Rattle.drill_script.specs.Words.{Gives, cut_first, word_at, number_of, positive_of, client_in, region_in, is_number, title_in, last_title, token_in, character_at, short_text, text_in, weights_in, before_plus, position_in, cookie_in, utf8_of};

use farm_base::bytes::are_digits;
use farm_base::{Listed, Region};
use std::alloc::{AllocError, Global};
use std::str;
use sticky_routes::PosCookie;
use wiki_titles::{ClientId, Text, TextFault, Title, TitleFault, Token, TokenFault};

/// The greatest number of a client, a revision, a drawing word or a message.
pub const NUMBER_MAX: u64 = 9_223_372_036_854_775_807;

// The greatest seconds of a cookie: 16 digits.
const SECONDS_MAX: u64 = 9_999_999_999_999_999; // seconds

// The greatest weight of a replica.
const WEIGHT_MAX: u64 = 1_000;

// The most replicas of a region.
const REPLICAS_MAX: usize = 8;

/// Why a line was not read.
#[derive(Clone, Copy, Debug, PartialEq, Eq)]
pub enum LineFault {
    /// It is none of the forms, or may not stand here.
    Form,
    /// Out of memory.
    Memory,
}

impl From<AllocError> for LineFault {
    ghost use Rattle.std.specs.Prelude.{◌≡◌};
    ghost use Rattle.drill_script.specs.declared.words.LineFault.TheVariants.{Memory};

    ghost from_gives = { λ _ fault. fault ≡ Memory };

    fn from(_error: AllocError) -> LineFault {
        LineFault::Memory
    }
}

/// A word, and what stands after the one space that follows it.
#[tactic(auto, unfolding(crate::specs::Words::cut_first))]
pub fn word_at(text: &str) -> Result<(&str, &str), LineFault>
    ensures { Gives (λ x. (x.0.now, x.1.now)) result (word_at text.now) }
{
    text.split_once(' ').ok_or(LineFault::Form)
}

fn is_number(bytes: &[u8]) -> bool
    ensures { result ≡ is_number bytes.now }
{
    0 < bytes.len() && are_digits(bytes) && (bytes.len() < 2 || b'0' < bytes[0])
}

/// A number of at most `most`. It takes no memory.
#[tactic(auto, unfolding(crate::specs::Words::number_of))]
pub fn number_of(most: u64, word: &str) -> Result<u64, LineFault>
    ensures value { Gives (λ n. n) result (number_of most word.now) }
    ensures bound { IfOk result (λ n. n ≤ most) }
    ensures form { result ≢ Err Memory }
{
    if !is_number(word.as_bytes()) {
        return Err(LineFault::Form);
    }
    match word.parse::<u64>() {
        Ok(n) if n <= most => Ok(n),
        _ => Err(LineFault::Form),
    }
}

/// A number from 1 to `most`.
#[tactic(auto, unfolding(crate::specs::Words::positive_of))]
pub fn positive_of(most: u64, word: &str) -> Result<u64, LineFault>
    ensures value { Gives (λ n. n) result (positive_of most word.now) }
    ensures bound { IfOk result (λ n. n ≤ most) }
{
    let n = number_of(most, word)?;
    if 0 < n { Ok(n) } else { Err(LineFault::Form) }
}

/// A client by its number.
#[tactic(auto, unfolding(crate::specs::Words::client_in))]
pub fn client_of(word: &str) -> Result<ClientId, LineFault>
    ensures { Gives (λ c. c) result (client_in word.now) }
{
    let n = number_of(NUMBER_MAX, word)?;
    Ok(ClientId::number(n))
}

/// A region by its name.
pub fn region_of(word: &str) -> Result<Region, LineFault>
    ensures { Gives (λ r. r) result (region_in word.now) }
{
    match word {
        "home" => Ok(Region::Home),
        "west" => Ok(Region::West),
        _ => Err(LineFault::Form),
    }
}

/// A title.
pub fn title_of(alloc: Global, word: &str) -> Result<Title, LineFault>
    ensures { Gives (λ t. t) result (title_in word.now) }
{
    match Title::parse(alloc, word) {
        Ok(title) => Ok(title),
        Err(TitleFault::Memory) => Err(LineFault::Memory),
        Err(_) => Err(LineFault::Form),
    }
}

/// A title that is the last word of its line.
#[tactic(auto, unfolding(crate::specs::Words::last_title))]
pub fn last_title(alloc: Global, word: &str) -> Result<Title, LineFault>
    ensures { Gives (λ t. t) result (last_title word.now) }
{
    match word_at(word) {
        Ok(_) => Err(LineFault::Form),
        Err(LineFault::Form) => title_of(alloc, word),
        Err(LineFault::Memory) => Err(LineFault::Memory),
    }
}

/// A token.
pub fn token_of(alloc: Global, word: &str) -> Result<Token, LineFault>
    ensures { Gives (λ t. t) result (token_in word.now) }
{
    match Token::parse(alloc, word) {
        Ok(token) => Ok(token),
        Err(TokenFault::Memory) => Err(LineFault::Memory),
        Err(TokenFault::Form) => Err(LineFault::Form),
    }
}

// The character that a backslash before the text spells, and what stands after it.
fn character_at(text: &str) -> Option<(&str, &str)>
    ensures character { MatchOption result (character_at text.now ≡ None)
        (λ x. character_at text.now ≡ Some (x.0.now, x.1.now)) }
    ensures shorter { IfSome result (λ x. length x.1.now < length text.now) }
{
    if let Some(rest) = text.strip_prefix('n') {
        return Some(("\n", rest));
    }
    if let Some(rest) = text.strip_prefix('\\') {
        return Some(("\\", rest));
    }
    None
}

// The text with its escapes undone: `\n` is a line feed, `\\` a backslash. One pass.
#[tactic(auto, using(crate::proofs::Escapes::none_left))]
fn unescaped(alloc: Global, word: &str) -> Result<String, LineFault>
    ensures { Gives (λ plain. string_bytes plain) result (unescaped word.now) }
{
    let mut plain = String::new(alloc);
    let mut rest = word;
    while let Some((prefix, after_slash)) = backslash_at(rest) {
        let Some((character, after)) = character_at(after_slash) else {
            return Err(LineFault::Form);
        };
        plain.push_str(prefix)?;
        plain.push_str(character)?;
        rest = after;
    }
    plain.push_str(rest)?;
    Ok(plain)
}

// What stands before the first backslash, and what after it.
#[tactic(auto, unfolding(crate::specs::Words::cut_first))]
fn backslash_at(text: &str) -> Option<(&str, &str)>
    ensures cut { MatchOption result (cut_first 92 text.now ≡ None)
        (λ x. cut_first 92 text.now ≡ Some (x.0.now, x.1.now)) }
    ensures shorter { IfSome result (λ x. length x.1.now < length text.now) }
{
    text.split_once('\\')
}

fn short_text(alloc: Global, plain: &str) -> Result<Text, LineFault>
    ensures { Gives (λ t. t) result (short_text plain.now) }
{
    match Text::parse(alloc, plain) {
        Ok(text) => Ok(text),
        Err(TextFault::Memory) => Err(LineFault::Memory),
        Err(TextFault::TooLong { .. }) => Err(LineFault::Form),
    }
}

/// A page's text, as the rest of a line spells it.
#[tactic(auto, unfolding(crate::specs::Words::text_in))]
pub fn text_of(alloc: Global, word: &str) -> Result<Text, LineFault>
    ensures { Gives (λ t. t) result (text_in word.now) }
{
    let plain = unescaped(alloc, word)?;
    short_text(alloc, plain.as_str())
}

/// One to eight weights with commas between them.
pub fn weights_of(alloc: Global, word: &str) -> Result<Listed<u16>, LineFault>
    ensures { Gives (λ w. w) result (weights_in replicas_max word.now) }
{
    let mut weights: Vec<u16> = Vec::new(alloc);
    let mut rest = word;
    while weights.len() < REPLICAS_MAX {
        let Some((weight, after)) = comma_at(rest) else {
            push_weight(&mut weights, rest)?;
            return Ok(Listed::new(weights));
        };
        push_weight(&mut weights, weight)?;
        rest = after;
    }
    Err(LineFault::Form)
}

#[tactic(auto, unfolding(crate::specs::Words::cut_first))]
fn comma_at(text: &str) -> Option<(&str, &str)>
    ensures { option_map (λ x. (x.0.now, x.1.now)) result ≡ cut_first 44 text.now }
{
    text.split_once(',')
}

fn push_weight(weights: &mut Vec<u16>, word: &str) -> Result<(), LineFault>
    ensures { Gives (λ _. weights.new.items) result
        (option_map (λ n. weights.old.items ++ n ∷ []) (number_of 1_000 word.now)) }
{
    let weight = number_of(WEIGHT_MAX, word)?;
    match weights.push(weight as u16) {
        Ok(()) => Ok(()),
        Err(_) => Err(LineFault::Memory),
    }
}

// The word without the `+` at its end, and whether it had one.
fn before_plus(word: &str) -> Result<(&str, bool), LineFault>
    ensures { Gives (λ x. (x.0.now, x.1)) result (before_plus word.now) }
{
    match plus_at(word) {
        None => Ok((word, false)),
        Some((before, after)) if after.is_empty() => Ok((before, true)),
        Some(_) => Err(LineFault::Form),
    }
}

#[tactic(auto, unfolding(crate::specs::Words::cut_first))]
fn plus_at(text: &str) -> Option<(&str, &str)>
    ensures { option_map (λ x. (x.0.now, x.1.now)) result ≡ cut_first 43 text.now }
{
    text.split_once('+')
}

/// A client's cookie, and whether it has the cookie `UseDC=master` beside it.
pub fn cookie_of(client: ClientId, word: &str) -> Result<(Option<PosCookie>, bool), LineFault>
    ensures { Gives (λ x. (option_map cookie_of x.0, x.1)) result (cookie_in client word.now) }
{
    if word == "-" {
        return Ok((None, false));
    }
    position_of(client, word)
}

// INDEX@SECONDS, and a `+` at the end if the client stays with home.
#[tactic(auto, unfolding(crate::specs::Words::position_in))]
fn position_of(client: ClientId, word: &str) -> Result<(Option<PosCookie>, bool), LineFault>
    ensures { Gives (λ x. (option_map cookie_of x.0, x.1)) result (position_in client word.now) }
{
    let (index, rest) = sign_at(word)?;
    let index = positive_of(NUMBER_MAX, index)?;
    let (seconds, use_master) = before_plus(rest)?;
    let seconds = number_of(SECONDS_MAX, seconds)?;
    Ok((
        Some(PosCookie {
            index,
            seconds,
            client,
        }),
        use_master,
    ))
}

#[tactic(auto, unfolding(crate::specs::Words::cut_first))]
fn sign_at(text: &str) -> Result<(&str, &str), LineFault>
    ensures { Gives (λ x. (x.0.now, x.1.now)) result (cut_first 64 text.now) }
{
    text.split_once('@').ok_or(LineFault::Form)
}

/// A line as a text.
pub fn utf8_of(line: &[u8]) -> Result<&str, LineFault>
    ensures { Gives (λ t. t.now) result (utf8_of line.now) }
{
    match str::from_utf8(line) {
        Ok(text) => Ok(text),
        Err(_) => Err(LineFault::Form),
    }
}
