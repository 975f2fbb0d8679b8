// Texts of a form, and the titles that they name.
ghost use Rattle.std.specs.Prelude.{◌≡◌, ◌++◌, ◌∷◌, [], true, false, map, option_map, flat_map, IfOk, OnOk, string_bytes};
ghost use Rattle.std.specs.List.{list_all};
ghost use Rattle.wiki_model.specs.Bytes.{pieces};
ghost use Rattle.http_desk.specs.Calls.{is_title, pairs_in, named, if_named, only};
ghost use Rattle.http_desk.specs.AsModel.{HasTitle, HasTitles};

use crate::texts::owned;
use farm_base::{Memory, bytes};
use form_urlencoded::parse;
use std::alloc::Global;
use wiki_titles::{Title, TitleFault};

/// The title that a text names, or none.
#[derive(Debug, Drop)]
pub enum MaybeTitle {
    Title(Title),
    None,
    Memory,
}

pub(crate) fn title_named(alloc: Global, text: &str) -> MaybeTitle
    ensures { HasTitle result text.now }
{
    match Title::parse(alloc, text) {
        Ok(title) => MaybeTitle::Title(title),
        Err(TitleFault::Memory) => MaybeTitle::Memory,
        Err(_) => MaybeTitle::None,
    }
}

/// Whether each of some texts names a title.
#[derive(Clone, Copy, Debug, PartialEq, Eq)]
pub enum AllTitles {
    Yes,
    No,
    Memory,
}

pub(crate) fn are_titles(alloc: Global, texts: &[String]) -> AllTitles
    ensures yes { result ≡ AllTitles.Yes → list_all is_title (map string_bytes texts.now) ≡ true }
    ensures no { result ≡ AllTitles.No → list_all is_title (map string_bytes texts.now) ≡ false }
{
    for text in texts {
        match title_named(alloc, text.as_str()) {
            MaybeTitle::Title(_) => {}
            MaybeTitle::None => return AllTitles::No,
            MaybeTitle::Memory => return AllTitles::Memory,
        }
    }
    AllTitles::Yes
}

/// The titles of some texts, if each of them names one.
#[derive(Debug, Drop)]
pub enum Titles {
    All(Vec<Title>),
    Bad,
    Memory,
}

pub(crate) fn titles_of(alloc: Global, texts: &[String]) -> Titles
    ensures { HasTitles result (map string_bytes texts.now) }
{
    let mut titles = Vec::new(alloc);
    for text in texts {
        match title_named(alloc, text.as_str()) {
            MaybeTitle::Title(title) => {
                if titles.push(title).is_err() {
                    return Titles::Memory;
                }
            }
            MaybeTitle::None => return Titles::Bad,
            MaybeTitle::Memory => return Titles::Memory,
        }
    }
    Titles::All(titles)
}

/// The one text of a list that has one.
pub(crate) fn only(texts: &[String]) -> Option<&str>
    ensures { option_map (λ text. text.now) result ≡ only (map string_bytes texts.now) }
{
    match texts {
        [text] => Some(text.as_str()),
        _ => None,
    }
}

/// The decoded values of a name in a form or a query, in their order.
#[tactic(auto, using(crate::proofs::Named::named_more))]
pub(crate) fn values_named(alloc: Global, form: &[u8], name: &str) -> Result<Vec<String>, Memory>
    ensures { IfOk result (λ values. map string_bytes values.items ≡ named name.now (pairs_in form.now)) }
{
    let mut values = Vec::new(alloc);
    for pair in parse(alloc, form) {
        let (own, value) = pair?;
        push_if(alloc, &mut values, name, own.as_str(), value.as_str())?;
    }
    Ok(values)
}

/// Adds the value, if it is the name's own.
pub(crate) fn push_if(
    alloc: Global,
    values: &mut Vec<String>,
    name: &str,
    own: &str,
    value: &str,
) -> Result<(), Memory>
    ensures { OnOk result (map string_bytes values.new.items
        ≡ map string_bytes values.old.items ++ if_named name.now own.now value.now) }
{
    if own == name {
        values.push(String::from_str(alloc, value)?)?;
    }
    Ok(())
}

/// The texts between the bars of all values.
pub(crate) fn pieces_of(alloc: Global, values: &[String]) -> Result<Vec<String>, Memory>
    ensures { IfOk result (λ texts. map string_bytes texts.items
        ≡ flat_map (pieces 124) (map string_bytes values.now)) }
{
    let mut texts = Vec::new(alloc);
    for value in values {
        add_pieces(alloc, &mut texts, value.as_bytes())?;
    }
    Ok(texts)
}

#[tactic(auto, using(crate::proofs::Bars::last_piece, crate::proofs::Bars::next_piece, crate::proofs::Bars::rest_shorter))]
fn add_pieces(alloc: Global, texts: &mut Vec<String>, value: &[u8]) -> Result<(), Memory>
    ensures { OnOk result (map string_bytes texts.new.items
        ≡ map string_bytes texts.old.items ++ pieces 124 value.now) }
{
    let mut rest = value;
    while let Some((piece, after)) = bytes::cut_at(rest, b'|') {
        push_piece(alloc, texts, piece)?;
        rest = after;
    }
    push_piece(alloc, texts, rest)
}

fn push_piece(alloc: Global, texts: &mut Vec<String>, piece: &[u8]) -> Result<(), Memory>
    ensures { OnOk result (map string_bytes texts.new.items
        ≡ map string_bytes texts.old.items ++ piece.now ∷ []) }
{
    texts.push(owned(alloc, piece)?)?;
    Ok(())
}
