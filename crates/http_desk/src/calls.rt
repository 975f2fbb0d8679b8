// What a method, a target and a whole body ask for, or the first refusal that they give.
ghost use Rattle.std.specs.Prelude.{◌≡◌, false, map, option_map, IfOk, codes, string_bytes};
ghost use Rattle.wiki_model.specs.Titles.{with_line_feeds};
ghost use Rattle.http_desk.specs.Calls.{call_of_route, call_on, page_call, edit_call, batch_call, call_in, pairs_in, named, base_in, edit_text, edit_fields, edit_with, batch_with};
ghost use Rattle.http_desk.specs.AsModel.{ReadsCall, route_shown};

use crate::request::Call;
use crate::routes::{Route, has_method, path_of, query_of, route_of, takes_post};
use crate::texts::number_in;
use crate::titles::{
    AllTitles, MaybeTitle, Titles, are_titles, only, pieces_of, push_if, title_named, titles_of,
    values_named,
};
use farm_base::Memory;
use farm_base::bytes::DIGITS_MAX;
use form_urlencoded::parse;
use http_reply::Fault;
use percent_encoding::{DecodeError, percent_decode};
use std::alloc::Global;
use wiki_titles::{Text, TextFault, Title, Token, TokenFault};

/// A batch has at most this many titles.
pub const BATCH_MAX: usize = 16; // titles

/// What a request asks for, or why it is refused.
#[derive(Debug, Drop)]
pub enum Outcome {
    Call(Call),
    Refused(Fault),
    Memory,
}

/// What a method, a target and a whole body ask for, or the first refusal that they give.
pub(crate) fn call_in(alloc: Global, method: &[u8], target: &[u8], body: &[u8]) -> Outcome
    ensures { ReadsCall result (call_in false method.now target.now body.now) }
{
    if !target.starts_with(b"/") {
        return Outcome::Refused(Fault::BadTarget);
    }
    call_on(
        alloc,
        route_of(path_of(target)),
        method,
        query_of(target),
        body,
    )
}

fn call_on(
    alloc: Global,
    route: Option<Route<'_>>,
    method: &[u8],
    query: &[u8],
    body: &[u8],
) -> Outcome
    ensures { ReadsCall result (call_on (option_map route_shown route.entry) method.now query.now body.now) }
{
    let Some(route) = route else {
        return Outcome::Refused(Fault::NoRoute);
    };
    let post = takes_post(route);
    if has_method(post, method) {
        call_of_route(alloc, route, query, body)
    } else {
        Outcome::Refused(Fault::WrongMethod { post })
    }
}

fn call_of_route(alloc: Global, route: Route<'_>, query: &[u8], body: &[u8]) -> Outcome
    ensures { ReadsCall result (call_of_route (route_shown route.entry) query.now body.now) }
{
    match route {
        Route::Page(rest) => page_call(alloc, rest),
        Route::Edit => edit_call(alloc, body),
        Route::Batch => batch_call(alloc, query),
    }
}

#[tactic(auto, using(crate::proofs::Utf8::is_text, farm_base::proofs::Pieces::not_utf8))]
fn page_call(alloc: Global, rest: &[u8]) -> Outcome
    ensures { ReadsCall result (page_call rest.now) }
{
    match percent_decode(rest).decode_utf8(alloc) {
        Ok(text) => match title_named(alloc, text.as_str()) {
            MaybeTitle::Title(title) => Outcome::Call(Call::Page(title)),
            MaybeTitle::None => Outcome::Refused(Fault::BadTitle),
            MaybeTitle::Memory => Outcome::Memory,
        },
        Err(DecodeError::OutOfMemory) => Outcome::Memory,
        Err(_) => Outcome::Refused(Fault::BadTitle),
    }
}

// The values of the form of an edit, by name.
#[derive(Debug, Drop)]
struct EditForm {
    titles: Vec<String>,
    bases: Vec<String>,
    tokens: Vec<String>,
    texts: Vec<String>,
}

fn edit_call(alloc: Global, body: &[u8]) -> Outcome
    ensures { ReadsCall result (edit_call (pairs_in body.now)) }
{
    match edit_form(alloc, body) {
        Ok(form) => edit_with(alloc, &form.titles, &form.bases, &form.tokens, &form.texts),
        Err(_) => Outcome::Memory,
    }
}

// One pass over the body.
#[tactic(auto, using(crate::proofs::Named::named_more))]
fn edit_form(alloc: Global, body: &[u8]) -> Result<EditForm, Memory>
    ensures titles { IfOk result (λ f. map string_bytes f.titles.items ≡ named (codes "title") (pairs_in body.now)) }
    ensures bases { IfOk result (λ f. map string_bytes f.bases.items ≡ named (codes "base") (pairs_in body.now)) }
    ensures tokens { IfOk result (λ f. map string_bytes f.tokens.items ≡ named (codes "token") (pairs_in body.now)) }
    ensures texts { IfOk result (λ f. map string_bytes f.texts.items ≡ named (codes "text") (pairs_in body.now)) }
{
    let mut titles = Vec::new(alloc);
    let mut bases = Vec::new(alloc);
    let mut tokens = Vec::new(alloc);
    let mut texts = Vec::new(alloc);
    for pair in parse(alloc, body) {
        let (own, value) = pair?;
        push_if(alloc, &mut titles, "title", own.as_str(), value.as_str())?;
        push_if(alloc, &mut bases, "base", own.as_str(), value.as_str())?;
        push_if(alloc, &mut tokens, "token", own.as_str(), value.as_str())?;
        push_if(alloc, &mut texts, "text", own.as_str(), value.as_str())?;
    }
    Ok(EditForm {
        titles,
        bases,
        tokens,
        texts,
    })
}

// All titles are tested before a field.
fn edit_with(
    alloc: Global,
    titles: &[String],
    bases: &[String],
    tokens: &[String],
    texts: &[String],
) -> Outcome
    ensures { ReadsCall result (edit_with (map string_bytes titles.now) (map string_bytes bases.now)
        (map string_bytes tokens.now) (map string_bytes texts.now)) }
{
    let Some(title) = only(titles) else {
        return match are_titles(alloc, titles) {
            AllTitles::Yes => Outcome::Refused(Fault::BadField),
            AllTitles::No => Outcome::Refused(Fault::BadTitle),
            AllTitles::Memory => Outcome::Memory,
        };
    };
    match title_named(alloc, title) {
        MaybeTitle::Title(title) => {
            edit_fields(alloc, title, only(bases), only(tokens), only(texts))
        }
        MaybeTitle::None => Outcome::Refused(Fault::BadTitle),
        MaybeTitle::Memory => Outcome::Memory,
    }
}

#[tactic(auto, using(crate::proofs::EditFields::fields_read))]
fn edit_fields(
    alloc: Global,
    title: Title,
    base: Option<&str>,
    token: Option<&str>,
    text: Option<&str>,
) -> Outcome
    ensures { ReadsCall result (edit_fields title (option_map (λ t. t.now) base.entry)
        (option_map (λ t. t.now) token.entry) (option_map (λ t. t.now) text.entry)) }
{
    let (Some(base), Some(token), Some(text)) = (base, token, text) else {
        return Outcome::Refused(Fault::BadField);
    };
    let Some(base) = base_in(base) else {
        return Outcome::Refused(Fault::BadField);
    };
    match Token::parse(alloc, token) {
        Ok(token) => edit_text(alloc, title, base, token, text),
        Err(TokenFault::Form) => Outcome::Refused(Fault::BadField),
        Err(TokenFault::Memory) => Outcome::Memory,
    }
}

fn base_in(text: &str) -> Option<u64>
    ensures { result ≡ base_in text.now }
{
    match number_in(text.as_bytes(), DIGITS_MAX) {
        Some(number) if number < 1 << 63 => Some(number),
        _ => None,
    }
}

fn edit_text(alloc: Global, title: Title, base: u64, token: Token, text: &str) -> Outcome
    ensures { ReadsCall result (edit_text title base token (with_line_feeds text.now)) }
{
    match Text::parse(alloc, text) {
        Ok(text) => Outcome::Call(Call::Edit {
            title,
            base,
            token,
            text,
        }),
        Err(TextFault::TooLong { bytes }) => Outcome::Refused(Fault::LargeText { bytes }),
        Err(TextFault::Memory) => Outcome::Memory,
    }
}

fn batch_call(alloc: Global, query: &[u8]) -> Outcome
    ensures { ReadsCall result (batch_call (pairs_in query.now)) }
{
    match batch_outcome(alloc, query) {
        Ok(outcome) => outcome,
        Err(_) => Outcome::Memory,
    }
}

fn batch_outcome(alloc: Global, query: &[u8]) -> Result<Outcome, Memory>
    ensures { IfOk result (λ outcome. ReadsCall outcome (batch_call (pairs_in query.now))) }
{
    let values = values_named(alloc, query, "titles")?;
    let texts = pieces_of(alloc, &values)?;
    Ok(batch_with(alloc, values.len() == 1, &texts))
}

// All titles are tested before their number.
fn batch_with(alloc: Global, once: bool, texts: &[String]) -> Outcome
    ensures { ReadsCall result (batch_with once (map string_bytes texts.now)) }
{
    match titles_of(alloc, texts) {
        Titles::All(titles) => {
            if once && texts.len() <= BATCH_MAX {
                Outcome::Call(Call::Batch(titles))
            } else {
                Outcome::Refused(Fault::BadField)
            }
        }
        Titles::Bad => Outcome::Refused(Fault::BadTitle),
        Titles::Memory => Outcome::Memory,
    }
}
