// The response to an answer: its head, and its body as far as that is no page.
ghost use Rattle.std.specs.Prelude.{◌≡◌, ◌++◌, ◌∷◌, length, if◌then◌else◌, [], IfOk, OnOk, true, codes};
ghost use Rattle.std.specs.String.{string_bytes};
ghost use Rattle.std.specs.Arc.{arc_value};
ghost use Rattle.wiki_model.specs.Report.{page_of, origin_text};
ghost use Rattle.region_state.specs.AsModel.{answer_of};
ghost use Rattle.edit_core.specs.AsModel.{saved_of};
ghost use Rattle.http_reply.specs.Reply.{head_of_length, answer_bytes, text_line};
ghost use Rattle.http_reply.specs.AsModel.{lines_of, status_of};
ghost use Rattle.wiki_serve.specs.Replies.{location_of, answer_status, answer_lines, page_lines, saved_lines};
ghost use Rattle.wiki_serve.specs.Replies.{answer_reply, text_reply, source_lines};

use drill_script::{answer_text, origin_text, page_bytes};
use farm_base::Memory;
use farm_core::{Answer, Origin, PageAnswer, SavedNote};
use http_reply::{Reply, Status, answer_bytes, head_of_length};
use std::alloc::Global;
use sticky_routes::{PosCookie, no_edge_value, position_value, use_master_value};
use wiki_titles::Title;

/// Where the page of a title is.
pub(crate) fn location_of(alloc: Global, title: &Title) -> Result<String, Memory>
    ensures { IfOk result (λ text. string_bytes text ≡ location_of title.now) }
{
    let mut text = String::from_str(alloc, "/wiki/")?;
    title.push_url(&mut text)?;
    Ok(text)
}

/// The response to an answer, but for the bytes of its page; those are [`sent_page`].
pub(crate) fn answer_start(
    alloc: Global,
    location: &str,
    answer: &Answer,
    head: bool,
    close: bool,
) -> Result<Vec<u8>, Memory>
    ensures { IfOk result (λ start. start.items ++ (if head then [] else page_of (answer_of answer.now))
        ≡ answer_bytes (answer_reply location.now (answer_of answer.now) head close)) }
{
    let lines = answer_lines(alloc, location, answer)?;
    match answer {
        Answer::Ok(page) => page_head(alloc, page, &lines, close),
        _ => text_response(alloc, answer, lines, head, close),
    }
}

/// The bytes of an answer's page; none if it has none, or if the request was `HEAD`.
pub(crate) fn sent_page(answer: &Answer, head: bool) -> &[u8]
    ensures { result.now ≡ (if head then [] else page_of (answer_of answer.now)) }
{
    if head { &[] } else { page_bytes(answer) }
}

fn page_head(
    alloc: Global,
    page: &PageAnswer,
    lines: &[(String, String)],
    close: bool,
) -> Result<Vec<u8>, Memory>
    ensures { IfOk result (λ start.
        start.items ≡ head_of_length 200 true (length (arc_value page.now.page)) (lines_of lines.now) close) }
{
    let head = head_of_length(
        alloc,
        Status::Ok,
        true,
        page.page.bytes().len(),
        lines,
        close,
    )?;
    Ok(head.into_bytes())
}

fn text_response(
    alloc: Global,
    answer: &Answer,
    lines: Vec<(String, String)>,
    head: bool,
    close: bool,
) -> Result<Vec<u8>, Memory>
    ensures { IfOk result (λ bytes.
        bytes.items ≡ answer_bytes (text_reply (answer_of answer.now) (lines_of lines.items) head close)) }
{
    let text = answer_text(alloc, false, answer)?;
    let reply = Reply {
        status: status_of(answer),
        html: false,
        body: line_of(alloc, text.as_str())?,
        lines,
        head,
        close,
    };
    answer_bytes(alloc, &reply)
}

/// The text as a line.
fn line_of(alloc: Global, text: &str) -> Result<Vec<u8>, Memory>
    ensures { IfOk result (λ line. line.items ≡ text_line text.now) }
{
    let mut line = Vec::new(alloc);
    line.extend_from_slice(text.as_bytes())?;
    line.push(b'\n')?;
    Ok(line)
}

fn status_of(answer: &Answer) -> Status
    ensures { status_of result ≡ answer_status (answer_of answer.now) }
{
    match answer {
        Answer::Ok(_) => Status::Ok,
        Answer::Saved(_) => Status::SeeOther,
        Answer::NoPage { .. } => Status::NotFound,
        Answer::Conflict { .. } => Status::Conflict,
        Answer::Token { .. } => Status::Unprocessable,
        Answer::Lag { .. } => Status::Unavailable,
        Answer::Store => Status::BadGateway,
        Answer::Miss { .. }
        | Answer::NotOpen { .. }
        | Answer::Unknown { .. }
        | Answer::Gone { .. }
        | Answer::Memory => Status::NoStorage,
    }
}

/// The fields that only some responses have.
fn answer_lines(
    alloc: Global,
    location: &str,
    answer: &Answer,
) -> Result<Vec<(String, String)>, Memory>
    ensures { IfOk result (λ lines. lines_of lines.items ≡ answer_lines location.now (answer_of answer.now)) }
{
    match answer {
        Answer::Ok(page) => page_lines(alloc, page.source, page.origin, page.lagged),
        Answer::NoPage { source } => source_lines(alloc, *source),
        Answer::Saved(saved) => saved_lines(alloc, location, saved),
        _ => Ok(Vec::new(alloc)),
    }
}

fn page_lines(
    alloc: Global,
    source: u64,
    origin: Origin,
    lagged: bool,
) -> Result<Vec<(String, String)>, Memory>
    ensures { IfOk result (λ lines. lines_of lines.items ≡ page_lines source (origin_text origin) lagged) }
{
    let mut lines = source_lines(alloc, source)?;
    let origin = origin_text(alloc, origin)?;
    lines.push((String::from_str(alloc, "Wiki-From")?, origin))?;
    let mark = String::from_str(alloc, if lagged { "1" } else { "0" })?;
    lines.push((String::from_str(alloc, "Wiki-Lagged")?, mark))?;
    Ok(lines)
}

fn source_lines(alloc: Global, source: u64) -> Result<Vec<(String, String)>, Memory>
    ensures { IfOk result (λ lines. lines_of lines.items ≡ source_lines source) }
{
    let mut lines = Vec::new(alloc);
    let number = format!(in alloc; "{source}")?;
    lines.push((String::from_str(alloc, "Wiki-Source")?, number))?;
    Ok(lines)
}

fn saved_lines(
    alloc: Global,
    location: &str,
    saved: &SavedNote,
) -> Result<Vec<(String, String)>, Memory>
    ensures { IfOk result (λ lines. lines_of lines.items ≡ saved_lines location.now (saved_of saved.now)) }
{
    let cookie = PosCookie {
        index: saved.index,
        seconds: saved.seconds,
        client: saved.client,
    };
    let position = position_value(alloc, &cookie)?;
    let mut lines = Vec::new(alloc);
    push_line(alloc, &mut lines, "Location", location)?;
    push_line(alloc, &mut lines, "Set-Cookie", position.as_str())?;
    push_line(alloc, &mut lines, "Set-Cookie", use_master_value())?;
    push_line(alloc, &mut lines, "Set-Cookie", no_edge_value())?;
    Ok(lines)
}

fn push_line(
    alloc: Global,
    lines: &mut Vec<(String, String)>,
    name: &str,
    value: &str,
) -> Result<(), Memory>
    ensures { OnOk result (lines_of lines.new.items ≡ lines_of lines.old.items ++ (name.now, value.now) ∷ []) }
{
    let name = String::from_str(alloc, name)?;
    let value = String::from_str(alloc, value)?;
    lines.push((name, value))?;
    Ok(())
}
