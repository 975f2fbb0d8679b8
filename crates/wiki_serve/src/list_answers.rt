// The response to a batch: the line of each answer, and after it the page's bytes.
ghost use Rattle.std.specs.Prelude.{◌≡◌, ◌++◌, [], true, false, IfOk, OnOk};
ghost use Rattle.region_round.specs.AsModel.{answers_of};
ghost use Rattle.region_state.specs.AsModel.{answer_of};
ghost use Rattle.wiki_model.specs.Report.{report_line};
ghost use Rattle.http_reply.specs.Reply.{head_of_length};
ghost use Rattle.wiki_serve.specs.Replies.{batch_body};

use drill_script::{page_bytes, report_head};
use farm_base::Memory;
use farm_core::Answer;
use http_reply::{Status, head_of_length};
use std::alloc::Global;

/// Room for the line of an answer; longer ones let the body grow.
const LINE_ROOM: usize = 96; // bytes

/// What stands before the body, which has this many bytes.
pub(crate) fn listed_head(alloc: Global, count: usize, close: bool) -> Result<Vec<u8>, Memory>
    ensures { IfOk result (λ start. start.items ≡ head_of_length 200 false count [] close) }
{
    let head = head_of_length(alloc, Status::Ok, false, count, &[], close)?;
    Ok(head.into_bytes())
}

/// The body, into which each page is copied once.
pub(crate) fn batch_body(alloc: Global, answers: &[Answer]) -> Result<Vec<u8>, Memory>
    ensures { IfOk result (λ body. body.items ≡ batch_body 1 (answers_of answers.now)) }
{
    let mut body = Vec::with_capacity(alloc, body_room(answers))?;
    let mut number: u64 = 0;
    for answer in answers.iter() {
        number += 1;
        push_answer(alloc, &mut body, number, answer)?;
    }
    Ok(body)
}

/// Adds an answer's line and its page.
fn push_answer(
    alloc: Global,
    body: &mut Vec<u8>,
    number: u64,
    answer: &Answer,
) -> Result<(), Memory>
    ensures { OnOk result (body.new.items ≡ body.old.items ++ report_line number true (answer_of answer.now)) }
{
    let line = report_head(alloc, number, answer, true)?;
    body.extend_from_slice(&line)?;
    body.extend_from_slice(page_bytes(answer))?;
    Ok(())
}

/// Room for the whole body.
fn body_room(answers: &[Answer]) -> usize {
    let mut room: usize = 0;
    for answer in answers.iter() {
        room = room.saturating_add(page_bytes(answer).len().saturating_add(LINE_ROOM));
    }
    room
}
