// The report of a run: the line of each answer, and the last line.
ghost use Rattle.std.specs.Prelude.{◌≡◌, ◌++◌, Bool, not, codes, decimal, IfOk};
ghost use Rattle.std.specs.String.{string_bytes};
ghost use Rattle.wiki_model.specs.Report.{origin_text, note_text, put_text, by_text, cause_text, answer_text, page_of, report_line, end_line};
ghost use Rattle.region_state.specs.AsModel.{answer_of};
ghost use Rattle.region_state.specs.declared.answer.Answer.TheVariants as answers;
ghost use Rattle.drill_script.specs.Texts.{page_text, shown_note, lagged_text, saved_text, conflict_text, lag_text, text_of, numbered_text, end_text};

use farm_base::Memory;
use region_state::{Answer, Behind, Origin, PageAnswer, PutNote, SavedNote};
use std::alloc::Global;
use wiki_model::Cause;

/// The lines of one answer: its text after the script line's number, and a page's bytes. A composite line is `edit` or
/// `view`: it shows no note of the cache.
pub fn report_line(
    alloc: Global,
    line: u64,
    answer: &Answer,
    composite: bool,
) -> Result<Vec<u8>, Memory>
    ensures { IfOk result (λ text. text.items ≡ report_line line composite (answer_of answer.now)) }
{
    let mut text = report_head(alloc, line, answer, composite)?;
    text.extend_from_slice(page_bytes(answer))?;
    Ok(text)
}

/// The same without the page's bytes, which [`page_bytes`] gives without a copy.
#[tactic(auto, using(crate::proofs::Reports::head_is))]
pub fn report_head(
    alloc: Global,
    line: u64,
    answer: &Answer,
    composite: bool,
) -> Result<Vec<u8>, Memory>
    ensures { IfOk result (λ text.
        text.items ++ page_of (answer_of answer.now) ≡ report_line line composite (answer_of answer.now)) }
{
    let said = answer_text(alloc, !composite, answer)?;
    let numbered = numbered_text(alloc, line, said.as_str())?;
    let mut text = Vec::new(alloc);
    text.extend_from_slice(numbered.as_bytes())?;
    Ok(text)
}

/// The bytes of the answer's page; none if it has none. It takes no memory.
pub fn page_bytes(answer: &Answer) -> &[u8]
    ensures { result.now ≡ page_of (answer_of answer.now) }
{
    match answer {
        Answer::Ok(page) => page.page.bytes(),
        _ => &[],
    }
}

/// The last line of a report.
#[tactic(auto, using(crate::proofs::Reports::end_is))]
pub fn end_line(alloc: Global, answers: u64, entries: u64) -> Result<Vec<u8>, Memory>
    ensures { IfOk result (λ text. text.items ≡ end_line answers entries) }
{
    let said = end_text(alloc, answers, entries)?;
    let mut text = Vec::new(alloc);
    text.extend_from_slice(said.as_bytes())?;
    Ok(text)
}

fn end_text(alloc: Global, answers: u64, entries: u64) -> Result<String, Memory>
    ensures { IfOk result (λ s. string_bytes s ≡ end_text answers entries) }
{
    Ok(format!(in alloc; "end answers={answers} entries={entries}\n")?)
}

fn numbered_text(alloc: Global, line: u64, text: &str) -> Result<String, Memory>
    ensures { IfOk result (λ s. string_bytes s ≡ numbered_text line text.now) }
{
    Ok(format!(in alloc; "{line} {text}\n")?)
}

/// What an answer says in words, without its line's number and without the line feed; `with_note` shows how a value was
/// put.
#[tactic(auto, using(crate::proofs::Reports::text_is))]
pub fn answer_text(alloc: Global, with_note: bool, answer: &Answer) -> Result<String, Memory>
    ensures { IfOk result (λ s. string_bytes s ≡ answer_text with_note (answer_of answer.now)) }
{
    let text = text_of(alloc, with_note, answer)?;
    Ok(text)
}

fn text_of(alloc: Global, with_note: bool, answer: &Answer) -> Result<String, Memory>
    ensures { IfOk result (λ s. string_bytes s ≡ text_of with_note answer.now) }
{
    match answer {
        Answer::Ok(page) => page_line(alloc, with_note, page),
        Answer::Saved(saved) => saved_text(alloc, saved),
        Answer::NoPage { source } => no_page_text(alloc, *source),
        Answer::Conflict { base, current } => conflict_text(alloc, *base, *current),
        Answer::Token { entry } => token_text(alloc, *entry),
        Answer::Lag {
            by,
            needed,
            reached,
        } => lag_text(alloc, *by, *needed, *reached),
        Answer::Miss { cause } => miss_text(alloc, *cause),
        Answer::NotOpen { id } => not_open_text(alloc, *id),
        Answer::Unknown { message } => unknown_text(alloc, *message),
        Answer::Gone { message } => gone_text(alloc, *message),
        Answer::Store => Ok(String::from_str(alloc, "store")?),
        Answer::Memory => Ok(String::from_str(alloc, "memory")?),
    }
}

fn page_line(alloc: Global, with_note: bool, page: &PageAnswer) -> Result<String, Memory>
    ensures { IfOk result (λ s. string_bytes s ≡ text_of with_note (answers.Ok page.now)) }
{
    let origin = origin_text(alloc, page.origin)?;
    let note = shown_note(alloc, with_note, page)?;
    let lagged = if page.lagged { "1" } else { "0" };
    let bytes = page.page.bytes().len();
    page_text(
        alloc,
        page.source,
        origin.as_str(),
        note.as_str(),
        lagged,
        bytes,
    )
}

fn page_text(
    alloc: Global,
    source: u64,
    origin: &str,
    note: &str,
    lagged: &str,
    bytes: usize,
) -> Result<String, Memory>
    ensures { IfOk result (λ s. string_bytes s ≡ page_text source origin.now note.now lagged.now bytes) }
{
    Ok(format!(in alloc; "ok source={source} from={origin}{note} lagged={lagged} bytes={bytes}")?)
}

/// Where a page came from, in words.
pub fn origin_text(alloc: Global, origin: Origin) -> Result<String, Memory>
    ensures { IfOk result (λ s. string_bytes s ≡ origin_text origin) }
{
    match origin {
        Origin::Hit => Ok(String::from_str(alloc, "hit")?),
        Origin::Interim => Ok(String::from_str(alloc, "interim")?),
        Origin::Replica(replica) => Ok(format!(in alloc; "replica:{replica}")?),
    }
}

fn shown_note(alloc: Global, with_note: bool, page: &PageAnswer) -> Result<String, Memory>
    ensures { IfOk result (λ s. string_bytes s ≡ shown_note with_note page.now) }
{
    if with_note {
        put_text(alloc, page.put)
    } else {
        Ok(String::new(alloc))
    }
}

fn put_text(alloc: Global, put: Option<PutNote>) -> Result<String, Memory>
    ensures { IfOk result (λ s. string_bytes s ≡ put_text put) }
{
    match put {
        None => Ok(String::new(alloc)),
        Some(note) => {
            let note = note_text(alloc, note)?;
            Ok(format!(in alloc; " put={note}")?)
        }
    }
}

fn note_text(alloc: Global, note: PutNote) -> Result<String, Memory>
    ensures { IfOk result (λ s. string_bytes s ≡ note_text note) }
{
    match note {
        PutNote::Whole => Ok(String::from_str(alloc, "whole")?),
        PutNote::Lagged => Ok(String::from_str(alloc, "lagged")?),
        PutNote::Interim => Ok(String::from_str(alloc, "interim")?),
        PutNote::Held => Ok(String::from_str(alloc, "held")?),
        PutNote::NoPending => Ok(String::from_str(alloc, "no-pending")?),
        PutNote::NoOld => Ok(String::from_str(alloc, "no-old")?),
        PutNote::NoMedium => Ok(String::from_str(alloc, "no-medium")?),
        PutNote::Busy(holder) => Ok(format!(in alloc; "busy:{holder}")?),
        PutNote::Memory => Ok(String::from_str(alloc, "memory")?),
    }
}

fn saved_text(alloc: Global, saved: &SavedNote) -> Result<String, Memory>
    ensures { IfOk result (λ s. string_bytes s ≡ saved_text saved.now) }
{
    let entry = saved.entry;
    let revision = saved.revision;
    let index = saved.index;
    let seconds = saved.seconds;
    Ok(format!(in alloc; "saved entry={entry} revision={revision} cookie={index}@{seconds}")?)
}

fn no_page_text(alloc: Global, source: u64) -> Result<String, Memory>
    ensures { IfOk result (λ s. string_bytes s ≡ codes "no-page source=" ++ decimal source) }
{
    Ok(format!(in alloc; "no-page source={source}")?)
}

fn conflict_text(alloc: Global, base: u64, current: u64) -> Result<String, Memory>
    ensures { IfOk result (λ s. string_bytes s ≡ conflict_text base current) }
{
    Ok(format!(in alloc; "conflict base={base} current={current}")?)
}

fn token_text(alloc: Global, entry: u64) -> Result<String, Memory>
    ensures { IfOk result (λ s. string_bytes s ≡ codes "token entry=" ++ decimal entry) }
{
    Ok(format!(in alloc; "token entry={entry}")?)
}

fn lag_text(alloc: Global, by: Behind, needed: u64, reached: u64) -> Result<String, Memory>
    ensures { IfOk result (λ s. string_bytes s ≡ lag_text by needed reached) }
{
    let by = by_text(by);
    Ok(format!(in alloc; "lag {by} needed={needed} reached={reached}")?)
}

fn by_text(by: Behind) -> &'static str
    ensures { result.now ≡ by_text by }
{
    match by {
        Behind::Index => "index",
        Behind::Entry => "entry",
    }
}

fn miss_text(alloc: Global, cause: Cause) -> Result<String, Memory>
    ensures { IfOk result (λ s. string_bytes s ≡ codes "miss " ++ cause_text cause) }
{
    let cause = cause_text(alloc, cause)?;
    Ok(format!(in alloc; "miss {cause}")?)
}

fn cause_text(alloc: Global, cause: Cause) -> Result<String, Memory>
    ensures { IfOk result (λ s. string_bytes s ≡ cause_text cause) }
{
    match cause {
        Cause::Absent => Ok(String::from_str(alloc, "absent")?),
        Cause::Expired { at } => named_number(alloc, "expired:", at.0),
        Cause::Purged { floor } => named_number(alloc, "purged:", floor.0),
        Cause::Checked { check } => named_number(alloc, "checked:", check.0),
        Cause::Epoch => Ok(String::from_str(alloc, "epoch")?),
        Cause::Version => Ok(String::from_str(alloc, "version")?),
        Cause::Position { have } => named_number(alloc, "position:", have),
        Cause::Busy { holder } => named_number(alloc, "busy:", u64::from(holder)),
    }
}

fn named_number(alloc: Global, name: &str, number: u64) -> Result<String, Memory>
    ensures { IfOk result (λ s. string_bytes s ≡ name.now ++ decimal number) }
{
    Ok(format!(in alloc; "{name}{number}")?)
}

fn not_open_text(alloc: Global, id: u64) -> Result<String, Memory>
    ensures { IfOk result (λ s. string_bytes s ≡ codes "not-open id=" ++ decimal id) }
{
    Ok(format!(in alloc; "not-open id={id}")?)
}

fn unknown_text(alloc: Global, message: u64) -> Result<String, Memory>
    ensures { IfOk result (λ s. string_bytes s ≡ codes "unknown message=" ++ decimal message) }
{
    Ok(format!(in alloc; "unknown message={message}")?)
}

fn gone_text(alloc: Global, message: u64) -> Result<String, Memory>
    ensures { IfOk result (λ s. string_bytes s ≡ codes "gone message=" ++ decimal message) }
{
    Ok(format!(in alloc; "gone message={message}")?)
}
