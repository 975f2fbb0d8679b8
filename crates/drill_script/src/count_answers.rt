// What is counted of the answers of a run.
ghost use Rattle.std.specs.Prelude.{◌≡◌, ◌<◌, ◌^◌, ◌++◌, ◌∷◌, [], List, IfOk};
ghost use Rattle.std.specs.String.{string_bytes};
ghost use Rattle.wiki_model.specs.Answers as model;
ghost use Rattle.wiki_model.specs.Generator.{summary_of, is_page, is_hit, is_interim, is_saved, is_no_page, is_lag};
ghost use Rattle.region_state.specs.AsModel.{answer_of};
ghost use Rattle.drill_script.specs.Summary.{IsSummaryOf, IsOrdered, counted, first_text, second_text};

use farm_base::Memory;
use region_state::{Answer, Origin};
use std::alloc::Global;

/// Counts of the answers that a run has shown.
#[derive(Clone, Copy, Debug, PartialEq, Eq)]
pub struct Summary {
    /// All answers.
    pub answers: u64,
    /// Edits that were saved.
    pub saved: u64,
    /// Pages.
    pub pages: u64,
    /// Pages that were the cache's main value.
    pub hits: u64,
    /// Pages that were the cache's interim value.
    pub interim: u64,
    /// Views of a title that has no page.
    pub no_pages: u64,
    /// Views that were behind.
    pub lags: u64,
}

impl Summary {
    /// The counts of no answer.
    pub fn new() -> Summary
        ensures none { IsSummaryOf result [] }
        ensures ordered { IsOrdered result }
    {
        Summary {
            answers: 0,
            saved: 0,
            pages: 0,
            hits: 0,
            interim: 0,
            no_pages: 0,
            lags: 0,
        }
    }
}

/// Counts one more answer.
#[tactic(auto, using(crate::proofs::Summaries::one_more))]
pub fn count_answer(summary: &mut Summary, answer: &Answer)
    requires room { summary.old.answers < 2 ^ 63 }
    requires ordered { IsOrdered summary.old }
    ensures counted { summary.new ≡ counted summary.old (answer_of answer.now) }
    ensures ordered { IsOrdered summary.new }
    ensures more { (answers : List model.Answer) → IsSummaryOf summary.old answers
        → IsSummaryOf summary.new (answers ++ answer_of answer.now ∷ []) }
{
    summary.answers += 1;
    match answer {
        Answer::Ok(page) => {
            summary.pages += 1;
            match page.origin {
                Origin::Hit => summary.hits += 1,
                Origin::Interim => summary.interim += 1,
                Origin::Replica(_) => {}
            }
        }
        Answer::Saved(_) => summary.saved += 1,
        Answer::NoPage { .. } => summary.no_pages += 1,
        Answer::Lag { .. } => summary.lags += 1,
        _ => {}
    }
}

/// The line of a run that was made from so many steps and ended with so many entries in the history.
#[tactic(auto, using(crate::proofs::Summaries::summary_is))]
pub fn summary_line(
    alloc: Global,
    steps: u32,
    entries: u64,
    summary: &Summary,
) -> Result<Vec<u8>, Memory>
    ensures { IfOk result (λ text. (answers : List model.Answer) → IsSummaryOf summary.now answers
        → text.items ≡ summary_of steps entries answers) }
{
    let said = summary_text(alloc, steps, entries, summary)?;
    let mut text = Vec::new(alloc);
    text.extend_from_slice(said.as_bytes())?;
    Ok(text)
}

fn summary_text(
    alloc: Global,
    steps: u32,
    entries: u64,
    summary: &Summary,
) -> Result<String, Memory>
    ensures { IfOk result (λ s. string_bytes s ≡ first_text steps entries summary.now ++ second_text summary.now) }
{
    let mut text = first_text(alloc, steps, entries, summary)?;
    let more = second_text(alloc, summary)?;
    text.push_str(more.as_str())?;
    Ok(text)
}

fn first_text(alloc: Global, steps: u32, entries: u64, summary: &Summary) -> Result<String, Memory>
    ensures { IfOk result (λ s. string_bytes s ≡ first_text steps entries summary.now) }
{
    let saved = summary.saved;
    let pages = summary.pages;
    Ok(format!(in alloc; "stir steps={steps} entries={entries} saved={saved} ok={pages}")?)
}

fn second_text(alloc: Global, summary: &Summary) -> Result<String, Memory>
    ensures { IfOk result (λ s. string_bytes s ≡ second_text summary.now) }
{
    let hits = summary.hits;
    let interim = summary.interim;
    let none = summary.no_pages;
    let lags = summary.lags;
    Ok(format!(in alloc; " hit={hits} interim={interim} no-page={none} lag={lags}\n")?)
}
