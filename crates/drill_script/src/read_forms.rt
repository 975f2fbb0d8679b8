// The forms of a script's lines, each read exactly.
ghost use Rattle.std.specs.Prelude.{◌≡◌, ◌-◌};
ghost use Rattle.edit_core.specs.AsModel.{edit_of};
ghost use Rattle.region_state.specs.AsModel.{view_of, asked_of};
ghost use Rattle.drill_script.specs.AsModel.{line_of};
ghost use Rattle.wiki_model.specs.Limits.{id_limit};
ghost use Rattle.drill_script.specs.Words.{Gives, positive_of};
ghost use Rattle.drill_script.specs.Forms.{replica_most, edit_in, view_in, asked_named, asked_in, open_in, farm_in, bounds_in, at_in, apply_in, numbered, named, worded, line_in};

use crate::ScriptLine;
use crate::words::{
    LineFault, NUMBER_MAX, client_of, cookie_of, last_title, number_of, positive_of, region_of,
    text_of, title_of, token_of, utf8_of, weights_of, word_at,
};
use farm_base::{BOUND_MAX, Bounds, MOMENT_MAX, Moment, Readings};
use region_state::{Asked, EditAsk, ViewAsk};
use std::alloc::Global;

// The greatest id of an open request.
const ID_MAX: u64 = 4_294_967_295;

// The greatest number that is kept of a replica; which of them a region has, the line `farm` says.
const REPLICA_MAX: u64 = 255;

// The most entries that one step applies.
const COUNT_MAX: u64 = 1_000_000;

/// What a line says, wherever it stands.
#[tactic(auto, unfolding(crate::specs::Forms::line_in))]
pub fn line_of(alloc: Global, line: &[u8]) -> Result<ScriptLine, LineFault>
    ensures { Gives line_of result (line_in replica_most line.now) }
{
    let text = utf8_of(line)?;
    match text {
        "beat" => Ok(ScriptLine::Beat),
        "end" => Ok(ScriptLine::End),
        _ => worded(alloc, text),
    }
}

#[tactic(auto, unfolding(crate::specs::Forms::worded))]
fn worded(alloc: Global, text: &str) -> Result<ScriptLine, LineFault>
    ensures { Gives line_of result (worded replica_most text.now) }
{
    let (name, rest) = word_at(text)?;
    named(alloc, name, rest)
}

fn named(alloc: Global, name: &str, text: &str) -> Result<ScriptLine, LineFault>
    ensures { Gives line_of result (named replica_most name.now text.now) }
{
    match name {
        "farm" => farm_of(alloc, text),
        "bounds" => bounds_of(text),
        "at" => at_of(text),
        "apply" => apply_of(text),
        "edit" => Ok(ScriptLine::Edit(edit_of(alloc, text)?)),
        "view" => Ok(ScriptLine::View(view_of(alloc, text)?)),
        "open" => open_of(alloc, text),
        _ => numbered(name, text),
    }
}

// The lines of a word and a number.
fn numbered(name: &str, text: &str) -> Result<ScriptLine, LineFault>
    ensures { Gives line_of result (numbered name.now text.now) }
{
    match name {
        "begin" => Ok(ScriptLine::Begin { id: id_of(text)? }),
        "commit" => Ok(ScriptLine::Commit { id: id_of(text)? }),
        "wait" => Ok(ScriptLine::Wait { id: id_of(text)? }),
        "look" => Ok(ScriptLine::Look { id: id_of(text)? }),
        "snap" => Ok(ScriptLine::Snap { id: id_of(text)? }),
        "store" => Ok(ScriptLine::Store { id: id_of(text)? }),
        "carry" => Ok(ScriptLine::Carry {
            number: number_of(NUMBER_MAX, text)?,
        }),
        "drop" => Ok(ScriptLine::Drop {
            number: number_of(NUMBER_MAX, text)?,
        }),
        "markup" => Ok(ScriptLine::Markup(positive_of(2, text)? as u8)),
        _ => Err(LineFault::Form),
    }
}

fn id_of(word: &str) -> Result<u64, LineFault>
    ensures { Gives (λ n. n) result (positive_of (id_limit - 1) word.now) }
{
    positive_of(ID_MAX, word)
}

// CLIENT TOKEN TITLE BASE TEXT
#[tactic(auto, unfolding(crate::specs::Forms::edit_in))]
fn edit_of(alloc: Global, text: &str) -> Result<EditAsk, LineFault>
    ensures { Gives edit_of result (edit_in text.now) }
{
    let (client, rest) = word_at(text)?;
    let client = client_of(client)?;
    let (token, rest) = word_at(rest)?;
    let token = token_of(alloc, token)?;
    let (title, rest) = word_at(rest)?;
    let title = title_of(alloc, title)?;
    let (base, rest) = word_at(rest)?;
    let base = number_of(NUMBER_MAX, base)?;
    let text = text_of(alloc, rest)?;
    Ok(EditAsk {
        client,
        token,
        title,
        base,
        text,
    })
}

// HOST CLIENT COOKIE WORD TITLE
#[tactic(auto, unfolding(crate::specs::Forms::view_in))]
fn view_of(alloc: Global, text: &str) -> Result<ViewAsk, LineFault>
    ensures { Gives view_of result (view_in text.now) }
{
    let (host, rest) = word_at(text)?;
    let host = region_of(host)?;
    let (client, rest) = word_at(rest)?;
    let client = client_of(client)?;
    let (cookie, rest) = word_at(rest)?;
    let (cookie, use_master) = cookie_of(client, cookie)?;
    let (word, rest) = word_at(rest)?;
    let word = number_of(NUMBER_MAX, word)?;
    let title = last_title(alloc, rest)?;
    Ok(ViewAsk {
        host,
        client,
        cookie,
        use_master,
        word,
        title,
    })
}

fn asked_named(alloc: Global, name: &str, text: &str) -> Result<Asked, LineFault>
    ensures { Gives asked_of result (asked_named name.now text.now) }
{
    match name {
        "edit" => Ok(Asked::Edit(edit_of(alloc, text)?)),
        "view" => Ok(Asked::View(view_of(alloc, text)?)),
        _ => Err(LineFault::Form),
    }
}

#[tactic(auto, unfolding(crate::specs::Forms::asked_in))]
fn asked_of(alloc: Global, text: &str) -> Result<Asked, LineFault>
    ensures { Gives asked_of result (asked_in text.now) }
{
    let (name, rest) = word_at(text)?;
    asked_named(alloc, name, rest)
}

// ID and an edit or a view
#[tactic(auto, unfolding(crate::specs::Forms::open_in))]
fn open_of(alloc: Global, text: &str) -> Result<ScriptLine, LineFault>
    ensures { Gives line_of result (open_in text.now) }
{
    let (id, rest) = word_at(text)?;
    let id = id_of(id)?;
    let asked = asked_of(alloc, rest)?;
    Ok(ScriptLine::Arrive { id, asked })
}

// WEIGHTS WEIGHTS EPOCH
#[tactic(auto, unfolding(crate::specs::Forms::farm_in))]
fn farm_of(alloc: Global, text: &str) -> Result<ScriptLine, LineFault>
    ensures { Gives line_of result (farm_in text.now) }
{
    let (home, rest) = word_at(text)?;
    let home = weights_of(alloc, home)?;
    let (west, rest) = word_at(rest)?;
    let west = weights_of(alloc, west)?;
    let epoch = number_of(MOMENT_MAX, rest)?;
    Ok(ScriptLine::Farm {
        home,
        west,
        epoch: Moment(epoch),
    })
}

// DELAY LAG SKEW
#[tactic(auto, unfolding(crate::specs::Forms::bounds_in))]
fn bounds_of(text: &str) -> Result<ScriptLine, LineFault>
    ensures { Gives line_of result (bounds_in text.now) }
{
    let (delay, rest) = word_at(text)?;
    let commit_delay = number_of(BOUND_MAX as u64, delay)?;
    let (lag, rest) = word_at(rest)?;
    let read_lag = number_of(BOUND_MAX as u64, lag)?;
    let skew = positive_of(BOUND_MAX as u64, rest)?;
    Ok(ScriptLine::Bounds(Bounds {
        commit_delay: commit_delay as u32,
        read_lag: read_lag as u32,
        skew: skew as u32,
    }))
}

// HOME WEST
#[tactic(auto, unfolding(crate::specs::Forms::at_in))]
fn at_of(text: &str) -> Result<ScriptLine, LineFault>
    ensures { Gives line_of result (at_in text.now) }
{
    let (home, west) = word_at(text)?;
    let home = number_of(MOMENT_MAX, home)?;
    let west = number_of(MOMENT_MAX, west)?;
    Ok(ScriptLine::At(Readings {
        home: Moment(home),
        west: Moment(west),
    }))
}

// REGION REPLICA COUNT
#[tactic(auto, unfolding(crate::specs::Forms::apply_in))]
fn apply_of(text: &str) -> Result<ScriptLine, LineFault>
    ensures { Gives line_of result (apply_in replica_most text.now) }
{
    let (region, rest) = word_at(text)?;
    let region = region_of(region)?;
    let (replica, rest) = word_at(rest)?;
    let replica = number_of(REPLICA_MAX, replica)?;
    let count = positive_of(COUNT_MAX, rest)?;
    Ok(ScriptLine::Apply {
        region,
        replica: replica as u8,
        count: count as u32,
    })
}
