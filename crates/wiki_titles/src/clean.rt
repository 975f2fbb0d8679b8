// The text of a title: one space between words, the first letter raised, and so the one after a class prefix.
ghost use Rattle.std.specs.Prelude.{◌≡◌, ◌==◌, ◌||◌, ◌++◌, Some, option_map, IfOk, OnOk};
ghost use Rattle.std.specs.String.{string_bytes};
ghost use Rattle.wiki_model.specs.Titles.{title_text, with_class, after_prefix};
ghost use Rattle.wiki_titles.specs.Cleaning.{with_char, bare_name, after};

use crate::title::{MESSAGE_PREFIX, TEMPLATE_PREFIX};
use std::alloc::{AllocError, Global};

pub(crate) fn title_text(alloc: Global, text: &str) -> Result<String, AllocError>
    ensures { IfOk result (λ made. string_bytes made ≡ title_text text.now) }
{
    with_class(alloc, spaced(alloc, text)?)
}

// The words with one space between them, the first letter raised.
#[tactic(auto, using(crate::proofs::Words::added_gap, crate::proofs::Words::added_character, crate::proofs::Words::added_end, crate::proofs::Words::added_none))]
fn spaced(alloc: Global, text: &str) -> Result<String, AllocError>
    ensures { IfOk result (λ made. with_class (string_bytes made) ≡ title_text text.now) }
{
    let mut made = String::with_capacity(alloc, text.len())?;
    let mut gap = false;
    for character in text.chars() {
        if is_gap(character) {
            gap = true;
        } else {
            push_character(&mut made, gap, character)?;
            gap = false;
        }
    }
    Ok(made)
}

fn is_gap(character: char) -> bool
    ensures { result ≡ ((character == 32) || (character == 95)) }
{
    character == ' ' || character == '_'
}

// A character after what there is: the first one is raised, and after a gap a space comes before it.
fn push_character(made: &mut String, gap: bool, character: char) -> Result<(), AllocError>
    ensures { OnOk result (string_bytes made.new ≡ with_char (string_bytes made.old) gap character) }
{
    if made.is_empty() {
        return made.push(character.to_ascii_uppercase());
    }
    if gap {
        made.push(' ')?;
    }
    made.push(character)
}

fn with_class(alloc: Global, text: String) -> Result<String, AllocError>
    ensures { IfOk result (λ made. string_bytes made ≡ with_class (string_bytes text)) }
{
    if let Some(name) = after(text.as_str(), TEMPLATE_PREFIX) {
        return after_prefix(alloc, TEMPLATE_PREFIX, name);
    }
    if let Some(name) = after(text.as_str(), MESSAGE_PREFIX) {
        return after_prefix(alloc, MESSAGE_PREFIX, name);
    }
    Ok(text)
}

// What stands after this prefix, if the text begins with it.
#[tactic(auto, using(crate::proofs::Prefixes::stripped))]
fn after<'a>(text: &'a str, prefix: &str) -> Option<&'a str>
    ensures { option_map (λ rest. rest.now) result ≡ after prefix.now text.now }
{
    text.strip_prefix(prefix)
}

fn after_prefix(alloc: Global, prefix: &str, name: &str) -> Result<String, AllocError>
    ensures { IfOk result (λ made. string_bytes made ≡ prefix.now ++ bare_name name.now) }
{
    let mut made = String::from_str(alloc, prefix)?;
    push_name(&mut made, name)?;
    Ok(made)
}

#[tactic(auto, using(crate::proofs::Words::name_space, crate::proofs::Words::name_character, crate::proofs::Words::name_end, crate::proofs::Words::name_none))]
fn push_name(made: &mut String, name: &str) -> Result<(), AllocError>
    ensures { OnOk result (string_bytes made.new ≡ string_bytes made.old ++ bare_name name.now) }
{
    let mut bare = true;
    for character in name.chars() {
        if !bare {
            made.push(character)?;
        } else if character != ' ' {
            made.push(character.to_ascii_uppercase())?;
            bare = false;
        }
    }
    Ok(())
}
