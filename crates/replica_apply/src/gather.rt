// The template pages that a text reaches, a stage for each level of nesting.
ghost use Rattle.std.specs.Prelude.{◌≡◌, ◌++◌, ◌∷◌, [], IfOk, OnOk};
ghost use Rattle.std.specs.List.{Contains};
ghost use Rattle.wiki_model.specs.Limits.{nesting_max};
ghost use Rattle.page_markup.specs.Names.{AreNames, names_from};
ghost use Rattle.replica_apply.specs.Replica.{page_at, Puts};
ghost use Rattle.replica_apply.specs.Reached.{AreTemplates, IsListOf, in_line};
ghost use Rattle.replica_apply.specs.Gather.{GathersInto, IsGathered, IsNamedBy, IsPart};

use crate::page_map::put;
use farm_base::Memory;
use page_render::NESTING_MAX;
use std::alloc::Global;
use std::collections::BTreeMap;
use wiki_titles::{Text, Title};

/// The template pages that the text reaches, in title order.
pub fn templates_of(
    alloc: Global,
    pages: &BTreeMap<Title, Text>,
    text: &Text,
) -> Result<Vec<(Title, Text)>, Memory>
    ensures { IfOk result (λ list. AreTemplates (page_at pages.now) nesting_max text.now list.items) }
{
    let taken = gather(alloc, pages, text)?;
    let list = in_order(alloc, taken)?;
    Ok(list)
}

/// The templates that the text reaches. Each of their texts is read once.
fn gather(
    alloc: Global,
    pages: &BTreeMap<Title, Text>,
    text: &Text,
) -> Result<BTreeMap<Title, Text>, Memory>
    ensures { IfOk result (λ taken. IsGathered (page_at pages.now) text.now (page_at taken)) }
{
    let mut taken = BTreeMap::new(alloc);
    let mut unread = first_stage(alloc, pages, &mut taken, text)?;
    let mut stage = 1;
    while stage < NESTING_MAX {
        unread = next_stage(alloc, pages, &mut taken, &unread)?;
        stage += 1;
    }
    Ok(taken)
}

/// Takes the templates that the page's text names. Answers their texts.
fn first_stage(
    alloc: Global,
    pages: &BTreeMap<Title, Text>,
    taken: &mut BTreeMap<Title, Text>,
    text: &Text,
) -> Result<Vec<Text>, Memory>
    requires { IsPart (page_at pages.now) (page_at taken.old) }
    ensures { IfOk result (λ unread. GathersInto pages.now taken.old taken.new [] unread.items
        (Contains (names_from text.now))) }
{
    let mut unread = Vec::new(alloc);
    let names = page_markup::template_names(alloc, text)?;
    add_pages(pages, taken, &mut unread, &names)?;
    Ok(unread)
}

/// Takes the templates that the texts name. Answers the texts of those that were not taken before.
fn next_stage(
    alloc: Global,
    pages: &BTreeMap<Title, Text>,
    taken: &mut BTreeMap<Title, Text>,
    texts: &[Text],
) -> Result<Vec<Text>, Memory>
    requires { IsPart (page_at pages.now) (page_at taken.old) }
    ensures { IfOk result (λ unread. GathersInto pages.now taken.old taken.new [] unread.items (IsNamedBy texts.now)) }
{
    let mut unread = Vec::new(alloc);
    for text in texts {
        read_text(alloc, pages, taken, &mut unread, text)?;
    }
    Ok(unread)
}

/// Takes the templates that a text names.
fn read_text(
    alloc: Global,
    pages: &BTreeMap<Title, Text>,
    taken: &mut BTreeMap<Title, Text>,
    unread: &mut Vec<Text>,
    text: &Text,
) -> Result<(), Memory>
    requires { IsPart (page_at pages.now) (page_at taken.old) }
    ensures { OnOk result (GathersInto pages.now taken.old taken.new unread.old.items unread.new.items
        (Contains (names_from (in_line text.now)))) }
{
    let names = page_markup::template_names_spaced(alloc, text)?;
    add_pages(pages, taken, unread, &names)?;
    Ok(())
}

/// Takes the pages of the titles.
fn add_pages(
    pages: &BTreeMap<Title, Text>,
    taken: &mut BTreeMap<Title, Text>,
    unread: &mut Vec<Text>,
    titles: &[Title],
) -> Result<(), Memory>
    requires { IsPart (page_at pages.now) (page_at taken.old) }
    ensures { OnOk result (GathersInto pages.now taken.old taken.new unread.old.items unread.new.items
        (Contains titles.now)) }
{
    for title in titles {
        add_page(pages, taken, unread, title)?;
    }
    Ok(())
}

/// Takes the page of the title, if there is one and it was not taken before.
#[tactic(auto, using(crate::proofs::Gathering::known_one, crate::proofs::Gathering::absent_one))]
fn add_page(
    pages: &BTreeMap<Title, Text>,
    taken: &mut BTreeMap<Title, Text>,
    unread: &mut Vec<Text>,
    title: &Title,
) -> Result<(), Memory>
    requires { IsPart (page_at pages.now) (page_at taken.old) }
    ensures { OnOk result (GathersInto pages.now taken.old taken.new unread.old.items unread.new.items
        (λ name. name ≡ title.now)) }
{
    if taken.contains_key(title) {
        return Ok(());
    }
    match pages.get(title) {
        Some(text) => {
            add_new(taken, unread, title, text)?;
            Ok(())
        }
        None => Ok(()),
    }
}

/// Takes the page, and lists its text. The text is shared.
fn add_new(
    taken: &mut BTreeMap<Title, Text>,
    unread: &mut Vec<Text>,
    title: &Title,
    text: &Text,
) -> Result<(), Memory>
    ensures taken { OnOk result (Puts taken.old taken.new title.now text.now) }
    ensures unread { OnOk result (unread.new.items ≡ unread.old.items ++ text.now ∷ []) }
{
    put(taken, title, text)?;
    unread.push(text.clone()?)?;
    Ok(())
}

/// The pages in title order.
fn in_order(alloc: Global, taken: BTreeMap<Title, Text>) -> Result<Vec<(Title, Text)>, Memory>
    ensures { IfOk result (λ list. IsListOf (page_at taken) list.items) }
{
    let mut list = Vec::new(alloc);
    for (title, text) in taken {
        push_page(&mut list, title, text)?;
    }
    Ok(list)
}

fn push_page(list: &mut Vec<(Title, Text)>, title: Title, text: Text) -> Result<(), Memory>
    ensures { OnOk result (list.new.items ≡ list.old.items ++ (title, text) ∷ []) }
{
    list.push((title, text))?;
    Ok(())
}
