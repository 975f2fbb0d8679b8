// Pages that are handed over in any order, brought into title order.
ghost use Rattle.std.specs.Prelude.{◌≡◌, ◌++◌, ℕ, ◌∷◌, List, [], IfOk, OnOk, Some, length, drop};
ghost use Rattle.std.specs.BTreeMap.{Updates};
ghost use Rattle.wiki_titles.specs.Order.{bytes_cmp};
ghost use Rattle.page_render.specs.Templates.{HasSameTexts, IsMapOf, IsRising};

use std::alloc::{AllocError, Global};
use std::collections::BTreeMap;
use wiki_titles::{Text, Title};

/// The pages in title order; of pages with one title the first. It takes as much as a sort of the titles; texts are
/// shared.
pub fn sorted(alloc: Global, pages: &[(Title, Text)]) -> Result<Vec<(Title, Text)>, AllocError>
    ensures rising { IfOk result (λ list. IsRising list.items) }
    ensures same { IfOk result (λ list. HasSameTexts list.items pages.now) }
{
    let map = map_of(alloc, pages)?;
    let list = in_order(alloc, map)?;
    Ok(list)
}

/// The texts by title. The last page is entered first, so that of pages with one title the first stays.
fn map_of(alloc: Global, pages: &[(Title, Text)]) -> Result<BTreeMap<Title, Text>, AllocError>
    ensures { IfOk result (λ map. IsMapOf map pages.now) }
{
    let mut map = BTreeMap::new(alloc);
    let mut place = pages.len();
    while 0 < place {
        place -= 1;
        enter(&mut map, &pages[place].0, &pages[place].1)?;
    }
    Ok(map)
}

/// Enters the text of a title, over an earlier one.
fn enter(map: &mut BTreeMap<Title, Text>, title: &Title, text: &Text) -> Result<(), AllocError>
    ensures { IfOk result (λ _. Updates bytes_cmp map.old map.new title.now (Some text.now)) }
{
    map.insert(title.clone()?, text.clone()?)?;
    Ok(())
}

fn in_order(alloc: Global, map: BTreeMap<Title, Text>) -> Result<Vec<(Title, Text)>, AllocError>
    ensures rising { IfOk result (λ list. IsRising list.items) }
    ensures same { IfOk result (λ list. IsMapOf map list.items) }
{
    let mut list = Vec::new(alloc);
    for (title, text) in map {
        push_page(&mut list, title, text)?;
    }
    Ok(list)
}

fn push_page(list: &mut Vec<(Title, Text)>, title: Title, text: Text) -> Result<(), AllocError>
    ensures { OnOk result (list.new.items ≡ list.old.items ++ (title, text) ∷ []) }
{
    list.push((title, text))?;
    Ok(())
}
