// The template pages in title order, and the page that a text between braces names.
ghost use Rattle.std.specs.Prelude.{◌≡◌, ◌≤◌, ◌<◌, ◌-◌, ◌∷◌, ℕ, List, length, get_or, option_copied, IfOk, IsTrue};
ghost use Rattle.wiki_model.specs.Bytes.{begins};
ghost use Rattle.wiki_model.specs.Limits.{brackets_max};
ghost use Rattle.wiki_model.specs.Titles.{template_prefix};
ghost use Rattle.wiki_titles.specs.Order.{bytes_cmp};
ghost use Rattle.page_render.specs.AsModel.{template_text};
ghost use Rattle.page_render.specs.Templates.{IsRising, text_named, title_wanted};
ghost use Rattle.std.specs.declared.cmp.Ordering.TheVariants.{Less};

use std::alloc::{AllocError, Global};
use std::cmp::Ordering;
use std::marker::Model;
use wiki_titles::{Text, Title};

/// The template pages, each title below the next, so that a page is found by halving. Contracts see the list.
#[derive(Drop)]
pub struct Templates<'a> {
    pages: &'a [(Title, Text)],
}

impl<'a> Model for Templates<'a> {
    ghost use Rattle.page_render.specs.AsModel.{Pairs};
    ghost use Rattle.page_render.specs.Templates.{IsRising};

    ghost Value = { Pairs };

    ghost view = { λ templates. templates.pages.now };

    ghost invariant = { λ templates. IsRising templates.pages.now };
}

impl<'a> Templates<'a> {
    /// These pages, which rise.
    pub fn new(pages: &'a [(Title, Text)]) -> Templates<'a>
        requires { IsRising pages.now }
        ensures { result ≡ pages.now }
    {
        Templates { pages }
    }

    /// The text of the template page that a text between braces names. The time grows with the logarithm of the number
    /// of pages; a name of ASCII letters and digits takes no memory.
    pub fn find(&self, alloc: Global, name: &str) -> Result<Option<&'a Text>, AllocError>
        requires { length name.now ≤ brackets_max }
        ensures { IfOk result (λ found. option_copied found ≡ text_named self.now name.now) }
    {
        find_named(alloc, self.pages, name)
    }
}

/// Whether each title is below the next.
pub fn are_rising(pages: &[(Title, Text)]) -> bool
    ensures { IsTrue result → IsRising pages.now }
{
    for at in 1..pages.len() {
        if !is_below(&pages[at - 1].0, &pages[at].0) {
            return false;
        }
    }
    true
}

fn is_below(one: &Title, other: &Title) -> bool
    ensures { IsTrue result → bytes_cmp one.now other.now ≡ Less }
{
    match one.text().cmp(other.text()) {
        Ordering::Less => true,
        Ordering::Equal => false,
        Ordering::Greater => false,
    }
}

/// The text of the page that is named, in a list that rises.
fn find_named<'a>(
    alloc: Global,
    pages: &'a [(Title, Text)],
    name: &str,
) -> Result<Option<&'a Text>, AllocError>
    requires order { IsRising pages.now }
    requires short { length name.now ≤ brackets_max }
    ensures { IfOk result (λ found. option_copied found ≡ text_named pages.now name.now) }
{
    let bytes = name.as_bytes();
    if let Some(first) = page_markup::plain_first(bytes) {
        let (_, rest) = bytes.split_at(1);
        return Ok(find(pages, Wanted::After { first, rest }));
    }
    match page_markup::template_title(alloc, name)? {
        Some(title) => Ok(find(pages, Wanted::Whole(title.text()))),
        None => Ok(None),
    }
}

/// A title that is looked for: its text, or the two parts of what stands after `Template:` in it.
#[derive(Clone, Copy, Debug)]
enum Wanted<'n> {
    Whole(&'n str),
    After { first: u8, rest: &'n [u8] },
}

/// The text of the page of this title.
fn find<'a>(pages: &'a [(Title, Text)], wanted: Wanted<'_>) -> Option<&'a Text>
    requires { IsRising pages.now }
    ensures { option_copied result ≡ template_text pages.now (title_wanted wanted.entry) }
{
    let mut low = 0;
    let mut high = pages.len();
    while low < high {
        let middle = low + (high - low) / 2;
        let page = &pages[middle];
        match order_of(page.0.text(), wanted) {
            Ordering::Less => low = middle + 1,
            Ordering::Equal => return Some(&page.1),
            Ordering::Greater => high = middle,
        }
    }
    None
}

/// How a title compares with the one that is looked for.
#[tactic(auto, using(crate::proofs::Lookups::after_prefix, crate::proofs::Lookups::before_prefix))]
fn order_of(title: &str, wanted: Wanted<'_>) -> Ordering
    ensures { result ≡ bytes_cmp title.now (title_wanted wanted.entry) }
{
    match wanted {
        Wanted::Whole(other) => title.cmp(other),
        Wanted::After { first, rest } => {
            if !title.as_bytes().starts_with(b"Template:") {
                return title.cmp("Template:");
            }
            let (_, after) = title.as_bytes().split_at(9);
            order_after(after, first, rest)
        }
    }
}

/// How what stands after `Template:` in a title compares with such a text in two parts.
#[tactic(auto, using(crate::proofs::Lookups::nothing_after, crate::proofs::Lookups::first_below, crate::proofs::Lookups::first_above, crate::proofs::Lookups::first_alike))]
fn order_after(after: &[u8], first: u8, rest: &[u8]) -> Ordering
    ensures { result ≡ bytes_cmp after.now (first ∷ rest.now) }
{
    if after.is_empty() {
        return Ordering::Less;
    }
    let byte = after[0];
    if byte < first {
        return Ordering::Less;
    }
    if first < byte {
        return Ordering::Greater;
    }
    let (_, others) = after.split_at(1);
    others.cmp(rest)
}
