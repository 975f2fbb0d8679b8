// Pages by title. Their texts are shared.
ghost use Rattle.std.specs.Prelude.{◌≡◌, IfOk, OnOk, OnErr};
ghost use Rattle.replica_apply.specs.Replica.{page_at, Puts};

use std::alloc::AllocError;
use std::collections::BTreeMap;
use wiki_titles::{Text, Title};

/// Gives the title this text.
#[tactic(auto, using(crate::proofs::Prefixes::put_there))]
pub fn put(pages: &mut BTreeMap<Title, Text>, title: &Title, text: &Text) -> Result<(), AllocError>
    ensures ok { OnOk result (Puts pages.old pages.new title.now text.now) }
    ensures err { OnErr result (pages.new.entries ≡ pages.old.entries) }
{
    pages.insert(title.clone()?, text.clone()?)?;
    Ok(())
}

/// The title's text.
pub fn page_of(pages: &BTreeMap<Title, Text>, title: &Title) -> Result<Option<Text>, AllocError>
    ensures { IfOk result (λ page. page ≡ page_at pages.now title.now) }
{
    match pages.get(title) {
        Some(text) => Ok(Some(text.clone()?)),
        None => Ok(None),
    }
}

/// A text, shared once more.
pub fn shared(text: &Option<Text>) -> Result<Option<Text>, AllocError>
    ensures { IfOk result (λ made. made ≡ text.now) }
{
    match text {
        Some(text) => Ok(Some(text.clone()?)),
        None => Ok(None),
    }
}
