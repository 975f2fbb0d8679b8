// Titles and values for all tests of this crate.
ghost use Rattle.std.specs.Prelude.{◌≡◌, IfOk};

use farm_base::Moment;
use std::alloc::{AllocError, Global};
use std::sync::Arc;
use std::test::Fail;
use wan_value::{LIFE_LAGGED, LIFE_WHOLE, Value};
use wiki_titles::Title;

/// The page with this number.
pub fn title_of(alloc: Global, page: u32) -> Result<Title, Fail> {
    let text = format!(in alloc; "Page {page}")?;
    title_named(alloc, text.as_str())
}

/// The title with this text.
pub fn title_named(alloc: Global, text: &str) -> Result<Title, Fail> {
    Ok(Title::parse(alloc, text)?)
}

/// A value whose page is the number of its entries, of markup version 1.
pub fn value_at(
    alloc: Global,
    upto: u64,
    set_at: Moment,
    lagged: bool,
) -> Result<Value<u64>, AllocError>
    ensures { IfOk result (λ value. value.set_at ≡ set_at) }
{
    Ok(Value {
        page: Arc::new(alloc, upto)?,
        upto,
        stamp: set_at,
        set_at,
        life: if lagged { LIFE_LAGGED } else { LIFE_WHOLE },
        lagged,
        version: 1,
    })
}
