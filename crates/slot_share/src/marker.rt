// Which values are true.
/// Which values are true for a key, as its main and as its interim value. It has no code: a caller picks what true
/// means to it, a share takes only values that are, and so whatever comes out of it is true in that sense.
pub trait Marker<P>: Send + Sync {
    ghost use Rattle.wiki_model.specs.Titles.{Title};
    ghost use Rattle.wiki_model.specs.Cache.{Cached};
    ghost use Rattle.slot_share.specs.declared.part.Part.{Part};

    ghost is_true: { Part → Title → Cached P → Type 0 };
}

/// The marker of a caller that asks nothing of its values.
pub struct AnyValue;

impl<P> Marker<P> for AnyValue {
    ghost is_true = { λ part key value. Unit {0} };
}
