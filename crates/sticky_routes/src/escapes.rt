// Texts in which `%40` may stand for `@` and `%23` for `#`.
ghost use Rattle.std.specs.Prelude.{◌<◌, length, option_map};
ghost use Rattle.sticky_routes.specs.Escapes.{HasFirst, IsCut};

// The text before and after the first place where it means the mark.
pub(crate) fn cut_meant(text: &[u8], mark: u8) -> Option<(&[u8], &[u8])>
    ensures { IsCut mark text.now (option_map (λ parts. (parts.0.now, parts.1.now)) result) }
{
    let mut at = 0;
    while at < text.len() {
        let (prefix, rest) = text.split_at(at);
        let (byte, width) = first_meant(rest);
        let (_, after) = rest.split_at(width);
        if byte == mark {
            return Some((prefix, after));
        }
        at += width;
    }
    None
}

// The first byte that the text means, and how many bytes stand for it: three for an escape, and else one.
#[tactic(auto, using(crate::proofs::Marks::first_at, crate::proofs::Marks::first_hash, crate::proofs::Marks::first_plain))]
fn first_meant(text: &[u8]) -> (u8, usize)
    requires { 0 < length text.now }
    ensures { HasFirst text.now result.0 result.1 }
{
    if text.starts_with(b"%40") {
        return (b'@', 3);
    }
    if text.starts_with(b"%23") {
        return (b'#', 3);
    }
    (text[0], 1)
}
