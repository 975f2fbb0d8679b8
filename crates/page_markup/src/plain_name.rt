// Names of letters and digits, which need not be read as titles are.
ghost use Rattle.std.specs.Prelude.{◌≡◌, ◌-◌, ◌||◌, ◌++◌, ◌∷◌, ◌<◌, length, drop, Some, IfSome, MatchOption, true, false, if◌then◌else◌};
ghost use Rattle.std.specs.List.{list_all};
ghost use Rattle.wiki_model.specs.Titles.{in_range, template_prefix};
ghost use Rattle.wiki_model.specs.Html.{template_named};
ghost use Rattle.page_markup.specs.Names.{is_word, is_plain};

/// The bytes of a template's name: a title's 255 less the nine of `Template:`.
const NAME_MAX: usize = 246;

/// The first letter after `Template:` in the title of the template that the name gives, if the name is of ASCII letters
/// and digits alone and has at most 246 of them; the other bytes are the name's. None of any other name.
#[tactic(auto, using(crate::proofs::PlainTitles::plain_named))]
pub fn plain_first(name: &[u8]) -> Option<u8>
    ensures title { IfSome result (λ first.
        template_named name.now ≡ Some (template_prefix ++ (first ∷ drop 1 name.now))) }
    ensures some { IfSome result (λ first. 0 < length name.now) }
    ensures plain { MatchOption result (is_plain name.now ≡ false) (λ _. is_plain name.now ≡ true) }
{
    if is_plain(name) {
        Some(raised(name[0]))
    } else {
        None
    }
}

fn is_plain(name: &[u8]) -> bool
    ensures { result ≡ is_plain name.now }
{
    0 < name.len() && name.len() <= NAME_MAX && are_words(name)
}

fn are_words(name: &[u8]) -> bool
    ensures { result ≡ list_all is_word name.now }
{
    name.iter().all(|byte| is_word(*byte))
}

fn is_word(byte: u8) -> bool
    ensures { result ≡ is_word byte }
{
    b'A' <= byte && byte <= b'Z' || b'a' <= byte && byte <= b'z' || b'0' <= byte && byte <= b'9'
}

fn raised(byte: u8) -> u8
    ensures { result ≡ (if in_range 97 122 byte then byte - 32 else byte) }
{
    if b'a' <= byte && byte <= b'z' {
        byte - 32
    } else {
        byte
    }
}
