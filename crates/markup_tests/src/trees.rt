// The blocks of a text.
use crate::setting::text_of;
use page_markup::Block;
use std::alloc::Global;
use std::test::Fail;

// The blocks one to a line: the kind, and each part in brackets.
fn printed(alloc: Global, blocks: &[Block]) -> Result<String, Fail> {
    let mut lines = String::new(alloc);
    for block in blocks {
        let kind = format!(in alloc; "{:?}", block.kind)?;
        lines.push_str(kind.as_str())?;
        for part in block.parts.as_slice() {
            let part = format!(in alloc; " ({})", part.text.as_str())?;
            lines.push_str(part.as_str())?;
        }
        lines.push('\n')?;
    }
    Ok(lines)
}

const TEXT: &str = "one\ntwo\n \n=== a [[b]] ==\n* c\n*\n**d \n\n*e\nlast ''i''\n";

const BLOCKS: &str = "\
Paragraph (one
two)
Heading(2) (= a [[b]])
List (c) () (*d)
List (e)
Paragraph (last ''i'')
";

#[test]
fn a_text_is_cut_into_blocks(rt: HostRuntime) -> Result<(), Fail> {
    let alloc = rt.alloc();
    let tree = page_markup::parse(alloc, &text_of(alloc, TEXT)?)?;
    assert_eq!(rt; printed(alloc, tree.blocks.as_slice())?.as_str(), BLOCKS);
    let empty = page_markup::parse(alloc, &text_of(alloc, "")?)?;
    assert_eq!(rt; printed(alloc, empty.blocks.as_slice())?.as_str(), "");
    Ok(())
}
