// The text of each answer, the last line and the summary.
use drill_script::{
    Summary, count_answer, end_line, page_bytes, report_head, report_line, summary_line,
};
use farm_base::Moment;
use region_state::{Answer, Behind, SavedNote};
use std::alloc::Global;
use std::str;
use std::test::Fail;
use wiki_model::Cause;
use wiki_titles::ClientId;

fn text_of(alloc: Global, answer: &Answer) -> Result<String, Fail> {
    let bytes = report_line(alloc, 12, answer, false)?;
    Ok(String::from_str(alloc, str::from_utf8(&bytes)?)?)
}

#[test]
fn an_edit_that_is_saved_tells_its_cookie(rt: HostRuntime) -> Result<(), Fail> {
    let saved = Answer::Saved(SavedNote {
        entry: 3,
        revision: 2,
        client: ClientId::number(1),
        index: 4,
        seconds: 20,
    });
    let text = text_of(rt.alloc(), &saved)?;
    assert_eq!(rt; text.as_str(), "12 saved entry=3 revision=2 cookie=4@20\n");
    Ok(())
}

#[test]
fn refused_edits_say_why(rt: HostRuntime) -> Result<(), Fail> {
    let alloc = rt.alloc();
    let text = text_of(
        alloc,
        &Answer::Conflict {
            base: 1,
            current: 2,
        },
    )?;
    assert_eq!(rt; text.as_str(), "12 conflict base=1 current=2\n");
    let text = text_of(alloc, &Answer::Token { entry: 5 })?;
    assert_eq!(rt; text.as_str(), "12 token entry=5\n");
    let text = text_of(alloc, &Answer::Store)?;
    assert_eq!(rt; text.as_str(), "12 store\n");
    let text = text_of(alloc, &Answer::Memory)?;
    assert_eq!(rt; text.as_str(), "12 memory\n");
    Ok(())
}

#[test]
fn views_without_a_page_say_why(rt: HostRuntime) -> Result<(), Fail> {
    let alloc = rt.alloc();
    let text = text_of(alloc, &Answer::NoPage { source: 7 })?;
    assert_eq!(rt; text.as_str(), "12 no-page source=7\n");
    let lag = Answer::Lag {
        by: Behind::Entry,
        needed: 9,
        reached: 8,
    };
    let text = text_of(alloc, &lag)?;
    assert_eq!(rt; text.as_str(), "12 lag entry needed=9 reached=8\n");
    let cause = Cause::Purged {
        floor: Moment(31_000),
    };
    let text = text_of(alloc, &Answer::Miss { cause })?;
    assert_eq!(rt; text.as_str(), "12 miss purged:31000\n");
    Ok(())
}

#[test]
fn messages_and_requests_are_named(rt: HostRuntime) -> Result<(), Fail> {
    let alloc = rt.alloc();
    let text = text_of(alloc, &Answer::NotOpen { id: 6 })?;
    assert_eq!(rt; text.as_str(), "12 not-open id=6\n");
    let text = text_of(alloc, &Answer::Unknown { message: 2 })?;
    assert_eq!(rt; text.as_str(), "12 unknown message=2\n");
    let text = text_of(alloc, &Answer::Gone { message: 2 })?;
    assert_eq!(rt; text.as_str(), "12 gone message=2\n");
    Ok(())
}

#[test]
fn the_last_line_counts_answers_and_entries(rt: HostRuntime) -> Result<(), Fail> {
    let text = end_line(rt.alloc(), 2, 1)?;
    assert_eq!(rt; str::from_utf8(&text)?, "end answers=2 entries=1\n");
    Ok(())
}

#[test]
fn a_summary_counts_each_kind(rt: HostRuntime) -> Result<(), Fail> {
    let alloc = rt.alloc();
    let mut summary = Summary::new();
    count_answer(&mut summary, &Answer::NoPage { source: 1 });
    let text = summary_line(alloc, 3, 2, &summary)?;
    let wanted = "stir steps=3 entries=2 saved=0 ok=0 hit=0 interim=0 no-page=1 lag=0\n";
    assert_eq!(rt; str::from_utf8(&text)?, wanted);
    Ok(())
}

#[test]
fn an_answer_without_a_page_has_no_page_bytes(rt: HostRuntime) -> Result<(), Fail> {
    let answer = Answer::NoPage { source: 1 };
    let head = report_head(rt.alloc(), 2, &answer, true)?;
    assert_eq!(rt; str::from_utf8(&head)?, "2 no-page source=1\n");
    assert_eq!(rt; page_bytes(&answer).len(), 0);
    Ok(())
}
