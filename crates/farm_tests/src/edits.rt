// Edits that are begun, committed, refused or given up.
use crate::desk::Desk;
use crate::setting::{edit_of, must};
use edit_core::{Begun, BegunEdit, EditAsk, EditRefusal, SavedNote};
use farm_base::Moment;
use purge_relay::{Body, Issued};
use revision_keeper::{Keeper, MemKeeper};
use std::alloc::Global;
use std::test::Fail;
use wiki_titles::ClientId;

// The edit that begins here; an answer in its place is no success.
fn started<K: Keeper + Drop>(
    desk: &mut Desk<K>,
    ask: EditAsk,
    at: u64,
) -> Result<BegunEdit, EditRefusal> {
    match desk.begin(ask, at)? {
        Begun::Started(edit) => Ok(edit),
        Begun::Already(note) => Err(EditRefusal::TokenReused { entry: note.entry }),
    }
}

fn note_of(client: u64, entry: u64, revision: u64, index: u64, seconds: u64) -> SavedNote {
    SavedNote {
        entry,
        revision,
        client: ClientId::number(client),
        index,
        seconds,
    }
}

fn issued_as(number: u64) -> Issued {
    Issued {
        purge: number,
        message: number,
    }
}

// The ledger has issued so many messages, and none is awaited.
fn has_issued<K: Keeper + Drop>(desk: &Desk<K>, messages: u64) -> bool {
    desk.ledger.issued() == messages && desk.ledger.spare() == 0
}

#[test]
fn an_edit_is_purged_first_and_then_appended_and_told(rt: HostRuntime) -> Result<(), Fail> {
    let alloc = rt.alloc();
    let mut desk = Desk::new(alloc, MemKeeper::new(alloc));
    let edit = begins_with_its_purge(alloc, &mut desk)?;
    appends_and_tells(&mut desk, edit)
}

fn begins_with_its_purge<K: Keeper + Drop>(
    alloc: Global,
    desk: &mut Desk<K>,
) -> Result<BegunEdit, Fail> {
    let edit = started(desk, edit_of(alloc, 1, "t1", 0, "one")?, 20_000)?;
    must(edit.issued == issued_as(1), "the purge is the first")?;
    must(edit.due == Moment(23_000), "it is due by the delay")?;
    must(desk.keeper.len()? == 0, "nothing is appended yet")?;
    Ok(edit)
}

fn appends_and_tells<K: Keeper + Drop>(desk: &mut Desk<K>, edit: BegunEdit) -> Result<(), Fail> {
    let outcome = desk.commit(edit, 20_500)?;
    must(outcome.note == note_of(1, 1, 1, 1, 20), "the note")?;
    must(outcome.second_purge == None, "no second purge")?;
    must(desk.keeper.len()? == 1, "one entry")?;
    must(has_issued(desk, 2), "two messages")?;
    must(tells_position(desk, 2, 1), "the second tells the position")?;
    must(desk.known(1, 20_500) == Some((1, 1)), "home knows it")?;
    must(
        desk.known(1, 80_500) == None,
        "no longer than a position's life",
    )
}

// This message tells the position of this entry.
fn tells_position<K: Keeper + Drop>(desk: &Desk<K>, number: u64, entry: u64) -> bool {
    match desk.ledger.message(number) {
        Some(message) => match &message.body {
            Body::Position { entry: told, .. } => *told == entry,
            _ => false,
        },
        None => false,
    }
}

#[test]
fn a_repeated_edit_gets_its_note_and_nothing_is_issued(rt: HostRuntime) -> Result<(), Fail> {
    let alloc = rt.alloc();
    let mut desk = Desk::new(alloc, MemKeeper::new(alloc));
    repeats(alloc, &mut desk)
}

fn repeats<K: Keeper + Drop>(alloc: Global, desk: &mut Desk<K>) -> Result<(), Fail> {
    let note = desk.save(edit_of(alloc, 1, "t1", 0, "one")?, 20_000)?;
    let again = desk.save(edit_of(alloc, 1, "t1", 0, "one")?, 30_000)?;
    must(again == note, "the same note")?;
    must(desk.keeper.len()? == 1, "one entry")?;
    must(has_issued(desk, 2), "nothing more is issued")
}

#[test]
fn a_token_of_another_edit_is_refused_before_a_conflict(rt: HostRuntime) -> Result<(), Fail> {
    let alloc = rt.alloc();
    let mut desk = Desk::new(alloc, MemKeeper::new(alloc));
    refuses_in_order(alloc, &mut desk)
}

fn refuses_in_order<K: Keeper + Drop>(alloc: Global, desk: &mut Desk<K>) -> Result<(), Fail> {
    desk.save(edit_of(alloc, 1, "t1", 0, "one")?, 20_000)?;
    let other = desk.save(edit_of(alloc, 1, "t1", 0, "two")?, 21_000);
    must(other == Err(EditRefusal::TokenReused { entry: 1 }), "token")?;
    let late = desk.save(edit_of(alloc, 1, "t2", 0, "two")?, 21_000);
    must(late == Err(on_first_revision()), "conflict")?;
    let next = desk.save(edit_of(alloc, 1, "t2", 1, "two")?, 21_000)?;
    must(next == note_of(1, 2, 2, 2, 21), "saved")
}

// The page has its first revision already.
fn on_first_revision() -> EditRefusal {
    EditRefusal::Conflict {
        base: 0,
        current: 1,
    }
}

#[test]
fn of_two_edits_that_were_begun_the_second_conflicts(rt: HostRuntime) -> Result<(), Fail> {
    let alloc = rt.alloc();
    let mut desk = Desk::new(alloc, MemKeeper::new(alloc));
    conflicts(alloc, &mut desk)
}

fn conflicts<K: Keeper + Drop>(alloc: Global, desk: &mut Desk<K>) -> Result<(), Fail> {
    let first = started(desk, edit_of(alloc, 1, "t1", 0, "one")?, 20_000)?;
    let second = started(desk, edit_of(alloc, 2, "t1", 0, "two")?, 20_000)?;
    must(desk.ledger.spare() == 4, "room for both")?;
    let outcome = desk.commit(second, 20_000)?;
    must(outcome.note == note_of(2, 1, 1, 1, 20), "saved")?;
    let refused = desk.commit(first, 20_000);
    must(refused == Err(on_first_revision()), "conflict")?;
    must(has_issued(desk, 3), "the room is given back")?;
    must(desk.known(1, 20_000) == None, "no position of the first")
}

#[test]
fn a_commit_at_its_due_moment_is_not_purged_again(rt: HostRuntime) -> Result<(), Fail> {
    let alloc = rt.alloc();
    let mut desk = Desk::new(alloc, MemKeeper::new(alloc));
    commits_at(alloc, &mut desk, 23_000, None)?;
    must(has_issued(&desk, 2), "a purge and a position")
}

#[test]
fn a_commit_after_its_due_moment_is_purged_again(rt: HostRuntime) -> Result<(), Fail> {
    let alloc = rt.alloc();
    let mut desk = Desk::new(alloc, MemKeeper::new(alloc));
    commits_at(alloc, &mut desk, 23_001, Some(issued_as(2)))?;
    must(has_issued(&desk, 3), "two purges and a position")
}

// An edit that is begun at 20,000 and committed at this moment has this second purge.
fn commits_at<K: Keeper + Drop>(
    alloc: Global,
    desk: &mut Desk<K>,
    at: u64,
    second: Option<Issued>,
) -> Result<(), Fail> {
    let edit = started(desk, edit_of(alloc, 1, "t1", 0, "one")?, 20_000)?;
    let outcome = desk.commit(edit, at)?;
    must(outcome.second_purge == second, "the second purge")
}

#[test]
fn an_append_that_fails_gives_up_the_edit(rt: HostRuntime) -> Result<(), Fail> {
    let alloc = rt.alloc();
    let mut desk = Desk::new(alloc, MemKeeper::failing(alloc, [1u64].to_vec(alloc)?));
    fails_once(alloc, &mut desk)
}

fn fails_once<K: Keeper + Drop>(alloc: Global, desk: &mut Desk<K>) -> Result<(), Fail> {
    let failed = desk.save(edit_of(alloc, 1, "t1", 0, "one")?, 20_000);
    must(failed == Err(EditRefusal::Store), "the store failed")?;
    must(desk.keeper.len()? == 0, "nothing is appended")?;
    must(has_issued(desk, 1), "the purge stays")?;
    must(desk.known(1, 20_000) == None, "no position")?;
    let note = desk.save(edit_of(alloc, 1, "t1", 0, "one")?, 21_000)?;
    must(note == note_of(1, 1, 1, 1, 21), "saved when repeated")
}

#[test]
fn an_edit_that_is_given_up_leaves_its_purge(rt: HostRuntime) -> Result<(), Fail> {
    let alloc = rt.alloc();
    let mut desk = Desk::new(alloc, MemKeeper::new(alloc));
    gives_up(alloc, &mut desk)
}

fn gives_up<K: Keeper + Drop>(alloc: Global, desk: &mut Desk<K>) -> Result<(), Fail> {
    let edit = started(desk, edit_of(alloc, 1, "t1", 0, "one")?, 20_000)?;
    desk.abandon(edit)?;
    must(has_issued(desk, 1), "the purge stays")?;
    must(desk.keeper.len()? == 0, "nothing is appended")
}
