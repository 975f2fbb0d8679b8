//! The laws of the definitions, each as the contract of a function that does nothing, so that its proof is asked for.
//! They say nothing of the program until a contract cites the definitions that they speak of.

ghost use Rattle.wiki_model.specs.Answered.{ViewsAreAnswered, EditsAreAnswered, BatchesAreAnswered, PagesAreServed, EditsAreServed, ViewsGetTheirPage, UndecidedEditsAreSaved};
ghost use Rattle.wiki_model.specs.Generator.{MakesScripts};
ghost use Rattle.wiki_model.specs.Makers.{CachedSourcesWereStored};
ghost use Rattle.wiki_model.specs.Laws.{MissingRoundPagesArePromised, LooksAreAllowed, MomentsKeepRows, KnownPositionsAreFound, RoundsChangeEvents, CommitsAppend, CommitsArePurgedPromptly, SharedRoundsStand, OpeningsHaveRows, EntriesKeepRows, HearingKeepsRows, SweepingKeepsRows, NeedsAreReached, PagesArePromised, MissingPagesArePromised, FloorsAreGiven, RoundPagesArePromised, RunsStayConsistent, RunsOnlyGrow, EntriesKeepHistories, RevisionsAreCounted, UndecidedEditsAreNext, PagesOfPrefixesStay, PurgesAreOfTheirTitle, EmptyCachesStand, GrowthKeepsCaches, PurgesKeepCaches, PutsKeepCaches, StoresKeepCaches, RoundsKeepCaches, OneWorkerRoundsStand, LooksGoOn, HitsAreNotStale, HitsAreSound, InterimAnswersAreSound, StoredPagesAreSound, MissingPagesAreSound, WholeValuesAreTrue, LaggedValuesAreTrue, NotesAreAllowed, NeedsReachOwnEdits, SnapshotsReachTheirNeed, ChoicesAreOne, MomentsKeepPositions, EntriesKeepPositions, HearingKeepsPositions, SharedHitsAreSound, SharedInterimAnswersAreSound, SharedNotesAreAllowed};

/// Every page that a step of a run answers is as promised to the view that the step names: the page of its prefix, with
/// what its session may not miss as it stood at its step `wait`, and no stale hit.
pub fn pages_are_promised()
    ensures { PagesArePromised }
{}

/// A step that answers that there is no page does so of a prefix that has none, and misses no more.
pub fn missing_pages_are_promised()
    ensures { MissingPagesArePromised }
{}

/// So is every page that a round answers.
pub fn round_pages_are_promised()
    ensures { RoundPagesArePromised }
{}

/// A round that answers that there is no page was asked for one that its prefix does not have, and misses no more.
pub fn missing_round_pages_are_promised()
    ensures { MissingRoundPagesArePromised }
{}

/// The floor of an open view is the one that its own step `wait` gave it, at which it was not behind.
pub fn floors_are_given()
    ensures { FloorsAreGiven }
{}

/// What an open view may not miss is reached by a replica of its region, so that a snapshot for it can be taken.
pub fn needs_are_reached()
    ensures { NeedsAreReached }
{}

/// The last world of every run from an opening is consistent.
pub fn runs_stay_consistent()
    ensures { RunsStayConsistent }
{}

/// Along every run the history only grows, no moment falls, and the setting stays.
pub fn runs_only_grow()
    ensures { RunsOnlyGrow }
{}

/// An entry that is not before the last, and is the next commit if it is a commit, keeps the list a history.
pub fn entries_keep_histories()
    ensures { EntriesKeepHistories }
{}

/// The current revision of a title is the number of its commits.
pub fn revisions_are_counted()
    ensures { RevisionsAreCounted }
{}

/// The commit of an edit that the history does not decide has the next revision and index, and a token of its own.
pub fn undecided_edits_are_next()
    ensures { UndecidedEditsAreNext }
{}

/// The page of a prefix stays what it is as the history grows.
pub fn pages_of_prefixes_stay()
    ensures { PagesOfPrefixesStay }
{}

/// A purge of an entry is of the entry's title.
pub fn purges_are_of_their_title()
    ensures { PurgesAreOfTheirTitle }
{}

/// Each commit of a run has a purge that it followed within the commit delay: the one that it names, or the second one
/// of a late commit.
pub fn commits_are_purged_promptly()
    ensures { CommitsArePurgedPromptly }
{}

/// An empty cache stands for a region in which nothing has happened.
pub fn empty_caches_stand()
    ensures { EmptyCachesStand }
{}

/// What a cache stands for is kept while moments and history grow.
pub fn growth_keeps_caches()
    ensures { GrowthKeepsCaches }
{}

/// What a cache stands for is kept by a purge that is taken with its receipt.
pub fn purges_keep_caches()
    ensures { PurgesKeepCaches }
{}

/// What a cache stands for is kept by a put of a true value with its store, whatever the put answers, also that it
/// found no memory.
pub fn puts_keep_caches()
    ensures { PutsKeepCaches }
{}

/// What a cache stands for is kept by a store that puts nothing.
pub fn stores_keep_caches()
    ensures { StoresKeepCaches }
{}

/// What a cache stands for is kept by a round whose cache is given back as agreed.
pub fn rounds_keep_caches()
    ensures { RoundsKeepCaches }
{}

/// A round of one worker that does its jobs in order is allowed, and its cache stands for the world after it.
pub fn one_worker_rounds_stand()
    ensures { OneWorkerRoundsStand }
{}

/// Whatever the cache holds, what a look finds in it is an answer that a look may give.
pub fn looks_are_allowed()
    ensures { LooksAreAllowed }
{}

/// Whatever a look of a waited view finds in a cache that stands for its run, the run goes on by it and the cache
/// stands on.
pub fn looks_go_on()
    ensures { LooksGoOn }
{}

/// A hit is settled, and one that is not marked lagged lacks no commit whose purge was received within the bounds.
pub fn hits_are_not_stale()
    ensures { HitsAreNotStale }
{}

/// A hit is sound: the page of a prefix that reaches what its session may not miss, true, alive, settled, not stale.
pub fn hits_are_sound()
    ensures { HitsAreSound }
{}

/// An interim answer is sound: not marked lagged, recent, and only while a hold-off is running.
pub fn interim_answers_are_sound()
    ensures { InterimAnswersAreSound }
{}

/// A page that is made from a parked snapshot is an answer that a store may give.
pub fn stored_pages_are_sound()
    ensures { StoredPagesAreSound }
{}

/// So is the answer that a parked snapshot has no page.
pub fn missing_pages_are_sound()
    ensures { MissingPagesAreSound }
{}

/// A value that the set rule keeps whole is true.
pub fn whole_values_are_true()
    ensures { WholeValuesAreTrue }
{}

/// A value that is marked lagged is true.
pub fn lagged_values_are_true()
    ensures { LaggedValuesAreTrue }
{}

/// The note of a put is one that the set rule allows at its moment.
pub fn notes_are_allowed()
    ensures { NotesAreAllowed }
{}

/// If a view is not behind and its position is kept, its need reaches its client's last commit.
pub fn needs_reach_own_edits()
    ensures { NeedsReachOwnEdits }
{}

/// A snapshot for a need reaches it.
pub fn snapshots_reach_their_need()
    ensures { SnapshotsReachTheirNeed }
{}

/// The choice of a replica is determined by its rows, need and word.
pub fn choices_are_one()
    ensures { ChoicesAreOne }
{}

/// What a store of positions finds stays what its region knows as moments grow.
pub fn moments_keep_positions()
    ensures { MomentsKeepPositions }
{}

/// It stays so over a beat, and over a commit that the region has not heard.
pub fn entries_keep_positions()
    ensures { EntriesKeepPositions }
{}

/// It stays so when the region hears a position and the store takes it, however late or often.
pub fn hearing_keeps_positions()
    ensures { HearingKeepsPositions }
{}

/// The rows of a store of positions, told the young commits of an opening in turn, find what the region knows.
pub fn openings_have_rows()
    ensures { OpeningsHaveRows }
{}

/// They do so over an entry that the region has not heard.
pub fn entries_keep_rows()
    ensures { EntriesKeepRows }
{}

/// They do so when the region hears a position and its row is told, however late or often.
pub fn hearing_keeps_rows()
    ensures { HearingKeepsRows }
{}

/// They do so as moments grow, also when expired rows are forgotten.
pub fn sweeping_keeps_rows()
    ensures { SweepingKeepsRows }
{}

/// They do so while only moments grow.
pub fn moments_keep_rows()
    ensures { MomentsKeepRows }
{}

/// What a store of positions finds at the region's moment is what the region knows.
pub fn known_positions_are_found()
    ensures { KnownPositionsAreFound }
{}

/// A round changes what happened to its region's cache, and nothing else of the world.
pub fn rounds_change_events()
    ensures { RoundsChangeEvents }
{}

/// The world after a commit, late or not: one more entry, which home has heard, and what stays as it was.
pub fn commits_append()
    ensures { CommitsAppend }
{}

/// A hit on a shared cache is sound, whatever other seats do beside it.
pub fn shared_hits_are_sound()
    ensures { SharedHitsAreSound }
{}

/// An interim answer of a shared cache is sound.
pub fn shared_interim_answers_are_sound()
    ensures { SharedInterimAnswersAreSound }
{}

/// A note interim or held of a shared cache comes only while a hold-off is running.
pub fn shared_notes_are_allowed()
    ensures { SharedNotesAreAllowed }
{}

/// A round of several workers whose jobs answer what their seats may is allowed, and the cache that is given back
/// stands for the world after it.
pub fn shared_rounds_stand()
    ensures { SharedRoundsStand }
{}

/// What the generator makes is a script of the grammar, within its limit, for every seed and up to 100,000 steps.
pub fn makes_scripts()
    ensures { MakesScripts }
{}

/// A whole view ends with one answer: a page of its title, that there is none, how far it is behind, or out of memory.
pub fn views_are_answered()
    ensures { ViewsAreAnswered }
{}

/// A whole edit ends with one answer: what the history says of it, out of memory, or a fault of the keeper, whose count
/// then rose.
pub fn edits_are_answered()
    ensures { EditsAreAnswered }
{}

/// A batch ends with its round's answers, or before its round with how far its view is behind or out of memory.
pub fn batches_are_answered()
    ensures { BatchesAreAnswered }
{}

/// So does a view that is served with the housekeeping before it.
pub fn pages_are_served()
    ensures { PagesAreServed }
{}

/// So does an edit that is served.
pub fn edits_are_served()
    ensures { EditsAreServed }
{}

/// A whole view that is not behind gets its page, or that there is none, or out of memory.
/// One that is behind is told by how much.
pub fn views_get_their_page()
    ensures { ViewsGetTheirPage }
{}

/// A whole edit that the history does not decide is saved as the next entry.
/// Or it is out of memory, or meets a counted fault of the keeper, and the history stays.
pub fn undecided_edits_are_saved()
    ensures { UndecidedEditsAreSaved }
{}

/// A page that a step look answers was made by an earlier turn of the run: a store, or a round of the same region.
pub fn cached_sources_were_stored()
    ensures { CachedSourcesWereStored }
{}
