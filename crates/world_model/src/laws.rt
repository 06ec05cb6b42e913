// What holds of every run.
ghost use Rattle.world_model.specs.Folder.{AnswersOfMembersAreThere, MembersAnswerOnce, StepsOfMembersFit};
ghost use Rattle.world_model.specs.Laws.{ActsAreOne, AdoptionsAreFit, AllFoldersStaySound, AllIsCounted, AllIsCountedInLives, AtMostFourAreDone, AtMostFourAreDue, CoverIsStable, CoveredIsHeld, DrainedMembersHaveNone, DrainedVolumesAreTrees, DrainedWhereNothingIsDue, DrainsEnd, EqualVectorsHaveEqualRecords, EqualVectorsHaveEqualTrees, EventsAreOne, EventsKeepTheInvariant, FilesAreListed, FinishedRoundsAreHeld, FirstLivesAreKept, FlightsCanLand, FoldersBeginSound, FreshMembersAreDrained, FreshWorldsAreSound, LivesAreRuns, LivesAreSound, MembersHaveOneAnswer, MembersStopAndStart, NextStepsAreOne, NextStepsCanBeDone, PendingObjectsStay, QuietMembersGoOn, RoundsStayTrue, RunsAreLives, RunsKeepTheInvariant, StaysCovered, StepsLowerWhatIsDue, ViewsAreThere};

/// Members that have done nothing keep the invariant.
pub fn fresh_worlds_are_sound()
    ensures { FreshWorldsAreSound }
{}

/// From a fresh world on, All has at most an update for each version that a member has consumed: of
/// each member its `consumed`, less 9.
pub fn all_is_counted()
    ensures { AllIsCounted }
{}

/// What a vector covers of All doesn't change while All grows.
pub fn cover_is_stable()
    ensures { CoverIsStable }
{}

/// Each covered update is a record, or a record of its file isn't lower; a file has one record at
/// most.
pub fn what_is_covered_is_held()
    ensures { CoveredIsHeld }
{}

/// What a sent vector covers, and what is recorded, stays covered, and is held or beaten from then
/// on.
pub fn what_is_sent_stays_covered()
    ensures { StaysCovered }
{}

/// Members that cover the same versions have the same records, at one moment or at two.
pub fn equal_vectors_have_equal_records()
    ensures { EqualVectorsHaveEqualRecords }
{}

/// The tree of a drained member's volume is the tree of its records: what its paths lead to, with
/// kinds and sums.
pub fn drained_volumes_are_trees()
    ensures { DrainedVolumesAreTrees }
{}

/// Drained members that cover the same versions have the same trees, at one moment or at two.
pub fn equal_vectors_have_equal_trees()
    ensures { EqualVectorsHaveEqualTrees }
{}

/// A round stays true, whatever happens in it or beside it.
pub fn rounds_stay_true()
    ensures { RoundsStayTrue }
{}

/// A round in which nothing is asked for or listed may be finished.
pub fn finished_rounds_are_held()
    ensures { FinishedRoundsAreHeld }
{}

/// An update that is adopted in a run is new, not ahead of its own member, and of its file's kind.
pub fn adoptions_are_fit()
    ensures { AdoptionsAreFit }
{}

/// An event in flight when its member stopped can have its change when the member starts again.
pub fn flights_can_land()
    ensures { FlightsCanLand }
{}

/// A member that is up may stop, with each event in flight that may come or with none, and one that
/// is down may start without it.
pub fn members_stop_and_start()
    ensures { MembersStopAndStart }
{}

/// Runs with stops lead between the same worlds as runs without, so All is counted in them too.
pub fn lives_are_runs()
    ensures without { LivesAreRuns }
    ensures with_them { RunsAreLives }
    ensures counted { AllIsCountedInLives }
{}

/// An event leads from a world to one world, and an event in flight lands in one way.
pub fn events_are_one()
    ensures events { EventsAreOne }
    ensures acts { ActsAreOne }
{}

/// Every event keeps the invariant.
pub fn events_keep_the_invariant()
    ensures { EventsKeepTheInvariant }
{}

/// Every run keeps the invariant, and All, what is consumed, what is covered and what was sent only
/// grow in it.
pub fn runs_keep_the_invariant()
    ensures { RunsKeepTheInvariant }
{}

/// A member alone that has done nothing is sound.
pub fn folders_begin_sound()
    ensures { FoldersBeginSound }
{}

/// A member alone stays sound under its own operations, its installer, its journal and every
/// adoption that is fit, whatever its partners send.
pub fn folders_stay_sound()
    ensures { AllFoldersStaySound }
{}

/// No operation of the installer changes an object with a pending local record.
pub fn pending_objects_stay()
    ensures { PendingObjectsStay }
{}

/// Where every member is up no event is in flight. Events, stops and restarts keep the invariant,
/// and each event in flight can still land.
pub fn lives_are_sound()
    ensures first { FirstLivesAreKept }
    ensures sound { LivesAreSound }
{}

/// Each next step of the installer can be done, where no local record is pending.
pub fn next_steps_can_be_done()
    ensures { NextStepsCanBeDone }
{}

/// At most four things are due for a file.
pub fn at_most_four_are_due()
    ensures { AtMostFourAreDue }
{}

/// Each step of the installer that is done lowers what is due for its file, and raises it for none.
pub fn steps_lower_what_is_due()
    ensures { StepsLowerWhatIsDue }
{}

/// Each file has a view: it can be told what is due for it.
pub fn views_are_there()
    ensures { ViewsAreThere }
{}

/// At most four steps of the installer are done for a file, where nothing else happens between them.
pub fn at_most_four_are_done()
    ensures { AtMostFourAreDone }
{}

/// A drain ends where nothing else happens in it: after eight steps for each file of the member, and
/// one for each journal record that it hasn't consumed, if not before. Its files are a list.
pub fn drains_end()
    ensures ends { DrainsEnd }
    ensures listed { FilesAreListed }
{}

/// A member is drained where no local record is pending, all is consumed, and nothing is due for any
/// file; and so is one that has done nothing.
pub fn members_are_drained_where_nothing_is_due()
    ensures due { DrainedWhereNothingIsDue }
    ensures fresh { FreshMembersAreDrained }
{}

/// A member with no pending local record is drained, or has one next step, whose turn it is.
pub fn quiet_members_go_on()
    ensures goes_on { QuietMembersGoOn }
    ensures one { NextStepsAreOne }
    ensures drained { DrainedMembersHaveNone }
{}

/// What each member does next is one step, or nothing, or the first local journal record is to be
/// consumed before.
pub fn members_have_one_answer()
    ensures { MembersHaveOneAnswer }
{}

/// A member alone, whatever its partners send it, can do the operation of its next step with the
/// contents that it has staged, and has one answer when it is asked for that step.
pub fn members_do_their_steps()
    ensures fit { StepsOfMembersFit }
    ensures once { MembersAnswerOnce }
    ensures there { AnswersOfMembersAreThere }
{}
