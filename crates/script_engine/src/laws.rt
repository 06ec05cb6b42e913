// Laws of the definitions.
ghost use Rattle.script_engine.specs.Equal.{DrainedPairsPrintAlike, DrainsCoverTheirOwn, DrainsKeepRecords, DrainsLeaveDrained, EqualRecordsPrintAlike, EqualTrees, FreshVolumesAreAlike};
ghost use Rattle.script_engine.specs.Laws.{PagesAreAsked, PullsAreRounds, TreesAreOne, VolumesHaveTrees};
ghost use Rattle.script_engine.specs.Scripts.{BeginningsGoOn, BeginningsKeepScenesSound, EqualRecords, EveryLinePrints, EveryScriptPrints, FreshScenesAreSound, LinesKeepScenesSound, LinesPrintOneText, OneText, RecordedIsCovered, RunsKeepScenesSound, RunsPrintOneText, StaysCovered};

/// What is reached from the root of a volume, in order of the paths, is one list.
pub fn trees_are_one()
    ensures { TreesAreOne }
{}

/// Each volume has such a list.
pub fn volumes_have_trees()
    ensures { VolumesHaveTrees }
{}

/// A pull that isn't refused is a whole round of the world, and what it asks for is just the one
/// page in order that leaves nothing to be asked for.
pub fn pulls_are_rounds()
    ensures rounds { PullsAreRounds }
    ensures pages { PagesAreAsked }
{}

/// Before the first line a scene is sound: it keeps the world's invariant, each volume is one of
/// lists and each vector one of intervals, and a database without a name is that of a member that
/// has done nothing.
pub fn fresh_scenes_are_sound()
    ensures { FreshScenesAreSound }
{}

/// Each line in form keeps a scene sound.
pub fn lines_keep_scenes_sound()
    ensures { LinesKeepScenesSound }
{}

/// So do the lines of a run, and so every scene that a run reaches is sound.
pub fn runs_keep_scenes_sound()
    ensures { RunsKeepScenesSound }
{}

/// So does what is begun of a line when memory runs out; and what was recorded, covered or sent
/// before stays so.
pub fn beginnings_keep_scenes_sound()
    ensures { BeginningsKeepScenesSound }
{}

/// A line prints one text and leads to one scene.
pub fn lines_print_one_text()
    ensures { LinesPrintOneText }
{}

/// So do the lines of a run.
pub fn runs_print_one_text()
    ensures { RunsPrintOneText }
{}

/// A script has one text, so that the text of the bytes read says wholly what was to be written.
pub fn one_text()
    ensures { OneText }
{}

/// In every scene that a run reaches, each line prints something and leads on.
pub fn every_line_prints()
    ensures { EveryLinePrints }
{}

/// So every script in form has a text.
pub fn every_script_prints()
    ensures { EveryScriptPrints }
{}

/// What some first lines of a script print is a beginning of its whole text.
pub fn beginnings_go_on()
    ensures { BeginningsGoOn }
{}

/// In every scene that a run reaches, each recorded update is covered by the member whose database
/// its version has.
pub fn recorded_is_covered()
    ensures { RecordedIsCovered }
{}

/// What a member covers it covers after every further line, at the same place and with the same
/// name.
pub fn stays_covered()
    ensures { StaysCovered }
{}

/// Members that cover the same versions have the same records, at one moment of a run or at two.
pub fn equal_vectors_have_equal_records()
    ensures { EqualRecords }
{}

/// Drained members that cover the same versions, or only have the same records, print the same
/// sums; and the same tree, where files of one sum have one length. Contents are compared by their
/// sums alone, so lengths are not told apart where sums are not. A volume with nothing in it is
/// alike to each.
pub fn equal_vectors_print_equal_trees()
    ensures vectors { EqualTrees }
    ensures records { EqualRecordsPrintAlike }
    ensures fresh { FreshVolumesAreAlike }
{}

/// A member whose drain isn't refused is drained. Every drain leaves each member its records, and
/// lets the drained one cover the journal records that it consumed, and no more. So members that
/// cover the same versions print the same once each was drained, though by then each may cover
/// versions of its own that the other doesn't.
pub fn drains_leave_drained()
    ensures drained { DrainsLeaveDrained }
    ensures covered { DrainsCoverTheirOwn }
    ensures records { DrainsKeepRecords }
    ensures pairs { DrainedPairsPrintAlike }
{}
