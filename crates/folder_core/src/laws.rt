// Laws of the definitions.
ghost use Rattle.folder_core.specs.Laws.{AnswersAreOne, FilesHaveForms, RunsAreOne};

use marshal_form::spellings_are_forms;

/// An event has one answer, and leads to one machine.
pub fn answers_are_one()
    ensures { AnswersAreOne }
{}

/// A run of events has one list of answers, and leads to one machine.
pub fn runs_are_one()
    ensures { RunsAreOne }
{}

/// A member of the content set that gives a present file gives with it the form of a local file
/// that has its record's hash.
pub fn files_have_forms()
    ensures { FilesHaveForms }
{
    spellings_are_forms();
}
