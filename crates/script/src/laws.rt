//! Laws of the grammar and of plans.

ghost use Rattle.std.specs.Prelude.{◌≡◌, ◌<◌, ◌*◌, ℕ, List, length, take, Some, IfSome};
ghost use Rattle.lane_words.specs.declared.limits.TheConstants.{MOST_MEMBERS};
ghost use Rattle.script.specs.Forms.{IsAmong, IsWritten, form_of, word_of};
ghost use Rattle.script.specs.Grammar.{action_of, first_word};
ghost use Rattle.script.specs.Plan.{IsPlan, change_of};
ghost use Rattle.script.specs.declared.forms.TheConstants.{FORMS, PLAN_FORMS};
ghost use Rattle.partitioner.specs.Topic.{MayBeTopics};
ghost use Rattle.script.specs.declared.action.Action.{Action};
ghost use Rattle.script.specs.declared.plan.Change.{Change};
ghost use Rattle.partitioner.specs.declared.topic.Topic.{Topic};

/// A line in a form of an action parses to this action, with topics and without.
pub fn forms_are_read()
    ensures { (topics : List Topic) (action : Action) (line : List ℕ) → MayBeTopics topics
        → IsWritten topics action line → action_of topics line ≡ Some action }
{}

/// A line that parses to an action has one of its forms, with topics and without.
pub fn no_others_are_read()
    ensures { (topics : List Topic) (line : List ℕ)
        → IfSome (action_of topics line) (λ action. IsWritten topics action line) }
{}

/// The forms that are shown are those of all actions, and the first ones are those of all changes.
/// A line of an action begins with the word of its form.
pub fn forms_are_shown()
    ensures script { (action : Action) → IsAmong FORMS (form_of action) }
    ensures plan { (action : Action)
        → IfSome (change_of action) (λ change. IsAmong (take PLAN_FORMS FORMS) (form_of action)) }
    ensures word { (topics : List Topic) (action : Action) (line : List ℕ)
        → IsWritten topics action line → first_word line ≡ word_of (form_of action) }
{}

/// A plan has fewer than two lines for each possible member: each line is a join, or a leave or
/// loss of a member that joined, and somebody is left.
pub fn a_plan_is_short()
    ensures { (lines : List Change) → IsPlan lines → length lines < 2 * MOST_MEMBERS }
{}
