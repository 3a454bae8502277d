//! The summary's text.

ghost use Rattle.std.specs.Prelude.{◌≡◌, [], codes};
ghost use Rattle.cr_model.specs.Examples.{minor, minor_touches};
ghost use Rattle.cr_model.specs.Summaries.{summary_text};

/// Plain Bob Minor has two touches of 36 changes, one of 60 and six of 72, and no line tells of other lengths.
/// A book without touches has no longest one, and no line of a length.
pub fn a_summary_counts_by_length()
    ensures some { summary_text minor minor_touches
        ≡ codes "plain bob minor 1 to 72\ntouches 9\nlongest 72\n36 2\n60 1\n72 6\n" }
    ensures none { summary_text minor [] ≡ codes "plain bob minor 1 to 72\ntouches 0\nlongest 0\n" }
{}
