//! Laws of the definitions: the contracts of functions that have no code.
ghost use Rattle.vimsyn_cli.specs.Laws.{AcceptedFilesAreFolded, AcceptedFilesArePages, AcceptedFilesArePainted, AcceptedLargeTextsAreEdited};
ghost use Rattle.vimsyn_cli.specs.Laws.{AcceptedSyntaxFilesAreCounted, AcceptedTextsAreEdited, CarriedOutScriptsAreDone};
ghost use Rattle.vimsyn_cli.specs.Laws.{AcceptedFilesAreSeen, AcceptedFilesAreSeenPages, ViewsAreRefusedAlike};
ghost use Rattle.vimsyn_cli.specs.Laws.{KeptSyntaxIsAccepted, PaintedLargeTextsAreDone, TextsWithinLimitsArePainted};

/// Where the syntax is accepted and the text is painted whole, `spans` prints its spans, `html`
/// its page, both with all shown, and `folds` its folds, and the status is Done; `edit` carries out
/// its script.
pub fn accepted_files_are_painted()
    ensures spans { AcceptedFilesArePainted }
    ensures page { AcceptedFilesArePages }
    ensures folds { AcceptedFilesAreFolded }
    ensures edits { AcceptedTextsAreEdited }
{}

/// Where besides something is to be concealed, and the group `Conceal` is there or has room, `spans`
/// prints the spans of the view and `html` its page. It is made of the spans of the marked painting,
/// which stand for those of the text. Where those are refused, so is the view.
pub fn accepted_files_are_seen()
    ensures spans { AcceptedFilesAreSeen }
    ensures page { AcceptedFilesAreSeenPages }
    ensures refusals { ViewsAreRefusedAlike }
{}

/// The kept syntax is accepted, and where the generated text is painted whole, `large` prints the
/// five lines of the edits on it.
pub fn accepted_large_texts_are_edited()
    ensures syntax { KeptSyntaxIsAccepted }
    ensures edits { AcceptedLargeTextsAreEdited }
{}

/// Where the syntax file is accepted, `check` prints its three counts, and the status is Done.
pub fn accepted_syntax_files_are_counted()
    ensures { AcceptedSyntaxFilesAreCounted }
{}

/// `edit` ends Done, with what its commands print, where besides each command of a short enough
/// script fits the text as it is then, each one by pattern comes to a change or a count, and the
/// painting of each text that they change is accepted.
/// `large` ends Done where the painting of each text that its edits change is accepted: they fit.
pub fn accepted_edits_are_carried_out()
    ensures script { CarriedOutScriptsAreDone }
    ensures large { PaintedLargeTextsAreDone }
{}

/// A painting is accepted, as these laws ask it of the text at first and behind each command, where
/// no attempt that it may make costs more than the budget, and at most 1,000 frames stand wherever
/// something starts.
pub fn texts_within_limits_are_painted()
    ensures { TextsWithinLimitsArePainted }
{}
