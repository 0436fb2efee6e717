//! A line that is painted elsewhere is painted alike.
//!
//! A painting depends on the state before the line and on the lines that it looked at, and on
//! nothing else: on no other line, and on the line's number only where a pattern names one. So where
//! a text is changed, a line behind the change whose looked lines were not touched, and before which
//! the same stands, keeps its spans; where a number was looked at, only if the line didn't move. It
//! rests on the same law of attempts (`match_rules`), and is proved through all rules of painting: by
//! each rule, what the one text gives and what the other gives are alike.
#![tactic(auto)]

ghost use Rattle.paint_shift.specs.AboutLine.{PaintingsLookAboutTheirLine};
ghost use Rattle.paint_shift.specs.Change.{ChangesLeaveOtherLines};
ghost use Rattle.paint_shift.specs.Elsewhere.{LinesArePaintedAlike};

/// Where two texts agree on the lines that a line's painting looks at, as far on as the line stands
/// in the other, and the states before it are equal, that line has the same spans there and the
/// same state after it, or the same refusal with its column and item, and looks at the same lines,
/// moved. A painting that looked at a line's number is asked only of the line with the same one.
pub fn a_line_painted_elsewhere_is_painted_alike()
    ensures { LinesArePaintedAlike }
{}

/// The lines that a line's painting looks at lie about it: it is among them, none is before the
/// line before the text's first one, and none behind the line behind its last one. So it is for a
/// line that is refused too.
pub fn a_painting_looks_about_its_line()
    ensures { PaintingsLookAboutTheirLine }
{}

/// Where lines of a text are replaced, a line that looked at none of them and before which the same
/// stands keeps its painting: where all that it looked at lies before the change, and where all
/// lies behind it, then with its lines moved by as many as the change added. In the second case a
/// line that looked at a number must have its own still.
pub fn a_change_leaves_other_lines()
    ensures { ChangesLeaveOtherLines }
{}
