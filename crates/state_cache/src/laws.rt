//! Laws over the definitions of this crate.
ghost use Rattle.std.specs.Prelude.{◌≡◌, List, []};
ghost use Rattle.state_cache.specs.Shown.{AreLinesShownOtherwise, Shown, lines_shown_otherwise};

/// What another syntax tells are exactly the lines for which the lists of what their spans show
/// differ, in ascending order.
pub fn another_syntax_tells_what_shows_otherwise()
    ensures { (before after : List (List Shown))
        → AreLinesShownOtherwise before after (lines_shown_otherwise before after) }
{}

/// A syntax by which a text shows the same tells nothing.
pub fn what_shows_the_same_is_not_told()
    ensures { (shown : List (List Shown)) → lines_shown_otherwise shown shown ≡ [] }
{}
