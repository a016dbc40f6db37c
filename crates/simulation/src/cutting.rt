//! A text, cut where one character stands.

ghost use Rattle.std.specs.Prelude.{◌≡◌, ◌<◌, MatchOption, length};
ghost use Rattle.std.specs.List.{position_or_len, before_first, after_first};
ghost use Rattle.simulation.specs.Pieces.{is_between};

/// What stands before the first of these characters, which is one of ASCII, and what behind it. None: there is none.
pub(crate) fn cut(text: &str, between: char) -> Option<(&str, &str)>
    requires { between < 128 }
    ensures { MatchOption result (position_or_len (is_between between) text.now ≡ length text.now)
        (λ r. (r.0.now ≡ before_first (is_between between) text.now)
        × (r.1.now ≡ after_first (is_between between) text.now)
        × (position_or_len (is_between between) text.now < length text.now)) }
{
    text.split_once(between)
}
