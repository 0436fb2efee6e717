//! Going along a text.
ghost use Rattle.std.specs.Prelude.{◌≡◌, ◌≤◌, ◌-◌, length, drop, take};

/// The text without so many characters at its front.
pub fn behind(text: &[char], n: usize) -> &[char]
    requires { n ≤ length text.now }
    ensures value { result.now ≡ drop n text.now }
    ensures len { length result.now ≡ length text.now - n }
{
    &text[n..]
}

/// So many characters of the text.
pub fn first_of(text: &[char], n: usize) -> &[char]
    requires { n ≤ length text.now }
    ensures { result.now ≡ take n text.now }
{
    &text[..n]
}
