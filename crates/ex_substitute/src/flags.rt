//! The flags of a substitution.
ghost use Rattle.std.specs.Prelude.{◌≡◌};
ghost use Rattle.ex_substitute.specs.Flags as spec;

use text_scan::front;

/// The flags (`:s_flags`).
#[derive(Clone, Copy)]
pub(crate) struct Flags {
    /// `g` stood there.
    pub all: bool,
    /// `n` stood there.
    pub count_only: bool,
    /// `i` stood there.
    pub ignores: bool,
    /// `I` stood there.
    pub heeds: bool,
    /// What the last of `i` and `I` says.
    pub ignore: bool,
}

/// These flags, unless the last of them stood there before.
fn unless(stood: bool, flags: Flags) -> Option<Flags>
    ensures { result ≡ spec.unless stood flags }
{
    if stood { None } else { Some(flags) }
}

/// The flags with one more.
fn with_flag(flags: Flags, c: char) -> Option<Flags>
    ensures { result ≡ spec.with_flag flags c }
{
    match c {
        'g' => unless(flags.all, Flags { all: true, ..flags }),
        'n' => unless(
            flags.count_only,
            Flags {
                count_only: true,
                ..flags
            },
        ),
        'i' => unless(
            flags.ignores,
            Flags {
                ignores: true,
                ignore: true,
                ..flags
            },
        ),
        'I' => unless(
            flags.heeds,
            Flags {
                heeds: true,
                ignore: false,
                ..flags
            },
        ),
        _ => None,
    }
}

/// The flags of a text that has nothing else.
pub(crate) fn read_flags(text: &[char]) -> Option<Flags>
    ensures { result ≡ spec.flags_of text.now }
{
    let mut flags = Flags {
        all: false,
        count_only: false,
        ignores: false,
        heeds: false,
        ignore: false,
    };
    let mut rest = text;
    while let Some((c, more)) = front(rest) {
        flags = with_flag(flags, c)?;
        rest = more;
    }
    Some(flags)
}
