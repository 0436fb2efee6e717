//! Why a syntax file is refused.
use syn_base::List;
use vim_pattern::PatternCause;

/// Why a syntax file is refused. Those that aren't said of words are found by whoever carries the
/// commands out.
#[derive(Drop)]
pub enum Cause {
    /// A byte that isn't UTF-8.
    BadUtf8,
    /// No command of this profile; also an `if`, a `finish` or an `endif` outside the guard, and a
    /// `set` or a `let` of something else than 'cpoptions' or a variable.
    UnknownCommand,
    UnknownSubcommand,
    /// A subcommand that this profile leaves out, as written.
    NotInProfile { word: List<char> },
    /// A sync method other than `fromstart`.
    SyncMethod,
    /// The guard's `if` isn't followed by its other two commands.
    GuardUnfinished,
    /// The name of a group or a cluster, outside a list, isn't one.
    BadGroupName,
    ReservedName,
    /// A command, or the value behind an equals sign, ends where a word is needed.
    MissingArgument,
    /// A word where a command takes no more.
    ExtraText,
    /// A word that its command doesn't have.
    UnknownOption,
    /// `contains` with a keyword.
    OptionHere,
    BadList,
    /// A match has no pattern, or no delimiter begins one.
    NoPattern,
    /// No delimiter ends a pattern.
    NoDelimiter,
    BadOffset,
    TwoSkips,
    NoStart,
    NoEnd,
    TooLongWord,
    BadBrackets,
    /// The value of `syntax iskeyword`.
    BadOptionValue,
    /// A colour that begins with `#` and isn't `#rrggbb`.
    BadStyle,
    BadFileName,
    /// The name that was asked for.
    TooLongFile { name: List<char> },
    TooManyIncludes,
    TooDeepIncludes,
    TooManyItems,
    TooManyGroups,
    /// A pattern has no tree: the place of the offending character, from 0 in the pattern.
    Pattern { at: usize, cause: PatternCause },
    /// A pattern of names costs too much.
    CostlyNames,
}
