//! One physical line more.
ghost use Rattle.std.specs.Prelude.{◌≡◌, IfOk};
ghost use Rattle.syn_lines.specs.Continuation as spec;
ghost use Rattle.syn_lines.specs.Joining.{ended, seen, with_line};

use crate::LogicalLine;
use std::alloc::Global;
use syn_base::{List, Memory};
use text_scan::{front, is_blank, past_blanks};

/// What a physical line is to the line before it.
#[derive(Clone, Copy)]
pub(crate) enum Kind<'a> {
    Starts,
    /// It continues that line with this.
    Continues(&'a [char]),
    /// It is passed over.
    Remark,
}

/// The logical lines that are whole, and the one that may be continued.
#[derive(Drop)]
pub(crate) struct Joined {
    pub done: List<LogicalLine>,
    pub current: LogicalLine,
}

/// Whether a remark goes on so behind its quote.
fn is_remark(text: &[char]) -> bool
    ensures { result ≡ spec.is_remark text.now }
{
    match front(text) {
        Some(('\\', more)) => match front(more) {
            Some((c, _)) => is_blank(c),
            None => false,
        },
        _ => false,
    }
}

fn kind_of(text: &[char]) -> Kind<'_>
    ensures { spec.kind_of text.now ≡ seen result }
{
    match front(past_blanks(text)) {
        Some(('\\', more)) => Kind::Continues(more),
        Some(('"', more)) => {
            if is_remark(more) {
                Kind::Remark
            } else {
                Kind::Starts
            }
        }
        _ => Kind::Starts,
    }
}

/// One physical line more, of this number.
pub(crate) fn with_line(
    alloc: Global,
    joined: Joined,
    number: usize,
    line: List<char>,
) -> Result<Joined, Memory>
    ensures { IfOk result (λ j. j ≡ with_line joined number line) }
{
    let Joined {
        mut done,
        mut current,
    } = joined;
    match kind_of(line.as_slice()) {
        Kind::Remark => Ok(Joined { done, current }),
        Kind::Continues(more) => {
            let first = current.number;
            let mut text = current.text;
            text.extend_from_slice(more)?;
            current = LogicalLine {
                number: first,
                text,
            };
            Ok(Joined { done, current })
        }
        Kind::Starts => {
            done.push(current)?;
            current = LogicalLine { number, text: line };
            Ok(Joined { done, current })
        }
    }
}

/// The logical lines, where no physical line follows.
pub(crate) fn ended(joined: Joined) -> Result<List<LogicalLine>, Memory>
    ensures { IfOk result (λ lines. lines ≡ ended joined) }
{
    let Joined { mut done, current } = joined;
    done.push(current)?;
    Ok(done)
}
