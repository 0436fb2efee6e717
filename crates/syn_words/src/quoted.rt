//! A pattern between its delimiters, with its offsets.
ghost use Rattle.std.specs.Prelude.{◌≡◌};
ghost use Rattle.syn_words.specs.Answers.{TakesAs};
ghost use Rattle.syn_words.specs.Quoted as spec;

use crate::refusal::WordRefusal;
use crate::{Cause, Quoted};
use std::alloc::Global;
use syn_base::List;
use text_scan::front;
use word_reader::{Adjusts, Reader, can_delimit};

fn quoted_of(text: List<char>, adjusts: Adjusts) -> Quoted
    ensures { result ≡ spec.quoted_of text adjusts }
{
    Quoted {
        text,
        ms: adjusts.ms,
        me: adjusts.me,
        hs: adjusts.hs,
        he: adjusts.he,
        rs: adjusts.rs,
        re: adjusts.re,
        lc: adjusts.lc,
    }
}

/// Takes the pattern that begins here.
pub(crate) fn quote(alloc: Global, reader: &mut Reader<'_>) -> Result<Quoted, WordRefusal>
    ensures { TakesAs result reader.new (spec.quoted reader.old) }
{
    let Some((delimiter, _)) = front(reader.rest()) else {
        return Err(WordRefusal::Fault(Cause::NoPattern));
    };
    if !can_delimit(delimiter) {
        return Err(WordRefusal::Fault(Cause::NoPattern));
    }
    reader.skip_one();
    let Some(pattern) = reader.delimited(alloc, delimiter)? else {
        return Err(WordRefusal::Fault(Cause::NoDelimiter));
    };
    let Some(adjusts) = reader.offsets() else {
        return Err(WordRefusal::Fault(Cause::BadOffset));
    };
    Ok(quoted_of(pattern, adjusts))
}
