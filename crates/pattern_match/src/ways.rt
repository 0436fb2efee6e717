//! The present way of an attempt and the pending ones.
//!
//! Ways share what they have in common: what is still to be done, and what they noted, are kept as
//! entries of two lists, each of which names the entry behind it. Entries are numbered from 1, and 0 is
//! none. A way is a place and two such numbers. When a pending way is taken up, the entries that came
//! after it are forgotten.
ghost use Rattle.std.specs.Prelude.{◌≡◌, ◌≤◌, [], ◌∷◌, ◌++◌, List, drop, length, reverse, ◌+◌, ◌-◌, ◌<◌, ◌^◌, IfOk, OnOk, MatchOption, ℕ, IsTrue, IsFalse, Some, true};
ghost use Rattle.match_rules.specs.Ways.{way_from, with_capture, capture_of};
ghost use Rattle.pattern_match.specs.Ways.{Thread, with_note, place_of, found_way, IsNumbered, entries_named, capture_in, way_noted, with_earlier, with_earlier_capture, IsLast, NameLast, with_last, run_of, run_aside, IsNextCounted, ways_counted, last_of, shorter, kept_to};
ghost use Rattle.pattern_match.specs.declared.ways.Pending.{Pending as AnyPending};
ghost use Rattle.syn_base.specs.declared.places.Place.{Place};

use std::alloc::Global;
use std::marker::Model;
use syn_base::{Memory, Place};

/// An item, and the number of the entry behind it.
#[derive(Clone, Copy)]
struct Later<T> {
    item: T,
    next: usize,
}

/// What a way noted.
#[derive(Clone, Copy)]
pub(crate) enum Note {
    Captured { number: u8, from: Place, to: Place },
    External { number: u8, from: Place, to: Place },
    Start(Place),
    Stop(Place),
}

/// A note, and the number of the one before it. It names the last note of each counted group too, so
/// that a group is read in one step, however long the way is.
#[derive(Clone, Copy)]
struct Noted {
    note: Note,
    before: usize,
    last: [usize; 9],
}

/// Where a way stands, what is to be done first on it, and what it noted last.
#[derive(Clone, Copy)]
struct Here {
    at: Place,
    next: usize,
    noted: usize,
}

/// Ways that are still to be followed, and how many entries there were when they were put aside. They
/// stand at a column and those behind it, so that a greedy count keeps one entry for all its turns in a
/// line. The last column is the next way's.
#[derive(Clone, Copy)]
struct Pending {
    /// The way at the first column.
    here: Here,
    /// How many ways these are.
    count: usize,
    /// How many ways are pending below them.
    before: usize,
    later: usize,
    notes: usize,
}

const _: () = prove!(size_of::<Pending>() <= 64);

/// The present way and the pending ones.
#[derive(Drop)]
pub(crate) struct Ways<T> {
    here: Here,
    later: Vec<Later<T>>,
    notes: Vec<Noted>,
    pending: Vec<Pending>,
}

impl<T> Model for Ways<T> {
    ghost use Rattle.pattern_match.specs.Ways.{Ways, ways_of, AreWays};

    ghost Value = { Ways T };

    ghost view = { λ t. ways_of t.later.items t.notes.items t.pending.items t.here };

    ghost invariant = { λ t. AreWays t.later.items t.notes.items t.pending.items t.here };
}

impl<T: Copy> Ways<T> {
    /// One way, which has noted nothing, with nothing to be done. It takes no memory.
    pub(crate) fn new(alloc: Global, at: Place) -> Ways<T>
        ensures { result ≡ record { here = record { todo = []; way = way_from at }; pending = [] } }
    {
        Ways {
            here: Here {
                at,
                next: 0,
                noted: 0,
            },
            later: Vec::new(alloc),
            notes: Vec::new(alloc),
            pending: Vec::new(alloc),
        }
    }

    /// Begins with one way again, in the memory that there is.
    #[inline(always)]
    pub(crate) fn begin(&mut self, at: Place)
        ensures { self.new ≡ record {
          here = record { todo = []; way = way_from at };
          pending = [];
        } }
    {
        self.later.clear();
        self.notes.clear();
        self.pending.clear();
        self.here = Here {
            at,
            next: 0,
            noted: 0,
        };
    }

    /// Where its memory comes from.
    pub(crate) fn allocator(&self) -> Global {
        *self.later.allocator()
    }

    /// Where the present way stands.
    pub(crate) fn place(&self) -> Place
        ensures { result ≡ self.now.here.way.at }
    {
        self.here.at
    }

    /// Moves the present way.
    pub(crate) fn move_to(&mut self, at: Place)
        ensures { self.new ≡ record self.old {
          here = record self.old.here { way = record self.old.here.way { at = at } };
        } }
    {
        self.here.at = at;
    }

    /// One more thing to be done first on the present way.
    #[inline(always)]
    pub(crate) fn put_first(&mut self, item: T) -> Result<(), Memory>
        ensures { OnOk result (self.new ≡
            record self.old { here = record self.old.here { todo = item ∷ self.old.here.todo } }) }
    {
        self.later.push(Later {
            item,
            next: self.here.next,
        })?;
        self.here.next = self.later.len();
        Ok(())
    }

    /// Takes what is to be done first on the present way.
    #[inline(always)]
    pub(crate) fn take_first(&mut self) -> Option<T>
        ensures { MatchOption result ((self.old.here.todo ≡ []) × (self.new ≡ self.old))
            (λ item. (self.old.here.todo ≡ item ∷ self.new.here.todo) ×
            (self.new.here.way ≡ self.old.here.way) × (self.new.pending ≡ self.old.pending)) }
    {
        if self.here.next == 0 {
            return None;
        }
        let at = self.here.next - 1;
        let entry = self.later[at];
        self.here.next = entry.next;
        // above these no way names an entry, so a long count that has no choices needs no growing list
        let kept = at.max(entries_named(&self.pending));
        self.later.truncate(kept);
        Some(entry.item)
    }

    /// Puts copies of the present way aside, at its column and at those behind it, so many.
    #[inline(always)]
    fn put_copies_aside(&mut self, count: usize) -> Result<(), Memory>
        requires some { 1 ≤ count }
        requires columns { 1 < count → self.old.here.way.at.col + count ≤ 2 ^ 64 }
        ensures { OnOk result (self.new ≡ record self.old {
          pending = run_of self.old.here count
              ++ self.old.pending;
        }) }
    {
        let before = self.pending();
        if usize::MAX - before < count {
            return Err(Memory);
        }
        self.pending.push(Pending {
            here: self.here,
            count,
            before,
            later: self.later.len(),
            notes: self.notes.len(),
        })?;
        Ok(())
    }

    /// Puts a copy of the present way aside, as the next pending one.
    #[inline(always)]
    pub(crate) fn put_aside(&mut self) -> Result<(), Memory>
        ensures { OnOk result (self.new ≡
            record self.old { pending = self.old.here ∷ self.old.pending }) }
    {
        self.put_copies_aside(1)
    }

    /// Moves the present way on some columns. A copy of it is put aside at each of those that it
    /// leaves, the last column as the next pending one; all of them take one entry.
    pub(crate) fn put_run_aside(&mut self, count: usize) -> Result<(), Memory>
        requires some { 1 ≤ count }
        requires columns { self.old.here.way.at.col + count < 2 ^ 64 }
        ensures { OnOk result (self.new ≡ run_aside self.old count) }
    {
        self.put_copies_aside(count)?;
        let at = self.here.at;
        self.here.at = Place {
            line: at.line,
            col: at.col + count,
        };
        Ok(())
    }

    /// How many ways are pending.
    #[inline(always)]
    pub(crate) fn pending(&self) -> usize
        ensures { result ≡ length self.now.pending }
    {
        ways_counted(&self.pending)
    }

    /// Takes up the next pending way in place of the present one, if there is one.
    #[inline(always)]
    pub(crate) fn take_up(&mut self) -> bool
        ensures none { IsFalse result → (self.old.pending ≡ []) × (self.new ≡ self.old) }
        ensures next { IsTrue result → self.old.pending ≡ self.new.here ∷ self.new.pending }
    {
        let Some(next) = take_next(&mut self.pending) else {
            return false;
        };
        self.later.truncate(next.later);
        self.notes.truncate(next.notes);
        self.here = last_of(next);
        true
    }

    /// Forgets the pending ways but for the last `count`.
    pub(crate) fn forget_to(&mut self, count: usize)
        requires { count ≤ length self.now.pending }
        ensures { self.new ≡ record self.old {
          pending = drop (length self.old.pending - count)
              self.old.pending;
        } }
    {
        forget_to(&mut self.pending, count);
    }

    /// Goes on with what is to be done on the next pending way, with what the present one noted, at the
    /// place of the one or the other. The pending way is no longer pending.
    pub(crate) fn go_on_with_pending(&mut self, stay: bool) -> bool
        ensures none { IsFalse result → (self.old.pending ≡ []) × (self.new ≡ self.old) }
        ensures next { IsTrue result → (t : Thread T) × (self.old.pending ≡ t ∷ self.new.pending) ×
            (self.new.here ≡ record {
              todo = t.todo;
              way = record self.old.here.way { at = place_of stay self.old.here.way.at t.way.at };
            }) }
    {
        let Some(next) = take_next(&mut self.pending) else {
            return false;
        };
        self.later.truncate(next.later);
        let there = last_of(next);
        self.here = Here {
            at: place_of(stay, self.here.at, there.at),
            next: there.next,
            noted: self.here.noted,
        };
        true
    }

    /// Leaves nothing to be done on the present way.
    pub(crate) fn drop_all(&mut self)
        ensures { self.new ≡ record self.old { here = record self.old.here { todo = [] } } }
    {
        self.here.next = 0;
    }

    /// Notes where a counted group matched, from `from` to the place.
    pub(crate) fn note_capture(&mut self, number: u8, from: Place) -> Result<(), Memory>
        requires { (1 ≤ number) × (number ≤ 9) }
        ensures { OnOk result (self.new ≡
            record self.old {
              here = record self.old.here {
                way = record self.old.here.way {
                  captures = with_capture self.old.here.way.captures
                      number from self.old.here.way.at;
                };
              };
            }) }
    {
        self.note(Note::Captured {
            number,
            from,
            to: self.here.at,
        })
    }

    /// Notes where an external group matched.
    pub(crate) fn note_external(&mut self, number: u8, from: Place) -> Result<(), Memory>
        requires { (1 ≤ number) × (number ≤ 9) }
        ensures { OnOk result (self.new ≡
            record self.old {
              here = record self.old.here {
                way = record self.old.here.way {
                  externals = with_capture self.old.here.way.externals
                      number from self.old.here.way.at;
                };
              };
            }) }
    {
        self.note(Note::External {
            number,
            from,
            to: self.here.at,
        })
    }

    /// Notes that the match begins at the place.
    pub(crate) fn note_start(&mut self) -> Result<(), Memory>
        ensures { OnOk result (self.new ≡
            record self.old {
              here = record self.old.here {
                way = record self.old.here.way { start = Some self.old.here.way.at };
              };
            }) }
    {
        self.note(Note::Start(self.here.at))
    }

    /// Notes that the match ends at the place.
    pub(crate) fn note_stop(&mut self) -> Result<(), Memory>
        ensures { OnOk result (self.new ≡
            record self.old {
              here = record self.old.here {
                way = record self.old.here.way { stop = Some self.old.here.way.at };
              };
            }) }
    {
        self.note(Note::Stop(self.here.at))
    }

    /// One more note of the present way.
    fn note(&mut self, note: Note) -> Result<(), Memory>
        requires { IsNumbered note }
        ensures { OnOk result (self.new ≡
            record self.old {
              here = record self.old.here {
                way = with_note self.old.here.way
                    note;
              };
            }) }
    {
        let last = last_from(&self.notes, self.here.noted);
        let number = self.notes.len() + 1;
        self.notes.push(Noted {
            note,
            before: self.here.noted,
            last: with_last(last, note, number),
        })?;
        self.here.noted = self.notes.len();
        Ok(())
    }

    /// Where a group matched last on the present way, from 1.
    pub(crate) fn capture(&self, number: u8) -> Option<(Place, Place)>
        requires { (1 ≤ number) × (number ≤ 9) }
        ensures { result ≡ capture_of self.now.here.way.captures number }
    {
        let last = last_from(&self.notes, self.here.noted);
        let at = last[number as usize - 1];
        if at == 0 {
            return None;
        }
        capture_in(self.notes[at - 1].note, number)
    }

    /// Whether the present way noted nothing.
    pub(crate) fn has_no_notes(&self) -> bool
        ensures { result ≡ true → self.now.here.way ≡ way_from self.now.here.way.at }
    {
        self.here.noted == 0
    }

    /// All that the present way noted.
    pub(crate) fn way(&self) -> FoundWay
        ensures { found_way result ≡ self.now.here.way }
    {
        let mut way = FoundWay {
            at: self.here.at,
            captures: [None; 9],
            externals: [None; 9],
            start: None,
            stop: None,
        };
        let mut at = self.here.noted;
        while at > 0 {
            let entry = self.notes[at - 1];
            way.fill(entry.note);
            at = entry.before;
        }
        way
    }
}

/// How many ways entries stand for.
#[inline(always)]
fn ways_counted(pending: &[Pending]) -> usize
    requires { IsNextCounted (reverse pending.now) }
    ensures { result ≡ ways_counted (reverse pending.now) }
{
    match pending.last() {
        Some(next) => next.before + next.count,
        None => 0,
    }
}

/// Takes the next way from the entries, and answers the entry that it was in.
#[inline(always)]
fn take_next(pending: &mut Vec<Pending>) -> Option<Pending>
    ensures { MatchOption result ((pending.old.items ≡ []) × (pending.new ≡ pending.old))
        (λ next. (older : List AnyPending) × (pending.old.items ≡ older ++ next ∷ []) ×
        (pending.new.items ≡ older ++ shorter next)) }
{
    if pending.is_empty() {
        return None;
    }
    let last = pending.len() - 1;
    let next = pending[last];
    if next.count > 1 {
        pending[last] = Pending {
            count: next.count - 1,
            ..next
        };
    } else {
        pending.truncate(last);
    }
    Some(next)
}

/// Forgets the entries' ways but for the last `count`.
fn forget_to(pending: &mut Vec<Pending>, count: usize)
    ensures { reverse pending.new.items ≡ kept_to count (reverse pending.old.items) }
{
    while !pending.is_empty() {
        let last = pending.len() - 1;
        let next = pending[last];
        if next.before < count {
            pending[last] = Pending {
                count: count - next.before,
                ..next
            };
            return;
        }
        pending.truncate(last);
    }
}

/// Where the next way of an entry stands, and what it names.
#[inline(always)]
fn last_of(pending: Pending) -> Here
    requires some { 1 ≤ pending.count }
    requires columns { pending.here.at.col + pending.count ≤ 2 ^ 64 }
    ensures { result ≡ last_of pending }
{
    let at = pending.here.at;
    Here {
        at: Place {
            line: at.line,
            col: at.col + (pending.count - 1),
        },
        ..pending.here
    }
}

/// How many entries of what is to be done the pending ways may name.
fn entries_named(pending: &[Pending]) -> usize
    ensures { result ≡ entries_named (reverse pending.now) }
{
    match pending.last() {
        Some(next) => next.later,
        None => 0,
    }
}

/// Which entries noted each counted group last, from the one with a number on.
fn last_from(notes: &[Noted], number: usize) -> [usize; 9]
    requires known { NameLast (reverse notes.now) }
    requires within { number ≤ length notes.now }
    ensures { IsLast (reverse notes.now) number result }
{
    if number == 0 {
        [0; 9]
    } else {
        notes[number - 1].last
    }
}

/// Which ones did with one more entry, which has that number.
fn with_last(mut last: [usize; 9], note: Note, number: usize) -> [usize; 9]
    requires { IsNumbered note }
    ensures { result ≡ with_last last note number }
{
    if let Note::Captured { number: closed, .. } = note {
        last[closed as usize - 1] = number;
    }
    last
}

/// The one place, or the other.
fn place_of(stay: bool, here: Place, there: Place) -> Place
    ensures { result ≡ place_of stay here there }
{
    if stay { here } else { there }
}

/// A way with all that it noted.
#[derive(Clone, Copy)]
pub(crate) struct FoundWay {
    pub at: Place,
    pub captures: [Option<(Place, Place)>; 9],
    pub externals: [Option<(Place, Place)>; 9],
    pub start: Option<Place>,
    pub stop: Option<Place>,
}

impl FoundWay {
    /// Takes a note where nothing later was noted.
    fn fill(&mut self, note: Note)
        ensures { found_way self.new ≡ with_earlier (found_way self.old) note }
    {
        match note {
            Note::Captured { number, from, to } => fill(&mut self.captures, number, from, to),
            Note::External { number, from, to } => fill(&mut self.externals, number, from, to),
            Note::Start(place) => self.start = self.start.or(Some(place)),
            Note::Stop(place) => self.stop = self.stop.or(Some(place)),
        }
    }
}

/// The way at a place with what was noted on it, the last note first.
pub(crate) fn way_with(at: Place, notes: &[Note]) -> FoundWay
    ensures { (p : Place) → found_way result ≡ way_noted (way_from p) notes.now at }
{
    let mut way = FoundWay {
        at,
        captures: [None; 9],
        externals: [None; 9],
        start: None,
        stop: None,
    };
    for note in notes {
        way.fill(*note);
    }
    way
}

/// Takes the places of a group that has none yet, if its number is that of one.
fn fill(captures: &mut [Option<(Place, Place)>; 9], number: u8, from: Place, to: Place)
    ensures { captures.new ≡ with_earlier_capture captures.old number from to }
{
    let index = (number as usize).saturating_sub(1);
    if index < 9 {
        captures[index] = captures[index].or(Some((from, to)));
    }
}

/// Where a note says that a counted group matched.
fn capture_in(note: Note, number: u8) -> Option<(Place, Place)>
    ensures { result ≡ capture_in note number }
{
    match note {
        Note::Captured {
            number: closed,
            from,
            to,
        } if closed == number => Some((from, to)),
        _ => None,
    }
}
