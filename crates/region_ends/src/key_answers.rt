//! Answers to a question of yes or no that is asked of an item at the columns with a key.
ghost use Rattle.std.specs.Prelude.{◌≡◌, ◌⊎◌, ◌<◌, ◌≤◌, ◌^◌, ℕ, Bool, Some, true, length, IfSome, OnOk};
ghost use Rattle.region_ends.specs.Common.{AnswersStand, IsYes, IsYesAt};
ghost use Rattle.region_ends.specs.declared.key_answers.Answer.TheVariants.{Yes};

use pattern_screens::KEYS;
use std::alloc::Global;
use syn_base::{ItemId, Memory};

/// What was answered.
#[derive(Clone, Copy)]
pub(crate) enum Answer {
    Unasked,
    No,
    Yes,
}

/// What was answered of one item, by the number of a key.
#[derive(Drop)]
pub(crate) struct Row {
    pub(crate) answers: Vec<Answer>,
}

/// Answers to a question of yes or no that is asked of an item at the columns with a key. They are
/// kept by the number of the item and that of the key, so those of one item stand together.
#[derive(Drop)]
pub struct KeyAnswers {
    alloc: Global,
    pub(crate) rows: Vec<Row>,
}

/// An answer.
fn answer_of(yes: bool) -> Answer
    ensures { result ≡ Yes → yes ≡ true }
{
    if yes { Answer::Yes } else { Answer::No }
}

/// The room of a row that has an answer by a number: where the number is behind those of the keys,
/// that of a character below 256, there is room for all of those.
fn room_for(number: usize) -> usize
    requires { number < 2 ^ 16 }
    ensures above { number < result }
    ensures few { result ≤ 2 ^ 16 }
{
    let first = KEYS as usize;
    let all = first + 256;
    if first < number && number < all {
        all
    } else {
        number + 1
    }
}

impl Row {
    /// Nothing was asked.
    fn new(alloc: Global) -> Row
        ensures { (number : ℕ) → IsYesAt result.answers.items number → ⊥ }
    {
        Row {
            answers: Vec::new(alloc),
        }
    }

    /// Makes room for a number.
    fn fill(&mut self, number: usize) -> Result<(), Memory>
        requires { number < 2 ^ 16 }
        ensures many { OnOk result (number < length self.new.answers.items) }
        ensures kept { (k : ℕ) → IsYesAt self.new.answers.items k
            → IsYesAt self.old.answers.items k }
    {
        if self.answers.len() <= number {
            self.answers.resize(room_for(number), Answer::Unasked)?;
        }
        Ok(())
    }

    /// Puts an answer. For want of memory no other is there than before.
    fn put(&mut self, number: usize, answer: Answer) -> Result<(), Memory>
        requires { number < 2 ^ 16 }
        ensures kept { (k : ℕ) → IsYesAt self.new.answers.items k
            → IsYesAt self.old.answers.items k ⊎ ((k ≡ number) × (answer ≡ Yes)) }
    {
        self.fill(number)?;
        self.answers[number] = answer;
        Ok(())
    }
}

impl KeyAnswers {
    /// Nothing was asked. It takes no memory.
    pub fn new(alloc: Global) -> KeyAnswers
        ensures { (is : ℕ → ℕ → Bool) → AnswersStand is result }
    {
        KeyAnswers {
            alloc,
            rows: Vec::new(alloc),
        }
    }

    /// All that was answered of an item, by the number of a key.
    #[inline(always)]
    pub(crate) fn row(&self, item: ItemId) -> Option<&[Answer]>
        ensures { IfSome result (λ row. (number : ℕ) → IsYesAt row.now number
            → IsYes self.now item.0 number) }
    {
        Some(self.rows.get(item.0 as usize)?.answers.as_slice())
    }

    /// What was answered of an item at the columns with a key.
    #[inline(always)]
    pub fn known(&self, number: u16, item: ItemId) -> Option<bool>
        ensures { (is : ℕ → ℕ → Bool) → AnswersStand is self.now → result ≡ Some true →
            is number item.0 ≡ true }
    {
        match self.row(item)?.get(number as usize)? {
            Answer::Unasked => None,
            Answer::No => Some(false),
            Answer::Yes => Some(true),
        }
    }

    /// Makes the rows up to one.
    fn fill(&mut self, row: usize) -> Result<(), Memory>
        requires { row < 2 ^ 32 }
        ensures many { OnOk result (row < length self.new.rows.items) }
        ensures kept { (j k : ℕ) → IsYes self.new j k → IsYes self.old j k }
    {
        for _ in self.rows.len()..row + 1 {
            self.rows.push(Row::new(self.alloc))?;
        }
        Ok(())
    }

    /// Keeps an answer.
    pub fn keep(&mut self, number: u16, item: ItemId, yes: bool) -> Result<(), Memory>
        ensures { (is : ℕ → ℕ → Bool) → AnswersStand is self.old →
            (yes ≡ true → is number item.0 ≡ true) → AnswersStand is self.new }
    {
        let row = item.0 as usize;
        self.fill(row)?;
        self.rows[row].put(number as usize, answer_of(yes))
    }
}
