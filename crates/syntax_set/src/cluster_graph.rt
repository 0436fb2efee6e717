//! Where the names of clusters lead.
//!
//! Which clusters lead to which is found level by level: on each level a cluster leads to itself and
//! to all to which the clusters that it names led on the level before. The clusters that are led to
//! are taken 128 at a time, so all of them cost a bit for each pair of clusters.
ghost use Rattle.std.specs.Prelude.{◌≡◌, ◌≤◌, ◌<◌, ◌+◌, ◌^◌, ℕ, [], length};
ghost use Rattle.std.specs.Prelude.{slice_index_or, true, false, None, IfOk, IfSome};
ghost use Rattle.std.specs.Bool.{OnTrue, OnFalse};
ghost use Rattle.syntax_set.specs.Membership.{cluster_has};
ghost use Rattle.syntax_set.specs.Reached as spec;

use crate::cluster_list::ClusterList;
use std::alloc::Global;
use std::marker::Model;
use syn_base::{List, Memory};

/// How many levels of clusters count.
pub(crate) const MOST_LEVELS: usize = 30;

/// How many clusters stand in a column.
const COLUMN: usize = 128;

/// For each cluster which ones of a column it leads to, a bit for each. Contracts see the words.
#[derive(Drop)]
pub(crate) struct Column {
    words: Vec<u128>,
}

impl Model for Column {
    ghost use Rattle.std.specs.Prelude.{List, ℕ};

    ghost Value = { List ℕ };

    ghost view = { λ c. c.words.items };
}

impl Column {
    fn word(&self, cluster: usize) -> u128
        ensures { result ≡ spec.word_at self.now cluster }
    {
        word_at(&self.words, cluster)
    }
}

/// The word of a cluster, without any bit where there is none.
fn word_at(words: &[u128], cluster: usize) -> u128
    ensures { result ≡ spec.word_at words.now cluster }
{
    match words.get(cluster) {
        Some(word) => *word,
        None => 0,
    }
}

/// The bit of a cluster in the column that begins at `first`, if it stands there.
fn own_word(first: usize, cluster: usize) -> u128
    ensures { result ≡ spec.own_word first cluster }
{
    if cluster < first {
        return 0;
    }
    if cluster - first < COLUMN {
        1 << (cluster - first)
    } else {
        0
    }
}

/// The bits of the words of several clusters.
fn named_words(words: &[u128], clusters: &[u32]) -> u128
    ensures { result ≡ spec.named_words words.now clusters.now }
{
    let mut word = 0;
    for cluster in clusters {
        word |= word_at(words, *cluster as usize);
    }
    word
}

/// The clusters that each one names, side by side.
fn all_named(alloc: Global, lists: &[ClusterList]) -> Result<Vec<List<u32>>, Memory>
    ensures { IfOk result (λ named. spec.AreNamed lists.now named.items) }
{
    let mut named = Vec::with_capacity(alloc, lists.len())?;
    for cluster in 0..lists.len() {
        named.push(List::from_slice(alloc, lists[cluster].clusters())?)?;
    }
    Ok(named)
}

/// The words of a column on one level more.
fn next_words(
    alloc: Global,
    named: &[List<u32>],
    first: usize,
    words: &[u128],
) -> Result<Vec<u128>, Memory>
    ensures as_many { IfOk result (λ next. length next.items ≡ length named.now) }
    ensures each { IfOk result (λ next. (cluster : ℕ) → cluster < length named.now
        → spec.word_at next.items cluster
        ≡ spec.next_word first words.now cluster (slice_index_or named.now cluster [])) }
{
    let mut next = Vec::with_capacity(alloc, named.len())?;
    for cluster in 0..named.len() {
        let clusters = named[cluster].as_slice();
        next.push(own_word(first, cluster) | named_words(words, clusters))?;
    }
    Ok(next)
}

/// The column that begins at `first`.
fn column_from(
    alloc: Global,
    lists: &[ClusterList],
    named: &[List<u32>],
    first: usize,
) -> Result<Column, Memory>
    requires { spec.AreNamed lists.now named.now }
    ensures { IfOk result (spec.IsColumn lists.now 30 first) }
{
    let mut words = vec![in alloc; 0; lists.len()]?;
    for _level in 0..MOST_LEVELS {
        let next = next_words(alloc, named, first, &words)?;
        // where one level adds nothing, those behind it add nothing either
        if next.as_slice() == words.as_slice() {
            return Ok(Column { words });
        }
        words = next;
    }
    Ok(Column { words })
}

/// All columns.
pub(crate) fn all_columns(alloc: Global, lists: &[ClusterList]) -> Result<Vec<Column>, Memory>
    ensures { IfOk result (λ columns. spec.AreColumns lists.now columns.items) }
{
    let named = all_named(alloc, lists)?;
    let mut columns = Vec::new(alloc);
    for k in 0..lists.len() / COLUMN + 1 {
        columns.push(column_from(alloc, lists, &named, COLUMN * k)?)?;
    }
    Ok(columns)
}

/// The first place from this one on at which a bit is set.
fn next_place(word: u128, from: u32) -> Option<u32>
    requires { from ≤ 128 }
    ensures found { IfSome result (λ place.
        (from ≤ place) × (place < 128) × (spec.has_bit word place ≡ true)) }
    ensures first { IfSome result (λ place.
        (i : ℕ) → from ≤ i → i < place → spec.has_bit word i ≡ false) }
    ensures none { (result ≡ None) → (i : ℕ) → from ≤ i → i < 128 → spec.has_bit word i ≡ false }
{
    if from == 128 {
        return None;
    }
    let left = word >> from;
    if left == 0 {
        return None;
    }
    Some(from + left.trailing_zeros())
}

/// Whether a cluster itself names the group.
fn names_group(lists: &[ClusterList], cluster: usize, group: u32) -> bool
    ensures { result ≡ spec.names_group lists.now group cluster }
{
    match lists.get(cluster) {
        Some(list) => list.groups().contains(group),
        None => false,
    }
}

/// Whether one of the clusters from `first` on whose bits are set names the group.
fn any_names(lists: &[ClusterList], first: usize, word: u128, group: u32) -> bool
    requires { first + 128 < 2 ^ 64 }
    ensures some { OnTrue result (spec.NamesAt lists.now group first word) }
    ensures none { OnFalse result (spec.NamesNone lists.now group first word 128) }
{
    let mut from = 0;
    while let Some(place) = next_place(word, from) {
        if names_group(lists, first + place as usize, group) {
            return true;
        }
        from = place + 1;
    }
    false
}

/// Whether a cluster leads to one that names the group, by all columns.
pub(crate) fn leads_to_group(
    lists: &[ClusterList],
    columns: &[Column],
    cluster: u32,
    group: u32,
) -> bool
    requires { spec.AreColumns lists.now columns.now }
    ensures { result ≡ cluster_has lists.now 30 group cluster }
{
    let cluster = cluster as usize;
    if cluster >= lists.len() {
        return false;
    }
    for k in 0..columns.len() {
        if any_names(lists, COLUMN * k, columns[k].word(cluster), group) {
            return true;
        }
    }
    false
}

/// Whether a cluster has a group, by its list and by those of the clusters that it names, so many
/// levels deep. It takes no memory.
pub(crate) fn has_within(lists: &[ClusterList], levels: usize, cluster: u32, group: u32) -> bool
    ensures { result ≡ cluster_has lists.now levels group cluster }
{
    let Some(list) = lists.get(cluster as usize) else {
        return false;
    };
    if levels == 0 {
        return false;
    }
    if list.groups().contains(group) {
        return true;
    }
    for named in list.clusters() {
        if has_within(lists, levels - 1, *named, group) {
            return true;
        }
    }
    false
}
