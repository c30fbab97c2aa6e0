//! Sets in words of 64 bits.

ghost use Rattle.std.specs.Prelude.{[], ◌∷◌, ◌++◌, if◌then◌else◌, ◌≡◌, ◌↔◌, ◌≤◌, ◌<◌, ◌/◌, length, max};
ghost use Rattle.std.specs.Prelude.{IsTrue, IfOk, OnOk};
ghost use Rattle.prop_set.specs.Sets.{is_member, is_within, prop_ids, union, with_member};
ghost use Rattle.prop_set.specs.inner.Words.{has_bit, members_of, word_at};

use fc_base::PropId;
use sqlite_items::Items;
use std::alloc::{AllocError, Global};

/// The word at a place, 0 past the last.
fn word(words: &[u64], at: usize) -> u64
    ensures { result ≡ word_at words.now at }
{
    match words.get(at) {
        Some(word) => *word,
        None => 0,
    }
}

/// Whether the bit of a number is set.
#[tactic(auto, unfolding(crate::specs::inner::Words::has_bit))]
fn bit(words: &[u64], number: usize) -> bool
    ensures { result ≡ has_bit words.now number }
{
    (word(words, number / 64) >> (number % 64)) % 2 == 1
}

/// Whether a number is a member.
pub(crate) fn has(words: &[u64], number: u32) -> bool
    ensures { result ≡ is_member number (members_of words.now) }
{
    bit(words, number as usize)
}

/// Adds words of 0 up to so many words.
pub(crate) fn extend(words: &mut Items<u64>, count: usize) -> Result<(), AllocError>
    ensures members { members_of words.new ≡ members_of words.old }
    ensures bound { length words.new ≤ max count (length words.old) }
    ensures reached { OnOk result (count ≤ length words.new) }
{
    for _at in words.len()..count {
        words.push(0)?;
    }
    Ok(())
}

/// Adds a number to the members.
pub(crate) fn add(words: &mut Items<u64>, number: u32)
    requires { number / 64 < length words.old }
    ensures members { members_of words.new ≡ with_member number (members_of words.old) }
    ensures length { length words.new ≡ length words.old }
{
    let at = number as usize / 64;
    let word = word(words.as_slice(), at);
    words.set(at, word | 1 << (number % 64));
}

/// Adds the members of other words.
pub(crate) fn add_all(words: &mut Items<u64>, more: &[u64])
    requires { length more.now ≤ length words.old }
    ensures members { members_of words.new ≡ union (members_of words.old) (members_of more.now) }
    ensures length { length words.new ≡ length words.old }
{
    for at in 0..more.len() {
        let word = word(words.as_slice(), at);
        words.set(at, word | more[at]);
    }
}

/// Whether the members are the same.
pub(crate) fn are_same(left: &[u64], right: &[u64]) -> bool
    ensures { IsTrue result ↔ (members_of left.now ≡ members_of right.now) }
{
    for at in 0..left.len().max(right.len()) {
        if word(left, at) != word(right, at) {
            return false;
        }
    }
    true
}

/// Whether each member of the first words is one of the second.
pub(crate) fn are_within(left: &[u64], right: &[u64]) -> bool
    ensures { result ≡ is_within (members_of left.now) (members_of right.now) }
{
    for at in 0..left.len() {
        let beyond = word(right, at);
        if left[at] | beyond != beyond {
            return false;
        }
    }
    true
}

/// How many members there are.
pub(crate) fn count(words: &[u64]) -> usize
    requires { length words.now ≤ 67108864 }
    ensures { result ≡ length (members_of words.now) }
{
    let mut count = 0;
    for word in words {
        count += word.count_ones() as usize;
    }
    count
}

/// The members in rising order.
pub(crate) fn props(alloc: Global, words: &[u64]) -> Result<Items<PropId>, AllocError>
    requires { length words.now ≤ 67108864 }
    ensures { IfOk result (λ ps. ps ≡ prop_ids (members_of words.now)) }
{
    let mut props = Items::new(alloc);
    for number in 0..64 * words.len() as u64 {
        let is_member = bit(words, number as usize);
        push_if(&mut props, is_member, PropId(number as u32))?;
    }
    Ok(props)
}

/// Pushes a property if it is a member.
fn push_if(props: &mut Items<PropId>, is_member: bool, prop: PropId) -> Result<(), AllocError>
    ensures { OnOk result (props.new ≡ props.old ++ (if is_member then prop ∷ [] else [])) }
{
    if is_member {
        props.push(prop)?;
    }
    Ok(())
}
