// The numbers of a set or a list that the reader has found to be one.
ghost use Rattle.std.specs.Prelude.{ℕ, ◌<◌, ◌≤◌, List, length, MatchBool, MatchOption};
ghost use Rattle.text.specs.Fields.{IsList};
ghost use Rattle.book.specs.Tasks.{Has};
ghost use Rattle.book.specs.Weeks.{Known};

use task::{Facts, LONGEST_LIST, Task};
use text::Entries;

/// The set that the text writes, if it names only facts of the task. That a text writes a set is said by each function that
/// takes one: a struct around the text would hold it as a truncated ghost field, out of which each would have to take it.
pub fn known_facts(text: &[u8], task: &Task) -> Option<Facts>
    ensures { (set : List ℕ) → IsList text.now set → MatchOption result
        (Known task.now.facts set → ⊥)
        (λ s. Known task.now.facts set × Has s set) }
{
    let mut set = Facts::empty();
    let mut entries = Entries::new(text);
    while let Some(n) = entries.next().ok()? {
        let fact = n as usize;
        if fact >= task.facts {
            return None;
        }
        set.insert(fact);
    }
    Some(set)
}

/// Whether the list that the text writes has at most 128 entries: a comma stands between two.
pub fn is_short(text: &[u8]) -> bool
    ensures { (list : List ℕ) → IsList text.now list → MatchBool result (length list ≤ 128) (128 < length list) }
{
    text.iter().filter(|byte| **byte == b',').count() < LONGEST_LIST
}
