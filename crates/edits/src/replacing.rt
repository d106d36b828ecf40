// Replace: other steps come in place of a block or one position, for less.
ghost use Rattle.std.specs.Prelude.{◌≡◌, ℕ, ◌+◌, ◌<◌, ◌++◌, length, MatchResult, slice_index};
ghost use Rattle.edits.specs.Replacing.{AreRun, HasRoom, IsAsked, NotAsked, Replaces, put_in};
ghost use Rattle.orders.specs.Edits.{IsMember, is_new, none_or_all, replaced, stood, was};
ghost use Rattle.sets.specs.Contents.{contents};
ghost use Rattle.sheet.specs.Sheets.{actions, outline};
ghost use Rattle.sheet.specs.Verdicts.{ChecksActions};

use crate::pairs::rows_of;
use shaping::{EditFault, adopt};
use sheet::{Sheet, SheetFault, Steps, check_actions, check_steps};
use task::{LONGEST_LIST, Tariff, Task};

// A list of actions that comes in place of `first` to `last` of a sheet, which has room for it. Its methods ask for numbers
// below 128 one by one: a type for such a number would be taken apart in each of them.
#[derive(Drop)]
struct Offer<'s> {
    sheet: &'s Sheet,
    first: usize,
    last: usize,
    list: &'s [u32],
    ghost run: { AreRun (outline sheet.now) first last },
    ghost ends: { last < 128 },
    ghost some: { 0 < length list.now },
    ghost room: { HasRoom (outline sheet.now) first last (length list.now) },
    ghost small: { (k : ℕ) → slice_index list.now k < 128 },
}

impl<'s> Offer<'s> {
    // The position behind the new steps.
    fn end(&self) -> usize
        ensures { result ≡ self.now.first + length self.now.list.now }
    {
        self.first + self.list.len()
    }

    // Where a position behind the new steps was.
    fn before(&self, x: usize) -> usize
        requires { x < 128 }
        ensures { result ≡ was self.now.first self.now.last (length self.now.list.now) x }
    {
        (x + self.last + 1).saturating_sub(self.end())
    }

    // Whether `x` is one of the new steps.
    fn brings(&self, x: usize) -> bool
        ensures { result ≡ is_new self.now.first (length self.now.list.now) x }
    {
        self.first <= x && x < self.end()
    }

    // The position of the sheet that `x` stands for, whose ties it takes over.
    fn stands_for(&self, x: usize) -> usize
        requires { x < 128 }
        ensures { result ≡ stood self.now.first self.now.last (length self.now.list.now) x }
    {
        if x < self.first {
            x
        } else if x < self.end() {
            self.first
        } else {
            self.before(x)
        }
    }

    // Whether the run `c` to `d` has none or all of the new steps.
    fn spares(&self, c: usize, d: usize) -> bool
        requires { d < 128 }
        ensures { result ≡ none_or_all self.now.first (length self.now.list.now) c d }
    {
        let end = self.end();
        d < self.first || end <= c || (c <= self.first && end <= d + 1)
    }

    // Whether `x` is tied before `y` in the sheet asked for.
    fn is_tied(&self, x: usize, y: usize) -> bool
        requires { (x < 128) × (y < 128) }
        ensures { result ≡ (replaced (outline self.now.sheet.now) self.now.first self.now.last (length self.now.list.now)).tied x y }
    {
        if self.brings(x) && self.brings(y) {
            return x < y;
        }
        self.sheet.is_tied(self.stands_for(x), self.stands_for(y))
    }

    // Whether `c` to `d` is a block of the sheet asked for.
    fn is_block(&self, c: usize, d: usize) -> bool
        requires { (c < 128) × (d < 128) }
        ensures { result ≡ (replaced (outline self.now.sheet.now) self.now.first self.now.last (length self.now.list.now)).block c d }
    {
        if c == self.first && d + 1 == self.end() {
            return self.list.len() >= 2;
        }
        let end = if d < self.first { d } else { self.before(d) };
        self.spares(c, d) && self.sheet.is_block(self.stands_for(c), end)
    }

    // The steps of the sheet asked for.
    fn steps(&self) -> Steps
        ensures { contents result ≡ put_in (actions self.now.sheet.now) self.now.first self.now.last self.now.list.now }
    {
        let steps = self.sheet.actions();
        let front = steps[..self.first].iter().copied();
        let list = self.list.iter().map(|number| *number as u8);
        let rest = steps[self.last + 1..].iter().copied();
        Steps::collect(0, front.chain(list).chain(rest))
    }

    // The sheet asked for.
    fn asked(&self) -> Sheet
        requires { IsMember (outline self.now.sheet.now) self.now.first self.now.last }
        ensures steps { actions result ≡ put_in (actions self.now.sheet.now) self.now.first self.now.last self.now.list.now }
        ensures order { outline result ≡ replaced (outline self.now.sheet.now) self.now.first self.now.last (length self.now.list.now) }
    {
        Sheet {
            steps: self.steps(),
            behind: rows_of(|x, y| self.is_tied(x, y)),
            blocks: rows_of(|c, d| self.is_block(c, d)),
        }
    }
}

// Refuses the first action, of the sheet and then of the list, that the task lacks.
fn known_asked(task: &Task, sheet: &Sheet, list: &[u32]) -> Result<(), SheetFault>
    ensures { ChecksActions task.now (actions sheet.now ++ list.now) result }
{
    check_steps(task, sheet)?;
    check_actions(task, list)
}

// The sheet asked for, or why there is none. What `replace` is called with comes on as it is: only here is it made an `Offer`.
fn asked_for(
    sheet: &Sheet,
    task: &Task,
    a: usize,
    b: usize,
    list: &[u32],
) -> Result<Sheet, EditFault>
    ensures { MatchResult result
        (IsAsked task.now sheet.now a b list.now)
        (λ fault. NotAsked task.now sheet.now a b list.now fault ⊥) }
{
    let n = sheet.steps();
    if a > b || b >= n {
        return Err(EditFault::Position);
    }
    if a != b && !sheet.is_block(a, b) {
        return Err(EditFault::Block);
    }
    if list.is_empty() {
        return Err(EditFault::Empty);
    }
    if list.len() > LONGEST_LIST - (n - (b + 1 - a)) {
        return Err(EditFault::Sheet(SheetFault::TooLong));
    }
    known_asked(task, sheet, list)?;
    let offer = Offer {
        sheet,
        first: a,
        last: b,
        list,
    };
    Ok(offer.asked())
}

/// Puts the list in place of `a` to `b`, a block or one position, and says how much this saves. The new steps are tied in
/// their own order, as one block where they are several, and to the others as `a` to `b` was.
pub fn replace<T: Tariff>(
    sheet: &mut Sheet,
    task: &Task,
    tariff: &T,
    a: usize,
    b: usize,
    list: &[u32],
) -> Result<u32, EditFault>
    ensures { Replaces (T.Tariff.prices tariff.now) task.now sheet.old a b list.now result sheet.new }
{
    let asked = asked_for(sheet, task, a, b, list)?;
    let before = sheet.price(tariff);
    let after = asked.price(tariff);
    if before <= after {
        return Err(EditFault::NotCheaper);
    }
    adopt(sheet, task, asked)?;
    Ok(before - after)
}
