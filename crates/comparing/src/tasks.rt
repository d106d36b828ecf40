// A task kept a second time, on plain sets.
ghost use Rattle.std.specs.Iterator.{IsFinite};

use crate::facts::{FACTS, PlainFacts};
use crate::random::Random;
use sets::list::ArrayVec;
use sheet::SheetFault;
use task::{Action, Task};

#[derive(Clone, Copy)]
struct Effect {
    needs: PlainFacts,
    adds: PlainFacts,
    deletes: PlainFacts,
    price: u32,
}

const IDLE: Effect = Effect {
    needs: PlainFacts::NONE,
    adds: PlainFacts::NONE,
    deletes: PlainFacts::NONE,
    price: 0,
};

// The number of an action is its place among the effects.
#[derive(Clone, Copy)]
pub struct PlainTask {
    effects: ArrayVec<Effect, 8>,
    start: PlainFacts,
    goal: PlainFacts,
}

impl Effect {
    fn any<P: Fn(&mut Random) -> u32>(random: &mut Random, price: &P) -> Self
        requires { P.IsAlwaysCallable price.now }
    {
        let needs = PlainFacts::few(random);
        let adds = PlainFacts::any(random);
        let deletes = PlainFacts::few(random);
        let price = price(random).min(Action::HIGHEST_PRICE);
        Effect {
            needs,
            adds,
            deletes,
            price,
        }
    }

    // The facts that stand once it is performed.
    fn after(&self, standing: PlainFacts) -> PlainFacts {
        standing.without(self.deletes).with(self.adds)
    }

    fn price(&self, prices: Prices) -> u32 {
        match prices {
            Prices::Book => self.price,
            Prices::Touch(marked) => marked.shared(self.adds.with(self.deletes)).count(),
        }
    }

    fn action(&self) -> Option<Action> {
        Action::new(
            self.needs.into(),
            self.adds.into(),
            self.deletes.into(),
            self.price,
        )
    }
}

impl PlainTask {
    // With so many actions; `price` draws the price of each.
    pub fn any<P: Fn(&mut Random) -> u32>(random: &mut Random, actions: usize, price: &P) -> Self
        requires { P.IsAlwaysCallable price.now }
    {
        let mut effects = ArrayVec::new(IDLE);
        for _ in 0..actions {
            let _ = effects.push(Effect::any(random, price));
        }
        let start = PlainFacts::any(random);
        let goal = PlainFacts::few(random);
        PlainTask {
            effects,
            start,
            goal,
        }
    }

    // The same with nothing that is needed, so that every sheet is good.
    pub fn without_needs(&self) -> Self {
        let needless = self.effects.as_slice().iter().map(|effect| Effect {
            needs: PlainFacts::NONE,
            ..*effect
        });
        PlainTask {
            effects: ArrayVec::collect(IDLE, needless),
            goal: PlainFacts::NONE,
            ..*self
        }
    }

    // The same with the first few actions only.
    pub fn shortened(&self, actions: usize) -> Self {
        let first = self.effects.as_slice().iter().copied().take(actions);
        PlainTask {
            effects: ArrayVec::collect(IDLE, first),
            ..*self
        }
    }

    pub fn start(&self) -> PlainFacts {
        self.start
    }

    pub(crate) fn actions(&self) -> usize {
        self.effects.len()
    }

    fn effect(&self, action: u32) -> Effect {
        self.effects.get(action as usize).unwrap_or(IDLE)
    }

    // Refuses the first of the actions that it lacks.
    pub fn knows(&self, actions: &[u32]) -> Result<(), SheetFault> {
        actions
            .iter()
            .find(|action| **action as usize >= self.actions())
            .map_or(Ok(()), |action| Err(SheetFault::UnknownAction(*action)))
    }

    // What the action needs; the goal where there is no action.
    pub fn needs(&self, action: Option<u32>) -> PlainFacts {
        action.map_or(self.goal, |number| self.effect(number).needs)
    }

    // The facts that stand once the action is performed.
    pub fn performed(&self, action: u32, standing: PlainFacts) -> PlainFacts {
        self.effect(action).after(standing)
    }

    // The facts that stand once the actions are performed, one after the other.
    pub(crate) fn after<I: Iterator<Item = u32>>(&self, actions: I) -> PlainFacts
        requires can { I.can_next actions }
        requires finite { IsFinite (I.remaining actions) }
    {
        actions.fold(
            self.start,
            |standing, action| self.performed(action, standing),
        )
    }

    pub fn task(&self) -> Task {
        let mut task = Task::new();
        for _ in 0..FACTS {
            let _ = task.add_fact();
        }
        let effects = self.effects.as_slice().iter();
        for action in effects.filter_map(|effect| effect.action()) {
            let _ = task.add_action(action);
        }
        task.start = self.start.into();
        task.goal = self.goal.into();
        task
    }
}

// Which tariff is meant; the marked facts of the touch tariff.
#[derive(Clone, Copy)]
pub(crate) enum Prices {
    Book,
    Touch(PlainFacts),
}

// A tariff kept a second time.
#[derive(Clone, Copy)]
pub(crate) struct PlainTariff<'a> {
    pub(crate) task: &'a PlainTask,
    pub(crate) prices: Prices,
}

impl PlainTariff<'_> {
    // What the actions cost, each as often as it stands there.
    pub(crate) fn price(&self, actions: &[u32]) -> u32 {
        actions.iter().fold(0, |sum: u32, action| {
            sum.saturating_add(self.task.effect(*action).price(self.prices))
        })
    }
}
