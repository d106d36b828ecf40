// What the list of all running orders says of a sheet.
use crate::enumeration::{Order, Orders};
use crate::facts::PlainFacts;
use crate::model::Model;
use crate::tasks::PlainTask;
use sheet::SheetFault;

// A sheet with its running orders, and the task under which it is judged.
#[derive(Drop)]
pub(crate) struct Judged<'a> {
    pub(crate) orders: Orders<'a, u8>,
    task: &'a PlainTask,
}

impl<'a> Judged<'a> {
    pub(crate) fn under(task: &'a PlainTask, model: &'a Model) -> Self {
        Judged {
            orders: Orders::permitted_by(model),
            task,
        }
    }

    // The action at the place; None behind the last step.
    fn action(&self, place: usize) -> Option<u32> {
        self.orders.model.actions.get(place)
    }

    // The facts that stand at the turn of the place in this order.
    fn standing(&self, order: &Order<u8>, place: usize) -> PlainFacts {
        let ahead = order
            .positions()
            .iter()
            .take_while(|step| usize::from(**step) != place);
        self.task
            .after(ahead.filter_map(|step| self.action(usize::from(*step))))
    }

    // The facts that do not stand at the turn of the place in some order.
    fn missed(&self, place: usize) -> PlainFacts {
        let orders = self.orders.all.as_slice().iter();
        orders.fold(PlainFacts::NONE, |missed, order| {
            missed.with(self.standing(order, place).others())
        })
    }

    // The lowest fact that the place is wanting.
    fn wanting_at(&self, place: usize) -> Option<usize> {
        let needs = self.task.needs(self.action(place));
        needs.shared(self.missed(place)).lowest()
    }

    // The lowest wanting place and its lowest wanting fact, unless an action is unknown.
    pub(crate) fn verdict(&self) -> Result<(), SheetFault> {
        let model = self.orders.model;
        self.task.knows(model.actions())?;
        (0..model.steps().saturating_add(1))
            .find_map(|place| {
                self.wanting_at(place)
                    .map(|fact| SheetFault::WantingFact { place, fact })
            })
            .map_or(Ok(()), |fault| Err(fault))
    }
}
