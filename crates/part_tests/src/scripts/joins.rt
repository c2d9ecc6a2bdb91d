//! What a join gives, by the plain evaluator, of a scope with one task for each offer of a plan.

use quote_plan::{NoAnswer, Plan, answer};
use scope_model::Plain;
use scope_rules::{
    End, Expiry, Fault, ForkReply, Limits, Name, Options, Outcome, ScopeId, TaskId, TaskState,
};
use std::alloc::Global;
use std::test::Fail;

/// A realm in which the jobs of a plan run, with the deadline 10.
#[derive(Drop)]
struct Running<'a> {
    plan: &'a Plan,
    realm: Plain,
    scope: ScopeId,
    tasks: Vec<TaskId>,
}

impl Running<'_> {
    /// Forks one job an offer, and starts it.
    fn fork(&mut self) -> Result<(), Fail> {
        for place in 0..self.plan.len() {
            let label = self.plan.label_at(place).ok_or("a label")?;
            let (ForkReply::Thread(task) | ForkReply::Never(task)) = self
                .realm
                .fork(0, self.scope, label)?;
            self.realm.start(task)?;
            self.tasks.push(task)?;
        }
        Ok(())
    }

    /// Makes the step. Offers go by their places, counted from 0: `ends 1`, the job of the second ends as its
    /// offer says; `fails 0 x`, that of the first ends with the fault `x`; `tick 9`, the moment is 9 ms; `cancel`,
    /// the scope is cancelled; `-`, nothing.
    fn step(&mut self, step: &str) -> Result<(), Fail> {
        let mut words = step.split(' ');
        match (words.next(), words.next(), words.next()) {
            (Some("ends"), Some(place), None) => {
                let place: usize = place.parse()?;
                let (_, offer) = self.plan.named_at(place).ok_or("an offer")?;
                self.finish(place, offer.end())?;
            }
            (Some("fails"), Some(place), Some(fault)) => {
                let name = Name::new(fault.as_bytes()).ok_or("a name")?;
                self.finish(place.parse()?, Err(Fault(name)))?;
            }
            (Some("tick"), Some(now), None) => self.realm.tick(now.parse()?)?,
            (Some("cancel"), None, None) => {
                self.realm.cancel(self.scope)?;
            }
            (Some("-"), None, None) => {}
            _ => return Err("a step")?,
        }
        Ok(())
    }

    /// Ends the job of the offer at this place.
    fn finish(&mut self, place: usize, end: End) -> Result<(), Fail> {
        let task = *self.tasks.get(place).ok_or("a task")?;
        self.realm.finish(task, end)?;
        Ok(())
    }

    /// Joins the scope: what the join gave, and the tasks with their states.
    fn join(&mut self, alloc: Global) -> Result<(Outcome, Vec<TaskState>), Fail> {
        self.realm.join_now(0, self.scope)?;
        let mut states = Vec::new(alloc);
        for task in &self.tasks {
            states.push(TaskState {
                task: *task,
                state: self.realm.state(*task)?,
            })?;
        }
        Ok((self.realm.outcome(self.scope)?, states))
    }
}

/// The line of the answer once the steps were made that ` / ` parts, or why there is none.
pub fn answered(
    alloc: Global,
    plan: &Plan,
    expiry: Expiry,
    steps: &str,
) -> Result<Result<String, NoAnswer>, Fail> {
    let mut realm = Plain::new(alloc, Limits::GREATEST);
    let options = Options {
        deadline: Some(10),
        shield: false,
        expiry,
    };
    let scope = realm.open(0, plan.mode().policy(), options)?;
    let mut running = Running {
        plan,
        realm,
        scope,
        tasks: Vec::new(alloc),
    };
    running.fork()?;
    for step in steps.split(" / ") {
        running.step(step)?;
    }
    let (outcome, states) = running.join(alloc)?;
    match answer(alloc, plan, &states, &outcome) {
        Ok(answer) => Ok(Ok(answer.text(alloc)?)),
        Err(why) => Ok(Err(why)),
    }
}
