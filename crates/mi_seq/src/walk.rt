//! The walk over the sequence.

ghost use Rattle.std.specs.Prelude.{◌≡◌, ◌++◌, ◌∷◌, [], List, ℕ, IfOk, Option, Some, None};
ghost use Rattle.mi_text.specs.Maps.{Name};
ghost use Rattle.mi_text.specs.Lookups.{Lookups};
ghost use Rattle.mi_model.specs.Sequence.{next_row};
ghost use Rattle.mi_base.specs.declared.answers.Fault.{Fault as TheFault};
ghost use Rattle.mi_schema.specs.declared.package.Package.{Package as ThePackage};
ghost use Rattle.mi_schema.specs.Lawful.{IsLawful};
ghost use Rattle.mi_seq.specs.Orders.{ordered};
ghost use Rattle.mi_seq.specs.Stops.{fault_of};
ghost use Rattle.mi_seq.specs.Turns.{IsNext};
ghost use Rattle.mi_seq.specs.Walks.{rest, Stands, Steps, IsRefused, action_at, refusal_of, told, Tells, IfRefused, IfNoMemory, IsAgain, KeepsRefusal, Halts, Turned};

use crate::action::step_of;
use crate::error::SeqError;
use crate::places::Order;
use crate::refusal::{Stop, Why};
use crate::row::{Next, next_row, row_at};
use crate::step::Step;
use mi_base::{Env, Fault, NoMemory, Text};
use mi_schema::Package;
use mi_seq_rows::Stage;
use std::alloc::Global;

/// Why a walk ended early.
#[derive(Clone, Copy)]
pub enum Refusal {
    /// The action of the row at this place is refused.
    Action(usize, Why),
    /// The rows end after InstallInitialize without InstallFinalize.
    NoFinalize,
}

/// The action of the row at this place.
fn action_at(loaded: &Package, place: usize) -> &str
    ensures { result.now ≡ action_at loaded.now place }
{
    match row_at(loaded, place) {
        Some(row) => row.action.as_str(),
        None => "",
    }
}

impl Refusal {
    // The action that is refused, and its fault.
    fn answer(self, alloc: Global, loaded: &Package) -> Result<(Option<Text>, Fault), NoMemory>
        ensures { IfOk result (λ r. r ≡ told loaded.now self) }
    {
        match self {
            Refusal::NoFinalize => Ok((None, Fault::NoFinalize)),
            Refusal::Action(place, why) => refused_action(alloc, action_at(loaded, place), why),
        }
    }

    // It, as the walk tells it.
    fn error(self, alloc: Global, loaded: &Package) -> SeqError
        ensures { Tells result (told loaded.now self) }
    {
        match self.answer(alloc, loaded) {
            Ok((action, fault)) => SeqError::Refused(action, fault),
            Err(_) => SeqError::NoMemory,
        }
    }
}

fn refused_action(alloc: Global, action: &str, why: Why) -> Result<(Option<Text>, Fault), NoMemory>
    ensures { IfOk result (λ r. (r.0 ≡ Some action.now) × (r.1 ≡ fault_of action.now why)) }
{
    let name = Text::copy_of(alloc, action)?;
    let fault = why.fault(alloc, action)?;
    Ok((Some(name), fault))
}

/// A walk over the rows of a sequence in their order.
#[derive(Drop)]
pub struct Walk<'a> {
    rest: &'a [usize],
    stage: Stage,
    refusal: Option<Refusal>,
}

impl<'a> Walk<'a> {
    /// A walk before its first row. Takes no memory.
    pub fn start(order: &'a Order) -> Walk<'a>
        ensures rows { (p : ThePackage) → rest p result ≡ ordered p order.now }
        ensures stands { Stands result [] }
    {
        Walk {
            rest: order.places.as_slice(),
            stage: Stage::start(),
            refusal: None,
        }
    }
    /// The next row whose condition is null or true, as a step. Refused where its action is, or where the rows end after
    /// InstallInitialize without InstallFinalize; after a refusal the same is answered again, and after want of memory the
    /// walk is unchanged. Rows that are passed over take no memory.
    pub fn next<E: Env>(
        &mut self,
        alloc: Global,
        loaded: &Package,
        env: &E,
    ) -> Result<Step, SeqError>
        requires lawful { IsLawful loaded.now }

        // Whatever actions the walk stands behind.
        ensures steps { IfOk result (λ step. (begun : List Name) → Stands self.old begun → Steps loaded.now (E.lookups env.now) begun self.old self.new step) }
        ensures refused { IfRefused result (λ action fault. (begun : List Name) → Stands self.old begun → IsRefused loaded.now (E.lookups env.now) begun self.old action fault) }
        ensures kept { IfRefused result (λ action fault. refusal_of loaded.now self.new ≡ Some (action, fault)) }
        ensures again { (action : Option Name) (fault : TheFault) → refusal_of loaded.now self.old ≡ Some (action, fault) → IsAgain result (action, fault) × (self.new ≡ self.old) }
        ensures unchanged { IfNoMemory result (self.new ≡ self.old) }
    {
        match self.refusal {
            Some(refusal) => Err(refusal.error(alloc, loaded)),
            None => self.go_on(alloc, loaded, env),
        }
    }

    // The next step of a walk that hasn't been refused.
    fn go_on<E: Env>(&mut self, alloc: Global, loaded: &Package, env: &E) -> Result<Step, SeqError>
        requires lawful { IsLawful loaded.now }
        requires unrefused { self.old.refusal ≡ None }
        ensures { Turned loaded.now (E.lookups env.now) self.old self.new result }
    {
        match next_row(loaded, env, self.rest) {
            Some(next) => self.begin(alloc, loaded, env, next),
            None => self.end(alloc, loaded),
        }
    }

    // Begins a row.
    fn begin<E: Env>(
        &mut self,
        alloc: Global,
        loaded: &Package,
        env: &E,
        next: Next<'_, 'a>,
    ) -> Result<Step, SeqError>
        requires lawful { IsLawful loaded.now }
        requires unrefused { self.old.refusal ≡ None }
        requires next { IsNext loaded.now (E.lookups env.now) self.old.rest.now next }
        ensures { Turned loaded.now (E.lookups env.now) self.old self.new result }
    {
        let action = &next.row.action;
        match step_of(alloc, loaded, env, self.stage, action) {
            Ok(step) => {
                self.rest = next.behind;
                self.stage = self.stage.behind(action.as_str());
                Ok(step)
            }
            Err(stop) => Err(self.halt(alloc, loaded, next.place, stop)),
        }
    }

    // Ends where no row that holds is left.
    fn end(&mut self, alloc: Global, loaded: &Package) -> Result<Step, SeqError>
        ensures { (L : Lookups) → next_row L (rest loaded.now self.old) ≡ None → Turned loaded.now L self.old self.new result }
    {
        let inside = self.stage.is_inside();
        if inside {
            Err(self.refuse(alloc, loaded, Refusal::NoFinalize))
        } else {
            Ok(Step::End)
        }
    }

    // Refuses the action of the row at this place, or wants memory.
    fn halt(&mut self, alloc: Global, loaded: &Package, place: usize, stop: Stop) -> SeqError
        ensures { Halts loaded.now self.old self.new place stop result }
    {
        match stop {
            Stop::NoMemory => SeqError::NoMemory,
            Stop::Refused(why) => self.refuse(alloc, loaded, Refusal::Action(place, why)),
        }
    }

    // Keeps a refusal and tells it.
    fn refuse(&mut self, alloc: Global, loaded: &Package, refusal: Refusal) -> SeqError
        ensures tells { Tells result (told loaded.now refusal) }
        ensures kept { KeepsRefusal self.old self.new refusal result }
    {
        match refusal.answer(alloc, loaded) {
            Ok((action, fault)) => {
                self.refusal = Some(refusal);
                SeqError::Refused(action, fault)
            }
            Err(_) => SeqError::NoMemory,
        }
    }
}
