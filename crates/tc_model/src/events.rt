//! Events that trigger reactions, and in whose name and where reactions run.
ghost use Rattle.std.specs.Prelude.{◌≡◌, IfOk, IfSome, IfNone};
ghost use Rattle.tc_model.specs.Events.{op_name};
ghost use Rattle.tc_model.specs.declared.events.EventOp.{EventOp};

use crate::asks::Primitive;
use std::alloc::Global;
use std::marker::Model;
use tc_lists::NoMemory;
use tc_term::{Ground, Name, Pattern};

/// An operation as events and heads of reactions name it: of an agent, or of a reaction's goal.
#[derive(Clone, Copy, Debug, PartialEq, Eq)]
pub enum EventOp {
    Out,
    In,
    Rd,
    Inp,
    Rdp,
    No,
    Nop,
    OutR,
    InR,
    RdR,
    /// No event is of this operation: a clause with this head is never triggered.
    NoR,
}

impl EventOp {
    ghost use Rattle.tc_model.specs.Events.{op_name};

    /// Its name, as heads, goals and `current_op` write it.
    pub fn name(&self) -> &'static [u8]
        ensures { result.now ≡ op_name self.now }
    {
        match self {
            EventOp::Out => Primitive::Out.name(),
            EventOp::In => Primitive::In.name(),
            EventOp::Rd => Primitive::Rd.name(),
            EventOp::Inp => Primitive::Inp.name(),
            EventOp::Rdp => Primitive::Rdp.name(),
            EventOp::No => Primitive::No.name(),
            EventOp::Nop => Primitive::Nop.name(),
            EventOp::OutR => b"out_r",
            EventOp::InR => b"in_r",
            EventOp::RdR => b"rd_r",
            EventOp::NoR => b"no_r",
        }
    }
}

/// The operation of this name, if there is one. No memory is taken.
pub fn event_op_of(name: &Name) -> Option<EventOp>
    ensures found { IfSome result (λ o. op_name o ≡ name.now) }
    ensures none { IfNone result ((o : EventOp) → op_name o ≡ name.now → ⊥) }
{
    let name = name.bytes();
    if name == EventOp::Out.name() {
        Some(EventOp::Out)
    } else if name == EventOp::In.name() {
        Some(EventOp::In)
    } else if name == EventOp::Rd.name() {
        Some(EventOp::Rd)
    } else if name == EventOp::Inp.name() {
        Some(EventOp::Inp)
    } else if name == EventOp::Rdp.name() {
        Some(EventOp::Rdp)
    } else if name == EventOp::No.name() {
        Some(EventOp::No)
    } else if name == EventOp::Nop.name() {
        Some(EventOp::Nop)
    } else if name == EventOp::OutR.name() {
        Some(EventOp::OutR)
    } else if name == EventOp::InR.name() {
        Some(EventOp::InR)
    } else if name == EventOp::RdR.name() {
        Some(EventOp::RdR)
    } else if name == EventOp::NoR.name() {
        Some(EventOp::NoR)
    } else {
        None
    }
}

/// Whether a request or its answer triggers the reactions.
#[derive(Clone, Copy, Debug, PartialEq, Eq)]
pub enum Phase {
    Pre,
    Post,
}

/// How the operation of an event went; a request has no outcome yet.
#[derive(Clone, Copy, Debug, PartialEq, Eq)]
pub enum Sign {
    Neither,
    Success,
    Failure,
}

/// An event, as the table of events allows it.
///
/// | Operation | Phase | Sign | The term |
/// |---|---|---|---|
/// | `out`, `out_r`, `in_r`, `rd_r` | post | success | the tuple |
/// | `inp`, `rdp` | post | success | the tuple |
/// | `inp`, `rdp` | post | failure | the template |
/// | `in`, `rd` | pre | neither | the template |
/// | `in`, `rd` | post | success | the tuple |
/// | `no` | pre | neither | the template |
/// | `no` | post | success: no tuple matches any more | the template |
/// | `nop` | post | success: no tuple matches | the template |
/// | `nop` | post | failure: a tuple matches | the template |
#[derive(Drop)]
pub struct Event {
    op: EventOp,
    term: Pattern,
    phase: Phase,
    sign: Sign,
}

impl Model for Event {
    ghost use Rattle.std.specs.Coded.{codes};
    ghost use Rattle.tc_term.specs.TreeCode.{coded_tree};
    ghost use Rattle.tc_model.specs.Events.{Occurrence, IsOccurrence};

    ghost Value = { Occurrence };

    ghost coded = { Prim.hlevel (codes, coded_tree) };

    ghost view = { λ e. record { op = e.op; term = e.term; phase = e.phase; sign = e.sign } };

    ghost invariant = { λ e.
        IsOccurrence (record { op = e.op; term = e.term; phase = e.phase; sign = e.sign }) };
}

impl Event {
    ghost use Rattle.tc_model.specs.Events.{IsOccurrence, MayOccur, success_event};
    ghost use Rattle.tc_model.specs.declared.events.Phase.TheVariants as phase;
    ghost use Rattle.tc_model.specs.declared.events.Sign.TheVariants as sign;

    /// The event of an operation on a term.
    pub fn new(op: EventOp, term: Pattern, phase: Phase, sign: Sign) -> Event
        requires { IsOccurrence (record { op = op; term = term; phase = phase; sign = sign }) }
        ensures { result ≡ record { op = op; term = term; phase = phase; sign = sign } }
    {
        Event {
            op,
            term,
            phase,
            sign,
        }
    }

    /// The event that an operation has succeeded with a tuple.
    pub fn success(alloc: Global, op: EventOp, tuple: &Ground) -> Result<Event, NoMemory>
        requires { MayOccur op phase.Post sign.Success }
        ensures { IfOk result (λ event. event ≡ success_event op tuple.now) }
    {
        // Reading the two terms tells that they are ground, and a template.
        let _tuple = tuple.term();
        let template = Pattern::of_tuple(tuple.copy(alloc)?);
        let _template = template.term();
        Ok(Event::new(op, template, Phase::Post, Sign::Success))
    }

    /// The operation.
    pub fn op(&self) -> EventOp
        ensures { result ≡ self.now.op }
    {
        self.op
    }

    /// The tuple or the template.
    pub fn term(&self) -> &Pattern
        ensures term { result.now ≡ self.now.term }
        ensures event { IsOccurrence self.now }
    {
        &self.term
    }

    /// The phase.
    pub fn phase(&self) -> Phase
        ensures { result ≡ self.now.phase }
    {
        self.phase
    }

    /// How the operation went.
    pub fn sign(&self) -> Sign
        ensures { result ≡ self.now.sign }
    {
        self.sign
    }

    /// An equal event.
    pub fn copy(&self, alloc: Global) -> Result<Event, NoMemory>
        ensures { IfOk result (λ event. event ≡ self.now) }
    {
        Ok(Event {
            op: self.op,
            term: self.term.copy(alloc)?,
            phase: self.phase,
            sign: self.sign,
        })
    }
}

/// In whose name reactions run, and where: the names of an agent and of a centre.
#[derive(Drop)]
pub struct Context {
    agent: Name,
    centre: Name,
}

impl Model for Context {
    ghost use Rattle.std.specs.Coded.{codes};
    ghost use Rattle.tc_model.specs.Events.{Setting, IsSetting};

    ghost Value = { Setting };

    ghost coded = { Prim.hlevel (codes) };

    ghost view = { λ c. record { agent = c.agent; centre = c.centre } };

    ghost invariant = { λ c. IsSetting (record { agent = c.agent; centre = c.centre }) };
}

impl Context {
    ghost use Rattle.tc_model.specs.Events.{IsSetting};

    /// The context of an agent at a centre, whose names have at most 65,535 bytes each.
    pub fn new(agent: Name, centre: Name) -> Context
        requires { IsSetting (record { agent = agent; centre = centre }) }
        ensures { result ≡ record { agent = agent; centre = centre } }
    {
        Context { agent, centre }
    }

    /// The agent's name.
    pub fn agent(&self) -> &Name
        ensures agent { result.now ≡ self.now.agent }
        ensures setting { IsSetting self.now }
    {
        &self.agent
    }

    /// The centre's name.
    pub fn centre(&self) -> &Name
        ensures centre { result.now ≡ self.now.centre }
        ensures setting { IsSetting self.now }
    {
        &self.centre
    }

    /// An equal context.
    pub fn copy(&self, alloc: Global) -> Result<Context, NoMemory>
        ensures { IfOk result (λ context. context ≡ self.now) }
    {
        Ok(Context {
            agent: self.agent.copy(alloc)?,
            centre: self.centre.copy(alloc)?,
        })
    }
}
