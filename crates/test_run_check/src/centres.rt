//! A tuple centre as this check sees it: lists of clauses, of tuples and of requests.
use crate::bodies::{Event, Moment, Scene};
use crate::cascades::{Cascade, Setting};
use crate::clauses::{Clause, Spelled, clauses_of, text_of_clauses};
use crate::fault::Fault;
use crate::lists::{chosen, copies, removed};
use crate::texts::{append_all, append_term};
use crate::values::oldest;
use std::alloc::Global;
use tc_lists::NoMemory;
use tc_print::print_quoted;
use tc_term::{Name, Term};

/// What an agent may do at a centre.
#[derive(Clone, Copy, PartialEq, Eq, Debug)]
pub enum Word {
    Out,
    In,
    Rd,
    Inp,
    Rdp,
    No,
    Nop,
    SetSpec,
    GetSpec,
}

/// The words, with their texts.
pub const WORDS: [(Word, &[u8]); 9] = [
    (Word::Out, b"out"),
    (Word::In, b"in"),
    (Word::Rd, b"rd"),
    (Word::Inp, b"inp"),
    (Word::Rdp, b"rdp"),
    (Word::No, b"no"),
    (Word::Nop, b"nop"),
    (Word::SetSpec, b"set_spec"),
    (Word::GetSpec, b"get_spec"),
];

impl Word {
    /// The word of this text.
    pub fn of(text: &[u8]) -> Option<Word> {
        for (word, spelled) in WORDS {
            if spelled == text {
                return Some(word);
            }
        }
        None
    }

    /// Its text.
    pub fn text(&self) -> &'static [u8] {
        match self {
            Word::Out => b"out",
            Word::In => b"in",
            Word::Rd => b"rd",
            Word::Inp => b"inp",
            Word::Rdp => b"rdp",
            Word::No => b"no",
            Word::Nop => b"nop",
            Word::SetSpec => b"set_spec",
            Word::GetSpec => b"get_spec",
        }
    }
}

/// A call that an agent makes: its number, at the centre of which place, and what it does there.
#[derive(Drop)]
pub struct Ask {
    pub agent: usize,
    pub name: Name,
    pub number: u64,
    pub centre: usize,
    pub word: Word,
    pub operand: Term,
}

/// What comes of a call.
#[derive(Drop)]
pub enum Answer {
    Done,
    Tuple(Term),
    NoTuple,
    Absent,
    Found(Term),
    Pending,
    Clauses(Vec<u8>),
    /// The reactions to a request went over the budget.
    OverBefore,
    /// Those to what was done went over it, with the tuple that was chosen, if one was.
    OverBehind(Option<Term>),
}

/// Appends the text of an answer, as it stands in a history.
pub fn append_answer(alloc: Global, answer: &Answer, into: &mut Vec<u8>) -> Result<(), NoMemory> {
    match answer {
        Answer::OverBehind(Some(tuple)) => {
            into.extend_from_slice(b"over post ")?;
            append_term(alloc, tuple, into)
        }
        _ => append_reply(alloc, answer, into),
    }
}

/// Appends the text of an answer, as an agent is told it.
pub fn append_reply(alloc: Global, answer: &Answer, into: &mut Vec<u8>) -> Result<(), NoMemory> {
    match answer {
        Answer::Done => into.extend_from_slice(b"done"),
        Answer::Tuple(tuple) => {
            into.extend_from_slice(b"tuple ")?;
            append_term(alloc, tuple, into)
        }
        Answer::NoTuple => into.extend_from_slice(b"none"),
        Answer::Absent => into.extend_from_slice(b"absent"),
        Answer::Found(tuple) => {
            into.extend_from_slice(b"found ")?;
            append_term(alloc, tuple, into)
        }
        Answer::Pending => into.extend_from_slice(b"pending"),
        Answer::Clauses(text) => {
            into.extend_from_slice(b"spec ")?;
            print_quoted(alloc, text, into)
        }
        Answer::OverBefore => into.extend_from_slice(b"over pre"),
        Answer::OverBehind(_) => into.extend_from_slice(b"over post"),
    }
}

/// Appends the text of what a call does.
pub fn append_operation(
    alloc: Global,
    word: Word,
    operand: &Term,
    into: &mut Vec<u8>,
) -> Result<(), NoMemory> {
    if word == Word::GetSpec {
        return into.extend_from_slice(word.text());
    }
    append_all(&[word.text(), b"("], into)?;
    append_term(alloc, operand, into)?;
    into.extend_from_slice(b")")
}

// What is waited for: to take a tuple, to read one, or that none is left.
#[derive(Clone, Copy, PartialEq, Eq, Debug)]
enum Wish {
    Taking,
    Reading,
    Absence,
}

/// A request that waits.
#[derive(Drop)]
pub struct Request {
    pub agent: usize,
    pub number: u64,
    name: Name,
    wish: Wish,
    template: Term,
}

impl Request {
    // What is asked for.
    fn operation(&self) -> &'static [u8] {
        match self.wish {
            Wish::Taking => b"in",
            Wish::Reading => b"rd",
            Wish::Absence => b"no",
        }
    }
}

/// What has come of a call or of a request, and a line for each reaction to that.
#[derive(Drop)]
pub struct Outcome {
    pub answer: Answer,
    pub lines: Vec<Vec<u8>>,
}

/// The clauses and the budget of a centre, the tuples that are there and the requests that wait, each
/// oldest first.
#[derive(Drop)]
pub struct Centre {
    pub name: Name,
    budget: usize,
    clauses: Vec<Clause>,
    tuples: Vec<Term>,
    waiting: Vec<Request>,
}

impl Centre {
    /// A centre without a tuple.
    pub fn new(alloc: Global, name: Name, budget: usize) -> Centre {
        Centre {
            name,
            budget,
            clauses: Vec::new(alloc),
            tuples: Vec::new(alloc),
            waiting: Vec::new(alloc),
        }
    }

    /// How many requests wait.
    pub fn waiting(&self) -> usize {
        self.waiting.len()
    }

    /// Puts a tuple behind all others.
    pub fn put(&mut self, tuple: Term) -> Result<(), NoMemory> {
        self.tuples.push(tuple)?;
        Ok(())
    }

    /// Puts a clause behind all others.
    pub fn add_clause(&mut self, clause: Clause) -> Result<(), NoMemory> {
        self.clauses.push(clause)?;
        Ok(())
    }

    /// Does what a call asks for.
    pub fn serve(&mut self, alloc: Global, ask: Ask) -> Result<Outcome, Fault> {
        match ask.word {
            Word::Out => Ok(self.serve_out(alloc, &ask)?),
            Word::In => Ok(self.wait(alloc, ask, Wish::Taking)?),
            Word::Rd => Ok(self.wait(alloc, ask, Wish::Reading)?),
            Word::No => Ok(self.wait(alloc, ask, Wish::Absence)?),
            Word::Nop => Ok(self.tell_whether(alloc, &ask)?),
            Word::Inp => Ok(self.search(alloc, &ask, b"inp", true)?),
            Word::Rdp => Ok(self.search(alloc, &ask, b"rdp", false)?),
            Word::SetSpec => self.replace(alloc, &ask.operand),
            Word::GetSpec => Ok(Outcome {
                answer: Answer::Clauses(text_of_clauses(alloc, &self.clauses)?),
                lines: Vec::new(alloc),
            }),
        }
    }

    // Replaces the clauses.
    fn replace(&mut self, alloc: Global, text: &Term) -> Result<Outcome, Fault> {
        let Some(Spelled::Clauses(clauses)) = spelled(alloc, text)? else {
            return Err(Fault::Beyond("clauses are replaced by none"));
        };
        self.clauses = clauses;
        Ok(Outcome {
            answer: Answer::Done,
            lines: Vec::new(alloc),
        })
    }

    // Puts a tuple.
    fn serve_out(&mut self, alloc: Global, ask: &Ask) -> Result<Outcome, NoMemory> {
        let before = self.kept(alloc)?;
        self.put(ask.operand.copy(alloc)?)?;
        let event = Event::new(alloc, b"out", Moment::Done, &ask.operand)?;
        self.react(
            alloc,
            &ask.name,
            event,
            before,
            (Answer::Done, Answer::OverBehind(None)),
        )
    }

    // Lets a call wait.
    fn wait(&mut self, alloc: Global, ask: Ask, wish: Wish) -> Result<Outcome, NoMemory> {
        let request = Request {
            agent: ask.agent,
            number: ask.number,
            name: ask.name,
            wish,
            template: ask.operand,
        };
        let before = self.kept(alloc)?;
        let event = Event::new(alloc, request.operation(), Moment::Asked, &request.template)?;
        let outcome = self.react(
            alloc,
            &request.name,
            event,
            before,
            (Answer::Pending, Answer::OverBefore),
        )?;
        if let Answer::Pending = outcome.answer {
            self.waiting.push(request)?;
        }
        Ok(outcome)
    }

    // The oldest tuple that the template matches, taken or copied.
    fn search(
        &mut self,
        alloc: Global,
        ask: &Ask,
        operation: &'static [u8],
        takes: bool,
    ) -> Result<Outcome, NoMemory> {
        let before = self.kept(alloc)?;
        if let Some(place) = oldest(alloc, &self.tuples, &ask.operand)?
            && let Some(tuple) = chosen(alloc, &mut self.tuples, place, takes)?
        {
            return self.tell(alloc, &ask.name, operation, tuple, before);
        }
        let event = Event::new(alloc, operation, Moment::Missed, &ask.operand)?;
        self.react(
            alloc,
            &ask.name,
            event,
            before,
            (Answer::NoTuple, Answer::OverBehind(None)),
        )
    }

    // Tells the oldest tuple that the template matches, or that there is none.
    fn tell_whether(&mut self, alloc: Global, ask: &Ask) -> Result<Outcome, NoMemory> {
        let before = self.kept(alloc)?;
        if let Some(place) = oldest(alloc, &self.tuples, &ask.operand)?
            && let Some(tuple) = chosen(alloc, &mut self.tuples, place, false)?
        {
            let event = Event::new(alloc, b"nop", Moment::Missed, &ask.operand)?;
            let other = Answer::OverBehind(Some(tuple.copy(alloc)?));
            let answers = (Answer::Found(tuple), other);
            return self.react(alloc, &ask.name, event, before, answers);
        }
        self.tell_absence(alloc, &ask.name, b"nop", &ask.operand, before)
    }

    // Tells that no tuple is left that the template matches.
    fn tell_absence(
        &mut self,
        alloc: Global,
        agent: &Name,
        operation: &'static [u8],
        template: &Term,
        before: Vec<Term>,
    ) -> Result<Outcome, NoMemory> {
        let event = Event::new(alloc, operation, Moment::Done, template)?;
        let answers = (Answer::Absent, Answer::OverBehind(None));
        self.react(alloc, agent, event, before, answers)
    }

    // Tells a tuple that was chosen.
    fn tell(
        &mut self,
        alloc: Global,
        agent: &Name,
        operation: &'static [u8],
        tuple: Term,
        before: Vec<Term>,
    ) -> Result<Outcome, NoMemory> {
        let event = Event::new(alloc, operation, Moment::Done, &tuple)?;
        let other = Answer::OverBehind(Some(tuple.copy(alloc)?));
        self.react(alloc, agent, event, before, (Answer::Tuple(tuple), other))
    }

    /// The oldest request that can be answered, which no longer waits then, and what has come of it.
    pub fn answer_next(&mut self, alloc: Global) -> Result<Option<(Request, Outcome)>, NoMemory> {
        let Some((place, age)) = self.next_answer(alloc)? else {
            return Ok(None);
        };
        let Some(request) = removed(&mut self.waiting, place) else {
            return Ok(None);
        };
        let before = self.kept(alloc)?;
        let Some(age) = age else {
            let (name, template) = (&request.name, &request.template);
            let outcome = self.tell_absence(alloc, name, request.operation(), template, before)?;
            return Ok(Some((request, outcome)));
        };
        let takes = request.wish == Wish::Taking;
        let Some(tuple) = chosen(alloc, &mut self.tuples, age, takes)? else {
            return Ok(None);
        };
        let outcome = self.tell(alloc, &request.name, request.operation(), tuple, before)?;
        Ok(Some((request, outcome)))
    }

    // The places of the oldest request that can be answered, and of its tuple, if it gets one.
    fn next_answer(&self, alloc: Global) -> Result<Option<(usize, Option<usize>)>, NoMemory> {
        for (place, request) in self.waiting.iter().enumerate() {
            let found = oldest(alloc, &self.tuples, &request.template)?;
            if found.is_some() != (request.wish == Wish::Absence) {
                return Ok(Some((place, found)));
            }
        }
        Ok(None)
    }

    // The tuples as they are, for the case that reactions go over the budget.
    fn kept(&self, alloc: Global) -> Result<Vec<Term>, NoMemory> {
        if self.clauses.is_empty() {
            return Ok(Vec::new(alloc));
        }
        copies(alloc, &self.tuples)
    }

    // Runs the reactions to an event. Where they go over the budget, the tuples are as before, and the
    // second of the answers is the one that counts.
    fn react(
        &mut self,
        alloc: Global,
        agent: &Name,
        event: Event,
        before: Vec<Term>,
        answers: (Answer, Answer),
    ) -> Result<Outcome, NoMemory> {
        let (answer, other) = answers;
        let mut cascade = Cascade::new(alloc, event)?;
        let setting = Setting {
            clauses: &self.clauses,
            scene: Scene {
                agent,
                centre: &self.name,
            },
            budget: self.budget,
        };
        let is_within = cascade.run(alloc, setting, &mut self.tuples)?;
        let lines = cascade.lines;
        if is_within {
            return Ok(Outcome { answer, lines });
        }
        self.tuples = before;
        Ok(Outcome {
            answer: other,
            lines,
        })
    }
}

/// What the text of clauses in an operand is: nothing, where there is no text.
pub fn spelled(alloc: Global, operand: &Term) -> Result<Option<Spelled>, Fault> {
    match operand {
        Term::Atom(name) => Ok(Some(clauses_of(alloc, name.bytes())?)),
        _ => Ok(None),
    }
}
