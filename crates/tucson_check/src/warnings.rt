//! Warnings: what is no fault, and is hardly meant.
use crate::clauses::{Clause, Walk, atom, parts_of};
use crate::phases::{Idle, why_idle};
use crate::report::append_clause;
use indexmap::IndexSet;
use std::alloc::Global;
use tc_config::{AgentConf, CentreConf, Config};
use tc_lists::NoMemory;
use tc_model::primitive_of;
use tc_places::{Span, arguments, inside, last_end, line_ends, part, sentence, split};
use tc_policy::Grant;
use tc_term::{MOST_NODES, Name, Term};

// What is kept while warnings are looked for.
#[derive(Drop)]
struct Watch<'a> {
    alloc: Global,
    text: &'a [u8],
    config: &'a Config,
    names: IndexSet<Name>,
    has_scripts: bool,
    /// How many agents were declared.
    agents: usize,
    /// How many reactions each centre has had.
    reactions: Vec<usize>,
    /// The grants whose want was told.
    told: IndexSet<Grant>,
}

// An item that is denied, by its place in its script, and the grant that it wants.
#[derive(Clone, Copy)]
struct Denied {
    place: usize,
    grant: Grant,
}

/// Appends a line for each warning of a text that spells a configuration.
pub fn append_warnings(
    alloc: Global,
    text: &[u8],
    config: &Config,
    into: &mut Vec<u8>,
) -> Result<(), NoMemory> {
    let mut watch = Watch::new(alloc, text, config)?;
    let mut walk = Walk::new(text);
    for _ in 0..text.len() {
        let Some(clause) = walk.next(alloc)? else {
            break;
        };
        watch.look(&clause, into)?;
    }
    Ok(())
}

impl<'a> Watch<'a> {
    fn new(alloc: Global, text: &'a [u8], config: &'a Config) -> Result<Watch<'a>, NoMemory> {
        let mut names = IndexSet::new(alloc);
        let mut has_scripts = false;
        for agent in config.agents() {
            names.insert(agent.name.copy(alloc)?)?;
            has_scripts = has_scripts || has_script(agent);
        }
        let mut reactions = Vec::new(alloc);
        for _ in config.centres() {
            reactions.push(0)?;
        }
        Ok(Watch {
            alloc,
            text,
            config,
            names,
            has_scripts,
            agents: 0,
            reactions,
            told: IndexSet::new(alloc),
        })
    }

    // Looks at a clause.
    fn look(&mut self, clause: &Clause, into: &mut Vec<u8>) -> Result<(), NoMemory> {
        match parts_of(clause.pattern.term()) {
            (b"agent", _) => self.agent(clause, into),
            (b"spec", [Term::Atom(centre), _]) => self.reaction(clause, centre.bytes(), into),
            (b"script", [Term::Atom(agent), list]) => self.script(clause, agent, list, into),
            _ => Ok(()),
        }
    }

    // The next agent is declared.
    fn agent(&mut self, clause: &Clause, into: &mut Vec<u8>) -> Result<(), NoMemory> {
        let place = self.agents;
        self.agents = place.saturating_add(1);
        let Some(agent) = self.config.agents().get(place) else {
            return Ok(());
        };
        if !self.has_scripts || has_script(agent) {
            return Ok(());
        }
        let words = sentence(
            self.alloc,
            b"the agent ~ has no script",
            &[agent.name.bytes()],
        )?;
        append_warning(clause, clause.first_line, &words, into)
    }

    // The next reaction of a centre is written.
    fn reaction(
        &mut self,
        clause: &Clause,
        centre: &[u8],
        into: &mut Vec<u8>,
    ) -> Result<(), NoMemory> {
        let Some(place) = centre_place(self.config, centre) else {
            return Ok(());
        };
        let number = match self.reactions.get_mut(place) {
            Some(count) => {
                let number = *count;
                *count = number.saturating_add(1);
                number
            }
            None => return Ok(()),
        };
        let Some(own) = self.config.centres().get(place) else {
            return Ok(());
        };
        let Some(reaction) = own.clauses.items().get(number) else {
            return Ok(());
        };
        let Some(why) = why_idle(self.alloc, reaction)? else {
            return Ok(());
        };
        let words = idle_words(self.alloc, why, reaction.op().name())?;
        append_warning(clause, clause.first_line, &words, into)
    }

    // A script is written.
    fn script(
        &mut self,
        clause: &Clause,
        agent: &Name,
        list: &Term,
        into: &mut Vec<u8>,
    ) -> Result<(), NoMemory> {
        let Some(place) = self.names.get_index_of(agent) else {
            return Ok(());
        };
        let Some(own) = self.config.agents().get(place) else {
            return Ok(());
        };
        let denied = self.denied(own.role, list)?;
        if denied.is_empty() {
            return Ok(());
        }
        self.tell_denied(clause, &denied, into)
    }

    // The items of a list that are denied to a role, of each kind the first that wasn't told.
    fn denied(&mut self, role: u32, list: &Term) -> Result<Vec<Denied>, NoMemory> {
        let mut denied = Vec::new(self.alloc);
        let mut left = list;
        for place in 0..MOST_NODES {
            let Some((item, tail)) = left.as_cell() else {
                break;
            };
            left = tail;
            let Some(grant) = wanted(self.config, role, item) else {
                continue;
            };
            let roles = self.config.roles();
            if roles.permits(role, grant.centre, grant.primitive).is_some() {
                continue;
            }
            if self.told.get_index_of(&grant).is_none() {
                self.told.insert(grant)?;
                denied.push(Denied { place, grant })?;
            }
        }
        Ok(denied)
    }

    // Appends a line for each item that is denied.
    fn tell_denied(
        &self,
        clause: &Clause,
        denied: &[Denied],
        into: &mut Vec<u8>,
    ) -> Result<(), NoMemory> {
        let spans = items_of(self.alloc, self.text, clause.span)?;
        let mut left = denied.iter();
        let mut next = left.next();
        let mut at = clause.span.from;
        let mut line = clause.first_line;
        for (place, span) in spans.iter().enumerate() {
            let layout = Span {
                from: at,
                to: span.from,
            };
            line = line.saturating_add(line_ends(part(self.text, layout)));
            at = span.from;
            if let Some(item) = next {
                if item.place == place {
                    let words = denied_words(self.alloc, self.config, item.grant)?;
                    append_warning(clause, line, &words, into)?;
                    next = left.next();
                }
            }
        }
        Ok(())
    }
}

// Whether an agent has a script.
fn has_script(agent: &AgentConf) -> bool {
    !agent.scripts.items().is_empty()
}

// The place of the centre of this name.
fn centre_place(config: &Config, name: &[u8]) -> Option<usize> {
    let mut place: usize = 0;
    for centre in config.centres() {
        if centre.name.bytes() == name {
            return Some(place);
        }
        place = place.saturating_add(1);
    }
    None
}

// The grant that an item of a script wants.
fn wanted(config: &Config, role: u32, item: &Term) -> Option<Grant> {
    let (b"?", [centre, op]) = parts_of(item) else {
        return None;
    };
    let place = centre_place(config, atom(centre)?)?;
    let (name, _) = parts_of(op);
    Some(Grant {
        role,
        centre: u32::try_from(place).ok()?,
        primitive: primitive_of(name)?,
    })
}

// Where the items of a script stand.
fn items_of(alloc: Global, text: &[u8], span: Span) -> Result<Vec<Span>, NoMemory> {
    let whole = Span {
        from: span.from,
        to: last_end(text, span),
    };
    let args = arguments(alloc, text, whole)?;
    match args.get(1) {
        Some(list) => split(alloc, text, inside(text, *list).unwrap_or(*list)),
        None => Ok(Vec::new(alloc)),
    }
}

// Says which grant is missing.
fn denied_words(alloc: Global, config: &Config, grant: Grant) -> Result<Vec<u8>, NoMemory> {
    let role = match config.role_names().get(grant.role as usize) {
        Some(name) => name.bytes(),
        None => &[],
    };
    let centre = match config.centres().get(grant.centre as usize) {
        Some(CentreConf { name, .. }) => name.bytes(),
        None => &[],
    };
    missing_words(alloc, role, centre, grant.primitive.name())
}

// Says that a role has no grant of a primitive at a centre.
fn missing_words<'n>(
    alloc: Global,
    role: &'n [u8],
    centre: &'n [u8],
    primitive: &'n [u8],
) -> Result<Vec<u8>, NoMemory> {
    sentence(
        alloc,
        b"~ is denied to the role ~ at ~: grant(@,@,@). isn't there",
        &[primitive, role, centre, role, centre, primitive],
    )
}

// Says why a reaction to an operation does nothing.
fn idle_words(alloc: Global, why: Idle, op: &[u8]) -> Result<Vec<u8>, NoMemory> {
    match why {
        Idle::Head => sentence(
            alloc,
            b"no event is ~, so nothing triggers this reaction",
            &[op],
        ),
        Idle::Guard => sentence(alloc, b"the guard holds of no event ~", &[op]),
        Idle::Goal(goal) => unmet_words(alloc, op, goal),
    }
}

// Says that no event meets a goal.
fn unmet_words<'n>(alloc: Global, op: &'n [u8], goal: &'n [u8]) -> Result<Vec<u8>, NoMemory> {
    sentence(
        alloc,
        b"no event ~ that comes here meets the goal ~, so this reaction never fires",
        &[op, goal],
    )
}

// Appends a warning of a clause, at one of its lines.
fn append_warning(
    clause: &Clause,
    line: usize,
    words: &[u8],
    into: &mut Vec<u8>,
) -> Result<(), NoMemory> {
    append_clause(clause.number, line, line, into)?;
    into.extend_from_slice(b"warning: ")?;
    into.extend_from_slice(words)?;
    into.push(b'\n')?;
    Ok(())
}
